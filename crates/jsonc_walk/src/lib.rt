//! The walk over a text, whatever is made of it.
//!
//! [`walk::read_document`] reads the text once, and hands what it reads to a [`receiver::Receiver`], which makes a
//! syntax tree of it, a value, a document or nothing. On the way the tokens and comments are collected that
//! [`collect::CollectOptions`] asks for.
#![tactic(auto)]

pub mod collect;
mod collecting;
pub mod comment;
pub mod comments;
pub mod container;
pub mod context;
pub mod laws;
pub mod name;
mod names;
pub mod passed;
pub mod receiver;
pub mod room;
pub mod stack;
pub mod stops;
pub mod walk;
