//! The tests, and what they share.

mod changes;
mod checked;
mod commas;
mod deep_settings;
mod lists;
mod nested;
mod nodes;
mod paths;
mod pieces;
mod puts;
mod reading;
mod rows;
mod settings;
mod sorts;
mod texts;
