//! What a parse is asked to collect.
ghost use Rattle.std.specs.Prelude.{◌≡◌, false};
ghost use Rattle.jsonc_walk.specs.declared.collect.CommentCollectionStrategy.TheVariants.{Off};

use crate::comment::Comment;
use std::collections::HashMap;
use std::default::Default;
use std::hash::{BuildHasherDefault, FoldHasher};
use std::rc::Rc;

/// The comments of a text, under the end of the token before them and the start of the token after.
///
/// The end before the first token is 0, the start after the last one the text's length.
pub type CommentMap<'a, A> = HashMap<
    usize,
    Rc<Vec<Comment<'a>, A>, A>,
    BuildHasherDefault<FoldHasher>,
    A,
>;

/// Where comments are collected. By default nowhere.
#[derive(Clone, Copy, Debug, PartialEq, Eq, Drop)]
pub enum CommentCollectionStrategy {
    /// They are passed over.
    Off,
    /// They stand in a map of their own.
    Separate,
    /// They stand among the tokens, where tokens are collected.
    AsTokens,
}

impl Default for CommentCollectionStrategy {
    fn default() -> Self
        ensures { result ≡ Off }
    {
        CommentCollectionStrategy::Off
    }
}

/// What is collected besides the value. By default nothing is.
#[derive(Clone, Copy, Debug, Drop)]
pub struct CollectOptions {
    /// Where comments are collected.
    pub comments: CommentCollectionStrategy,
    /// Whether the tokens are collected.
    pub tokens: bool,
}

impl Default for CollectOptions {
    fn default() -> Self
        ensures { result ≡ record { comments = Off; tokens = false } }
    {
        CollectOptions {
            comments: CommentCollectionStrategy::Off,
            tokens: false,
        }
    }
}
