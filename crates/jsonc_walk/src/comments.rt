//! The comments of a text, put into a map as a parser passes them.
ghost use Rattle.std.specs.Prelude.{◌≡◌, IfSome, IfNone, OnOk, false};
ghost use Rattle.jsonc_text.specs.Places.{is_comment};
ghost use Rattle.jsonc_text.specs.Tokens.{scanned_of};
ghost use Rattle.jsonc_scan.specs.Found.{token_held};
ghost use Rattle.jsonc_walk.specs.Comments.{comment_at, comments_in, placed_from, PutsUnder};

use crate::collect::CommentMap;
use crate::comment::{Comment, CommentBlock, CommentLine};
use jsonc_scan::found::{TokenContent, TokenKind};
use jsonc_text::common::Range;
use std::alloc::{AllocError, Allocator};
use std::collections::HashMap;
use std::mem::replace;
use std::rc::Rc;

/// The comment that a token of a kind is, with its range.
pub(crate) fn comment_of<'a, A: Allocator>(
    token: TokenKind,
    content: &TokenContent<'a, A>,
    range: Range,
) -> Option<Comment<'a>>
    ensures some { IfSome result (λ c. comment_at c ≡ placed_from (scanned_of (token_held token content.now)) range) }
    ensures none { IfNone result (is_comment (scanned_of (token_held token content.now)) ≡ false) }
{
    let text = content.text;
    match token {
        TokenKind::CommentLine => Some(Comment::Line(CommentLine { range, text })),
        TokenKind::CommentBlock => Some(Comment::Block(CommentBlock { range, text })),
        _ => None,
    }
}

/// Puts comments under two places.
fn share<'a, A: Allocator + Copy>(
    alloc: A,
    places: &mut CommentMap<'a, A>,
    start: usize,
    end: usize,
    comments: Vec<Comment<'a>, A>,
) -> Result<(), AllocError>
    ensures { OnOk result (PutsUnder places.old places.new start end (comments_in comments.entry)) }
{
    let shared = Rc::new(alloc, comments)?;
    places.insert(start, shared.clone()?)?;
    places.insert(end, shared)?;
    Ok(())
}

/// The comments of the gaps that a parser has passed, each gap's under both of its ends, and those
/// of the gap that it is in.
#[derive(Drop)]
pub struct GapComments<'a, A: Allocator> {
    pub alloc: A,
    pub places: CommentMap<'a, A>,
    /// Where the gap begins that the parser is in.
    pub start: usize,
    /// The comments of that gap so far.
    pub held: Vec<Comment<'a>, A>,
}

impl<'a, A: Allocator + Copy> GapComments<'a, A> {
    ghost use Rattle.std.specs.Prelude.{[], IfOk, OnOk};
    ghost use Rattle.jsonc_walk.specs.Comments.{comment_at, HasPassed, PassesOne, PassesLexeme, PutsHeld, ShowsPassed};

    /// At the start of a text.
    pub fn new(alloc: A) -> GapComments<'a, A>
        ensures { HasPassed [] result }
    {
        GapComments {
            alloc,
            places: HashMap::new(alloc),
            start: 0,
            held: Vec::new(alloc),
        }
    }

    /// Passes a comment.
    pub fn pass_comment(&mut self, comment: Comment<'a>) -> Result<(), AllocError>
        ensures { OnOk result (PassesOne self.old self.new (comment_at comment.entry)) }
    {
        self.held.push(comment)?;
        Ok(())
    }

    /// Puts the comments of a gap that ends at a place under its ends.
    fn end_gap(&mut self, end: usize) -> Result<(), AllocError>
        ensures { OnOk result (PutsHeld self.old self.new end) }
    {
        if self.held.is_empty() {
            return Ok(());
        }
        let comments = replace(&mut self.held, Vec::new(self.alloc));
        share(self.alloc, &mut self.places, self.start, end, comments)
    }

    /// Passes a lexeme in a range.
    #[cold]
    #[inline(never)]
    pub fn pass_lexeme(&mut self, range: Range) -> Result<(), AllocError>
        ensures { OnOk result (PassesLexeme self.old self.new range) }
    {
        self.end_gap(range.start)?;
        self.start = range.end;
        Ok(())
    }

    /// Passes the end of the text, and answers the comments of its gaps.
    pub fn finish(self, end: usize) -> Result<CommentMap<'a, A>, AllocError>
        ensures { IfOk result (ShowsPassed self.entry end) }
    {
        let mut passed = self;
        passed.end_gap(end)?;
        Ok(passed.places)
    }
}
