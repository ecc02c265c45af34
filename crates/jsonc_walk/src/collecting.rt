//! What is collected as a text is read: its tokens and its comments.
ghost use Rattle.std.specs.Prelude.{◌≡◌, ◌≢◌, ◌||◌, false, is_some, IfOk, IfErr, OnOk, OnErr, IsTrue, Some};
ghost use Rattle.jsonc_walk.specs.Refusals.{IsFaultHere, RefusesComment};
ghost use Rattle.jsonc_text.specs.Faults.{IsFault, kind_of};
ghost use Rattle.jsonc_walk.specs.Context.{text_in, options_in, tokens_asked, comments_asked, last};
ghost use Rattle.jsonc_walk.specs.Written.{IsLentHere};
ghost use Rattle.jsonc_walk.specs.Collected.{CollectsLast, CollectsComment, OmitsComment, StaysLent, NotesComment, NotesLexeme, ShowsNoted};

use crate::collect::CommentMap;
use crate::comments::comment_of;
use crate::context::Context;
use crate::room::make_room;
use crate::stops::Stopped;
use jsonc_scan::found::TokenKind;
use jsonc_text::errors::{ParseError, ParseErrorKind};
use jsonc_text::tokens::TokenAndRange;
use std::alloc::{AllocError, Allocator};

impl<'a, A: Allocator + Copy> Context<'a, A> {
    /// Whether anything is collected.
    #[inline(always)]
    pub(crate) fn collects(&self) -> bool
        ensures value { result ≡ tokens_asked self.now || comments_asked self.now }
        ensures tokens { result ≡ false → tokens_asked self.now ≡ false }
        ensures comments { result ≡ false → comments_asked self.now ≡ false }
    {
        if self.tokens.is_some() {
            return true;
        }
        self.comments.is_some()
    }

    /// Collects the last token, where tokens are asked for.
    #[inline(always)]
    pub(crate) fn collect(&mut self, token: TokenKind) -> Result<(), AllocError>
        requires plain { token ≢ TokenKind.Plain }
        requires passed { IsTrue (tokens_asked self.old) → token ≢ TokenKind.Passed }
        ensures scanner { self.new.scanner ≡ self.old.scanner }
        ensures content { self.new.content ≡ self.old.content }
        ensures tokens { tokens_asked self.new ≡ tokens_asked self.old }
        ensures comments { self.new.comments_are_tokens ≡ self.old.comments_are_tokens }
        ensures apart { self.new.comments ≡ self.old.comments }
        ensures decodes { self.new.decodes ≡ self.old.decodes }
        ensures memory { OnErr result (IsTrue self.old.decodes) }
        ensures collected { OnOk result (CollectsLast self.old self.new (last self.old token)) }
        ensures lent { OnOk result (IsLentHere self.old (Some token) → StaysLent self.old self.new) }
    {
        let range = self.range();
        let len = self.scanner.file_text().len();
        let Some(tokens) = &mut self.tokens else {
            return Ok(());
        };
        let Ok(token) = self.content.token(token) else {
            return Err(AllocError);
        };
        let next = TokenAndRange { range, token };
        let Ok(()) = make_room(tokens, &next, len) else {
            return Err(AllocError);
        };
        let Ok(()) = tokens.push(next) else {
            return Err(AllocError);
        };
        Ok(())
    }

    /// Notes a comment, the last token, where comments are asked for apart.
    pub(crate) fn note(&mut self, comment: TokenKind) -> Result<(), AllocError>
        ensures scanner { self.new.scanner ≡ self.old.scanner }
        ensures content { self.new.content ≡ self.old.content }
        ensures tokens { self.new.tokens ≡ self.old.tokens }
        ensures comments { self.new.comments_are_tokens ≡ self.old.comments_are_tokens }
        ensures apart { comments_asked self.new ≡ comments_asked self.old }
        ensures noted { OnOk result (NotesComment self.old self.new (last self.old comment)) }
        ensures decodes { self.new.decodes ≡ self.old.decodes }
        ensures memory { OnErr result (IsTrue (comments_asked self.old)) }
    {
        let Some(comment) = comment_of(comment, &self.content, self.range()) else {
            return Ok(());
        };
        let Some(comments) = &mut self.comments else {
            return Ok(());
        };
        let Ok(()) = comments.pass_comment(comment) else {
            return Err(AllocError);
        };
        Ok(())
    }

    /// Notes that the gap before a lexeme, the last token, has ended, where comments are asked for
    /// apart.
    #[inline(always)]
    pub(crate) fn end_gap(&mut self) -> Result<(), AllocError>
        ensures scanner { self.new.scanner ≡ self.old.scanner }
        ensures content { self.new.content ≡ self.old.content }
        ensures tokens { self.new.tokens ≡ self.old.tokens }
        ensures comments { self.new.comments_are_tokens ≡ self.old.comments_are_tokens }
        ensures apart { comments_asked self.new ≡ comments_asked self.old }
        ensures noted { OnOk result (NotesLexeme self.old self.new) }
        ensures decodes { self.new.decodes ≡ self.old.decodes }
        ensures memory { OnErr result (IsTrue (comments_asked self.old)) }
    {
        let range = self.range();
        let Some(comments) = &mut self.comments else {
            return Ok(());
        };
        let Ok(()) = comments.pass_lexeme(range) else {
            return Err(AllocError);
        };
        Ok(())
    }

    /// Takes the comments of the whole text, where they are asked for apart, at its end.
    pub fn take_comments(&mut self) -> Result<Option<CommentMap<'a, A>>, ParseError>
        ensures tokens { self.new.tokens ≡ self.old.tokens }
        ensures apart { IfOk result (λ m. is_some m ≡ comments_asked self.old) }
        ensures shown { IfOk result (ShowsNoted self.old) }
        ensures memory { IfErr result (λ e. kind_of e ≡ ParseErrorKind.OutOfMemory) }
        ensures fault { IfErr result (IsFault (text_in self.old)) }
    {
        let Some(comments) = self.comments.take() else {
            return Ok(None);
        };
        let Ok(found) = comments.finish(self.scanner.token_end()) else {
            return Err(self.out_of_memory());
        };
        Ok(Some(found))
    }

    /// Passes a comment, the last token, where comments are allowed.
    #[cold]
    pub(crate) fn pass_comment(&mut self, comment: TokenKind) -> Result<(), Stopped>
        requires plain { comment ≢ TokenKind.Plain }
        requires passed { comment ≢ TokenKind.Passed }
        ensures scanner { OnOk result (self.new.scanner ≡ self.old.scanner) }
        ensures content { OnOk result (self.new.content ≡ self.old.content) }
        ensures tokens { OnOk result (tokens_asked self.new ≡ tokens_asked self.old) }
        ensures comments { OnOk result (self.new.comments_are_tokens ≡ self.old.comments_are_tokens) }
        ensures apart { OnOk result (comments_asked self.new ≡ comments_asked self.old) }
        ensures decodes { OnOk result (self.new.decodes ≡ self.old.decodes) }
        ensures noted { OnOk result (NotesComment self.old self.new (last self.old comment)) }
        ensures collected { OnOk result (CollectsComment self.old self.new (last self.old comment)) }
        ensures omitted { OnOk result (OmitsComment self.old self.new) }
        ensures lent { OnOk result (IsLentHere self.old (Some comment) → StaysLent self.old self.new) }
        ensures allowed { OnOk result (IsTrue (options_in self.old).comments) }
        ensures refused { OnErr result (RefusesComment self.old self.new.fault) }
        ensures fault { OnErr result (IsFaultHere self.old ⊥ self.new.fault) }
    {
        if !self.options.allow_comments {
            return Err(self.stop_at_comment());
        }
        let Ok(()) = self.note(comment) else {
            return Err(self.stop_for_memory());
        };
        if self.comments_are_tokens {
            let Ok(()) = self.collect(comment) else {
                return Err(self.stop_for_memory());
            };
        }
        Ok(())
    }
}
