//! What a parser has before it: the scanner, the options, and what is collected so far.
ghost use Rattle.std.specs.Prelude.{◌≡◌, true, false, is_some};
ghost use Rattle.std.specs.Str.{is_utf8};
ghost use Rattle.jsonc_text.specs.OptionsOf.{parse_options};
ghost use Rattle.jsonc_scan.specs.Scanner.{options_of};

use crate::collect::{CollectOptions, CommentCollectionStrategy};
use crate::comments::GapComments;
use crate::container::Container;
use crate::name::{ObjectPropName, StringLit, WordLit};
use crate::receiver::Receiver;
use crate::stops::Stopped;
use jsonc_scan::found::{TokenContent, TokenKind};
use jsonc_scan::scanner::Scanner;
use jsonc_text::common::Range;
use jsonc_text::errors::ParseError;
use jsonc_text::options::ParseOptions;
use jsonc_text::tokens::TokenAndRange;
use std::alloc::Allocator;

/// How many containers, or containers and properties, may be around a value.
pub const MAXIMUM_NESTING: usize = 512;

#[derive(Drop)]
pub struct Context<'a, A: Allocator> {
    pub scanner: Scanner<'a, A>,
    /// What the last token holds.
    pub content: TokenContent<'a, A>,
    pub alloc: A,
    pub options: ParseOptions,
    /// Whether strings are decoded. Where they are not, those with a backslash are passed, and no
    /// tokens are collected.
    pub decodes: bool,
    pub tokens: Option<Vec<TokenAndRange<'a, A>, A>>,
    pub comments_are_tokens: bool,
    pub comments: Option<GapComments<'a, A>>,
    /// What is told where reading has stopped.
    pub fault: ParseError,
    pub ghost same: { parse_options options ≡ options_of scanner },
    pub ghost utf8: { is_utf8 scanner.file_text.now ≡ true },
    pub ghost by_place: { decodes ≡ false → is_some tokens ≡ false },
}

impl<'a, A: Allocator + Copy> Context<'a, A> {
    ghost use Rattle.std.specs.Prelude.{◌≡◌, ◌≢◌, ◌<◌, ◌||◌, [], false, IfOk, IfSome, IfNone, OnOk, OnErr, IsTrue, Some};
    ghost use Rattle.jsonc_walk.specs.Refusals.{IsFaultHere, OutOfMemoryOr, WhereSome, NoTokenAfter, NothingFirst, NothingAfterComma, NothingNext, OnlyFirst, OnlyAfterComma, OnlyNext, NoColon, NoName, here, after};
    ghost use Rattle.jsonc_text.specs.Gaps.{Gap};
    ghost use Rattle.jsonc_text.specs.Places.{is_comment as is_a_comment};
    ghost use Rattle.jsonc_text.specs.Text.{Spans};
    ghost use Rattle.jsonc_walk.specs.Context.{text_in, options_in, token_end, token_range, tokens_asked, comments_asked, last, found_by, GivesAway, Keeps, Finds, LeadsToFirst, LeadsAfterComma, LeadsToNext, PassesColon, IsToken, IsNameHere, IsNoComment, ClosesNone, Comes, IsBracket, token_start};
    ghost use Rattle.jsonc_scan.specs.Scanner.{ComesNext};
    ghost use Rattle.jsonc_walk.specs.Name.{name_at};
    ghost use Rattle.jsonc_walk.specs.Faults.{IsWrongName, StopsAnyhow, StopsAtColon, StopsInside};
    ghost use Rattle.jsonc_walk.specs.Reached.{Due};
    ghost use Rattle.jsonc_walk.specs.Located.{Between, One};
    ghost use Rattle.jsonc_walk.specs.Handed.{source_of, Follows, IsBehind, ReachesBehind, StaysHeld};
    ghost use Rattle.jsonc_walk.specs.Written.{IsLentHere, IsWritten};
    ghost use Rattle.jsonc_walk.specs.Collected.{takes_comments, is_separate, collected, HasNoted, Collects};

    /// A parser at the start of a text.
    pub fn new(
        alloc: A,
        text: &'a str,
        collect: &CollectOptions,
        options: &ParseOptions,
    ) -> Context<'a, A>
        ensures text { text_in result ≡ text.now }
        ensures options { options_in result ≡ parse_options options.now }
        ensures start { token_end result ≡ 0 }
        ensures tokens { tokens_asked result ≡ collect.now.tokens }
        ensures comments { result.comments_are_tokens ≡ takes_comments collect.now.comments }
        ensures collected { collected result ≡ [] }
        ensures apart { comments_asked result ≡ is_separate collect.now.comments }
        ensures noted { HasNoted [] result }
    {
        let tokens = if collect.tokens {
            Some(Vec::new(alloc))
        } else {
            None
        };
        let comments = match collect.comments {
            CommentCollectionStrategy::Separate => Some(GapComments::new(alloc)),
            _ => None,
        };
        Context {
            scanner: Scanner::with_options(alloc, text, options.copied()),
            content: TokenContent::new(),
            alloc,
            options: options.copied(),
            decodes: true,
            tokens,
            comments_are_tokens: collect.comments == CommentCollectionStrategy::AsTokens,
            comments,
            fault: ParseError::out_of_memory(),
        }
    }

    /// A parser at the start of a text that collects nothing and decodes no strings. It asks for no
    /// memory.
    pub fn of_places(alloc: A, text: &'a str, options: &ParseOptions) -> Context<'a, A>
        ensures text { text_in result ≡ text.now }
        ensures options { options_in result ≡ parse_options options.now }
        ensures start { token_end result ≡ 0 }
        ensures tokens { tokens_asked result ≡ false }
        ensures comments { comments_asked result ≡ false }
        ensures passes { result.decodes ≡ false }
    {
        Context {
            scanner: Scanner::with_options(alloc, text, options.copied()),
            content: TokenContent::new(),
            alloc,
            options: options.copied(),
            decodes: false,
            tokens: None,
            comments_are_tokens: false,
            comments: None,
            fault: ParseError::out_of_memory(),
        }
    }

    /// The range of the last token.
    pub(crate) fn range(&self) -> Range
        ensures { result ≡ token_range self.now }
    {
        Range::new(self.scanner.token_start(), self.scanner.token_end())
    }

    // Tells a receiver of the gap after the last token, and passes as much of it as the receiver did, where nothing
    // is collected.
    #[inline(always)]
    fn pass_gap<R: Receiver<String<A>>>(&mut self, to: &mut R) -> Result<(), R::Error>
        requires source { R.source to.old ≡ source_of self.old }
        requires behind { IsBehind (source_of self.old) (R.reached to.old) (token_end self.old) }
        ensures kept { Keeps self.old self.new }
        ensures gap { OnOk result (Between (text_in self.old) (Gap (options_in self.old)) (token_end self.old) (token_end self.new)) }
        ensures collects { OnOk result (Collects self.old self.new) }
        ensures source { OnOk result (R.source to.new ≡ R.source to.old) }
        ensures reached { OnOk result (ReachesBehind (source_of self.old) (R.reached to.new) (token_end self.old)) }
        ensures passes { OnOk result (R.passes to.old to.new) }
        ensures held { OnOk result (StaysHeld R.names R.holds_elements R.holds_properties to.old to.new) }
    {
        let from = self.scanner.token_end();
        let place = to.pass_gap(from)?;
        if self.collects() {
            return Ok(());
        }
        self.scanner.pass_to(place);
        Ok(())
    }

    // Passes a gap of which the receiver knows and a token that is read at once, and answers its kind. Else nothing
    // changes.
    #[inline(always)]
    fn pass_plain(&mut self) -> Option<TokenKind>
        ensures kept { IfSome result (λ _. Keeps self.old self.new) }
        ensures found { IfSome result (λ k. Finds (Gap (options_in self.old)) self.old self.new (Some (last self.new k))) }
        ensures lexeme { IfSome result (λ k. is_a_comment (last self.new k) ≡ false) }
        ensures lent { IfSome result (λ k. IsLentHere self.new (Some k)) }
        ensures collects { IfSome result (λ _. Collects self.old self.new) }
        ensures none { IfNone result (GivesAway self.old self.new) }
    {
        if self.collects() {
            return None;
        }
        self.scanner.step_plain(&mut self.content, &self.decodes)
    }

    // Passes a gap of which the receiver knows, and answers the kind of the token after it, or none at the end of the text.
    #[inline(never)]
    fn scan_on(&mut self) -> Result<Option<TokenKind>, Stopped>
        ensures kept { OnOk result (Keeps self.old self.new) }
        ensures found { IfOk (found_by self.new result) (Finds (Gap (options_in self.old)) self.old self.new) }
        ensures lexeme { IfOk (found_by self.new result) IsNoComment }
        ensures lent { IfOk result (IsLentHere self.new) }
        ensures collects { OnOk result (Collects self.old self.new) }
        ensures refused { OnErr result (OutOfMemoryOr (NoTokenAfter self.old) self.new.fault) }
        ensures fault { OnErr result (IsFaultHere self.old ⊥ self.new.fault) }
        ensures error { OnErr result (StopsAnyhow self.old self.new.fault) }
    {
        loop {
            let found = match self.scanner.step(&mut self.content, self.decodes) {
                Ok(found) => found,
                Err(fault) => return Err(self.stop(fault)),
            };
            let Some(token) = found else {
                return Ok(None);
            };
            if !self.is_comment(token) {
                if !self.collects() {
                    return Ok(Some(token));
                }
                let Ok(()) = self.collect(token) else {
                    return Err(self.stop_for_memory());
                };
                let Ok(()) = self.end_gap() else {
                    return Err(self.stop_for_memory());
                };
                return Ok(Some(token));
            }
            self.pass_comment(token)?;
        }
    }

    /// Passes a gap, and answers the kind of the token after it, or none at the end of the text. The receiver is told
    /// of the gap, and has come to the token.
    #[inline(always)]
    pub fn scan<R: Receiver<String<A>>>(&mut self, to: &mut R) -> Result<Option<TokenKind>, Stopped>
        requires source { R.source to.old ≡ source_of self.old }
        requires behind { IsBehind (source_of self.old) (R.reached to.old) (token_end self.old) }
        ensures kept { OnOk result (Keeps self.old self.new) }
        ensures found { IfOk (found_by self.new result) (Finds (Gap (options_in self.old)) self.old self.new) }
        ensures lexeme { IfOk (found_by self.new result) IsNoComment }
        ensures lent { IfOk result (IsLentHere self.new) }
        ensures collects { OnOk result (Collects self.old self.new) }
        ensures refused { OnErr result (OutOfMemoryOr (NoTokenAfter self.old) self.new.fault) }
        ensures fault { OnErr result (IsFaultHere self.old R.Error self.new.fault) }
        ensures error { OnErr result (StopsAnyhow self.old self.new.fault) }
        ensures source { OnOk result (R.source to.new ≡ R.source to.old) }
        ensures follows { OnOk result (Follows (source_of self.old) (R.reached to.new) (token_start self.new)) }
        ensures passes { OnOk result (R.passes to.old to.new) }
        ensures held { OnOk result (StaysHeld R.names R.holds_elements R.holds_properties to.old to.new) }
    {
        let Ok(()) = self.pass_gap(to) else {
            return Err(self.stop_for_memory());
        };
        match self.pass_plain() {
            Some(token) => Ok(Some(token)),
            None => self.scan_on(),
        }
    }

    /// Whether an ASCII character comes next, with no gap before it, and nothing is collected.
    #[inline(always)]
    fn has_next(&self, character: u8) -> bool
        requires { character < 128 }
        ensures next { IsTrue result → ComesNext self.now.scanner character }
        ensures tokens { IsTrue result → tokens_asked self.now ≡ false }
        ensures comments { IsTrue result → comments_asked self.now ≡ false }
        ensures other { result ≡ false → ComesNext self.now.scanner character
            → IsTrue (tokens_asked self.now || comments_asked self.now) }
    {
        if self.collects() {
            return false;
        }
        self.scanner.has_next(character)
    }

    /// Passes the comma that comes next, where nothing is collected.
    #[inline(always)]
    fn pass_next_comma(&mut self)
        requires next { ComesNext self.old.scanner 0x2C }
        requires tokens { tokens_asked self.old ≡ false }
        requires comments { comments_asked self.old ≡ false }
        ensures next { Between (text_in self.old) (One 0x2C) (token_end self.old) (token_end self.new) }
        ensures kept { Keeps self.old self.new }
        ensures found { Finds (Gap (options_in self.old)) self.old self.new (Some (last self.new TokenKind.Comma)) }
        ensures collects { Collects self.old self.new }
    {
        self.scanner.pass_mark(b',');
    }

    /// Passes the colon that comes next, where nothing is collected.
    #[inline(always)]
    fn pass_next_colon(&mut self)
        requires next { ComesNext self.old.scanner 0x3A }
        requires tokens { tokens_asked self.old ≡ false }
        requires comments { comments_asked self.old ≡ false }
        ensures next { Between (text_in self.old) (One 0x3A) (token_end self.old) (token_end self.new) }
        ensures kept { Keeps self.old self.new }
        ensures found { PassesColon self.old self.new }
        ensures collects { Collects self.old self.new }
    {
        self.scanner.pass_mark(b':');
    }

    /// Passes what stands after an opening bracket: answers the kind of the token that the first element or
    /// property begins with, or none past the closing bracket. Where the text ends in the
    /// container, the fault is told from the place where that began, if one is given.
    #[inline(always)]
    pub fn first_item<R: Receiver<String<A>>>(
        &mut self,
        to: &mut R,
        container: Container,
        start: Option<usize>,
    ) -> Result<Option<TokenKind>, Stopped>
        requires start { IfSome start (λ i. Spans (text_in self.old) i (token_end self.old)) }
        requires source { R.source to.old ≡ source_of self.old }
        requires reached { R.reached to.old (token_end self.old) }
        ensures kept { OnOk result (Keeps self.old self.new) }
        ensures found { IfOk (found_by self.new result) (LeadsToFirst container self.old self.new) }
        ensures only { IfOk (found_by self.new result) (WhereSome (OnlyFirst container self.old self.new)) }
        ensures lent { IfOk result (IsLentHere self.new) }
        ensures collects { OnOk result (Collects self.old self.new) }
        ensures refused { OnErr result (OutOfMemoryOr (NothingFirst container self.old) self.new.fault) }
        ensures fault { OnErr result (IsFaultHere self.old R.Error self.new.fault) }
        ensures error { OnErr result (StopsInside container start (Due.first container) self.old self.new.fault) }
        ensures stands { IfOk (found_by self.new result) (λ f. IfSome f (ClosesNone container)) }
        ensures source { OnOk result (R.source to.new ≡ R.source to.old) }
        ensures follows { OnOk result (Follows (source_of self.old) (R.reached to.new) (token_start self.new)) }
        ensures held { OnOk result (StaysHeld R.names R.holds_elements R.holds_properties to.old to.new) }
    {
        let Some(first) = self.scan(to)? else {
            return Err(self.stop_in(container, start));
        };
        if self.closes(container, first) {
            return Ok(None);
        }
        Ok(Some(first))
    }

    /// Passes what stands after a comma, the last token, as `first_item` does.
    #[inline(always)]
    fn item_after_comma<R: Receiver<String<A>>>(
        &mut self,
        to: &mut R,
        container: Container,
        start: Option<usize>,
    ) -> Result<Option<TokenKind>, Stopped>
        requires start { IfSome start (λ i. Spans (text_in self.old) i (token_end self.old)) }
        requires source { R.source to.old ≡ source_of self.old }
        requires behind { IsBehind (source_of self.old) (R.reached to.old) (token_end self.old) }
        ensures kept { OnOk result (Keeps self.old self.new) }
        ensures found { IfOk (found_by self.new result) (LeadsAfterComma container self.old self.new) }
        ensures only { IfOk (found_by self.new result) (WhereSome (OnlyAfterComma container self.old self.new)) }
        ensures lent { IfOk result (IsLentHere self.new) }
        ensures collects { OnOk result (Collects self.old self.new) }
        ensures refused { OnErr result (OutOfMemoryOr (NothingAfterComma container self.old) self.new.fault) }
        ensures fault { OnErr result (IsFaultHere self.old R.Error self.new.fault) }
        ensures error { OnErr result (IsBracket 0x2C self.old
            → StopsInside container start (Due.further container (here self.old)) self.old self.new.fault) }
        ensures stands { IfOk (found_by self.new result) (λ f. IfSome f (ClosesNone container)) }
        ensures source { OnOk result (R.source to.new ≡ R.source to.old) }
        ensures follows { OnOk result (Follows (source_of self.old) (R.reached to.new) (token_start self.new)) }
        ensures held { OnOk result (StaysHeld R.names R.holds_elements R.holds_properties to.old to.new) }
    {
        let comma = self.range();
        let Some(token) = self.scan(to)? else {
            return Err(self.stop_in(container, start));
        };
        if !self.closes(container, token) {
            return Ok(Some(token));
        }
        if !self.options.allow_trailing_commas {
            return Err(self.stop_at_comma(comma));
        }
        Ok(None)
    }

    /// Passes what stands after an element or a property: answers the kind of the token that the
    /// next one begins with, or none past the closing bracket.
    #[inline(always)]
    pub fn next_item<R: Receiver<String<A>>>(
        &mut self,
        to: &mut R,
        container: Container,
        start: Option<usize>,
    ) -> Result<Option<TokenKind>, Stopped>
        requires start { IfSome start (λ i. Spans (text_in self.old) i (token_end self.old)) }
        requires source { R.source to.old ≡ source_of self.old }
        requires reached { R.reached to.old (token_end self.old) }
        ensures kept { OnOk result (Keeps self.old self.new) }
        ensures found { IfOk (found_by self.new result) (LeadsToNext container self.old self.new) }
        ensures only { IfOk (found_by self.new result) (WhereSome (OnlyNext container self.old self.new)) }
        ensures lent { IfOk result (IsLentHere self.new) }
        ensures collects { OnOk result (Collects self.old self.new) }
        ensures refused { OnErr result (OutOfMemoryOr (NothingNext container self.old) self.new.fault) }
        ensures fault { OnErr result (IsFaultHere self.old R.Error self.new.fault) }
        ensures error { OnErr result (StopsInside container start (Due.comma container (after self.old)) self.old self.new.fault) }
        ensures stands { IfOk (found_by self.new result) (λ f. IfSome f (ClosesNone container)) }
        ensures comes { IfOk (found_by self.new result) (λ f. IfSome f (Comes self.old self.new)) }
        ensures source { OnOk result (R.source to.new ≡ R.source to.old) }
        ensures follows { OnOk result (Follows (source_of self.old) (R.reached to.new) (token_start self.new)) }
        ensures held { OnOk result (StaysHeld R.names R.holds_elements R.holds_properties to.old to.new) }
    {
        if self.has_next(b',') {
            self.pass_next_comma();
            return self.item_after_comma(to, container, start);
        }
        let end = self.scanner.token_end();
        let Some(token) = self.scan(to)? else {
            return Err(self.stop_in(container, start));
        };
        if self.closes(container, token) {
            return Ok(None);
        }
        if self.is_comma(token) {
            return self.item_after_comma(to, container, start);
        }
        if !self.options.allow_missing_commas {
            return Err(self.stop_for_comma(container, token, end));
        }
        Ok(Some(token))
    }

    /// The name that the last token is, no string whose place alone is known, where the options allow it. A
    /// string is given away.
    #[inline(always)]
    pub(crate) fn name(&mut self, token: TokenKind) -> Result<ObjectPropName<'a, A>, Stopped>
        requires token { IsToken self.old (last self.old token) }
        requires plain { token ≢ TokenKind.Plain }
        requires kept { token ≢ TokenKind.Passed }
        ensures gives { OnOk result (GivesAway self.old self.new) }
        ensures name { IfOk result (λ n. IsNameHere self.old (name_at n)) }
        ensures range { IfOk result (λ n. (name_at n).range ≡ token_range self.old) }
        ensures written { IfOk result (λ n. IsLentHere self.old (Some token)
            → IsWritten (options_in self.old) (text_in self.old) n) }
        ensures refused { OnErr result (NoName self.old) }
        ensures fault { OnErr result (IsFaultHere self.old ⊥ self.new.fault) }
        ensures error { OnErr result (IsWrongName self.old (last self.old token) self.new.fault) }
    {
        let range = self.range();
        match token {
            TokenKind::String => {
                let value = self.content.take_string();
                Ok(ObjectPropName::String(StringLit { range, value }))
            }
            token => {
                let Some(value) = self.loose_name(token) else {
                    return Err(self.stop_without_name());
                };
                if !self.options.allow_loose_object_property_names {
                    return Err(self.stop_at_loose_name());
                }
                Ok(ObjectPropName::Word(WordLit { range, value }))
            }
        }
    }

    /// Passes a gap and the colon after it.
    #[inline(always)]
    pub fn pass_colon<R: Receiver<String<A>>>(&mut self, to: &mut R) -> Result<(), Stopped>
        requires source { R.source to.old ≡ source_of self.old }
        requires reached { R.reached to.old (token_end self.old) }
        ensures kept { OnOk result (Keeps self.old self.new) }
        ensures found { OnOk result (PassesColon self.old self.new) }
        ensures collects { OnOk result (Collects self.old self.new) }
        ensures refused { OnErr result (OutOfMemoryOr (NoColon self.old) self.new.fault) }
        ensures fault { OnErr result (IsFaultHere self.old R.Error self.new.fault) }
        ensures error { OnErr result (StopsAtColon self.old self.new.fault) }
        ensures source { OnOk result (R.source to.new ≡ R.source to.old) }
        ensures behind { OnOk result (IsBehind (source_of self.old) (R.reached to.new) (token_end self.new)) }
        ensures held { OnOk result (StaysHeld R.names R.holds_elements R.holds_properties to.old to.new) }
    {
        if self.has_next(b':') {
            self.pass_next_colon();
            return Ok(());
        }
        let Some(token) = self.scan(to)? else {
            return Err(self.stop_without_colon());
        };
        if !self.is_colon(token) {
            return Err(self.stop_without_colon());
        }
        Ok(())
    }
}
