//! Where reading stops, and with which fault.
ghost use Rattle.std.specs.Prelude.{◌≡◌, ◌≢◌, false, IfSome, IsTrue};
ghost use Rattle.jsonc_walk.specs.Refusals.{IsFaultHere, IsFaultOf, IsOpen};
ghost use Rattle.jsonc_text.specs.Faults.{IsFault, IsOutOfMemory, range_of, kind_of};
ghost use Rattle.jsonc_text.specs.Text.{Spans};
ghost use Rattle.jsonc_walk.specs.Context.{text_in, token_end, token_range, last, AtEnd};
ghost use Rattle.jsonc_walk.specs.Containers.{misplaced_kind, begins};
ghost use Rattle.jsonc_walk.specs.Scanned.{unexpected_kind};

use crate::container::Container;
use crate::context::Context;
use jsonc_scan::found::TokenKind;
use jsonc_text::common::Range;
use jsonc_text::errors::{ParseError, ParseErrorKind};
use std::alloc::Allocator;
use std::mem::replace;

/// Reading has stopped, with the fault that the context keeps. So what is read on the way to there has no room for one.
#[derive(Clone, Copy)]
pub struct Stopped;

impl<'a, A: Allocator + Copy> Context<'a, A> {
    /// Reading stops with this fault.
    #[cold]
    pub(crate) fn stop(&mut self, fault: ParseError) -> Stopped
        ensures { self.new.fault ≡ fault }
    {
        self.fault = fault;
        Stopped
    }

    /// The fault that reading stopped with.
    pub(crate) fn taken_fault(&mut self) -> ParseError
        ensures { result ≡ self.old.fault }
    {
        replace(&mut self.fault, ParseError::out_of_memory())
    }

    /// Reading stops with a fault told of these bytes.
    #[cold]
    pub(crate) fn stop_at(&mut self, range: Range, kind: ParseErrorKind) -> Stopped
        requires range { Spans (text_in self.old) range.start range.end }
        requires kind { kind ≢ ParseErrorKind.OutOfMemory }
        ensures fault { IsFaultHere self.old ⊥ self.new.fault }
        ensures range { range_of self.new.fault ≡ range }
        ensures kind { kind_of self.new.fault ≡ kind }
    {
        let fault = ParseError::new(range, kind, self.scanner.file_text());
        self.stop(fault)
    }

    /// The same, told of the last token.
    #[cold]
    pub(crate) fn stop_here(&mut self, kind: ParseErrorKind) -> Stopped
        requires { kind ≢ ParseErrorKind.OutOfMemory }
        ensures fault { IsFaultHere self.old ⊥ self.new.fault }
        ensures range { range_of self.new.fault ≡ token_range self.old }
        ensures kind { kind_of self.new.fault ≡ kind }
    {
        let here = self.range();
        self.stop_at(here, kind)
    }

    /// Reading stops at the last token, where a name must stand.
    #[cold]
    pub(crate) fn stop_without_name(&mut self) -> Stopped
        ensures fault { IsFaultHere self.old ⊥ self.new.fault }
        ensures range { range_of self.new.fault ≡ token_range self.old }
        ensures kind { kind_of self.new.fault ≡ ParseErrorKind.UnexpectedTokenInObject }
    {
        self.stop_here(ParseErrorKind::UnexpectedTokenInObject)
    }

    /// Reading stops at the last token, a name without quotes, where none is allowed.
    #[cold]
    pub(crate) fn stop_at_loose_name(&mut self) -> Stopped
        ensures fault { IsFaultHere self.old ⊥ self.new.fault }
        ensures range { range_of self.new.fault ≡ token_range self.old }
        ensures kind { kind_of self.new.fault ≡ ParseErrorKind.ExpectedStringObjectProperty }
    {
        self.stop_here(ParseErrorKind::ExpectedStringObjectProperty)
    }

    /// Reading stops at the last token, where a colon must stand.
    #[cold]
    pub(crate) fn stop_without_colon(&mut self) -> Stopped
        ensures fault { IsFaultHere self.old ⊥ self.new.fault }
        ensures range { range_of self.new.fault ≡ token_range self.old }
        ensures kind { kind_of self.new.fault ≡ ParseErrorKind.ExpectedColonAfterObjectKey }
    {
        self.stop_here(ParseErrorKind::ExpectedColonAfterObjectKey)
    }

    /// Reading stops at the end of the text, where the value of a property must stand.
    #[cold]
    pub(crate) fn stop_without_value(&mut self) -> Stopped
        ensures fault { IsFaultHere self.old ⊥ self.new.fault }
        ensures range { range_of self.new.fault ≡ token_range self.old }
        ensures kind { kind_of self.new.fault ≡ ParseErrorKind.ExpectedObjectValue }
    {
        self.stop_here(ParseErrorKind::ExpectedObjectValue)
    }

    /// Reading stops at the last token, after the value of the text.
    #[cold]
    pub(crate) fn stop_behind_value(&mut self) -> Stopped
        ensures fault { IsFaultHere self.old ⊥ self.new.fault }
        ensures range { range_of self.new.fault ≡ token_range self.old }
        ensures kind { kind_of self.new.fault ≡ ParseErrorKind.MultipleRootJsonValues }
    {
        self.stop_here(ParseErrorKind::MultipleRootJsonValues)
    }

    /// Reading stops at a comment, the last token, where none is allowed.
    #[cold]
    pub(crate) fn stop_at_comment(&mut self) -> Stopped
        ensures fault { IsFaultHere self.old ⊥ self.new.fault }
        ensures range { range_of self.new.fault ≡ token_range self.old }
        ensures kind { kind_of self.new.fault ≡ ParseErrorKind.CommentsNotAllowed }
    {
        self.stop_here(ParseErrorKind::CommentsNotAllowed)
    }

    /// Reading stops at the last token, where a value must stand.
    #[cold]
    pub(crate) fn stop_unexpected(&mut self, token: TokenKind) -> Stopped
        ensures fault { IsFaultHere self.old ⊥ self.new.fault }
        ensures range { range_of self.new.fault ≡ token_range self.old }
        ensures kind { kind_of self.new.fault ≡ unexpected_kind (last self.old token) }
    {
        let kind = self.unexpected(token);
        self.stop_here(kind)
    }

    /// Reading stops at a closing bracket after a comma in this range, where none is allowed there.
    #[cold]
    pub(crate) fn stop_at_comma(&mut self, comma: Range) -> Stopped
        requires { Spans (text_in self.old) comma.start comma.end }
        ensures fault { IsFaultHere self.old ⊥ self.new.fault }
        ensures range { range_of self.new.fault ≡ comma }
        ensures kind { kind_of self.new.fault ≡ ParseErrorKind.TrailingCommasNotAllowed }
    {
        self.stop_at(comma, ParseErrorKind::TrailingCommasNotAllowed)
    }

    /// Reading stops with a fault told of the bytes from a place through the last token.
    #[cold]
    pub(crate) fn stop_from(&mut self, start: usize, kind: ParseErrorKind) -> Stopped
        requires start { Spans (text_in self.old) start (token_end self.old) }
        requires kind { kind ≢ ParseErrorKind.OutOfMemory }
        ensures fault { IsFaultHere self.old ⊥ self.new.fault }
        ensures range { range_of self.new.fault ≡ record { start = start; end = token_end self.old } }
        ensures kind { kind_of self.new.fault ≡ kind }
    {
        let range = Range::new(start, self.scanner.token_end());
        self.stop_at(range, kind)
    }

    /// Reading stops where the text ends in a container, with a fault told of the bytes from where the container
    /// began, or else of the end.
    #[cold]
    pub(crate) fn stop_in(&mut self, container: Container, start: Option<usize>) -> Stopped
        requires { IfSome start (λ i. Spans (text_in self.old) i (token_end self.old)) }
        ensures fault { IsFaultHere self.old ⊥ self.new.fault }
        ensures error { AtEnd self.old → IsOpen container (text_in self.old) start self.new.fault }
    {
        match start {
            Some(start) => self.stop_from(start, container.unterminated()),
            None => self.stop_here(container.unterminated()),
        }
    }

    /// The error of an allocation failure. It is cold, so that it takes no room where items are made.
    #[cold]
    pub fn out_of_memory(&self) -> ParseError
        ensures fault { IsFault (text_in self.now) result }
        ensures memory { IsOutOfMemory result }
    {
        ParseError::out_of_memory()
    }

    /// Reading stops as no memory is left.
    #[cold]
    pub(crate) fn stop_for_memory(&mut self) -> Stopped
        ensures fault { IsFault (text_in self.old) self.new.fault }
        ensures memory { IsOutOfMemory self.new.fault }
    {
        let fault = self.out_of_memory();
        self.stop(fault)
    }

    /// Reading stops at a value that too many containers and properties are around. The innermost of
    /// them begins at the place.
    #[cold]
    pub(crate) fn stop_too_deep(&mut self, start: usize) -> Stopped
        requires { Spans (text_in self.old) start (token_end self.old) }
        ensures fault { IsFaultHere self.old ⊥ self.new.fault }
        ensures kind { kind_of self.new.fault ≡ ParseErrorKind.NestingDepthExceeded }
        ensures range { range_of self.new.fault ≡ record { start = start; end = token_end self.old } }
    {
        self.stop_from(start, ParseErrorKind::NestingDepthExceeded)
    }

    /// Reading stops at the last token, where a comma must stand, after what ended at a place.
    #[cold]
    pub(crate) fn stop_for_comma(
        &mut self,
        container: Container,
        token: TokenKind,
        end: usize,
    ) -> Stopped
        requires { Spans (text_in self.old) end (token_end self.old) }
        ensures fault { IsFaultHere self.old ⊥ self.new.fault }
        ensures comma { IsTrue (begins container (last self.old token))
            → IsFaultOf ParseErrorKind.ExpectedComma (record { start = end; end = end }) self.new.fault }
        ensures misplaced { begins container (last self.old token) ≡ false
            → IsFaultOf (misplaced_kind container (last self.old token)) (token_range self.old) self.new.fault }
    {
        if self.begins(container, token) {
            return self.stop_at(Range::from_byte_index(end), ParseErrorKind::ExpectedComma);
        }
        let kind = self.misplaced(container, token);
        self.stop_here(kind)
    }
}
