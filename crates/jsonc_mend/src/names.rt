//! Words and other lexemes outside of quotes, where a name is expected.
use crate::changes::Fault;
use crate::frame::Stage;
use crate::lexeme::{Kind, Token};
use crate::reading::{char_here, follows_with, has_any, is_alphanumeric, is_symbols, part};
use crate::recovery::Recovery;
use jsonc_text::errors::ParseErrorKind;
use std::alloc::{AllocError, Allocator};

impl<'a, A: Allocator + Copy> Recovery<'a, A> {
    /// A word or another lexeme where a name is expected, after what is to be written before it.
    pub(crate) fn misplaced_name(
        &mut self,
        fault: Fault,
        token: Token,
        before: &str,
    ) -> Result<(), AllocError> {
        let start = token.start;
        if token.kind == Kind::Single {
            self.change_single(fault, token, before)?;
            self.take_name(start, token.end);
            return Ok(());
        }
        if let Some(close) = self.lacks_opening(token, ":,}") {
            let end = self.insert_opening(fault, start, close, before)?;
            self.take_name(start, end);
            return Ok(());
        }
        let end = token.end.max(self.word_end(start));
        let word = part(self.text, start, end);
        if has_any(self.text, start, ";=")
            || is_symbols(word) && !follows_with(self.text, end, ':')
        {
            return self.drop_token(fault, Token::new(Kind::Junk, start, end));
        }
        if before.is_empty()
            && self.is_loose_name(fault, start, end)
            && self.complete_name(fault, start, end)?
        {
            return Ok(());
        }
        self.quote_word(fault, start, end, before)?;
        self.take_name(start, end);
        Ok(())
    }

    // A name that a change writes in quotes is read.
    fn take_name(&mut self, start: usize, end: usize) {
        self.take(Kind::String, start, end);
        self.top.take_name(start, end);
    }

    // Whether a word could be a name without quotes, but for the character after it.
    fn is_loose_name(&self, fault: Fault, start: usize, end: usize) -> bool {
        if !self.options.allow_loose_object_property_names
            || fault.kind != ParseErrorKind::UnexpectedToken
        {
            return false;
        }
        if fault.range.start != start || fault.range.end != end {
            return false;
        }
        match char_here(self.text, start) {
            Some(c) => c == '_' || c == '$' || is_alphanumeric(c),
            None => false,
        }
    }

    // Puts what is missing after a name without quotes. False where the character after it is another one.
    fn complete_name(
        &mut self,
        fault: Fault,
        start: usize,
        end: usize,
    ) -> Result<bool, AllocError> {
        let word = Token::new(Kind::Word, start, end);
        match char_here(self.text, end) {
            Some('/' | '\u{B}') => {
                self.insert(fault, end, " ")?;
                self.take_token(word);
                self.top.take_name(start, end);
            }
            Some('=') => {
                let after = self.word_end(end);
                self.change(fault, end, after, ":")?;
                self.top.take_name(start, end);
                self.take(Kind::Colon, end, after);
                self.top.take_colon(after);
            }
            Some('"' | '\'' | '{' | '[') => {
                self.insert(fault, end, ": ")?;
                self.top.take_name(start, end);
                self.take(Kind::Colon, end, end);
                self.top.take_colon(end);
            }
            Some(',' | '}' | ']' | ';') => {
                self.insert(fault, end, ": null")?;
                self.take_token(word);
                self.top.take_name(start, end);
                self.top.stage = Stage::Colon;
                self.take_inserted(end);
            }
            _ => return Ok(false),
        }
        Ok(true)
    }
}
