//! Turning a text into tokens.
ghost use Rattle.std.specs.Prelude.{◌≡◌, ◌≢◌, ◌≤◌, ◌<◌, ◌+◌, ◌↔◌, IsCharBoundary, IsTrue, IfOk, IfErr, IfSome, IfNone, OnOk, OnErr, None, Some, true, false, option_map, option_copied};

use crate::faults::out_of_memory;
use crate::found::{TokenContent, TokenKind};
use crate::gap::gap_end;
use crate::plain::plain_number;
use crate::reads::{quote_at, read_lexeme, read_punctuation};
use crate::string::{escaped_end, pass_string_at, plain_end, plain_string, read_string};
use crate::word::plain_keyword_end;
use jsonc_text::chars::has_byte;
use jsonc_text::errors::{ParseError, ParseErrorKind};
use jsonc_text::options::{ParseOptions, ScannerOptions};
use jsonc_text::string::stops::stop_place;
use jsonc_text::tokens::Token;
use std::alloc::Allocator;
use std::borrow::CowStr;

/// Reads a text one token after another.
#[derive(Drop)]
pub struct Scanner<'a, A: Allocator> {
    file_text: &'a str,
    byte_index: usize,
    // Between the two places: side by side they would be read as one, which waits for both to be written.
    options: ParseOptions,
    token_start: usize,
    current_token: Option<Token<'a, A>>,
    alloc: A,
    pub ghost at_place: { IsCharBoundary file_text.now byte_index },
    pub ghost starts_at_place: { IsCharBoundary file_text.now token_start },
    pub ghost order: { token_start ≤ byte_index },
}

impl<'a, A: Allocator> Scanner<'a, A> {
    ghost use Rattle.jsonc_text.specs.OptionsOf.{parse_options, scanner_options};
    ghost use Rattle.jsonc_scan.specs.Scanner.{text_of, end_of, start_of, options_of, token_of, last_token};
    ghost use Rattle.jsonc_text.specs.Tokens.{scanned_of};

    /// A scanner at the start of a text.
    pub fn new(alloc: A, file_text: &'a str, options: &ScannerOptions) -> Scanner<'a, A>
        ensures text { text_of result ≡ file_text.now }
        ensures options { options_of result ≡ scanner_options options.now }
        ensures start { (start_of result ≡ 0) × (end_of result ≡ 0) }
        ensures token { token_of result ≡ None }
    {
        Scanner::with_options(alloc, file_text, ParseOptions::of_scanner(options))
    }

    /// A scanner at the start of a text, with the options of a parser.
    pub fn with_options(alloc: A, file_text: &'a str, options: ParseOptions) -> Scanner<'a, A>
        ensures text { text_of result ≡ file_text.now }
        ensures options { options_of result ≡ parse_options options }
        ensures start { (start_of result ≡ 0) × (end_of result ≡ 0) }
        ensures token { token_of result ≡ None }
    {
        Scanner {
            file_text,
            byte_index: 0,
            options,
            token_start: 0,
            current_token: None,
            alloc,
        }
    }

    /// The whole text.
    pub fn file_text(&self) -> &'a str
        ensures { result.now ≡ text_of self.now }
    {
        self.file_text
    }

    /// The place where the last token begins, in bytes.
    pub fn token_start(&self) -> usize
        ensures { result ≡ start_of self.now }
    {
        self.token_start
    }

    /// The place after the last token, in bytes.
    pub fn token_end(&self) -> usize
        ensures { result ≡ end_of self.now }
    {
        self.byte_index
    }

    /// The token that was read last.
    pub fn token(&self) -> Option<&Token<'a, A>>
        ensures token { option_map (λ t. scanned_of t.now) result ≡ token_of self.now }
        ensures kept { option_copied result ≡ last_token self.now }
    {
        self.current_token.as_ref()
    }
}

impl<'a, A: Allocator + Copy> Scanner<'a, A> {
    ghost use Rattle.jsonc_text.specs.Faults.{IsFault, kind_of};
    ghost use Rattle.jsonc_scan.specs.Scanner.{text_of, start_of, end_of, options_of, token_of, last_token, KeepsLent, PassesBlanks, StandsAt, IsThere, seen, NothingStands, GoesOn, IsLent, IsLentSeen, HoldsEscape, IsTrueThere, ComesNext, IsMarkHere};
    ghost use Rattle.jsonc_scan.specs.Found.{token_found, LeavesOthers};
    ghost use Rattle.jsonc_text.specs.string.Between.{LacksAt, Reaches, is_neither};
    ghost use Rattle.jsonc_text.specs.Lexemes.{is_punctuation};
    ghost use Rattle.jsonc_text.specs.Text.{Many, Spans};
    ghost use Rattle.jsonc_text.specs.string.Quotes.{OpensString};
    ghost use Rattle.jsonc_text.specs.Tokens.{IsOwned, scanned_of};
    ghost use Rattle.jsonc_text.specs.Places.{is_comment};
    ghost use Rattle.jsonc_scan.specs.Scanner.{scanned_seen};

    /// Whether an ASCII character comes next, with no blank before it.
    #[doc(hidden)]
    #[inline(always)]
    pub fn has_next(&self, character: u8) -> bool
        requires { character < 128 }
        ensures { IsTrue result ↔ ComesNext self.now character }
    {
        has_byte(self.file_text, self.byte_index, character)
    }

    /// Passes a punctuation character that comes next. The last token that the scanner keeps stays
    /// what it was.
    #[doc(hidden)]
    #[inline(always)]
    pub fn pass_mark(&mut self, mark: u8)
        requires next { ComesNext self.old mark }
        requires mark { IsTrue (is_punctuation mark) }
        ensures blanks { PassesBlanks self.old self.new }
        ensures found { IsMarkHere self.new mark }
        ensures keeps { last_token self.new ≡ last_token self.old }
    {
        self.token_start = self.byte_index;
        self.byte_index += 1;
    }

    /// Goes on from a place after the last token, up to which only a gap stands.
    #[doc(hidden)]
    #[inline(always)]
    pub fn pass_to(&mut self, place: usize)
        requires { Spans (text_of self.old) (end_of self.old) place }
        ensures text { text_of self.new ≡ text_of self.old }
        ensures options { options_of self.new ≡ options_of self.old }
        ensures start { start_of self.new ≡ start_of self.old }
        ensures end { end_of self.new ≡ place }
        ensures keeps { last_token self.new ≡ last_token self.old }
    {
        self.byte_index = place;
    }

    /// Moves to the next token, and answers its kind, if there is one.
    ///
    /// None at the end of the text. What the token holds is put into `content`. Where strings are
    /// not decoded, one with a backslash is `Passed`, which takes no memory. The last token that
    /// the scanner keeps stays what it was. After an error the scanner stands where the faulty
    /// token begins.
    #[doc(hidden)]
    #[inline(always)]
    pub fn step(
        &mut self,
        content: &mut TokenContent<'a, A>,
        decodes: bool,
    ) -> Result<Option<TokenKind>, ParseError>
        ensures blanks { PassesBlanks self.old self.new }
        ensures found { IfOk result (λ f. IsThere self.new (seen self.new content.new f)) }
        ensures lent { IfOk result (λ f. IfSome f (IsLentSeen self.new content.new)) }
        ensures plain { IfOk result (λ f. f ≢ Some TokenKind.Plain) }
        ensures passed { IfOk result (λ f. f ≡ Some TokenKind.Passed → decodes ≡ false) }
        ensures escaped { IfOk result (λ f. IfSome (token_found content.new f) (λ t. IsOwned t → HoldsEscape self.new)) }
        ensures others { IfOk result (LeavesOthers content.old content.new) }
        ensures nothing { IfErr result (λ e. kind_of e ≢ ParseErrorKind.OutOfMemory → NothingStands self.new) }
        ensures begins { IfErr result (λ _. GoesOn self.new) }
        ensures fault { IfErr result (IsFault (text_of self.new)) }
        ensures error { IfErr result (λ e. kind_of e ≢ ParseErrorKind.OutOfMemory → IsTrueThere self.new e) }
        ensures memory { IfErr result (λ e. kind_of e ≡ ParseErrorKind.OutOfMemory → HoldsEscape self.new) }
        ensures wanted { IfErr result (λ e. kind_of e ≡ ParseErrorKind.OutOfMemory → decodes ≡ true) }
        ensures keeps { last_token self.new ≡ last_token self.old }
        ensures stays { OnErr result (end_of self.new ≡ start_of self.new) }
    {
        let start = gap_end(self.file_text, self.byte_index);
        self.byte_index = start;
        self.token_start = start;
        if start == self.file_text.len() {
            return Ok(None);
        }
        if has_byte(self.file_text, start, b'"') {
            let stop = stop_place(self.file_text, start + 1, b'"', b'\\');
            if let Some(plain) = plain_string(self.file_text, start, stop) {
                self.byte_index = plain.end;
                content.string = plain.string;
                return Ok(Some(TokenKind::String));
            }
            return self.step_string(content, b'"', stop, decodes);
        }
        if let Some(mark) = read_punctuation(self.file_text, start) {
            self.byte_index = start + 1;
            return Ok(Some(content.mark_kind(mark)));
        }
        if let Some(number) = plain_number(self.file_text, start) {
            self.byte_index = number.end;
            content.text = number.text;
            return Ok(Some(TokenKind::Number));
        }
        self.step_other(content, decodes)
    }

    /// Moves to the next token, where that is punctuation, a keyword, a string in double quotes, or a number of JSON,
    /// and answers its kind. Else nothing changes. A string with a backslash is not read where strings are decoded.
    #[doc(hidden)]
    #[inline(always)]
    pub fn step_plain(
        &mut self,
        content: &mut TokenContent<'a, A>,
        decodes: &bool,
    ) -> Option<TokenKind>
        ensures blanks { IfSome result (λ _. PassesBlanks self.old self.new) }
        ensures found { IfSome result (λ k. IsThere self.new (seen self.new content.new (Some k))) }
        ensures lent { IfSome result (IsLentSeen self.new content.new) }
        ensures passed { result ≡ Some TokenKind.Passed → decodes.now ≡ false }
        ensures lexeme { IfSome result (λ k. is_comment (scanned_seen self.new content.new k) ≡ false) }
        ensures none { IfNone result (self.new ≡ self.old) }
    {
        let start = gap_end(self.file_text, self.byte_index);
        if has_byte(self.file_text, start, b'"') {
            let stop = stop_place(self.file_text, start + 1, b'"', b'\\');
            if let Some(end) = plain_end(self.file_text, start, stop) {
                self.token_start = start;
                self.byte_index = end;
                return Some(TokenKind::Plain);
            }
            if !*decodes && has_byte(self.file_text, stop, b'\\') {
                if let Some(end) = escaped_end(self.file_text, start, stop, &self.options) {
                    self.token_start = start;
                    self.byte_index = end;
                    return Some(TokenKind::Passed);
                }
            }
            return None;
        }
        if let Some(mark) = read_punctuation(self.file_text, start) {
            self.token_start = start;
            self.byte_index = start + 1;
            return Some(content.mark_kind(mark));
        }
        if let Some(number) = plain_number(self.file_text, start) {
            self.token_start = start;
            self.byte_index = number.end;
            content.text = number.text;
            return Some(TokenKind::Number);
        }
        if let Some(end) = plain_keyword_end(self.file_text, start, "true") {
            self.token_start = start;
            self.byte_index = end;
            return Some(TokenKind::True);
        }
        if let Some(end) = plain_keyword_end(self.file_text, start, "false") {
            self.token_start = start;
            self.byte_index = end;
            return Some(TokenKind::False);
        }
        if let Some(end) = plain_keyword_end(self.file_text, start, "null") {
            self.token_start = start;
            self.byte_index = end;
            return Some(TokenKind::Null);
        }
        None
    }

    /// The same where the scanner stands, at no punctuation.
    #[inline(always)]
    fn step_other(
        &mut self,
        content: &mut TokenContent<'a, A>,
        decodes: bool,
    ) -> Result<Option<TokenKind>, ParseError>
        requires begins { GoesOn self.old }
        requires here { end_of self.old ≡ start_of self.old }
        requires mark { LacksAt is_punctuation (text_of self.old) (start_of self.old) }
        ensures text { text_of self.new ≡ text_of self.old }
        ensures options { options_of self.new ≡ options_of self.old }
        ensures start { start_of self.new ≡ start_of self.old }
        ensures found { IfOk result (λ f. IsThere self.new (seen self.new content.new f)) }
        ensures lent { IfOk result (λ f. IfSome f (IsLentSeen self.new content.new)) }
        ensures plain { IfOk result (λ f. f ≢ Some TokenKind.Plain) }
        ensures passed { IfOk result (λ f. f ≡ Some TokenKind.Passed → decodes ≡ false) }
        ensures escaped { IfOk result (λ f. IfSome (token_found content.new f) (λ t. IsOwned t → HoldsEscape self.new)) }
        ensures others { IfOk result (LeavesOthers content.old content.new) }
        ensures nothing { IfErr result (λ e. kind_of e ≢ ParseErrorKind.OutOfMemory → NothingStands self.new) }
        ensures fault { IfErr result (IsFault (text_of self.new)) }
        ensures error { IfErr result (λ e. kind_of e ≢ ParseErrorKind.OutOfMemory → IsTrueThere self.new e) }
        ensures memory { IfErr result (λ e. kind_of e ≡ ParseErrorKind.OutOfMemory → HoldsEscape self.new) }
        ensures wanted { IfErr result (λ e. kind_of e ≡ ParseErrorKind.OutOfMemory → decodes ≡ true) }
        ensures keeps { last_token self.new ≡ last_token self.old }
        ensures stays { OnErr result (end_of self.new ≡ start_of self.new) }
    {
        let start = self.token_start;
        if let Some(quote) = quote_at(self.file_text, start, &self.options) {
            let stop = stop_place(self.file_text, start + 1, quote, b'\\');
            return self.step_string(content, quote, stop, decodes);
        }
        let read = read_lexeme(self.file_text, start, &self.options)?;
        self.byte_index = read.end;
        Ok(Some(content.hold(read.lexeme)))
    }

    /// The same at the quote that opens a string.
    #[inline(always)]
    fn step_string(
        &mut self,
        content: &mut TokenContent<'a, A>,
        quote: u8,
        stop: usize,
        decodes: bool,
    ) -> Result<Option<TokenKind>, ParseError>
        requires quote { OpensString (options_of self.old) (text_of self.old) (start_of self.old) quote }
        requires here { end_of self.old ≡ start_of self.old }
        requires run { Reaches (Many (is_neither quote 0x5C)) (text_of self.old) (start_of self.old + 1) stop }
        requires stops { LacksAt (is_neither quote 0x5C) (text_of self.old) stop }
        ensures text { text_of self.new ≡ text_of self.old }
        ensures options { options_of self.new ≡ options_of self.old }
        ensures start { start_of self.new ≡ start_of self.old }
        ensures found { IfOk result (λ f. IsThere self.new (seen self.new content.new f)) }
        ensures lent { IfOk result (λ f. IfSome f (IsLentSeen self.new content.new)) }
        ensures plain { IfOk result (λ f. f ≢ Some TokenKind.Plain) }
        ensures passed { IfOk result (λ f. f ≡ Some TokenKind.Passed → decodes ≡ false) }
        ensures escaped { IfOk result (λ f. IfSome (token_found content.new f) (λ t. IsOwned t → HoldsEscape self.new)) }
        ensures others { IfOk result (LeavesOthers content.old content.new) }
        ensures nothing { IfErr result (λ e. kind_of e ≢ ParseErrorKind.OutOfMemory → NothingStands self.new) }
        ensures fault { IfErr result (IsFault (text_of self.new)) }
        ensures error { IfErr result (λ e. kind_of e ≢ ParseErrorKind.OutOfMemory → IsTrueThere self.new e) }
        ensures memory { IfErr result (λ e. kind_of e ≡ ParseErrorKind.OutOfMemory → HoldsEscape self.new) }
        ensures wanted { IfErr result (λ e. kind_of e ≡ ParseErrorKind.OutOfMemory → decodes ≡ true) }
        ensures keeps { last_token self.new ≡ last_token self.old }
        ensures stays { OnErr result (end_of self.new ≡ start_of self.new) }
    {
        let start = self.token_start;
        let text = self.file_text;
        if decodes {
            let read = read_string(self.alloc, text, start, quote, stop, &self.options)?;
            self.byte_index = read.end;
            content.string = read.string;
            return Ok(Some(TokenKind::String));
        }
        let passed = pass_string_at(text, start, quote, stop, &self.options)?;
        self.byte_index = passed.end;
        if passed.escaped {
            return Ok(Some(TokenKind::Passed));
        }
        content.string = CowStr::Borrowed(&self.file_text[start + 1..passed.end - 1]);
        Ok(Some(TokenKind::String))
    }

    /// Moves to the next token, and answers it, if there is one.
    ///
    /// None at the end of the text. After an error the last token is what it was, and the scanner
    /// stands where the faulty one begins.
    #[inline(always)]
    pub fn scan(&mut self) -> Result<Option<Token<'a, A>>, ParseError>
        ensures blanks { PassesBlanks self.old self.new }
        ensures found { IfOk result (StandsAt self.new) }
        ensures token { IfOk result (λ found. token_of self.new ≡ option_map scanned_of found) }
        ensures lent { IfOk result (IsLent self.new) }
        ensures kept { OnOk result (KeepsLent self.new) }
        ensures nothing { IfErr result (λ e. kind_of e ≢ ParseErrorKind.OutOfMemory → NothingStands self.new) }
        ensures begins { IfErr result (λ _. GoesOn self.new) }
        ensures fault { IfErr result (IsFault (text_of self.new)) }
        ensures error { IfErr result (λ e. kind_of e ≢ ParseErrorKind.OutOfMemory → IsTrueThere self.new e) }
        ensures memory { IfErr result (λ e. kind_of e ≡ ParseErrorKind.OutOfMemory → HoldsEscape self.new) }
        ensures refused { OnErr result (last_token self.new ≡ last_token self.old) }
        ensures stays { OnErr result (end_of self.new ≡ start_of self.new) }
    {
        let mut content = TokenContent::new();
        let Some(kind) = self.step(&mut content, true)? else {
            self.current_token = None;
            return Ok(None);
        };
        let Ok(kept) = content.token(kind) else {
            self.byte_index = self.token_start;
            return Err(out_of_memory(self.file_text));
        };
        let given = content.into_token(kind);
        self.current_token = Some(kept);
        Ok(Some(given))
    }
}
