//! The text of a pointer.

ghost use Rattle.std.specs.Prelude.{◌≡◌, ◌++◌, [], ◌∷◌, ℕ, List, chars, encode_utf8_all, string_bytes, IfErr, IfOk, OnOk, Some};
ghost use Rattle.std.specs.Char.{encode_utf8};
ghost use Rattle.std.specs.Fmt.{WritesOnOk, WritesStyledOnOk};
ghost use Rattle.jsonc_layout.specs.input.Views.{chars_of};
ghost use Rattle.jsonc_parser.specs.paths.Found.{names_of};
ghost use Rattle.jsonc_parser.specs.patch.Messages.{pointer_error_text};
ghost use Rattle.jsonc_parser.specs.patch.Pointer.{escaped, place_of, pointer_text, token_text, tokens_of, IsPointerFault};
ghost use Rattle.jsonc_parser.specs.patch.Reading.{text_so_far, IsFaultOfChar};

use std::alloc::{AllocError, Allocator};
use std::error::Error;
use std::{fmt, mem};

/// A JSON Pointer: tokens that lead from a value to one inside it, each a name or an index.
///
/// It prints as its text: a `/` before each token, in which `~0` represents `~`, and `~1` a `/`.
#[derive(Debug, Drop)]
pub struct Pointer<A: Allocator> {
    tokens: Vec<String<A>, A>,
}

/// Why a text is no pointer.
#[derive(Clone, Copy, Debug, PartialEq, Eq, Drop)]
pub enum PointerError {
    /// The text is not empty, and its first character is no `/`.
    NoLeadingSlash,
    /// The `~` at this byte has neither `0` nor `1` after it.
    InvalidEscape(usize),
    /// An allocation failed.
    OutOfMemory,
}

impl PointerError {
    /// The byte of the text where it goes wrong, if it does.
    pub fn place(self) -> Option<usize>
        ensures { result ≡ place_of self }
    {
        match self {
            PointerError::NoLeadingSlash => Some(0),
            PointerError::InvalidEscape(place) => Some(place),
            PointerError::OutOfMemory => None,
        }
    }
}

impl fmt::Display for PointerError {
    ghost output = { λ e. Some (pointer_error_text e) };

    ghost styled_output = { λ e _. Some (pointer_error_text e) };

    fn fmt<W: fmt::Write>(&self, f: &mut fmt::Formatter<W>) -> fmt::Result {
        match self {
            PointerError::NoLeadingSlash => f.write_str("Pointer does not begin with a slash"),
            PointerError::InvalidEscape(place) => {
                f.write_str("Neither 0 nor 1 after the tilde at byte ")?;
                let mut digits = itoa::Buffer::new();
                f.write_str(digits.format(*place))
            }
            PointerError::OutOfMemory => f.write_str("Out of memory"),
        }
    }
}

impl Error for PointerError {}

impl<A: Allocator + Copy> Pointer<A> {
    /// The pointer of a text.
    ///
    /// The empty text is the pointer without tokens. Any other begins with a `/`, and has `0` or `1`
    /// after each `~`.
    pub fn parse(alloc: A, text: &str) -> Result<Pointer<A>, PointerError>
        ensures parsed { IfOk result (λ p. pointer_text (tokens_of p) ≡ chars text.now) }
        ensures refused { IfErr result (IsPointerFault (chars text.now)) }
    {
        let Some(rest) = text.strip_prefix('/') else {
            if text.is_empty() {
                return Ok(Pointer {
                    tokens: Vec::new(alloc),
                });
            }
            return Err(PointerError::NoLeadingSlash);
        };
        match read_tokens(alloc, rest) {
            Ok(tokens) => Ok(Pointer { tokens }),
            Err(error) => Err(error),
        }
    }
}

impl<A: Allocator> Pointer<A> {
    /// The pointer of these tokens, in which no character has an escape.
    pub fn from_tokens(tokens: Vec<String<A>, A>) -> Pointer<A>
        ensures { tokens_of result ≡ names_of tokens.items }
    {
        Pointer { tokens }
    }

    /// Its tokens, their escapes decoded.
    pub fn tokens(&self) -> &[String<A>]
        ensures { names_of result.now ≡ tokens_of self.now }
    {
        &self.tokens
    }

    // Puts a token after the others.
    pub(super) fn push(&mut self, token: String<A>) -> Result<(), AllocError>
        ensures { OnOk result (tokens_of self.new ≡ tokens_of self.old ++ chars_of token ∷ []) }
    {
        match self.tokens.push(token) {
            Ok(()) => Ok(()),
            Err(_) => Err(AllocError),
        }
    }

    // Takes the last token away.
    pub(super) fn pop(&mut self)
        ensures { (front : List (List ℕ)) (last : List ℕ) → tokens_of self.old ≡ front ++ last ∷ [] → tokens_of self.new ≡ front }
    {
        self.tokens.pop();
    }
}

// The tokens of a text after its first `/`.
fn read_tokens<A: Allocator + Copy>(alloc: A, text: &str) -> Result<Vec<String<A>, A>, PointerError>
    ensures read { IfOk result (λ v. pointer_text (names_of v.items) ≡ 0x2F ∷ chars text.now) }
    ensures fault { IfErr result (IsPointerFault (0x2F ∷ chars text.now)) }
{
    let mut tokens = Vec::new(alloc);
    let mut token = String::new(alloc);
    let mut tilde = false;
    // As many bytes were read, and so many are before a `~` read last, with the first `/`.
    let mut place = 0;
    for c in text.chars() {
        match read_char(alloc, &mut tokens, &mut token, tilde, place, c) {
            Ok(now) => tilde = now,
            Err(error) => return Err(error),
        }
        place += c.len_utf8();
    }
    if tilde {
        return Err(PointerError::InvalidEscape(place));
    }
    end_token(alloc, &mut tokens, &mut token)?;
    Ok(tokens)
}

// Reads one more character of a token, or the `/` after it. The answer is whether it is a `~`, whose
// second character is still to be read. The place is that of such a `~` before.
fn read_char<A: Allocator + Copy>(
    alloc: A,
    tokens: &mut Vec<String<A>, A>,
    token: &mut String<A>,
    tilde: bool,
    place: usize,
    c: char,
) -> Result<bool, PointerError>
    ensures read { IfOk result (λ now. text_so_far (names_of tokens.new.items) (chars (string_bytes token.new)) now
        ≡ text_so_far (names_of tokens.old.items) (chars (string_bytes token.old)) tilde ++ c ∷ []) }
    ensures fault { IfErr result (IsFaultOfChar tilde place c) }
{
    match (tilde, c) {
        (true, '0') => push(token, '~')?,
        (true, '1') => push(token, '/')?,
        (true, _) => return Err(PointerError::InvalidEscape(place)),
        (false, '~') => return Ok(true),
        (false, '/') => end_token(alloc, tokens, token)?,
        (false, _) => push(token, c)?,
    }
    Ok(false)
}

// Puts a character at the end of a token.
fn push<A: Allocator>(token: &mut String<A>, c: char) -> Result<(), PointerError>
    ensures pushed { OnOk result (chars (string_bytes token.new) ≡ chars (string_bytes token.old) ++ c ∷ []) }
    ensures memory { IfErr result (λ e. e ≡ PointerError.OutOfMemory) }
{
    match token.push(c) {
        Ok(()) => Ok(()),
        Err(_) => Err(PointerError::OutOfMemory),
    }
}

// Puts a token after those that ended, and begins another.
fn end_token<A: Allocator + Copy>(
    alloc: A,
    tokens: &mut Vec<String<A>, A>,
    token: &mut String<A>,
) -> Result<(), PointerError>
    ensures ended { OnOk result (tokens.new.items ≡ tokens.old.items ++ token.old ∷ []) }
    ensures empty { OnOk result (string_bytes token.new ≡ []) }
    ensures memory { IfErr result (λ e. e ≡ PointerError.OutOfMemory) }
{
    let ended = mem::replace(token, String::new(alloc));
    match tokens.push(ended) {
        Ok(()) => Ok(()),
        Err(_) => Err(PointerError::OutOfMemory),
    }
}

impl<A: Allocator> fmt::Display for Pointer<A> {
    ghost output = { λ p. Some (encode_utf8_all (pointer_text (tokens_of p))) };

    ghost styled_output = { λ p _. Some (encode_utf8_all (pointer_text (tokens_of p))) };

    fn fmt<W: fmt::Write>(&self, f: &mut fmt::Formatter<W>) -> fmt::Result {
        for token in &self.tokens {
            write_token(token.as_str(), f)?;
        }
        Ok(())
    }
}

// Writes a token after its `/`.
fn write_token<W: fmt::Write>(token: &str, f: &mut fmt::Formatter<W>) -> fmt::Result
    ensures writes { WritesOnOk W.write_str_gives f.old result (encode_utf8_all (token_text (chars token.now))) f.new }
    ensures styled { WritesStyledOnOk W.write_str_gives f.old result (encode_utf8_all (token_text (chars token.now))) f.new }
{
    f.write_char('/')?;
    for c in token.chars() {
        write_escaped(c, f)?;
    }
    Ok(())
}

// Writes a character of a token.
fn write_escaped<W: fmt::Write>(c: char, f: &mut fmt::Formatter<W>) -> fmt::Result
    ensures writes { WritesOnOk W.write_str_gives f.old result (encode_utf8_all (escaped c)) f.new }
    ensures styled { WritesStyledOnOk W.write_str_gives f.old result (encode_utf8_all (escaped c)) f.new }
{
    match c {
        '~' => f.write_str("~0"),
        '/' => f.write_str("~1"),
        _ => f.write_char(c),
    }
}
