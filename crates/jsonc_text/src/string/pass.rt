//! Passing a string without decoding it: it is checked as strictly, and takes no memory.
ghost use Rattle.std.specs.Prelude.{◌≡◌, ◌≢◌, ◌+◌, ◌-◌, ◌↔◌, IfOk, IfErr, IsCharBoundary, chars, false, true, slice_range};
ghost use Rattle.jsonc_text.specs.Chars.{Steps};
ghost use Rattle.jsonc_text.specs.Options.{all_on};
ghost use Rattle.jsonc_text.specs.Strings.{IsQuote};
ghost use Rattle.jsonc_text.specs.StringValue.{string_value};
ghost use Rattle.jsonc_text.specs.Text.{Many, Spans};
ghost use Rattle.jsonc_text.specs.string.Between.{Between, LacksAt, Reaches, is_neither};
ghost use Rattle.jsonc_text.specs.string.Escapes.{IsQuoted, NoQuoted, HoldsBackslash, IsStringRefusal};
ghost use Rattle.jsonc_text.specs.string.Faults.{IsStringFault};

use crate::chars::has_byte;
use crate::errors::ParseStringErrorKind;
use crate::string::escape::{Literal, StringFault, read_escape, unterminated};
use crate::string::plain::plain_escape;
use crate::string::stops::stop_place;

/// Whether a backslash stands in a string, and the place after its closing quote.
#[derive(Clone, Copy)]
pub struct PassedString {
    pub escaped: bool,
    pub end: usize,
}

/// Passes the string at a place, where its quote stands. The faults are those of `decode_string`,
/// but none is allocation failure.
pub fn pass_string(text: &str, literal: Literal) -> Result<PassedString, StringFault>
    requires boundary { IsCharBoundary text.now literal.start }
    requires opens { Steps text.now literal.start literal.quote (literal.start + 1) }
    requires quote { IsQuote all_on literal.quote }
    ensures found { IfOk result
        (λ p. Between (IsQuoted literal.extended literal.quote
        (string_value text.now literal.start p.end)) text.now literal.start p.end) }
    ensures escaped { IfOk result (λ p. p.escaped ≡ true ↔ HoldsBackslash text.now literal.start p.end) }
    ensures plain { IfOk result (λ p. p.escaped ≡ false
        → string_value text.now literal.start p.end ≡ chars (slice_range text.now (literal.start + 1) (p.end - 1))) }
    ensures inside { IfOk result (λ p. Spans text.now (literal.start + 1) (p.end - 1)) }
    ensures none { IfErr result (λ _. NoQuoted literal.extended literal.quote text.now literal.start) }
    ensures places { IfErr result (IsStringRefusal text.now literal.start) }
    ensures error { IfErr result (IsStringFault literal.extended literal.quote text.now literal.start) }
    ensures memory { IfErr result (λ f. f.kind ≢ ParseStringErrorKind.OutOfMemory) }
{
    let stop = stop_place(text, literal.start + 1, literal.quote, b'\\');
    pass_from(text, literal, stop)
}

/// The same, of a string whose first backslash or quote stands at a place, or the end of the text.
#[inline(always)]
pub fn pass_from(text: &str, literal: Literal, stop: usize) -> Result<PassedString, StringFault>
    requires boundary { IsCharBoundary text.now literal.start }
    requires opens { Steps text.now literal.start literal.quote (literal.start + 1) }
    requires quote { IsQuote all_on literal.quote }
    requires run { Reaches (Many (is_neither literal.quote 0x5C)) text.now (literal.start + 1) stop }
    requires stops { LacksAt (is_neither literal.quote 0x5C) text.now stop }
    ensures found { IfOk result
        (λ p. Between (IsQuoted literal.extended literal.quote
        (string_value text.now literal.start p.end)) text.now literal.start p.end) }
    ensures escaped { IfOk result (λ p. p.escaped ≡ true ↔ HoldsBackslash text.now literal.start p.end) }
    ensures plain { IfOk result (λ p. p.escaped ≡ false
        → string_value text.now literal.start p.end ≡ chars (slice_range text.now (literal.start + 1) (p.end - 1))) }
    ensures inside { IfOk result (λ p. Spans text.now (literal.start + 1) (p.end - 1)) }
    ensures none { IfErr result (λ _. NoQuoted literal.extended literal.quote text.now literal.start) }
    ensures places { IfErr result (IsStringRefusal text.now literal.start) }
    ensures error { IfErr result (IsStringFault literal.extended literal.quote text.now literal.start) }
    ensures memory { IfErr result (λ f. f.kind ≢ ParseStringErrorKind.OutOfMemory) }
{
    if has_byte(text, stop, literal.quote) {
        return Ok(PassedString {
            escaped: false,
            end: stop + 1,
        });
    }
    if !has_byte(text, stop, b'\\') {
        return Err(unterminated(text, literal.start));
    }
    pass_escaped(text, literal, stop)
}

/// The same, of a string whose first backslash stands at a place.
#[inline(always)]
pub fn pass_escaped(
    text: &str,
    literal: Literal,
    first_stop: usize,
) -> Result<PassedString, StringFault>
    requires boundary { IsCharBoundary text.now literal.start }
    requires opens { Steps text.now literal.start literal.quote (literal.start + 1) }
    requires quote { IsQuote all_on literal.quote }
    requires run { Reaches (Many (is_neither literal.quote 0x5C)) text.now (literal.start + 1) first_stop }
    requires backslash { Steps text.now first_stop 0x5C (first_stop + 1) }
    ensures found { IfOk result
        (λ p. Between (IsQuoted literal.extended literal.quote
        (string_value text.now literal.start p.end)) text.now literal.start p.end) }
    ensures escaped { IfOk result (λ p. p.escaped ≡ true) }
    ensures holds { IfOk result (λ p. HoldsBackslash text.now literal.start p.end) }
    ensures inside { IfOk result (λ p. Spans text.now (literal.start + 1) (p.end - 1)) }
    ensures none { IfErr result (λ _. NoQuoted literal.extended literal.quote text.now literal.start) }
    ensures places { IfErr result (IsStringRefusal text.now literal.start) }
    ensures error { IfErr result (IsStringFault literal.extended literal.quote text.now literal.start) }
    ensures memory { IfErr result (λ f. f.kind ≢ ParseStringErrorKind.OutOfMemory) }
{
    let mut place = first_stop;
    while has_byte(text, place, b'\\') {
        let escape = match plain_escape(text, place, literal) {
            Some(escape) => escape,
            None => match read_escape(text, place, literal) {
                Ok(escape) => escape,
                Err(fault) => return Err(fault),
            },
        };
        place = stop_place(text, escape.end, literal.quote, b'\\');
    }
    if !has_byte(text, place, literal.quote) {
        return Err(unterminated(text, literal.start));
    }
    Ok(PassedString {
        escaped: true,
        end: place + 1,
    })
}
