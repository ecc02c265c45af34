//! Where numbers of JSON end (RFC 8259, 6): these are numbers under all options, and nearly all numbers are such.
//!
//! What is none of these may still be a number, or begins one that is refused: `number_end` says which.
ghost use Rattle.std.specs.Prelude.{◌≡◌, ◌+◌, ◌≤◌, IfSome, IsCharBoundary};
ghost use Rattle.jsonc_text.specs.string.Between.{Between, Reaches};
ghost use Rattle.jsonc_scan.specs.Reads.{IsFractionAnyhow, IsNumberAnyhow, IsPlainNumber, IsUnsignedAnyhow, LacksHexadecimalMark};
ghost use Rattle.jsonc_text.specs.Numbers.{Exponent, Whole};
ghost use Rattle.jsonc_text.specs.Runs.{IsDigitMask};
ghost use Rattle.jsonc_text.specs.Text.{AllOf, is_digit};

use crate::number::{has_digit, has_either, has_hexadecimal_mark};
use jsonc_text::chars::has_byte;
use jsonc_text::runs::{digit_mask, digit_stop_near};

/// The place after the digits at a place, at least one, by the mask of the sixteen bytes at `near`.
#[inline(always)]
fn near_digits_end(text: &str, near: usize, mask: u64, start: usize) -> Option<usize>
    requires boundary { IsCharBoundary text.now start }
    requires order { near ≤ start }
    requires mask { IsDigitMask text.now near mask }
    ensures { IfSome result (Between (AllOf is_digit) text.now start) }
{
    let end = digit_stop_near(text.as_bytes(), near, mask, start);
    if end == start {
        return None;
    }
    Some(end)
}

/// The place after the digits before a point, by the mask of the sixteen bytes there.
#[inline(always)]
fn whole_part_end(text: &str, start: usize, mask: u64) -> Option<usize>
    requires boundary { IsCharBoundary text.now start }
    requires mark { LacksHexadecimalMark text.now start }
    requires mask { IsDigitMask text.now start mask }
    ensures { IfSome result (Between Whole text.now start) }
{
    if has_byte(text, start, b'0') {
        return Some(start + 1);
    }
    let Some(end) = near_digits_end(text, start, mask, start) else {
        return None;
    };
    Some(end)
}

/// The place after the fraction at a place, or the place itself where no point stands.
#[inline(always)]
fn fraction_end(text: &str, near: usize, mask: u64, start: usize) -> Option<usize>
    requires boundary { IsCharBoundary text.now start }
    requires order { near ≤ start }
    requires mask { IsDigitMask text.now near mask }
    ensures { IfSome result (IsFractionAnyhow text.now start) }
{
    if !has_byte(text, start, b'.') {
        return Some(start);
    }
    let Some(end) = near_digits_end(text, near, mask, start + 1) else {
        return None;
    };
    Some(end)
}

/// The place after the exponent at a place, or the place itself where no `e` stands.
#[inline(always)]
fn exponent_end(text: &str, near: usize, mask: u64, start: usize) -> Option<usize>
    requires boundary { IsCharBoundary text.now start }
    requires order { near ≤ start }
    requires mask { IsDigitMask text.now near mask }
    ensures { IfSome result (Reaches Exponent text.now start) }
{
    if !has_either(text, start, b'e', b'E') {
        return Some(start);
    }
    if has_either(text, start + 1, b'+', b'-') {
        let Some(end) = near_digits_end(text, near, mask, start + 2) else {
            return None;
        };
        return Some(end);
    }
    let Some(end) = near_digits_end(text, near, mask, start + 1) else {
        return None;
    };
    Some(end)
}

/// The place after the digits of a number at a place, its fraction and its exponent.
#[inline(always)]
fn digits_end(text: &str, start: usize) -> Option<usize>
    requires { IsCharBoundary text.now start }
    ensures { IfSome result (IsUnsignedAnyhow text.now start) }
{
    if has_hexadecimal_mark(text, start) {
        return None;
    }
    if !has_digit(text, start) {
        return None;
    }
    let mask = digit_mask(text.as_bytes(), start);
    let Some(whole) = whole_part_end(text, start, mask) else {
        return None;
    };
    let Some(fraction) = fraction_end(text, start, mask, whole) else {
        return None;
    };
    let Some(end) = exponent_end(text, start, mask, fraction) else {
        return None;
    };
    Some(end)
}

/// The place after the number of JSON at a place, if one stands there.
#[inline(always)]
fn number_end(text: &str, start: usize) -> Option<usize>
    requires { IsCharBoundary text.now start }
    ensures { IfSome result (IsNumberAnyhow text.now start) }
{
    if has_byte(text, start, b'-') {
        let Some(end) = digits_end(text, start + 1) else {
            return None;
        };
        return Some(end);
    }
    let Some(end) = digits_end(text, start) else {
        return None;
    };
    Some(end)
}

/// The text of a number, and the place after it.
#[derive(Clone, Copy)]
pub(crate) struct PlainNumber<'a> {
    pub text: &'a str,
    pub end: usize,
}

/// The number of JSON at a place, if one stands there.
#[inline(always)]
pub(crate) fn plain_number<'a>(text: &'a str, start: usize) -> Option<PlainNumber<'a>>
    requires { IsCharBoundary text.now start }
    ensures { IfSome result (IsPlainNumber text.now start) }
{
    let Some(end) = number_end(text, start) else {
        return None;
    };
    let text = &text[start..end];
    Some(PlainNumber { text, end })
}
