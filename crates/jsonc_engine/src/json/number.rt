//! Numbers as JSON writes them (RFC 8259, 6).
ghost use Rattle.std.specs.Prelude.{◌≡◌, ◌++◌, ◌∷◌, ℕ, OnOk, chars, if◌then◌else◌};
ghost use Rattle.std.specs.Bool.{Decides};
ghost use Rattle.jsonc_text.specs.Numbers.{NumberLit};
ghost use Rattle.jsonc_text.specs.Options.{all_on};
ghost use Rattle.jsonc_text.specs.Text.{is_digit, next, starts};
ghost use Rattle.jsonc_parser.specs.Numbers.{Decimal, Unsigned};
ghost use Rattle.jsonc_engine.specs.Texts.{text_of, Adds};
ghost use Rattle.jsonc_engine.specs.Rewritten.{IsNonFinite, IsNumberFor, IsUnsignedFor, minus_of, or_zero};
ghost use Rattle.jsonc_engine.specs.Points.{from_point};

use super::decimal::push_decimal;
use super::output::{put, put_all};
use jsonc_parser::numbers::{after_hex_prefix, split_sign};
use jsonc_text::chars::char_at;
use std::alloc::{AllocError, Allocator};

// Whether a number is `Infinity` or `NaN`, perhaps with a sign.
pub(super) fn is_non_finite(number: &str) -> bool
    ensures { Decides result (IsNonFinite (chars number.now)) }
{
    let (_negative, name) = split_sign(number);
    name == "Infinity" || name == "NaN"
}

// Writes a number, which is neither.
pub(super) fn push_number<A: Allocator + Copy>(
    alloc: A,
    written: &mut String<A>,
    number: &str,
) -> Result<(), AllocError>
    ensures { NumberLit all_on (chars number.now) → (IsNonFinite (chars number.now) → ⊥)
        → OnOk result (Adds (IsNumberFor (chars number.now)) (text_of written.old) (text_of written.new)) }
{
    let (negative, unsigned) = split_sign(number);
    push_sign(written, negative)?;
    push_unsigned(alloc, written, unsigned)
}

// Writes a minus, or nothing.
fn push_sign<A: Allocator>(written: &mut String<A>, negative: bool) -> Result<(), AllocError>
    ensures { OnOk result (text_of written.new ≡ text_of written.old ++ minus_of negative) }
{
    if negative { put(written, '-') } else { Ok(()) }
}

// Writes a number with no sign.
fn push_unsigned<A: Allocator + Copy>(
    alloc: A,
    written: &mut String<A>,
    number: &str,
) -> Result<(), AllocError>
    ensures { (m d : ℕ) → Unsigned number.now m d
        → OnOk result (Adds (IsUnsignedFor number.now) (text_of written.old) (text_of written.new)) }
{
    match after_hex_prefix(number) {
        Some(digits) => push_decimal(alloc, written, digits),
        None => push_point(written, number),
    }
}

// Writes a decimal number with no sign.
fn push_point<A: Allocator>(written: &mut String<A>, number: &str) -> Result<(), AllocError>
    ensures { (m d : ℕ) → Decimal number.now m d
        → OnOk result (Adds (IsUnsignedFor number.now) (text_of written.old) (text_of written.new)) }
{
    match number.split_once('.') {
        Some(parts) => push_parts(written, parts.0, parts.1),
        None => put_all(written, number),
    }
}

// Writes what stands on both sides of a point.
fn push_parts<A: Allocator>(
    written: &mut String<A>,
    whole: &str,
    behind: &str,
) -> Result<(), AllocError>
    ensures { OnOk result (text_of written.new ≡ text_of written.old ++ (or_zero (chars whole.now) ++ from_point (chars behind.now))) }
{
    push_whole(written, whole)?;
    push_behind(written, behind)
}

// Writes digits, or a zero where there are none.
pub(super) fn push_whole<A: Allocator>(
    written: &mut String<A>,
    digits: &str,
) -> Result<(), AllocError>
    ensures { OnOk result (text_of written.new ≡ text_of written.old ++ or_zero (chars digits.now)) }
{
    match char_at(digits, 0) {
        Some(_) => put_all(written, digits),
        None => put(written, '0'),
    }
}

// Writes what stands behind a point, and the point where a digit does.
fn push_behind<A: Allocator>(written: &mut String<A>, behind: &str) -> Result<(), AllocError>
    ensures { OnOk result (text_of written.new ≡ text_of written.old ++ from_point (chars behind.now)) }
{
    if has_digit(behind) {
        push_pointed(written, behind)
    } else {
        put_all(written, behind)
    }
}

// Writes a point and what stands behind it.
fn push_pointed<A: Allocator>(written: &mut String<A>, behind: &str) -> Result<(), AllocError>
    ensures { OnOk result (text_of written.new ≡ text_of written.old ++ 0x2E ∷ chars behind.now) }
{
    put(written, '.')?;
    put_all(written, behind)
}

// Whether a text begins with a digit.
fn has_digit(text: &str) -> bool
    ensures { result ≡ starts is_digit (next (chars text.now)) }
{
    match char_at(text, 0) {
        Some(c) => c.is_ascii_digit(),
        None => false,
    }
}
