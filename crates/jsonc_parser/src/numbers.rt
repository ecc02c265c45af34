//! The values of numbers, by their texts.
//!
//! A document and its values keep a number as it was written. These calls read such a text, as
//! [`NumberLit::value`](crate::ast::NumberLit::value) hands it out, in each form that the options allow: a
//! decimal number with a fraction and an exponent, `0x1F`, `1.`, `.5`, `+1`, `Infinity` and `NaN`.

ghost use Rattle.std.specs.Prelude.{◌≡◌, ℕ, ◌+◌, ◌*◌, ◌^◌, ◌<◌, ◌≤◌, ◌∷◌, ◌++◌, IfNone, IfSome, chars, pos, FitsSigned, ℤ, Bool, List, IsTrue, length};
ghost use Rattle.std.specs.Float.Ieee.{Float, binary64, round, inf};
ghost use Rattle.std.specs.Int.{w64};
ghost use Rattle.std.specs.Option.{SomeIff};
ghost use Rattle.std.specs.Str.Parse.{AllDigits, IsNumeral, digits_value};
ghost use Rattle.fast_float.specs.Text.{digits_of, tens_up, tens_down, with_sign};
ghost use Rattle.jsonc_text.specs.Text.{next, no};
ghost use Rattle.jsonc_text.specs.Options.{all_on};
ghost use Rattle.jsonc_text.specs.Numbers.{NumberLit, is_x, is_sign};
ghost use Rattle.jsonc_parser.specs.Numbers.{Sign, Decimal, Unsigned, Hexadecimal, WritesWhole, WritesInteger, WritesFloat, IsLongHexadecimal};

pub(crate) mod laws;

use fast_float::Numeral;

/// The `u64` that a number's text writes, if it writes one.
///
/// The answer is exact and goes by the number written, in any form: it is 1000 for `1e3`, 31 for `0x1F`
/// and 1 for `1.0`, `+1` and `100e-2`. It is `None` for `1.5`, `-1`, `NaN`, `18446744073709551616`, and a
/// text that is no number. `-0` is 0. Nothing is allocated.
pub fn parse_u64(text: &str) -> Option<u64>
    ensures some { IfSome result (λ n. WritesInteger (chars text.now) (pos n)) }
    ensures none { IfNone result ((n : ℕ) → n < 2 ^ 64 → WritesInteger (chars text.now) (pos n) → ⊥) }
{
    let (negative, unsigned) = split_sign(text);
    let size = whole_u64(unsigned)?;
    if negative && size > 0 {
        None
    } else {
        Some(size)
    }
}

/// The `i64` that a number's text writes, if it writes one.
///
/// It reads texts as [`parse_u64`] does, and numbers below 0 too: -31 for `-0x1F`, and `None` for
/// `9223372036854775808`.
pub fn parse_i64(text: &str) -> Option<i64>
    ensures some { IfSome result (WritesInteger (chars text.now)) }
    ensures none { IfNone result ((z : ℤ) → FitsSigned w64 z → WritesInteger (chars text.now) z → ⊥) }
{
    let (negative, unsigned) = split_sign(text);
    signed(negative, whole_u64(unsigned)?)
}

/// The `f64` nearest to the number that a text writes.
///
/// A decimal number is rounded once, as by Rust's `parse::<f64>`, to an infinity where it is too large and
/// to a zero where it is too small: `1e400` is infinite, and `-0` is -0.0. `Infinity` and `NaN` may have a
/// sign, which a NaN does not keep.
///
/// A hexadecimal number is rounded in the same way up to `0xFFFFFFFFFFFFFFFF`, and a larger one is `None`.
/// So is a text that is no number, as `inf`, `1e`, `01` and the empty one. Nothing is allocated.
pub fn parse_f64(text: &str) -> Option<f64>
    ensures some { IfSome result (WritesFloat (chars text.now)) }
    ensures none { IfNone result (NumberLit all_on (chars text.now) → IsLongHexadecimal (chars text.now)) }
{
    let (negative, unsigned) = split_sign(text);
    if unsigned == "Infinity" {
        return Some(infinity(negative));
    }
    if unsigned == "NaN" {
        return Some(f64::NAN);
    }
    nearest_f64(negative, unsigned)
}

/// Whether a minus is first, and what follows the sign, if there is one.
#[doc(hidden)]
pub fn split_sign(text: &str) -> (bool, &str)
    ensures sign { Sign text.now result.0 result.1.now }
    ensures only { (negative : Bool) (u : List ℕ) → Sign text.now negative u → IsTrue (no is_sign (next u))
        → (result.0 ≡ negative) × (result.1.now ≡ u) }
{
    if let Some(unsigned) = text.strip_prefix('-') {
        (true, unsigned)
    } else if let Some(unsigned) = text.strip_prefix('+') {
        (false, unsigned)
    } else {
        (false, text)
    }
}

/// What follows `0x` or `0X`.
#[doc(hidden)]
pub fn after_hex_prefix(unsigned: &str) -> Option<&str>
    ensures some { IfSome result (λ ds. (x : ℕ) × IsTrue (is_x x) × (unsigned.now ≡ 0x30 ∷ x ∷ ds.now)) }
    ensures none { IfNone result ((x : ℕ) (ds : List ℕ) → IsTrue (is_x x) → unsigned.now ≡ 0x30 ∷ x ∷ ds → ⊥) }
{
    let rest = unsigned.strip_prefix('0')?;
    match rest.strip_prefix('x') {
        Some(digits) => Some(digits),
        None => rest.strip_prefix('X'),
    }
}

// The number that hex digits write, if it is below 2^64.
fn hex_u64(digits: &str) -> Option<u64>
    ensures { SomeIff result (IsNumeral 16 digits.now × (digits_value 16 digits.now < 2 ^ 64)) (digits_value 16 digits.now) }
{
    if digits.starts_with('+') {
        return None;
    }
    u64::from_str_radix(digits, 16).ok()
}

// The parts of a decimal number with no sign.
pub(crate) fn decimal_parts(unsigned: &str) -> Option<Numeral<'_>>
    ensures some { IfSome result (λ p. Decimal unsigned.now (digits_of p * 10 ^ tens_up p) (10 ^ tens_down p)) }
    ensures digits { IfSome result (λ p. AllDigits 10 (p.whole ++ p.fraction)) }
    ensures within { IfSome result (λ p. length p.whole + length p.fraction ≤ length unsigned.now) }
    ensures only { IfSome result (λ p. (m d : ℕ) → Decimal unsigned.now m d → (digits_of p * 10 ^ tens_up p ≡ m) × (10 ^ tens_down p ≡ d)) }
    ensures none { IfNone result ((m d : ℕ) → Decimal unsigned.now m d → ⊥) }
{
    let numeral = Numeral::scan(unsigned.as_bytes());
    let whole = numeral.whole();
    let padded = whole.len() > 1 && whole[0] == b'0';
    if numeral.len() == unsigned.len() && numeral.has_digits() && !padded {
        Some(numeral)
    } else {
        None
    }
}

// The whole number that a text with no sign writes, if it is below 2^64.
fn whole_u64(unsigned: &str) -> Option<u64>
    ensures some { IfSome result (WritesWhole unsigned.now) }
    ensures only { IfSome result (λ n. (k : ℕ) → WritesWhole unsigned.now k → n ≡ k) }
    ensures none { IfNone result ((k : ℕ) → WritesWhole unsigned.now k → 2 ^ 64 ≤ k) }
{
    match after_hex_prefix(unsigned) {
        Some(digits) => hex_u64(digits),
        None => decimal_parts(unsigned)?.whole_u64(),
    }
}

// The number with its sign, if an i64 holds it.
fn signed(negative: bool, size: u64) -> Option<i64>
    ensures { SomeIff result (FitsSigned w64 (with_sign negative size)) (with_sign negative size) }
{
    if !negative {
        return i64::try_from(size).ok();
    }
    if size == 0 {
        Some(0)
    } else if size <= 1 << 63 {
        Some(-((size - 1) as i64) - 1)
    } else {
        None
    }
}

// The float nearest to the number that a text with no sign writes, with the sign given.
fn nearest_f64(negative: bool, unsigned: &str) -> Option<f64>
    ensures some { IfSome result (λ x. (m d : ℕ) × Unsigned unsigned.now m d × (x ≡ round binary64 negative m d)) }
    ensures none { IfNone result ((m d : ℕ) → Unsigned unsigned.now m d → Hexadecimal unsigned.now m × (2 ^ 64 ≤ m)) }
{
    match after_hex_prefix(unsigned) {
        Some(digits) => Some(fast_float::from_parts(negative, hex_u64(digits)?, 0)),
        None => Some(decimal_parts(unsigned)?.to_float(negative)),
    }
}

// The infinity with the sign given.
fn infinity(negative: bool) -> f64
    ensures { result ≡ inf negative }
{
    if negative {
        f64::NEG_INFINITY
    } else {
        f64::INFINITY
    }
}
