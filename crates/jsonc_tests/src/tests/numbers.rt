//! Numbers read from their texts, and compared.

use failing_alloc::in_turn::refused_in_turn;
use failing_alloc::outcome::Outcome;
use jsonc_parser::numbers::{parse_f64, parse_i64, parse_u64};
use jsonc_parser::patch::same_number;
use std::alloc::Allocator;
use std::num::f64_to_bits_with_nan;

/// A number's text, and the `u64` and the `i64` that it writes.
static INTEGERS: [(&str, Option<u64>, Option<i64>); 33] = [
    ("7", Some(7), Some(7)),
    ("-7", None, Some(-7)),
    ("+7", Some(7), Some(7)),
    ("0", Some(0), Some(0)),
    ("-2.50e1", None, Some(-25)),
    ("-0", Some(0), Some(0)),
    (".0", Some(0), Some(0)),
    ("-0x1F", None, Some(-31)),
    ("1.", Some(1), Some(1)),
    ("1.0", Some(1), Some(1)),
    ("9223372036854775808", Some(9223372036854775808), None),
    ("1e3", Some(1000), Some(1000)),
    ("1E+3", Some(1000), Some(1000)),
    ("-9223372036854775808", None, Some(i64::MIN)),
    ("100e-2", Some(1), Some(1)),
    (".5e1", Some(5), Some(5)),
    ("-9223372036854775809", None, None),
    ("0e99999999999999999999", Some(0), Some(0)),
    ("0x1F", Some(31), Some(31)),
    ("18446744073709551615", Some(u64::MAX), None),
    ("0X1f", Some(31), Some(31)),
    ("+0x1F", Some(31), Some(31)),
    ("0xFFFFFFFFFFFFFFFF", Some(u64::MAX), None),
    ("-0x0", Some(0), Some(0)),
    ("0x00000000000000000001", Some(1), Some(1)),
    ("18446744073709551616", None, None),
    (
        "9223372036854775807",
        Some(9223372036854775807),
        Some(i64::MAX),
    ),
    ("0x10000000000000000", None, None),
    ("1.5", None, None),
    ("1e-1", None, None),
    ("1e400", None, None),
    ("NaN", None, None),
    ("-Infinity", None, None),
];

/// A number's text, and the bits of the nearest `f64` (IEEE 754, binary64).
static FLOATS: [(&str, u64); 24] = [
    ("0.1", 0x3fb9_9999_9999_999a),
    ("-0.1", 0xbfb9_9999_9999_999a),
    ("+1", 0x3ff0_0000_0000_0000),
    ("1.", 0x3ff0_0000_0000_0000),
    (".5", 0x3fe0_0000_0000_0000),
    ("-.5e3", 0xc07f_4000_0000_0000),
    ("1E+3", 0x408f_4000_0000_0000),
    ("0", 0x0000_0000_0000_0000),
    ("-0", 0x8000_0000_0000_0000),
    ("-0x0", 0x8000_0000_0000_0000),
    ("9007199254740993", 0x4340_0000_0000_0000),
    ("0x20000000000001", 0x4340_0000_0000_0000),
    ("0x1F", 0x403f_0000_0000_0000),
    ("-0X1f", 0xc03f_0000_0000_0000),
    ("0xFFFFFFFFFFFFFFFF", 0x43f0_0000_0000_0000),
    ("1.7976931348623157e308", 0x7fef_ffff_ffff_ffff),
    ("1e400", 0x7ff0_0000_0000_0000),
    ("-1e400", 0xfff0_0000_0000_0000),
    ("5e-324", 0x0000_0000_0000_0001),
    ("1e-400", 0x0000_0000_0000_0000),
    ("Infinity", 0x7ff0_0000_0000_0000),
    ("+Infinity", 0x7ff0_0000_0000_0000),
    ("-Infinity", 0xfff0_0000_0000_0000),
    ("-NaN", 0x7ff8_0000_0000_0000),
];

/// Texts that are no numbers.
static OTHERS: [&str; 34] = [
    "", "abc", "1_000", "inf", "nan", "NAN", "infinity", "0x", "-0x", " 1", "1 ", "1e", "1e+",
    "01", "-01", "00", "--1", "+-1", ".", "-", "+", "0x1G", "0x+1", "0x-1", "0x1.0", "0b1",
    "1.2.3", ".e1", "1n", "e1", "1,5", "NaN1", "é", "１",
];

#[test]
fn integers_are_exact(rt: HostRuntime) {
    for (text, unsigned, signed) in &INTEGERS {
        assert_eq!(rt; parse_u64(text), *unsigned, "{text}");
        assert_eq!(rt; parse_i64(text), *signed, "{text}");
    }
}

#[test]
fn floats_are_the_nearest(rt: HostRuntime) {
    for (text, bits) in &FLOATS {
        let Some(x) = parse_f64(text) else {
            return assert!(rt; false, "{text}");
        };
        assert_eq!(rt; f64_to_bits_with_nan(x), *bits, "{text}");
    }
    assert!(rt; parse_f64("0x10000000000000000").is_none());
}

#[test]
fn other_texts_are_no_numbers(rt: HostRuntime) {
    for text in &OTHERS {
        assert_eq!(rt; parse_u64(text), None, "{text}");
        assert_eq!(rt; parse_i64(text), None, "{text}");
        assert!(rt; parse_f64(text).is_none(), "{text}");
    }
}

/// Two texts of numbers, and whether they have one value.
type Pair<'a> = (&'a str, &'a str, bool);

static PAIRS: [Pair; 27] = [
    ("1", "1.0", true),
    ("1", "1e0", true),
    ("10", "1e1", true),
    ("100e-2", "1", true),
    ("1.50", "15e-1", true),
    (".5", "+5.e-1", true),
    ("1", "-1", false),
    ("1", "10", false),
    ("12", "21", false),
    ("-0", "0", true),
    ("0.00", "-0e5", true),
    ("0", "1e-99999999999999999999", false),
    ("1e99999999999999999999", "0.1e100000000000000000000", true),
    ("1e99999999999999999999", "1e99999999999999999998", false),
    ("1e-99999999999999999999", "10e-100000000000000000000", true),
    ("1e5", "1e-5", false),
    ("0x1F", "31", true),
    ("-0X1f", "-3.1e1", true),
    ("0xF", "0x00f", true),
    ("0xF", "0x1F", false),
    (
        "340282366920938463463374607431768211456",
        "0x100000000000000000000000000000000",
        true,
    ),
    (
        "340282366920938463463374607431768211457",
        "0x100000000000000000000000000000000",
        false,
    ),
    ("Infinity", "+Infinity", true),
    ("Infinity", "-Infinity", false),
    ("NaN", "-NaN", true),
    ("NaN", "Infinity", false),
    ("one", "one", true),
];

fn compared<A: Allocator + Copy>(alloc: A, pair: &Pair<'_>) -> Outcome {
    Outcome::of_answer(same_number(alloc, pair.0, pair.1), &pair.2).then(Outcome::of_answer(
        same_number(alloc, pair.1, pair.0),
        &pair.2,
    ))
}

#[test]
fn numbers_are_compared_with_each_request_refused_in_turn(rt: HostRuntime) {
    let alloc = rt.alloc();
    for pair in &PAIRS {
        assert!(rt;
            refused_in_turn(alloc, |heap| compared(heap, pair)).is_some(),
            "{} {}",
            pair.0,
            pair.1
        );
    }
}
