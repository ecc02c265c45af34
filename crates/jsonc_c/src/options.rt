//! What a text may hold beyond JSON, as the bits of a number.
ghost use Rattle.std.specs.Prelude.{◌≡◌};
ghost use Rattle.jsonc_text.specs.OptionsOf.{parse_options};
ghost use Rattle.jsonc_c.specs.Options.{has_bit, options_of};

use jsonc_parser::ParseOptions;

/// Whether the bit of this weight is set.
fn has_bit(bits: u32, weight: u32) -> bool
    ensures { result ≡ has_bit bits weight }
{
    bits & weight != 0
}

/// The options whose bits are set. Bits past the tenth are passed over.
pub(crate) fn options_of(bits: u32) -> ParseOptions
    ensures { parse_options result ≡ options_of bits }
{
    ParseOptions {
        allow_comments: has_bit(bits, 1),
        allow_loose_object_property_names: has_bit(bits, 2),
        allow_trailing_commas: has_bit(bits, 4),
        allow_missing_commas: has_bit(bits, 8),
        allow_single_quoted_strings: has_bit(bits, 16),
        allow_hexadecimal_numbers: has_bit(bits, 32),
        allow_unary_plus_numbers: has_bit(bits, 64),
        allow_bare_decimal_point_numbers: has_bit(bits, 128),
        allow_non_finite_numbers: has_bit(bits, 256),
        allow_extended_string_escapes: has_bit(bits, 512),
    }
}
