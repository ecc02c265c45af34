//! What a text may hold beyond JSON.
ghost use Rattle.std.specs.Prelude.{◌≡◌, true};
ghost use Rattle.jsonc_text.specs.Options.{all_on, json_with_comments, plain_json};
ghost use Rattle.jsonc_text.specs.OptionsOf.{parse_options, scanner_options};

use std::default::Default;

/// What a scanner reads beyond JSON. Each flag is on by default.
#[derive(Debug, Drop)]
pub struct ScannerOptions {
    /// Strings in single quotes.
    pub allow_single_quoted_strings: bool,
    /// Hexadecimal numbers, as `0xFF`.
    pub allow_hexadecimal_numbers: bool,
    /// A plus sign before a number, as `+42`.
    pub allow_unary_plus_numbers: bool,
    /// A number that begins or ends with its decimal point, as `.5` or `5.`.
    pub allow_bare_decimal_point_numbers: bool,
    /// `Infinity` and `NaN`, with or without a sign.
    pub allow_non_finite_numbers: bool,
    /// The escapes of JSON5, as `\x41`, `\v` and line continuations.
    pub allow_extended_string_escapes: bool,
}

impl Default for ScannerOptions {
    fn default() -> Self
        ensures { scanner_options result ≡ all_on }
    {
        ScannerOptions {
            allow_single_quoted_strings: true,
            allow_hexadecimal_numbers: true,
            allow_unary_plus_numbers: true,
            allow_bare_decimal_point_numbers: true,
            allow_non_finite_numbers: true,
            allow_extended_string_escapes: true,
        }
    }
}

/// What a text may hold beyond JSON. Each flag is on by default.
#[derive(Clone, Debug, Drop)]
pub struct ParseOptions {
    /// Comments, from `//` to the end of the line and between `/*` and `*/`.
    pub allow_comments: bool,
    /// Words, numbers, `true`, `false` and `null` as names of properties.
    pub allow_loose_object_property_names: bool,
    /// A comma after the last element of an array or property of an object.
    pub allow_trailing_commas: bool,
    /// Neighbouring elements and properties without a comma between them.
    pub allow_missing_commas: bool,
    /// Strings in single quotes.
    pub allow_single_quoted_strings: bool,
    /// Hexadecimal numbers, as `0xFF`.
    pub allow_hexadecimal_numbers: bool,
    /// A plus sign before a number, as `+42`.
    pub allow_unary_plus_numbers: bool,
    /// A number that begins or ends with its decimal point, as `.5` or `5.`.
    pub allow_bare_decimal_point_numbers: bool,
    /// `Infinity` and `NaN`, with or without a sign.
    pub allow_non_finite_numbers: bool,
    /// The escapes of JSON5, as `\x41`, `\v` and line continuations.
    pub allow_extended_string_escapes: bool,
}

impl Default for ParseOptions {
    fn default() -> Self
        ensures { parse_options result ≡ all_on }
    {
        ParseOptions::of_scanner(&ScannerOptions::default())
    }
}

impl ParseOptions {
    /// The options of JSON, each of them off.
    ///
    /// The grammar is a little wider than JSON's then: an empty text is a document, a string may hold
    /// control characters, and a name may stand twice in an object.
    pub fn json() -> ParseOptions
        ensures { parse_options result ≡ plain_json }
    {
        ParseOptions {
            allow_comments: false,
            allow_loose_object_property_names: false,
            allow_trailing_commas: false,
            allow_missing_commas: false,
            allow_single_quoted_strings: false,
            allow_hexadecimal_numbers: false,
            allow_unary_plus_numbers: false,
            allow_bare_decimal_point_numbers: false,
            allow_non_finite_numbers: false,
            allow_extended_string_escapes: false,
        }
    }

    /// The options of JSON with comments, as VS Code reads its settings: comments and trailing commas.
    pub fn jsonc() -> ParseOptions
        ensures { parse_options result ≡ json_with_comments }
    {
        let mut options = ParseOptions::json();
        options.allow_comments = true;
        options.allow_trailing_commas = true;
        options
    }

    /// The options of a scanner, with all else on.
    pub fn of_scanner(options: &ScannerOptions) -> ParseOptions
        ensures { parse_options result ≡ scanner_options options.now }
    {
        ParseOptions {
            allow_comments: true,
            allow_loose_object_property_names: true,
            allow_trailing_commas: true,
            allow_missing_commas: true,
            allow_single_quoted_strings: options.allow_single_quoted_strings,
            allow_hexadecimal_numbers: options.allow_hexadecimal_numbers,
            allow_unary_plus_numbers: options.allow_unary_plus_numbers,
            allow_bare_decimal_point_numbers: options.allow_bare_decimal_point_numbers,
            allow_non_finite_numbers: options.allow_non_finite_numbers,
            allow_extended_string_escapes: options.allow_extended_string_escapes,
        }
    }

    /// A copy of the options. Nothing is allocated.
    pub fn copied(&self) -> ParseOptions
        ensures { result ≡ self.now }
    {
        ParseOptions {
            allow_comments: self.allow_comments,
            allow_loose_object_property_names: self.allow_loose_object_property_names,
            allow_trailing_commas: self.allow_trailing_commas,
            allow_missing_commas: self.allow_missing_commas,
            allow_single_quoted_strings: self.allow_single_quoted_strings,
            allow_hexadecimal_numbers: self.allow_hexadecimal_numbers,
            allow_unary_plus_numbers: self.allow_unary_plus_numbers,
            allow_bare_decimal_point_numbers: self.allow_bare_decimal_point_numbers,
            allow_non_finite_numbers: self.allow_non_finite_numbers,
            allow_extended_string_escapes: self.allow_extended_string_escapes,
        }
    }
}
