//! The dialects.
ghost use Rattle.std.specs.Prelude.{◌≡◌};
ghost use Rattle.jsonc_text.specs.OptionsOf.{parse_options};
ghost use Rattle.jsonc_program.specs.Dialect.{options_of};

use jsonc_parser::ParseOptions;
use jsonc_words::call::Dialect;

/// The options of a dialect.
pub fn options_of(dialect: Dialect) -> ParseOptions
    ensures { parse_options result ≡ options_of dialect }
{
    match dialect {
        Dialect::Json => ParseOptions::json(),
        Dialect::Jsonc => ParseOptions::jsonc(),
        Dialect::Json5 => {
            let mut options = ParseOptions::default();
            options.allow_missing_commas = false;
            options
        }
        Dialect::All => ParseOptions::default(),
    }
}
