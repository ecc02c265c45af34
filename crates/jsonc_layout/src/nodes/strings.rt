//! Strings at the front of a text, checked without memory.

ghost use Rattle.std.specs.Prelude.{◌≡◌, ◌≢◌, IfErr, IfOk};
ghost use Rattle.jsonc_layout.specs.nodes.Names.{HoldsString, IsNoString};

use jsonc_text::errors::ParseStringErrorKind;
use jsonc_text::string::escape::Literal;
use jsonc_text::string::pass::pass_string;
use jsonc_text::string::provider::opening_quote;

// Whether a string stands at the front of a text, or why none does.
fn check_string(text: &str) -> Result<(), ParseStringErrorKind>
    ensures found { IfOk result (λ _. HoldsString text.now) }
    ensures fault { IfErr result (IsNoString text.now) }
    ensures memory { IfErr result (λ kind. kind ≢ ParseStringErrorKind.OutOfMemory) }
{
    let Some(quote) = opening_quote(text, 0) else {
        return Err(ParseStringErrorKind::UnterminatedStringLiteral);
    };
    let literal = Literal {
        start: 0,
        quote,
        extended: true,
    };
    match pass_string(text, literal) {
        Ok(_) => Ok(()),
        Err(fault) => Err(fault.kind),
    }
}

// Why no string was decoded: where memory was wanted, what else is wrong with the text comes first.
pub(super) fn fault_of(text: &str, kind: ParseStringErrorKind) -> ParseStringErrorKind
    requires fault { kind ≢ ParseStringErrorKind.OutOfMemory → IsNoString text.now kind }
    ensures fault { result ≢ ParseStringErrorKind.OutOfMemory → IsNoString text.now result }
    ensures memory { result ≡ ParseStringErrorKind.OutOfMemory → HoldsString text.now }
{
    match kind {
        ParseStringErrorKind::OutOfMemory => match check_string(text) {
            Ok(()) => ParseStringErrorKind::OutOfMemory,
            Err(other) => other,
        },
        _ => kind,
    }
}
