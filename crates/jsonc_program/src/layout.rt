//! How a document is laid out, as the words say.
ghost use Rattle.std.specs.Prelude.{◌≡◌, option_map};
ghost use Rattle.jsonc_program.specs.Formatting.{IsLayoutOf, end_of, level_of, mode_of};

use jsonc_format::{Level, LineEnd, Style};
use jsonc_parser::cst::TrailingCommaMode;
use jsonc_words::call;
use jsonc_words::call::{Indent, TrailingCommas};

/// How a document is laid out.
#[derive(Clone, Copy, Debug)]
pub struct Layout {
    pub style: Style,
    /// Where trailing commas stand. Where it is `None` they stay.
    pub trailing_commas: Option<TrailingCommaMode>,
}

fn level_of(indent: Option<Indent>) -> Option<Level>
    ensures { result ≡ option_map level_of indent }
{
    match indent {
        None => None,
        Some(Indent::Spaces(count)) => Some(Level::Spaces(count)),
        Some(Indent::Tab) => Some(Level::Tab),
    }
}

fn end_of(line_end: Option<call::LineEnd>) -> Option<LineEnd>
    ensures { result ≡ option_map end_of line_end }
{
    match line_end {
        None => None,
        Some(call::LineEnd::Lf) => Some(LineEnd::Lf),
        Some(call::LineEnd::CrLf) => Some(LineEnd::CrLf),
    }
}

fn mode_of(commas: Option<TrailingCommas>) -> Option<TrailingCommaMode>
    ensures { result ≡ option_map mode_of commas }
{
    match commas {
        None => None,
        Some(TrailingCommas::Never) => Some(TrailingCommaMode::Never),
        Some(TrailingCommas::Multiline) => Some(TrailingCommaMode::IfMultiline),
    }
}

/// The layout that the options of the words ask for.
pub(crate) fn layout_of(
    indent: Option<Indent>,
    line_end: Option<call::LineEnd>,
    expand: bool,
    trailing_commas: Option<TrailingCommas>,
) -> Layout
    ensures { IsLayoutOf indent line_end expand trailing_commas result }
{
    Layout {
        style: Style {
            line_end: end_of(line_end),
            level: level_of(indent),
            expand,
        },
        trailing_commas: mode_of(trailing_commas),
    }
}
