//! Which blanks are written before a piece.
ghost use Rattle.std.specs.Prelude.{◌≡◌, not};
ghost use Rattle.jsonc_format.specs.Classes.{closes_by, separates_by};
ghost use Rattle.jsonc_format.specs.Writing.{gap_by, gap_in_line_by, gap_on_lines_by};

use crate::class::Class;
use crate::gaps::Ends;
use crate::state::{Beside, Frame};

/// What is written before a piece.
#[derive(Clone, Copy, Drop)]
pub(crate) enum Gap {
    Nothing,
    Space,
    /// A line begins, with one level of indent more or not, and after a blank line or not.
    Line(bool, bool),
    /// A line begins with the last bracket of the innermost container, whose lines have one level more or not.
    LastLine(bool),
}

/// In a container on one line.
fn gap_in_line(object: bool, bare: bool, class: Class) -> Gap
    ensures { result ≡ gap_in_line_by object bare (separates_by class) (closes_by class) }
{
    if class.separates() {
        return Gap::Nothing;
    }
    if (bare | class.closes()) & !object {
        return Gap::Nothing;
    }
    Gap::Space
}

/// In a container on several lines, or in none, where the piece does not close it.
fn gap_on_lines(beside: Beside, class: Class, ends: Ends, leads: bool) -> Gap
    ensures { result ≡ gap_on_lines_by beside (separates_by class) (not ends.any) ends.several leads }
{
    if beside.line {
        if class.separates() | beside.in_property {
            return Gap::Line(beside.shifted, false);
        }
        return Gap::Line(beside.shifted, ends.several);
    }
    if class.separates() {
        return Gap::Nothing;
    }
    if beside.in_property {
        return Gap::Space;
    }
    if !ends.any & (beside.comment | !leads) {
        return Gap::Space;
    }
    if beside.bare {
        return Gap::Line(beside.shifted, false);
    }
    Gap::Line(beside.shifted, ends.several)
}

/// Inside this innermost container, or none. An entry begins with the piece, or after it on its line past block comments, where
/// `leads` says so.
pub(crate) fn gap_before(
    inner: Option<Frame>,
    beside: Beside,
    class: Class,
    ends: Ends,
    leads: bool,
) -> Gap
    ensures { result ≡ gap_by inner beside (separates_by class) (closes_by class) (not ends.any) ends.several leads }
{
    let Some(frame) = inner else {
        return gap_on_lines(beside, class, ends, leads);
    };
    if beside.bare & class.closes() {
        return Gap::Nothing;
    }
    if !frame.spread {
        return gap_in_line(frame.object, beside.bare, class);
    }
    if class.closes() {
        return Gap::LastLine(frame.shifted);
    }
    gap_on_lines(beside, class, ends, leads)
}
