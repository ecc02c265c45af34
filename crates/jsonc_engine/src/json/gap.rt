//! Blanks and comments between the tokens of a document.
ghost use Rattle.std.specs.Prelude.{◌≡◌, ◌++◌, IfNone, IfSome, IsCharBoundary, OnOk, chars, map};
ghost use Rattle.jsonc_text.specs.Gaps.{IsComment};
ghost use Rattle.jsonc_text.specs.Text.{rest};
ghost use Rattle.jsonc_text.specs.string.Between.{Between, NoneFrom};
ghost use Rattle.jsonc_engine.specs.Texts.{text_of};
ghost use Rattle.jsonc_engine.specs.Rewritten.{ComesNext, written_blank};

use super::output::put;
use jsonc_build::comment_end;
use jsonc_text::chars::{blanks_end, char_at, has_byte};
use std::alloc::{AllocError, Allocator};

// The first character at a place that is behind its gap, or none at the end.
pub(super) fn mark_behind(text: &str, place: usize) -> Option<char>
    requires { IsCharBoundary text.now place }
    ensures { ComesNext (rest text.now place) result }
{
    let mut end = blanks_end(text, place);
    while let Some(behind) = comment_at(text, end) {
        end = blanks_end(text, behind);
    }
    char_at(text, end)
}

// The place after the comment at a place, or none where no comment stands that is closed.
fn comment_at(text: &str, place: usize) -> Option<usize>
    requires { IsCharBoundary text.now place }
    ensures found { IfSome result (Between IsComment text.now place) }
    ensures none { IfNone result (NoneFrom IsComment text.now place) }
{
    if has_byte(text, place, b'/') {
        comment_end(text, place)
    } else {
        None
    }
}

// What is written for a blank.
fn written_blank(blank: char) -> char
    ensures { result ≡ written_blank blank }
{
    if (blank == '\t') | (blank == '\n') | (blank == '\r') {
        blank
    } else {
        ' '
    }
}

// Writes blanks.
pub(super) fn push_blanks<A: Allocator>(
    written: &mut String<A>,
    blanks: &str,
) -> Result<(), AllocError>
    ensures { OnOk result (text_of written.new ≡ text_of written.old ++ map written_blank (chars blanks.now)) }
{
    for blank in blanks.chars() {
        put(written, written_blank(blank))?;
    }
    Ok(())
}
