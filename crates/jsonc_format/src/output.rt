//! What is written.
ghost use Rattle.std.specs.Prelude.{◌≡◌, ◌++◌, ◌∷◌, [], List, ℕ, OnOk, chars, None};
ghost use Rattle.jsonc_text.specs.Lexemes.{Scanned};
ghost use Rattle.jsonc_format.specs.Classes.{IsOf};
ghost use Rattle.jsonc_format.specs.Format.{indent, shift, without_first, written};
ghost use Rattle.jsonc_format.specs.Writing.{text_of, gap_text, open_frames, frames_of, style_in};

use crate::class::Class;
use crate::gap::Gap;
use crate::state::{Frame, Open};
use std::alloc::{AllocError, Allocator};

/// A style in which nothing is left to the text.
#[derive(Clone, Copy, Drop)]
pub(crate) struct Layout<'a> {
    pub line_end: &'a str,
    pub level: &'a str,
    pub expand: bool,
}

/// Writes characters. One of ASCII alone is put by itself, since a call that copies takes longer.
#[inline(always)]
pub(crate) fn put<A: Allocator>(out: &mut String<A>, text: &str) -> Result<(), AllocError>
    ensures { OnOk result (text_of out.new ≡ text_of out.old ++ chars text.now) }
{
    if let [byte] = text.as_bytes() {
        if *byte < 128 {
            return match out.push(*byte as char) {
                Ok(()) => Ok(()),
                Err(error) => Err(error),
            };
        }
    }
    match out.push_str(text) {
        Ok(()) => Ok(()),
        Err(error) => Err(error),
    }
}

/// Writes one level of indent, or nothing.
#[inline(always)]
fn put_shift<A: Allocator>(
    out: &mut String<A>,
    level: &str,
    shifted: bool,
) -> Result<(), AllocError>
    ensures { OnOk result (text_of out.new ≡ text_of out.old ++ shift (chars level.now) shifted) }
{
    if shifted {
        return put(out, level);
    }
    Ok(())
}

/// Writes the indent that a container adds.
#[inline(always)]
fn put_level<A: Allocator>(
    out: &mut String<A>,
    level: &str,
    shifted: bool,
) -> Result<(), AllocError>
    ensures { OnOk result (text_of out.new ≡ text_of out.old ++ (shift (chars level.now) shifted ++ chars level.now)) }
{
    put_shift(out, level, shifted)?;
    put(out, level)
}

/// Writes the indent that containers add, of which the last is the innermost.
fn put_levels<A: Allocator>(
    out: &mut String<A>,
    level: &str,
    frames: &[Frame],
) -> Result<(), AllocError>
    ensures { OnOk result (text_of out.new ≡ text_of out.old ++ indent (chars level.now) (frames_of None frames.now)) }
{
    let mut left = frames.len();
    while left > 0 {
        left -= 1;
        put_level(out, level, frames[left].shifted)?;
    }
    Ok(())
}

/// Writes the indent that all open containers add.
fn put_indent<A: Allocator>(
    out: &mut String<A>,
    level: &str,
    held: &Open<A>,
) -> Result<(), AllocError>
    ensures { OnOk result (text_of out.new ≡ text_of out.old ++ indent (chars level.now) (open_frames held.now)) }
{
    if let Some(frame) = held.inner {
        put_level(out, level, frame.shifted)?;
    }
    put_levels(out, level, held.outer.as_slice())
}

/// Writes what is written before a piece.
pub(crate) fn put_gap<A: Allocator>(
    out: &mut String<A>,
    layout: &Layout<'_>,
    held: &Open<A>,
    gap: Gap,
) -> Result<(), AllocError>
    ensures { OnOk result (text_of out.new ≡ text_of out.old ++ gap_text (style_in layout.now) (open_frames held.now) gap) }
{
    match gap {
        Gap::Nothing => Ok(()),
        Gap::Space => put(out, " "),
        Gap::Line(shifted, blank) => {
            put_shift(out, layout.line_end, blank)?;
            put(out, layout.line_end)?;
            put_shift(out, layout.level, shifted)?;
            put_indent(out, layout.level, held)
        }
        Gap::LastLine(shifted) => {
            put(out, layout.line_end)?;
            put_shift(out, layout.level, shifted)?;
            put_levels(out, layout.level, held.outer.as_slice())
        }
    }
}

/// Writes a piece: a line comment without the blanks that end it.
pub(crate) fn put_piece<A: Allocator>(
    out: &mut String<A>,
    class: Class,
    text: &str,
) -> Result<(), AllocError>
    ensures { (w : Scanned) → IsOf class w → OnOk result (text_of out.new ≡ text_of out.old ++ written w (chars text.now)) }
{
    match class {
        Class::LineComment => put(out, text.trim_end()),
        _ => put(out, text),
    }
}
