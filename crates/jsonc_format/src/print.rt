//! The formatted text, piece by piece.
ghost use Rattle.std.specs.Prelude.{◌≡◌, ◌++◌, IfOk, IfErr, OnOk, chars, slice_range};
ghost use Rattle.jsonc_text.specs.Lexemes.{Scanned};
ghost use Rattle.jsonc_text.specs.OptionsOf.{parse_options};
ghost use Rattle.jsonc_text.specs.Text.{rest, Spans};
ghost use Rattle.jsonc_format.specs.Classes.{IsOf};
ghost use Rattle.jsonc_format.specs.Flags.{flats_of};
ghost use Rattle.jsonc_format.specs.Format.{Piece, IsPieces};
ghost use Rattle.jsonc_format.specs.Gaps.{AreEnds};
ghost use Rattle.jsonc_format.specs.Pieces.{piece_at, IsPiecesError};
ghost use Rattle.jsonc_format.specs.Printing.{IsPrinted, PutsRead, last_line_end};
ghost use Rattle.jsonc_format.specs.Writing.{style_in, text_of};

use crate::class::Class;
use crate::gaps::{Ends, ends_between, ends_in};
use crate::output::{Layout, put};
use crate::scan::{leads_from, next_piece};
use crate::stop::Stop;
use crate::track::Track;
use jsonc_scan::found::TokenContent;
use jsonc_scan::scanner::Scanner;
use jsonc_text::options::ParseOptions;
use jsonc_text::string::stops::stop_place;
use std::alloc::Allocator;

/// A piece by its places: where the blanks before it begin, where it begins, and where it ends; and what ends in those blanks.
#[derive(Clone, Copy, Drop)]
pub(crate) struct Read {
    pub class: Class,
    pub from: usize,
    pub start: usize,
    pub end: usize,
    pub ends: Ends,
}

/// Writes a piece of a text and what is before it.
fn put_read<A: Allocator + Copy>(
    alloc: A,
    text: &str,
    options: &ParseOptions,
    layout: &Layout<'_>,
    track: &mut Track<'_, A>,
    out: &mut String<A>,
    read: Read,
) -> Result<(), Stop>
    requires piece { Spans text.now read.start read.end }
    requires ends { AreEnds read.ends (chars (slice_range text.now read.from read.start)) }
    ensures put { (w : Scanned) → IsOf read.class w → OnOk result (PutsRead (parse_options options.now) text.now (style_in layout.now) read w track.old track.new (text_of out.old) (text_of out.new)) }
    ensures refused { IfErr result (IsPiecesError (parse_options options.now) (rest text.now read.end)) }
{
    let leading = leads_from(
        alloc,
        text,
        options,
        read.class,
        read.end,
        track.beside.comment,
    )?;
    let written = &text[read.start..read.end];
    let Ok(()) = track.put(out, layout, read.class, read.ends, written, leading) else {
        return Err(Stop::Memory);
    };
    Ok(())
}

/// What is written, with the end of the last line, if there is one.
fn end_with<A: Allocator>(out: String<A>, line_end: &str, begun: bool) -> Result<String<A>, Stop>
    ensures written { IfOk result (λ s. text_of s ≡ text_of out ++ last_line_end begun (chars line_end.now)) }
    ensures memory { IfErr result (λ e. e ≡ Stop.Memory) }
{
    let mut out = out;
    if !begun {
        return Ok(out);
    }
    let Ok(()) = put(&mut out, line_end) else {
        return Err(Stop::Memory);
    };
    Ok(out)
}

/// A text in this layout, whose containers are on one line or not as these flags say.
#[inline(never)]
pub(crate) fn print<A: Allocator + Copy>(
    alloc: A,
    text: &str,
    options: &ParseOptions,
    layout: &Layout<'_>,
    flat: &[bool],
) -> Result<String<A>, Stop>
    ensures printed { IfOk result (λ s. IsPrinted (parse_options options.now) (style_in layout.now) text.now flat.now (text_of s)) }
    ensures refused { IfErr result (IsPiecesError (parse_options options.now) (chars text.now)) }
{
    let mut scanner = Scanner::with_options(alloc, text, options.copied());
    let mut content = TokenContent::new();
    let Ok(mut out) = String::with_capacity(alloc, text.len()) else {
        return Err(Stop::Memory);
    };
    let mut track = Track::new(alloc, flat);
    let mut from = 0;
    let mut line_end = stop_place(text, 0, b'\n', b'\r');
    'pieces: loop {
        let found = next_piece(&mut scanner, &mut content)?;
        let Some(kind) = found else {
            return end_with(out, layout.line_end, track.begun);
        };
        let start = scanner.token_start();
        let end = scanner.token_end();
        let ends = ends_in(text, from, start, &mut line_end);
        ends_between(text, start, end, &mut line_end);
        let read = Read {
            class: Class::of(kind),
            from,
            start,
            end,
            ends,
        };
        put_read(alloc, text, options, layout, &mut track, &mut out, read)?;
        from = end;
    }
}
