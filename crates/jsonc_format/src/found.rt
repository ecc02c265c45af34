//! What a text tells of its style.
ghost use Rattle.std.specs.Prelude.{◌≡◌, IfOk, IfErr, chars, option_map};
ghost use Rattle.jsonc_text.specs.OptionsOf.{parse_options};
ghost use Rattle.jsonc_format.specs.Pieces.{IsPiecesError};
ghost use Rattle.jsonc_format.specs.Styles.{tells_level};
ghost use Rattle.jsonc_format.specs.Wishes.{IsLayoutOf, IsLevelOf, IsLineEndOf, IsWishedOr, level_text, line_end_text, wish_of};
ghost use Rattle.jsonc_format.specs.Writing.{style_in};

use crate::class::Class;
use crate::gaps::{first_line_end, has_line_end, last_line};
use crate::output::Layout;
use crate::scan::next_piece;
use crate::stop::Stop;
use crate::style::{Level, LineEnd, Style};
use jsonc_scan::found::TokenContent;
use jsonc_scan::scanner::Scanner;
use jsonc_text::options::ParseOptions;
use std::alloc::Allocator;

/// The first end of a line in the gaps of a text, or LF.
fn found_line_end<A: Allocator + Copy>(
    alloc: A,
    text: &str,
    options: &ParseOptions,
) -> Result<LineEnd, Stop>
    ensures found { IfOk result (λ e. IsLineEndOf (parse_options options.now) text.now (line_end_text e)) }
    ensures refused { IfErr result (IsPiecesError (parse_options options.now) (chars text.now)) }
{
    if !has_line_end(text) {
        return Ok(LineEnd::Lf);
    }
    let mut scanner = Scanner::with_options(alloc, text, options.copied());
    let mut content = TokenContent::new();
    let mut from = 0;
    'pieces: loop {
        let found = next_piece(&mut scanner, &mut content)?;
        let start = scanner.token_start();
        let ended = first_line_end(&text[from..start]);
        if let Some(end) = ended {
            return Ok(end);
        }
        let Some(_) = found else {
            return Ok(LineEnd::Lf);
        };
        from = scanner.token_end();
    }
}

/// Whether this beginning of a line, inside of so many containers, tells one level of indent.
fn tells_level(depth: usize, line: &str) -> bool
    ensures { result ≡ tells_level depth (chars line.now) }
{
    if depth == 0 {
        return false;
    }
    !line.is_empty()
}

/// The first indent in the value of a text that is not empty, or two spaces.
fn found_level<'a, A: Allocator + Copy>(
    alloc: A,
    text: &'a str,
    options: &ParseOptions,
) -> Result<&'a str, Stop>
    ensures found { IfOk result (λ level. IsLevelOf (parse_options options.now) text.now (chars level.now)) }
    ensures refused { IfErr result (IsPiecesError (parse_options options.now) (chars text.now)) }
{
    if !has_line_end(text) {
        return Ok("  ");
    }
    let mut scanner = Scanner::with_options(alloc, text, options.copied());
    let mut content = TokenContent::new();
    let mut from = 0;
    let mut depth = 0usize;
    'pieces: loop {
        let found = next_piece(&mut scanner, &mut content)?;
        let Some(kind) = found else {
            return Ok("  ");
        };
        let start = scanner.token_start();
        let line = last_line(&text[from..start]);
        if tells_level(depth, line) {
            return Ok(line);
        }
        depth = Class::of(kind).depth_after(depth);
        from = scanner.token_end();
    }
}

/// What ends a line: this, or what the text tells.
fn line_end_for<A: Allocator + Copy>(
    alloc: A,
    text: &str,
    options: &ParseOptions,
    wish: Option<LineEnd>,
) -> Result<&'static str, Stop>
    ensures found { IfOk result (λ s. IsWishedOr (option_map line_end_text wish) (IsLineEndOf (parse_options options.now) text.now) (chars s.now)) }
    ensures refused { IfErr result (IsPiecesError (parse_options options.now) (chars text.now)) }
{
    if let Some(end) = wish {
        return Ok(end.as_str());
    }
    let end = found_line_end(alloc, text, options)?;
    Ok(end.as_str())
}

/// One level of indent: this, or what the text tells.
fn level_for<'a, A: Allocator + Copy>(
    alloc: A,
    text: &'a str,
    options: &ParseOptions,
    wish: Option<Level>,
) -> Result<&'a str, Stop>
    ensures found { IfOk result (λ level. IsWishedOr (option_map level_text wish) (IsLevelOf (parse_options options.now) text.now) (chars level.now)) }
    ensures refused { IfErr result (IsPiecesError (parse_options options.now) (chars text.now)) }
{
    if let Some(level) = wish {
        return Ok(level.as_str());
    }
    found_level(alloc, text, options)
}

/// A style for a text.
#[inline(never)]
pub(crate) fn layout_of<'a, A: Allocator + Copy>(
    alloc: A,
    text: &'a str,
    options: &ParseOptions,
    style: &Style,
) -> Result<Layout<'a>, Stop>
    ensures found { IfOk result (λ l. IsLayoutOf (parse_options options.now) text.now (wish_of style.now) (style_in l)) }
    ensures refused { IfErr result (IsPiecesError (parse_options options.now) (chars text.now)) }
{
    let line_end = line_end_for(alloc, text, options, style.line_end)?;
    let level = level_for(alloc, text, options, style.level)?;
    Ok(Layout {
        line_end,
        level,
        expand: style.expand,
    })
}
