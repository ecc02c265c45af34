//! The pieces of a text, one after another.
ghost use Rattle.std.specs.Prelude.{◌≡◌, ◌≢◌, IfOk, IfErr, OnOk, List, ℕ, IsCharBoundary, IsUtf8, false};
ghost use Rattle.jsonc_scan.specs.Scanner.{PassesBlanks, IsThere, seen, left, options_of, text_of};
ghost use Rattle.jsonc_text.specs.OptionsOf.{parse_options};
ghost use Rattle.jsonc_text.specs.Lexemes.{Scanned};
ghost use Rattle.jsonc_text.specs.Text.{rest};
ghost use Rattle.jsonc_format.specs.Classes.{IsOf};
ghost use Rattle.jsonc_format.specs.Format.{leads, Piece};
ghost use Rattle.jsonc_format.specs.Pieces.{HasNoPieces, Leads, LeadsOn};

use crate::class::Class;
use crate::gaps::has_line_end;
use crate::stop::Stop;
use jsonc_scan::found::{TokenContent, TokenKind};
use jsonc_scan::scanner::Scanner;
use jsonc_text::options::ParseOptions;
use std::alloc::Allocator;

/// The kind of the next piece, or none at the end of the text.
#[inline(always)]
pub(crate) fn next_piece<'a, A: Allocator + Copy>(
    scanner: &mut Scanner<'a, A>,
    content: &mut TokenContent<'a, A>,
) -> Result<Option<TokenKind>, Stop>
    ensures blanks { OnOk result (PassesBlanks scanner.old scanner.new) }
    ensures found { IfOk result (λ f. IsThere scanner.new (seen scanner.new content.new f)) }
    ensures none { IfErr result (λ _. IsUtf8 (text_of scanner.new) → HasNoPieces (options_of scanner.old) (left scanner.old)) }
    ensures text { text_of scanner.new ≡ text_of scanner.old }
{
    if let Some(kind) = scanner.step_plain(content, &false) {
        return Ok(Some(kind));
    }
    match scanner.step(content, false) {
        Ok(found) => Ok(found),
        Err(_) => Err(Stop::NoPieces),
    }
}

/// Whether an entry begins on this line after the place, past block comments.
#[inline(never)]
fn leads_after<A: Allocator + Copy>(
    alloc: A,
    text: &str,
    options: &ParseOptions,
    place: usize,
) -> Result<bool, Stop>
    requires { IsCharBoundary text.now place }
    ensures found { IfOk result (LeadsOn (parse_options options.now) (rest text.now place)) }
    ensures none { IfErr result (λ _. HasNoPieces (parse_options options.now) (rest text.now place)) }
{
    let mut scanner = Scanner::with_options(alloc, text, options.copied());
    scanner.pass_to(place);
    let mut content = TokenContent::new();
    let mut from = place;
    'pieces: loop {
        let found = next_piece(&mut scanner, &mut content)?;
        let Some(kind) = found else {
            return Ok(false);
        };
        let start = scanner.token_start();
        if has_line_end(&text[from..start]) {
            return Ok(false);
        }
        let class = Class::of(kind);
        let Class::BlockComment = class else {
            return Ok(leads_alone(class));
        };
        from = scanner.token_end();
    }
}

/// Whether an entry begins with a piece that is no block comment.
fn leads_alone(class: Class) -> bool
    requires { class ≢ Class.BlockComment }
    ensures { (w : Scanned) (ps : List Piece) → IsOf class w → leads w ps ≡ result }
{
    match class {
        Class::Close => false,
        Class::Comma => false,
        Class::Colon => false,
        Class::BlockComment => false,
        Class::LineComment => false,
        _ => true,
    }
}

/// Whether an entry begins with a piece that ends at a place, or after it on its line past block comments. What is answered of a block
/// comment that follows a comment is never asked.
pub(crate) fn leads_from<A: Allocator + Copy>(
    alloc: A,
    text: &str,
    options: &ParseOptions,
    class: Class,
    place: usize,
    comment: bool,
) -> Result<bool, Stop>
    requires { IsCharBoundary text.now place }
    ensures found { IfOk result (λ b. comment ≡ false → Leads (parse_options options.now) class (rest text.now place) b) }
    ensures none { IfErr result (λ _. HasNoPieces (parse_options options.now) (rest text.now place)) }
{
    let Class::BlockComment = class else {
        return Ok(leads_alone(class));
    };
    if comment {
        return Ok(false);
    }
    leads_after(alloc, text, options, place)
}
