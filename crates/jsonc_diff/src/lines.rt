//! The lines of a text.
ghost use Rattle.std.specs.Prelude.{◌≡◌, ◌<◌, IfNone, IfOk, IfSome, [], length, map};
ghost use Rattle.jsonc_diff.specs.Lines.{AreLines, IsFirstLine};

use std::alloc::{AllocError, Allocator};

// The first line of a text, with its line feed, and what follows it. None where the text is empty.
fn first_line(text: &str) -> Option<(&str, &str)>
    ensures line { IfSome result (λ parts. IsFirstLine parts.0.now parts.1.now text.now) }
    ensures shorter { IfSome result (λ parts. length parts.1.now < length text.now) }
    ensures none { IfNone result (text.now ≡ []) }
{
    match text.find('\n') {
        Some(at) => Some(text.split_at(at + 1)),
        None if text.is_empty() => None,
        None => Some((text, "")),
    }
}

/// The lines of a text, each with the line feed that ends it; the last one may lack it.
pub(crate) fn lines_of<'a, A: Allocator>(
    alloc: A,
    text: &'a str,
) -> Result<Vec<&'a str, A>, AllocError>
    ensures { IfOk result (λ lines. AreLines (map (λ line. line.now) lines.items) text.now) }
{
    let mut lines = Vec::new(alloc);
    let mut rest = text;
    while let Some((line, after)) = first_line(rest) {
        lines.push(line)?;
        rest = after;
    }
    Ok(lines)
}
