//! Texts that are one comment.

ghost use Rattle.std.specs.Prelude.{◌≡◌, ◌∷◌, IfNone, IfSome, IsCharBoundary, [], chars};
ghost use Rattle.jsonc_text.specs.Gaps.{IsComment};
ghost use Rattle.jsonc_text.specs.Text.{rest};
ghost use Rattle.jsonc_tree.specs.Content.{Content};
ghost use Rattle.jsonc_sound.specs.Lines.{is_line_comment};
ghost use Rattle.jsonc_edit.specs.commenting.Whole.{is_line, IsWhole};

use jsonc_text::chars::has_byte;
use jsonc_text::comment::block_close;
use jsonc_text::string::stops::stop_place;

/// What a comment begins and ends with.
#[derive(Clone, Copy, Debug, PartialEq, Eq)]
pub enum CommentKind {
    /// It begins with `//`, and ends with its line.
    Line,
    /// It stands between `/*` and `*/`.
    Block,
}

// Whether a text that begins with `//` is one comment.
fn line_kind(text: &str) -> Option<CommentKind>
    requires front { chars text.now ≡ 0x2F ∷ 0x2F ∷ rest text.now 2 }
    requires boundary { IsCharBoundary text.now 2 }
    ensures some { IfSome result (λ kind. IsWhole kind (chars text.now)) }
    ensures line { IfSome result (λ kind. is_line kind ≡ is_line_comment (Content.comment text.now)) }
    ensures none { IfNone result (IsComment (chars text.now) [] → ⊥) }
{
    if stop_place(text, 2, b'\n', b'\r') < text.len() {
        return None;
    }
    Some(CommentKind::Line)
}

// Whether a text that begins with `/*` is one.
fn block_kind(text: &str) -> Option<CommentKind>
    requires front { chars text.now ≡ 0x2F ∷ 0x2A ∷ rest text.now 2 }
    requires boundary { IsCharBoundary text.now 2 }
    ensures some { IfSome result (λ kind. IsWhole kind (chars text.now)) }
    ensures line { IfSome result (λ kind. is_line kind ≡ is_line_comment (Content.comment text.now)) }
    ensures none { IfNone result (IsComment (chars text.now) [] → ⊥) }
{
    let Some(close) = block_close(text, 2) else {
        return None;
    };
    if close + 2 < text.len() {
        return None;
    }
    Some(CommentKind::Block)
}

/// What a text begins and ends with that is one comment, or none where it is anything else.
///
/// A comment that begins with `//` holds no LF and no CR, and the first `*/` after a `/*` ends the text.
pub fn comment_kind(text: &str) -> Option<CommentKind>
    ensures some { IfSome result (λ kind. IsWhole kind (chars text.now)) }
    ensures line { IfSome result (λ kind. is_line kind ≡ is_line_comment (Content.comment text.now)) }
    ensures none { IfNone result (IsComment (chars text.now) [] → ⊥) }
{
    if !has_byte(text, 0, b'/') {
        return None;
    }
    if has_byte(text, 1, b'/') {
        return line_kind(text);
    }
    if !has_byte(text, 1, b'*') {
        return None;
    }
    block_kind(text)
}
