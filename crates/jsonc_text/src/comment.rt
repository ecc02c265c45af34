//! Where a block comment ends.
ghost use Rattle.std.specs.Prelude.{IsCharBoundary, IfSome, IfNone};
ghost use Rattle.jsonc_text.specs.string.Between.{NoneFrom};
ghost use Rattle.jsonc_text.specs.Comments.{HoldsBlock};
ghost use Rattle.jsonc_text.specs.Gaps.{UpToBlockEnd};

use crate::runs::byte_stop;

/// The place of the first `*/` from `start` on, or none.
pub fn block_close(text: &str, start: usize) -> Option<usize>
    requires { IsCharBoundary text.now start }
    ensures found { IfSome result (HoldsBlock text.now start) }
    ensures none { IfNone result (NoneFrom UpToBlockEnd text.now start) }
{
    let bytes = text.as_bytes();
    let mut slash = byte_stop(bytes, start, b'/', b'/');
    while slash < bytes.len() {
        if start < slash && bytes[slash - 1] == b'*' {
            return Some(slash - 1);
        }
        slash = byte_stop(bytes, slash + 1, b'/', b'/');
    }
    None
}
