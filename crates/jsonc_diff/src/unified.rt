//! The unified diff of two texts.
ghost use Rattle.std.specs.Prelude.{◌≡◌, IfOk, string_bytes};
ghost use Rattle.jsonc_diff.specs.Diffs.{IsUnifiedDiff};

use crate::hunks::hunks_of;
use crate::lines::lines_of;
use crate::script::script_of;
use std::alloc::{AllocError, Allocator};

/// The unified diff that makes the new text of the old one, as `diff -u` writes it, without times. Where the texts are the
/// same it is empty.
///
/// Lines end with a line feed. Three lines that stay are shown around others. The name stands for both texts. Of `a`, `b` and
/// `c` on lines of their own, and `a` and `c`, it is
///
/// ```text
/// --- f
/// +++ f
/// @@ -1,3 +1,2 @@
///  a
/// -b
///  c
/// ```
///
/// That it is short is not promised: where a line differs, the next one that both texts have is looked for among a hundred.
/// The time is linear in the texts, but for the lengths of lines that are compared.
pub fn unified_diff<A: Allocator + Copy>(
    alloc: A,
    name: &str,
    old: &str,
    new: &str,
) -> Result<String<A>, AllocError>
    ensures { IfOk result (λ diff. IsUnifiedDiff name.now old.now new.now (string_bytes diff)) }
{
    let olds = lines_of(alloc, old)?;
    let news = lines_of(alloc, new)?;
    let steps = script_of(alloc, olds.as_slice(), news.as_slice())?;
    let hunks = hunks_of(alloc, steps.as_slice())?;
    if hunks.is_empty() {
        return Ok(hunks);
    }
    format!(in alloc; "--- {name}\n+++ {name}\n{hunks}")
}
