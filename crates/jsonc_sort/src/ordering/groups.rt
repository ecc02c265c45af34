//! Where groups begin.

ghost use Rattle.std.specs.Prelude.{◌≡◌, IfOk};
ghost use Rattle.jsonc_sort.specs.ordering.Groups.{group_starts};

use std::alloc::{AllocError, Allocator};

/// For each place of a row the place at which its group begins, where it is told of each place whether it
/// begins one.
pub fn group_starts<A: Allocator>(alloc: A, begins: &[bool]) -> Result<Vec<usize, A>, AllocError>
    ensures { IfOk result (λ v. v.items ≡ group_starts begins.now) }
{
    let mut starts = Vec::new(alloc);
    let mut start = 0;
    for (place, begins) in begins.iter().enumerate() {
        if *begins {
            start = place;
        }
        starts.push(start)?;
    }
    Ok(starts)
}
