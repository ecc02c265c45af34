//! The items of containers that have not ended, those of the outer ones first.
ghost use Rattle.std.specs.Prelude.{◌≡◌, ◌≤◌, length, take, drop, IfOk, OnOk};

use std::alloc::{AllocError, Allocator};
use std::mem;

/// So many items at least are taken with the room of their stack, if they are all that it has and fill half of it.
const LONG: usize = 1024;

/// Takes the items from this place on, in a vector of their own.
pub fn taken_from<T, A: Allocator + Copy>(
    stack: &mut Vec<T, A>,
    start: usize,
) -> Result<Vec<T, A>, AllocError>
    requires { start ≤ length stack.old.items }
    ensures left { OnOk result (stack.new.items ≡ take start stack.old.items) }
    ensures taken { IfOk result (λ v. v.items ≡ drop start stack.old.items) }
{
    if start == 0 && stack.len() >= LONG && stack.len() >= stack.capacity() / 2 {
        let alloc = *stack.allocator();
        return Ok(mem::replace(stack, Vec::new(alloc)));
    }
    stack.split_off(start)
}
