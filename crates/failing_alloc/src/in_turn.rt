//! Each request for memory of a call, refused in turn.

use crate::Refusing;
use crate::outcome::Outcome;
use std::alloc::Global;

/// Refuses each request of a call in turn, until none is refused.
///
/// The answer is how many were, and whether the call wanted memory each time; there is none where it did
/// neither want memory nor answer right, did not give all memory back, or did not answer in the end.
fn in_turn<C: Fn(&Refusing<Global>) -> Outcome>(alloc: Global, call: C) -> Option<(u64, bool)>
    requires { C.IsAlwaysCallable call }
{
    let mut wants_each_time = true;
    for number in 0..1000u64 {
        let heap = Refusing::at(alloc, number);
        let outcome = call(&heap);
        let was_refused = heap.asked() > number;
        match outcome {
            _ if !heap.has_all_back() => return None,
            Outcome::Wanted if was_refused => {}
            Outcome::Answered if was_refused => wants_each_time = false,
            Outcome::Answered => return Some((number, wants_each_time)),
            _ => return None,
        }
    }
    None
}

/// Refuses each request of a call in turn, until none is refused.
///
/// The answer is how many were, where the call wanted memory each time and then answered.
pub fn refused_in_turn<C: Fn(&Refusing<Global>) -> Outcome>(alloc: Global, call: C) -> Option<u64>
    requires { C.IsAlwaysCallable call }
{
    match in_turn(alloc, call) {
        Some((count, true)) => Some(count),
        _ => None,
    }
}

/// Whether a call makes requests, and wants memory with each of them refused in turn, and then answers.
pub fn is_refused_in_turn<C: Fn(&Refusing<Global>) -> Outcome>(alloc: Global, call: C) -> bool
    requires { C.IsAlwaysCallable call }
{
    matches!(in_turn(alloc, call), Some((1.., true)))
}

/// Refuses each request of a call in turn, until none is refused, and tells whether the call wanted memory
/// or answered right each time, and answered then.
///
/// A list that is collected asks again for less where its first request was refused, so a call may answer
/// though one was.
pub fn answers_in_turn<C: Fn(&Refusing<Global>) -> Outcome>(alloc: Global, call: C) -> bool
    requires { C.IsAlwaysCallable call }
{
    in_turn(alloc, call).is_some()
}
