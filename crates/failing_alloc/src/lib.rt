//! What crates of tests share: an allocator that refuses some requests for memory, so that each request of
//! a call can be refused in turn, and counts what is not given back; what came of a call; flags of which one is up; a writer that takes no memory; and
//! a reader and a writer one of whose calls fails.
#![tactic(auto)]

pub mod awaited;
pub mod flags;
pub mod in_turn;
pub mod outcome;
pub mod streams;

use std::alloc::{AllocError, Allocator};
use std::cell::Cell;

/// Which requests are refused: those of a stretch of their count.
#[derive(Drop)]
struct Turns {
    /// How many requests came.
    asked: Cell<u64>,
    /// How many blocks are out: passed on, and not given back.
    out: Cell<u64>,
    /// The number of the first request that is refused, counted from 0.
    first: u64,
    /// The number after the last one that is refused.
    end: u64,
}

impl Turns {
    fn new(first: u64, end: u64) -> Turns {
        Turns {
            asked: Cell::new(0),
            out: Cell::new(0),
            first,
            end,
        }
    }

    /// Counts a request, and tells whether it is refused.
    fn refuses(&self) -> bool {
        let number = self.asked.get();
        self.asked.set(number.saturating_add(1));
        let is_refused = self.first <= number && number < self.end;
        if !is_refused {
            self.out.set(self.out.get().saturating_add(1));
        }
        is_refused
    }

    /// Counts a block that is given back.
    fn take_back(&self) {
        self.out.set(self.out.get().saturating_sub(1));
    }
}

/// Passes requests for memory on to another allocator, but for some that it refuses.
#[derive(Drop)]
pub struct Refusing<A: Allocator> {
    heap: A,
    turns: Turns,
}

impl<A: Allocator> Refusing<A> {
    /// Refuses the request of this number, counted from 0, and no other.
    pub fn at(heap: A, number: u64) -> Refusing<A> {
        Refusing {
            heap,
            turns: Turns::new(number, number.saturating_add(1)),
        }
    }

    /// Refuses every request but so many first ones.
    pub fn after(heap: A, count: u64) -> Refusing<A> {
        Refusing {
            heap,
            turns: Turns::new(count, u64::MAX),
        }
    }

    /// Refuses every request.
    pub fn always(heap: A) -> Refusing<A> {
        Refusing {
            heap,
            turns: Turns::new(0, u64::MAX),
        }
    }

    /// How many requests came, the refused ones included.
    pub fn asked(&self) -> u64 {
        self.turns.asked.get()
    }

    /// Whether each block that was handed out is given back.
    pub fn has_all_back(&self) -> bool {
        self.turns.out.get() == 0
    }
}

unsafe impl<A: Allocator> Allocator for Refusing<A> {
    ghost dealloc_token = { λ refusing. A.dealloc_token refusing.heap };

    fn allocate(&self, size: usize, align: usize) -> Result<*mut u8, AllocError> {
        if self.turns.refuses() {
            return Err(AllocError);
        }
        self.heap.allocate(size, align)
    }

    unsafe fn deallocate(&self, ptr: *mut u8, size: usize, align: usize) {
        self.turns.take_back();
        self.heap.deallocate(ptr, size, align);
    }
}
