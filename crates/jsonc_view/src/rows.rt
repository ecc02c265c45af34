//! The values of a text, by their places.
ghost use Rattle.std.specs.Prelude.{◌≡◌, ◌≤◌, ◌++◌, length, take, drop, IfOk, OnOk};

use std::alloc::{AllocError, Allocator};

/// From one place to another.
#[derive(Clone, Copy, Drop)]
pub(crate) struct Span {
    pub(crate) start: u32,
    pub(crate) end: u32,
}

/// A value: what it is, and where.
#[derive(Clone, Copy, Drop)]
pub(crate) enum Row {
    /// A string without a backslash, between its quotes.
    Lent(Span),
    /// A string with a backslash: its number among those that were decoded.
    Decoded(u32),
    Number(Span),
    Boolean(bool),
    /// An object: from where to where its members stand among those of all objects.
    Object(Span),
    /// An array: the same of its elements.
    Array(Span),
    Null,
}

/// A name.
#[derive(Clone, Copy, Drop)]
pub(crate) enum Name {
    /// One without a backslash.
    Lent(Span),
    /// One with a backslash: its number among the strings that were decoded.
    Decoded(u32),
}

/// A name and its value.
#[derive(Clone, Copy, Drop)]
pub(crate) struct Member {
    pub(crate) name: Name,
    pub(crate) value: Row,
}

/// The values of a text.
#[derive(Drop)]
pub(crate) struct Rows<'a, A: Allocator> {
    pub(crate) text: &'a str,
    /// The strings and names with a backslash, decoded.
    pub(crate) decoded: Vec<String<A>, A>,
    /// The elements of the arrays, those of each array together.
    pub(crate) elements: Vec<Row, A>,
    /// The members of the objects.
    pub(crate) members: Vec<Member, A>,
}

/// The number of the next item. It is out of memory where no place can hold that number.
#[inline(always)]
pub(crate) fn next_number<T, A: Allocator>(items: &Vec<T, A>) -> Result<u32, AllocError>
    ensures { IfOk result (λ n. n ≡ length items.now.items) }
{
    let number = items.len();
    if number > u32::MAX as usize {
        return Err(AllocError);
    }
    Ok(number as u32)
}

/// Moves the items from a place on behind those of another vector, and answers where they are there.
#[inline(always)]
pub(crate) fn moved<T: Copy + Drop, A: Allocator>(
    stack: &mut Vec<T, A>,
    start: usize,
    rows: &mut Vec<T, A>,
) -> Result<Span, AllocError>
    requires { start ≤ length stack.old.items }
    ensures left { OnOk result (stack.new.items ≡ take start stack.old.items) }
    ensures rows { OnOk result (rows.new.items ≡ rows.old.items ++ drop start stack.old.items) }
    ensures from { IfOk result (λ s. s.start ≡ length rows.old.items) }
    ensures to { IfOk result (λ s. s.end ≡ length rows.new.items) }
{
    let from = next_number(rows)?;
    rows.extend_from_slice(&stack.as_slice()[start..])?;
    stack.truncate(start);
    let end = next_number(rows)?;
    Ok(Span { start: from, end })
}
