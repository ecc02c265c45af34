//! How what is written is to be laid out.

ghost use Rattle.std.specs.Prelude.{◌≡◌, IfOk};
ghost use Rattle.jsonc_layout.specs.from_input.Layout.{deeper, layout_of};

use jsonc_tree::CstNewlineKind;
use std::alloc::{AllocError, Allocator};

/// How a value is laid out.
#[derive(Drop)]
pub struct Layout<A: Allocator> {
    /// The indent of the line that the value begins on.
    pub current: String<A>,
    /// What one level of indent adds.
    pub single: String<A>,
    /// Whether the last of several lines has a comma.
    pub trailing_commas: bool,
    /// How lines end.
    pub newline: CstNewlineKind,
}

impl<A: Allocator + Copy> Layout<A> {
    /// The same one level deeper.
    pub fn deeper(&self, alloc: A) -> Result<Layout<A>, AllocError>
        ensures { IfOk result (λ l. layout_of l ≡ deeper (layout_of self.now)) }
    {
        let mut current = String::from_str(alloc, self.current.as_str())?;
        current.push_str(self.single.as_str())?;
        Ok(Layout {
            current,
            single: String::from_str(alloc, self.single.as_str())?,
            trailing_commas: self.trailing_commas,
            newline: self.newline,
        })
    }
}
