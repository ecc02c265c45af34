//! What is read of the view of a text.
ghost use Rattle.std.specs.Prelude.{◌≡◌, Option, option_map};
ghost use Rattle.jsonc_text.specs.Plain.{Plain};
ghost use Rattle.jsonc_view.specs.Shown.{ShowsRoot};
ghost use Rattle.jsonc_view.specs.Views.{plain, value_of};

use crate::rows::{Row, Rows};
use crate::view::values::value_at;
use crate::view::{JsonView, ViewValue};
use std::alloc::Allocator;

impl<'a, A: Allocator> JsonView<'a, A> {
    /// The view of these rows.
    pub(crate) fn of(rows: Rows<'a, A>, root: Option<Row>) -> Self
        requires { (v : Option Plain) × ShowsRoot rows root v }
        ensures { (v : Option Plain) → ShowsRoot rows.entry root v → value_of result ≡ v }
    {
        JsonView { rows, root }
    }

    /// The value, or none where the text holds blanks and comments alone.
    pub fn value(&self) -> Option<ViewValue<'_, 'a, A>>
        ensures { option_map plain result ≡ value_of self.now }
    {
        match self.root {
            Some(row) => Some(value_at(&self.rows, row)),
            None => None,
        }
    }
}
