//! A sort of an array or object, and what it takes before it sorts.

ghost use Rattle.std.specs.Prelude.{◌≡◌, true};

use crate::cst::{CstArray, CstObject};
use crate::sorting::headers::{BlankLineHeaders, HeadersBy, KeptHeaders};

/// A sort of what is in an array or an object.
///
/// It sorts nothing until `by` or `by_key` is called.
#[derive(Drop)]
pub struct Sort<C, H> {
    /// The array or object.
    pub container: C,
    /// Which comments above elements or properties are pinned.
    pub rule: H,
    /// Whether blank lines separate the elements or properties.
    pub groups: bool,
}

/// A sort of an array's elements.
///
/// It sorts nothing until [`ElementSort::by`] or [`ElementSort::by_key`] is called.
pub type ElementSort<H> = Sort<CstArray, H>;

/// A sort of an object's properties.
///
/// It sorts nothing until [`PropertySort::by`] or [`PropertySort::by_key`] is called.
pub type PropertySort<H> = Sort<CstObject, H>;

impl<C: Copy, H: Drop> Sort<C, H> {
    /// Keeps all comments above an entry in their place where a blank line is before it.
    ///
    /// An entry is an element or a property; the comments are a header of what follows. Before, and
    /// sorted by names:
    ///
    /// ```text
    /// {                      {
    ///   // head                // head
    ///
    ///   // about b             // about b
    ///   "b": 1,                "a": 2,
    ///   "a": 2                 "b": 1
    /// }                      }
    /// ```
    pub fn pin_comment_headers(self) -> Sort<C, BlankLineHeaders>
        ensures container { result.container ≡ self.container }
        ensures groups { result.groups ≡ self.groups }
    {
        Sort {
            container: self.container,
            rule: BlankLineHeaders,
            groups: self.groups,
        }
    }

    /// Leaves the comments above the last blank line before an entry in their place.
    ///
    /// Those below it move with the entry: what moves is what `comments_of` answers. With no blank line
    /// below, a header moves too. Before, and sorted by names:
    ///
    /// ```text
    /// {                      {
    ///   // head                // head
    ///
    ///   // about b             "a": 2,
    ///   "b": 1,                // about b
    ///   "a": 2                 "b": 1
    /// }                      }
    /// ```
    pub fn keep_headers(self) -> Sort<C, KeptHeaders>
        ensures container { result.container ≡ self.container }
        ensures groups { result.groups ≡ self.groups }
    {
        Sort {
            container: self.container,
            rule: KeptHeaders,
            groups: self.groups,
        }
    }

    /// Keeps so many comments above each entry in their place as a rule answers.
    ///
    /// An entry is an element or a property. The comments count from the first on. The rule is
    /// asked with the document as it is before, where comments are above an entry.
    /// [`ElementSort::pin_comment_headers`] shows what stays.
    pub fn pin_comment_headers_with<F>(self, rule: F) -> Sort<C, HeadersBy<F>>
        ensures container { result.container ≡ self.container }
        ensures rule { result.rule.rule ≡ rule }
        ensures groups { result.groups ≡ self.groups }
    {
        Sort {
            container: self.container,
            rule: HeadersBy { rule },
            groups: self.groups,
        }
    }

    /// Sorts each stretch between blank lines by itself.
    ///
    /// So no element or property crosses a blank line. Before, and sorted by numbers:
    ///
    /// ```text
    /// [3, 1,                 [1, 3,
    ///
    /// 2, 0]                  0, 2]
    /// ```
    pub fn within_groups(self) -> Sort<C, H>
        ensures container { result.container ≡ self.container }
        ensures rule { result.rule ≡ self.rule }
        ensures groups { result.groups ≡ true }
    {
        Sort {
            groups: true,
            ..self
        }
    }
}
