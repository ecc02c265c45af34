//! Sorts of the elements of an array.

ghost use Rattle.std.specs.Prelude.{◌≡◌, IfErr, OnErr, OnOk, false};
ghost use Rattle.jsonc_cst.specs.Document.{tree_of, HasNode};
ghost use Rattle.jsonc_cst.specs.Nodes.{array_node};
ghost use Rattle.jsonc_cst.specs.typed.Edits.{Unchanged, HandlesStay};
ghost use Rattle.jsonc_cst.specs.sorting.Again.{ElementsStayInKeyOrder, ElementsStayInOrder};
ghost use Rattle.jsonc_cst.specs.sorting.Asking.{IsInItsOrder, IsInKeyOrder, IsUnkeyed, MayBeCompared, MayBeKeyed};
ghost use Rattle.jsonc_cst.specs.sorting.Rows.{elements_asked};
ghost use Rattle.jsonc_cst.specs.sorting.Sorted.{ElementsSorted};

use crate::cst::{CstArray, CstNode, CstRootNode, EditError, TypedNode};
use crate::sorting::headers::{HeaderRule, NoHeaders};
use crate::sorting::rows::elements_asked;
use crate::sorting::sort::{ElementSort, Sort};
use crate::sorting::sorting::{sort_by, sort_by_key};
use crate::typed::DocumentArg;
use std::alloc::Allocator;
use std::cmp::Ordering;

impl CstArray {
    /// A sort of its elements.
    ///
    /// All comments above an element move with it, and blank lines separate nothing.
    pub fn sort_elements(self) -> ElementSort<NoHeaders>
        ensures container { result.container ≡ self }
        ensures groups { result.groups ≡ false }
    {
        Sort {
            container: self,
            rule: NoHeaders,
            groups: false,
        }
    }
}

impl<H: Drop> Sort<CstArray, H> {
    /// Sorts by a comparison of two elements.
    ///
    /// The comparison is asked with the document as it is before. Elements that compare equal
    /// stay in their order. What belongs to an element moves with it: its comma, the comments
    /// after it on its line, and those above it that are not pinned. Where the order is the old
    /// one, or a bracket is missing, nothing changes. `[11, 0, 10]` by first digit is `[0, 11, 10]`.
    ///
    /// If the document is sound, it is sound again, its value has the elements in their order, and
    /// every comment is there as often: if the array is in it, the call is one step, the edit
    /// that rearranges what is at its path. Without groups a second sort by the same comparison
    /// changes no byte, if this answers by what the elements are. The one error is an allocation
    /// failure, and then the document stays as it was.
    pub fn by<A: Allocator + Copy, D: DocumentArg<A>, C: Fn(&D, CstNode, CstNode) -> Ordering>(
        self,
        doc: &mut CstRootNode<A>,
        compare: C,
    ) -> Result<(), EditError>
    where
        H: HeaderRule<A, D, CstNode>,
        requires in_document { HasNode doc.old (array_node self.container) }
        requires pinned { H.may_ask self.rule doc.old }
        requires asked { MayBeCompared C.Fn compare (D.same doc.old) (HasNode doc.old) }
        ensures sorted { OnOk result
            (ElementsSorted doc.old doc.new self.container (H.pins self.rule doc.old) self.groups
            (IsInItsOrder C.Fn compare (D.same doc.old) (HasNode doc.old))) }
        ensures again { self.groups ≡ false
            → OnOk result (ElementsStayInOrder compare D.same doc.old doc.new C.Fn self.container) }
        ensures memory { IfErr result (λ e. e ≡ EditError.OutOfMemory) }
        ensures handles { HandlesStay doc.old doc.new }
        ensures kept { OnErr result (Unchanged doc.old doc.new) }
        ensures document { OnErr result (tree_of doc.new ≡ tree_of doc.old) }
    {
        let nodes = elements_asked(doc, self.container)?;
        let pins = self.rule.pins(doc, self.container.node(), &nodes)?;
        sort_by(
            doc,
            self.container.node(),
            &nodes,
            &pins,
            self.groups,
            &compare,
        )
    }

    /// Sorts by keys, one of each element.
    ///
    /// A key is asked of the element and the document as it is before. Elements of equal keys
    /// stay in their order. The first error of a key is the answer, and then the document stays as
    /// it was. Else it is as [`ElementSort::by`] says.
    pub fn by_key<
        A: Allocator + Copy,
        D: DocumentArg<A>,
        K: Ord + Drop,
        F: Fn(&D, CstNode) -> Result<K, EditError>,
    >(self, doc: &mut CstRootNode<A>, key: F) -> Result<(), EditError>
    where
        H: HeaderRule<A, D, CstNode>,
        requires in_document { HasNode doc.old (array_node self.container) }
        requires pinned { H.may_ask self.rule doc.old }
        requires asked { MayBeKeyed F.Fn key (D.same doc.old) (HasNode doc.old) }
        ensures sorted { OnOk result
            (ElementsSorted doc.old doc.new self.container (H.pins self.rule doc.old) self.groups
            (IsInKeyOrder F.Fn key (D.same doc.old) K.cmp)) }
        ensures again { self.groups ≡ false
            → OnOk result (ElementsStayInKeyOrder key D.same K.cmp doc.old doc.new F.Fn self.container) }
        ensures refused { IfErr result
            (IsUnkeyed F.Fn key (D.same doc.old) (elements_asked doc.old (array_node self.container))) }
        ensures handles { HandlesStay doc.old doc.new }
        ensures kept { OnErr result (Unchanged doc.old doc.new) }
        ensures document { OnErr result (tree_of doc.new ≡ tree_of doc.old) }
    {
        let nodes = elements_asked(doc, self.container)?;
        let pins = self.rule.pins(doc, self.container.node(), &nodes)?;
        sort_by_key(doc, self.container.node(), &nodes, &pins, self.groups, &key)
    }
}
