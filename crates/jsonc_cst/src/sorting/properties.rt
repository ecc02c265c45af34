//! Sorts of the properties of an object.

ghost use Rattle.std.specs.Prelude.{◌≡◌, IfErr, OnErr, OnOk, false};
ghost use Rattle.jsonc_cst.specs.Document.{tree_of, HasNode};
ghost use Rattle.jsonc_cst.specs.Nodes.{object_node, object_prop_node};
ghost use Rattle.jsonc_cst.specs.typed.Edits.{Unchanged, HandlesStay};
ghost use Rattle.jsonc_cst.specs.sorting.Again.{PropertiesStayInKeyOrder, PropertiesStayInOrder};
ghost use Rattle.jsonc_cst.specs.sorting.Asking.{IsInItsOrder, IsInKeyOrder, IsUnkeyed, MayBeCompared, MayBeKeyed};
ghost use Rattle.jsonc_cst.specs.sorting.Rows.{properties_asked};
ghost use Rattle.jsonc_cst.specs.sorting.Sorted.{PropertiesSorted};

use crate::cst::{CstObject, CstObjectProp, CstRootNode, EditError, TypedNode};
use crate::sorting::headers::{HeaderRule, NoHeaders};
use crate::sorting::rows::properties_asked;
use crate::sorting::sort::{PropertySort, Sort};
use crate::sorting::sorting::{sort_by, sort_by_key};
use crate::typed::DocumentArg;
use std::alloc::Allocator;
use std::cmp::Ordering;

impl CstObject {
    /// A sort of its properties.
    ///
    /// All comments above a property move with it, and blank lines separate nothing.
    pub fn sort_properties(self) -> PropertySort<NoHeaders>
        ensures container { result.container ≡ self }
        ensures groups { result.groups ≡ false }
    {
        Sort {
            container: self,
            rule: NoHeaders,
            groups: false,
        }
    }
}

impl<H: Drop> Sort<CstObject, H> {
    /// Sorts by a comparison of two properties.
    ///
    /// The comparison is asked with the document as it is before. Properties that compare equal
    /// stay in their order. What belongs to a property moves with it: its comma, the comments
    /// after it on its line, and those above it that are not pinned. Where the order is the old
    /// one, or a bracket is missing, nothing changes. Before, and sorted by names:
    ///
    /// ```text
    /// {                      {
    ///   "b": 1, // one         // above a
    ///   // above a             "a": 2,
    ///   "a": 2                 "b": 1 // one
    /// }                      }
    /// ```
    ///
    /// If the document is sound, it is sound again, its value has the properties in their order,
    /// and every comment is there as often: if the object is in it, the call is one step, the
    /// edit that rearranges what is at its path. Without groups a second sort by the same
    /// comparison changes no byte, if this answers by what the properties are. The one error is an
    /// allocation failure, and then the document stays as it was.
    pub fn by<
        A: Allocator + Copy,
        D: DocumentArg<A>,
        C: Fn(&D, CstObjectProp, CstObjectProp) -> Ordering,
    >(self, doc: &mut CstRootNode<A>, compare: C) -> Result<(), EditError>
    where
        H: HeaderRule<A, D, CstObjectProp>,
        requires in_document { HasNode doc.old (object_node self.container) }
        requires pinned { H.may_ask self.rule doc.old }
        requires asked { MayBeCompared C.Fn compare (D.same doc.old) (λ p. HasNode doc.old (object_prop_node p)) }
        ensures sorted { OnOk result
            (PropertiesSorted doc.old doc.new self.container (H.pins self.rule doc.old) self.groups
            (IsInItsOrder C.Fn compare (D.same doc.old) (λ p. HasNode doc.old (object_prop_node p)))) }
        ensures again { self.groups ≡ false
            → OnOk result (PropertiesStayInOrder compare D.same doc.old doc.new C.Fn self.container) }
        ensures memory { IfErr result (λ e. e ≡ EditError.OutOfMemory) }
        ensures handles { HandlesStay doc.old doc.new }
        ensures kept { OnErr result (Unchanged doc.old doc.new) }
        ensures document { OnErr result (tree_of doc.new ≡ tree_of doc.old) }
    {
        let nodes = properties_asked(doc, self.container)?;
        let pins = self.rule.pins(doc, self.container.node(), &nodes)?;
        sort_by(
            doc,
            self.container.node(),
            &nodes,
            &pins,
            self.groups,
            &compare,
        )
    }

    /// Sorts by keys, one of each property.
    ///
    /// A key is asked of the property and the document as it is before. Properties of equal
    /// keys stay in their order. The first error of a key is the answer, and then the document
    /// stays as it was. Else it is as [`PropertySort::by`] says.
    pub fn by_key<
        A: Allocator + Copy,
        D: DocumentArg<A>,
        K: Ord + Drop,
        F: Fn(&D, CstObjectProp) -> Result<K, EditError>,
    >(self, doc: &mut CstRootNode<A>, key: F) -> Result<(), EditError>
    where
        H: HeaderRule<A, D, CstObjectProp>,
        requires in_document { HasNode doc.old (object_node self.container) }
        requires pinned { H.may_ask self.rule doc.old }
        requires asked { MayBeKeyed F.Fn key (D.same doc.old) (λ p. HasNode doc.old (object_prop_node p)) }
        ensures sorted { OnOk result
            (PropertiesSorted doc.old doc.new self.container (H.pins self.rule doc.old) self.groups
            (IsInKeyOrder F.Fn key (D.same doc.old) K.cmp)) }
        ensures again { self.groups ≡ false
            → OnOk result (PropertiesStayInKeyOrder key D.same K.cmp doc.old doc.new F.Fn self.container) }
        ensures refused { IfErr result
            (IsUnkeyed F.Fn key (D.same doc.old) (properties_asked doc.old (object_node self.container))) }
        ensures handles { HandlesStay doc.old doc.new }
        ensures kept { OnErr result (Unchanged doc.old doc.new) }
        ensures document { OnErr result (tree_of doc.new ≡ tree_of doc.old) }
    {
        let nodes = properties_asked(doc, self.container)?;
        let pins = self.rule.pins(doc, self.container.node(), &nodes)?;
        sort_by_key(doc, self.container.node(), &nodes, &pins, self.groups, &key)
    }
}
