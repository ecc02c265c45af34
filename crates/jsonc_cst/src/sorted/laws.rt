//! Laws of sorts on typed nodes: each is the contract of a function that does nothing.
ghost use Rattle.std.specs.Prelude.{[], Bool};
ghost use Rattle.jsonc_tree.specs.OrderedTree.{Top};
ghost use Rattle.jsonc_sort.specs.Above.{PinsUnderBlankLines};
ghost use Rattle.jsonc_sort.specs.Rearranged.{headers_of};
ghost use Rattle.jsonc_sort.specs.Sorting.{Headers};
ghost use Rattle.jsonc_cst.specs.Document.{nodes_of};
ghost use Rattle.jsonc_cst.specs.Nodes.{number_of};
ghost use Rattle.jsonc_cst.specs.sorting.Pins.{kept_headers, pins_where};
ghost use Rattle.jsonc_cst.specs.declared.cst.CstRootNode.{CstRootNode};
ghost use Rattle.jsonc_cst.specs.declared.cst.node.CstArray.{CstArray};
ghost use Rattle.jsonc_cst.specs.declared.cst.node.CstNode.{CstNode};
ghost use Rattle.jsonc_cst.specs.declared.cst.node.CstObject.{CstObject};
ghost use Rattle.jsonc_cst.specs.sorting.Again.{ElementsSortOnce, ElementsSortOnceByKey, PropertiesSortOnce, PropertiesSortOnceByKey};

use crate::cst::{CstNode, CstObjectProp, EditError};
use crate::typed::DocumentArg;
pub use jsonc_sort::again::laws::blank_lines_part_groups;
pub use jsonc_sort::groups::laws::groups_keep_their_places;
use std::alloc::Allocator;
use std::cmp::Ordering;

/// The rules of headers but that of a caller's pin comments above an element only where a blank line stands
/// before it: no rule, blank lines, and headers that are kept. So a sort by these is a step by blank lines.
pub fn rules_pin_under_blank_lines<A: Allocator>()
    ensures none { (d : CstRootNode A) (node : CstNode) (groups : Bool)
        → PinsUnderBlankLines (nodes_of d) (number_of node) (headers_of [] groups) }
    ensures lines { (d : CstRootNode A) (node : CstNode) (pin groups : Bool)
        → PinsUnderBlankLines (nodes_of d) (number_of node) (headers_of (pins_where d node pin) groups) }
    ensures kept { (d : CstRootNode A) (node : CstNode) (groups : Bool)
        → PinsUnderBlankLines (nodes_of d) (number_of node) (headers_of (kept_headers d node) groups) }
{}

/// A second sort of a typed array or object by a comparison changes no byte, where the comparison answers
/// both times by an order of what the elements are, each with what is below it.
pub fn second_sorts_change_no_byte<
    A: Allocator + Copy,
    D: DocumentArg<A>,
    C: Fn(&D, CstNode, CstNode) -> Ordering,
    P: Fn(&D, CstObjectProp, CstObjectProp) -> Ordering,
>()
    ensures elements { (compare : C) (lt : Top → Top → Bool) (old now new : CstRootNode A) (array : CstArray)
        (h k : Headers) → ElementsSortOnce C.Fn compare D.same lt old now new array h k }
    ensures properties { (compare : P) (lt : Top → Top → Bool) (old now new : CstRootNode A) (object : CstObject)
        (h k : Headers) → PropertiesSortOnce P.Fn compare D.same lt old now new object h k }
{}

/// A second sort of a typed array or object by keys changes no byte, where the keys are both times in an
/// order of what the elements are, each with what is below it.
pub fn second_sorts_by_key_change_no_byte<
    A: Allocator + Copy,
    D: DocumentArg<A>,
    K: Ord + Drop,
    F: Fn(&D, CstNode) -> Result<K, EditError>,
    P: Fn(&D, CstObjectProp) -> Result<K, EditError>,
>()
    ensures elements { (key : F) (lt : Top → Top → Bool) (old now new : CstRootNode A) (array : CstArray)
        (h k : Headers) → ElementsSortOnceByKey F.Fn key D.same K.cmp lt old now new array h k }
    ensures properties { (key : P) (lt : Top → Top → Bool) (old now new : CstRootNode A) (object : CstObject)
        (h k : Headers) → PropertiesSortOnceByKey P.Fn key D.same K.cmp lt old now new object h k }
{}
