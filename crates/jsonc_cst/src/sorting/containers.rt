//! Sorts of an array or an object, whichever it is.

ghost use Rattle.std.specs.Prelude.{◌≡◌, IfErr, IsTrue, OnErr, OnOk, length};
ghost use Rattle.jsonc_tree.specs.Building.{Keeps};
ghost use Rattle.jsonc_layout.specs.lines.Kinds.{is_array_or_object};
ghost use Rattle.jsonc_cst.specs.Document.{content_of, nodes_of, tree_of, HasNode};
ghost use Rattle.jsonc_cst.specs.typed.Edits.{HandlesStay};
ghost use Rattle.jsonc_cst.specs.sorting.Asking.{IsInItsOrder, MayBeCompared};
ghost use Rattle.jsonc_cst.specs.sorting.Sorted.{ContainerSorted};

use crate::cst::{CstNode, CstRootNode, EditError};
use crate::sorting::headers::pins_where;
use crate::sorting::rows::elements_asked;
use crate::sorting::sorting::sort_by;
use crate::typed::DocumentArg;
use std::alloc::Allocator;
use std::cmp::Ordering;

/// Sorts an array or an object by a comparison, which is asked of two elements or properties and the
/// document as it is before.
///
/// Where `pin` is set, all comments above an element before which a blank line is are pinned; where
/// `groups` is, each stretch between blank lines is sorted by itself. The one error is a lack of
/// memory, and then the document is what it was.
pub fn sort_container<
    A: Allocator + Copy,
    D: DocumentArg<A>,
    C: Fn(&D, CstNode, CstNode) -> Ordering,
>(
    doc: &mut CstRootNode<A>,
    container: CstNode,
    pin: bool,
    groups: bool,
    compare: &C,
) -> Result<(), EditError>
    requires in_tree { HasNode doc.old container }
    requires holds { IsTrue (is_array_or_object (content_of doc.old container)) }
    requires asked { MayBeCompared C.Fn compare.now (D.same doc.old) (HasNode doc.old) }
    ensures sorted { OnOk result (ContainerSorted doc.old doc.new container pin groups
        (IsInItsOrder C.Fn compare.now (D.same doc.old) (HasNode doc.old))) }
    ensures memory { IfErr result (λ e. e ≡ EditError.OutOfMemory) }
    ensures handles { HandlesStay doc.old doc.new }
    ensures kept { OnErr result (Keeps (length (nodes_of doc.old)) (nodes_of doc.old) (nodes_of doc.new)) }
    ensures document { OnErr result (tree_of doc.new ≡ tree_of doc.old) }
{
    let nodes = elements_asked(doc, container)?;
    let pins = pins_where(doc, container, pin)?;
    sort_by(doc, container, &nodes, &pins, groups, compare)
}
