//! What is at a path of names.

ghost use Rattle.std.specs.Prelude.{◌≡◌, chars, IfErr, IfOk, IfSome, OnErr};
ghost use Rattle.jsonc_layout.specs.nodes.Names.{HoldsEscapedName};
ghost use Rattle.jsonc_cst.specs.Document.{nodes_of, HasNode};
ghost use Rattle.jsonc_cst.specs.Nodes.{number_of};
ghost use Rattle.jsonc_parser.specs.paths.Found.{names_of, FindsInsideWhatShown, FindsWhatShown, ReadsWhatShown};
ghost use Rattle.jsonc_parser.specs.declared.paths.which.Which.TheVariants.{First};
ghost use Rattle.jsonc_parser.specs.paths.Memory.{WantsForSomething, WantsToLookUp};

use jsonc_cst::cst::{CstInputValue, CstNode, CstRootNode, EditError, TypedNode};
use std::alloc::Allocator;

// The value of the first property of a name, in an object.
fn find_inside<A: Allocator + Copy>(
    doc: &CstRootNode<A>,
    node: CstNode,
    name: &str,
) -> Result<Option<CstNode>, EditError>
    requires { HasNode doc.now node }
    ensures found { IfOk result (FindsInsideWhatShown doc.now node (chars name.now)) }
    ensures in_document { IfOk result (λ o. IfSome o (HasNode doc.now)) }
    ensures memory { IfErr result (λ e. e ≡ EditError.OutOfMemory) }
    ensures escaped { OnErr result (HoldsEscapedName (nodes_of doc.now) (number_of node)) }
{
    let Some(object) = node.as_object() else {
        return Ok(None);
    };
    match object.get(doc, name) {
        Ok(Some(property)) => Ok(property.value(doc)),
        Ok(None) => Ok(None),
        Err(error) => Err(error),
    }
}

/// The value at a path of names, if there is one.
///
/// From the document's value each name leads on, in an object to the value of its first property of
/// that name. None where a step finds no object, or none of its name.
///
/// Memory is allocated only to look up a name in an object that has a name with a backslash.
pub fn find_at<A: Allocator + Copy>(
    doc: &CstRootNode<A>,
    names: &[String<A>],
) -> Result<Option<CstNode>, EditError>
    ensures found { IfOk result (FindsWhatShown doc.now (names_of names.now)) }
    ensures in_document { IfOk result (λ o. IfSome o (HasNode doc.now)) }
    ensures memory { IfErr result (λ e. e ≡ EditError.OutOfMemory) }
    ensures oom_only_if { OnErr result (WantsToLookUp First (nodes_of doc.now) (names_of names.now)) }
{
    let Some(value) = doc.value() else {
        return Ok(None);
    };
    let mut node = value;
    for name in names {
        match find_inside(doc, node, name) {
            Ok(Some(inner)) => node = inner,
            Ok(None) => return Ok(None),
            Err(error) => return Err(error),
        }
    }
    Ok(Some(node))
}

/// The value at a path of names, as a value for edits.
///
/// Of equal names in it the last value is at the first place. None where [`find_at`] answers
/// none.
///
/// Memory is allocated only as by [`find_at`], or for a value that is there.
pub fn read_at<A: Allocator + Copy>(
    doc: &CstRootNode<A>,
    names: &[String<A>],
) -> Result<Option<CstInputValue<A>>, EditError>
    ensures read { IfOk result (ReadsWhatShown doc.now (names_of names.now)) }
    ensures memory { IfErr result (λ e. e ≡ EditError.OutOfMemory) }
    ensures oom_only_if { OnErr result (WantsForSomething (nodes_of doc.now) (names_of names.now)) }
{
    match find_at(doc, names) {
        Ok(Some(node)) => node.to_value(doc),
        Ok(None) => Ok(None),
        Err(error) => Err(error),
    }
}
