//! How far names lead in a document.

ghost use Rattle.std.specs.Prelude.{◌≡◌, chars, length, IfErr, IfOk, IfSome, OnErr, true};
ghost use Rattle.jsonc_layout.specs.nodes.Names.{HoldsEscapedName};
ghost use Rattle.jsonc_cst.specs.Document.{nodes_of, HasNode};
ghost use Rattle.jsonc_cst.specs.Nodes.{number_of};
ghost use Rattle.jsonc_parser.specs.paths.Found.{names_of};
ghost use Rattle.jsonc_parser.specs.paths.Memory.{DecidesInTheWay, WantsToLookUp};
ghost use Rattle.jsonc_parser.specs.paths.Reach.{CountsWithin, ReachesWhatShown, StepHolds, StepsWhatShown};

use crate::paths::which::{Which, property_of};
use jsonc_cst::cst::{CstNode, CstRootNode, EditError};
use std::alloc::Allocator;

/// How far names lead from the document's value, over these positions.
#[derive(Drop)]
pub enum Reached<A: Allocator> {
    /// The document has no value.
    Nothing,
    /// To a value.
    Value(Vec<usize, A>),
    /// To an object that has no property of the name of this number.
    Missing(Vec<usize, A>, usize),
    /// To a value of another kind, before the name of this number.
    Another(Vec<usize, A>, usize),
}

// One step.
#[derive(Clone, Copy)]
pub(crate) enum Step {
    // To the value of the property of this number.
    On(usize, CstNode),
    // The object has no property of the name.
    Missing,
    // It is no object.
    Another,
}

// Where a name leads from a node.
fn step_from<A: Allocator + Copy>(
    doc: &CstRootNode<A>,
    node: CstNode,
    name: &str,
    which: Which,
) -> Result<Step, EditError>
    requires { HasNode doc.now node }
    ensures step { IfOk result (StepsWhatShown which doc.now node (chars name.now)) }
    ensures in_document { IfOk result (StepHolds doc.now) }
    ensures memory { IfErr result (λ e. e ≡ EditError.OutOfMemory) }
    ensures escaped { OnErr result (HoldsEscapedName (nodes_of doc.now) (number_of node)) }
{
    let Some(object) = node.as_object() else {
        return Ok(Step::Another);
    };
    let property = match property_of(doc, object, name, which) {
        Ok(Some(property)) => property,
        Ok(None) => return Ok(Step::Missing),
        Err(error) => return Err(error),
    };
    let index = property.property_index(doc);
    match property.value(doc) {
        Some(value) => Ok(Step::On(index, value)),
        None => Ok(Step::Another),
    }
}

/// How far names lead.
pub fn reach<A: Allocator + Copy>(
    doc: &CstRootNode<A>,
    names: &[String<A>],
    which: Which,
) -> Result<Reached<A>, EditError>
    ensures reached { IfOk result (ReachesWhatShown which doc.now (names_of names.now)) }
    ensures within { IfOk result (CountsWithin (length names.now)) }
    ensures memory { IfErr result (λ e. e ≡ EditError.OutOfMemory) }
{
    let Some(value) = doc.value() else {
        return Ok(Reached::Nothing);
    };
    let mut path = Vec::new(*doc.allocator());
    let mut node = value;
    for (count, name) in names.iter().enumerate() {
        match step_from(doc, node, name, which) {
            Ok(Step::On(index, inner)) => {
                let Ok(()) = path.push(index) else {
                    return Err(EditError::OutOfMemory);
                };
                node = inner;
            }
            Ok(Step::Missing) => return Ok(Reached::Missing(path, count)),
            Ok(Step::Another) => return Ok(Reached::Another(path, count)),
            Err(error) => return Err(error),
        }
    }
    Ok(Reached::Value(path))
}

/// Whether a value of another kind than an object is in the way of names.
///
/// Memory is needed only to look up a name in an object that has a name with a backslash.
pub fn is_in_the_way<A: Allocator + Copy>(
    doc: &CstRootNode<A>,
    names: &[String<A>],
    which: Which,
) -> Result<bool, EditError>
    ensures in_the_way { IfOk result (DecidesInTheWay which (nodes_of doc.now) (names_of names.now)) }
    ensures memory { IfErr result (λ e. e ≡ EditError.OutOfMemory) }
    ensures oom_only_if { OnErr result (WantsToLookUp which (nodes_of doc.now) (names_of names.now)) }
{
    let Some(value) = doc.value() else {
        return Ok(false);
    };
    let mut node = value;
    for name in names {
        match step_from(doc, node, name, which) {
            Ok(Step::On(_, inner)) => node = inner,
            Ok(Step::Missing) => return Ok(false),
            Ok(Step::Another) => return Ok(true),
            Err(error) => return Err(error),
        }
    }
    Ok(false)
}
