//! Who stands where in a document that was parsed.
ghost use Rattle.std.specs.Prelude.{◌<◌, length, IfSome};
ghost use Rattle.jsonc_layout.specs.nodes.Siblings.{IsThere};

use crate::tests::lines::tree_of;
use failing_alloc::outcome::Outcome;
use jsonc_layout::nodes::{
    child_at_index, children, decoded_name, decoded_value, element_index, elements, get,
    leading_comments_same_line, name_of, next_element, next_sibling, previous_element,
    previous_sibling, root_node, trailing_comments_same_line, value_of,
};
use jsonc_tree::{Kind, Tree};
use std::alloc::{AllocError, Allocator, Global};

/// A document whose object has twelve children: its properties are children 3 and 9.
const TEXT: &str = "{\n  \"\\u0061\": 1, // x\n  \"b\": \"\\u0063\"\n}";

/// The document's object.
fn object_of<A: Allocator>(tree: &Tree<A>) -> Option<usize>
    ensures { IsThere tree.now.nodes result }
{
    if tree.len() == 0 {
        return None;
    }
    value_of(tree, 0)
}

/// A child of the document's object.
fn child_of_object<A: Allocator>(tree: &Tree<A>, place: usize) -> Option<usize>
    ensures { IfSome result (λ m. m < length tree.now.nodes) }
{
    let object = object_of(tree)?;
    child_at_index(tree, object, place)
}

/// Whether a list that is collected is this one, or the memory for it was wanted.
fn is_list<A: Allocator>(found: Result<Vec<usize, A>, AllocError>, wanted: &[usize]) -> Outcome {
    match found {
        Ok(found) => Outcome::of(found.as_slice() == wanted),
        Err(error) => Outcome::from(error),
    }
}

fn is_count<A: Allocator>(found: Result<Vec<usize, A>, AllocError>, wanted: usize) -> Outcome {
    match found {
        Ok(found) => Outcome::of(found.len() == wanted),
        Err(error) => Outcome::from(error),
    }
}

fn are_beside<A: Allocator>(tree: &Tree<A>) -> bool {
    let (Some(first), Some(comma), Some(second)) = (
        child_of_object(tree, 3),
        child_of_object(tree, 4),
        child_of_object(tree, 9),
    ) else {
        return false;
    };
    let stands_beside = next_sibling(tree, first) == Some(comma)
        && previous_sibling(tree, comma) == Some(first)
        && next_element(tree, first) == Some(second)
        && previous_element(tree, second) == Some(first);
    let is_counted = element_index(tree, first) == Some(0)
        && element_index(tree, second) == Some(1);
    stands_beside && is_counted && root_node(tree, second) == Some(0)
}

fn siblings_stand<A: Allocator + Copy>(alloc: A, tree: &Tree<A>) -> Outcome {
    let Some(object) = object_of(tree) else {
        return Outcome::Other;
    };
    let (Some(first), Some(second)) = (child_of_object(tree, 3), child_of_object(tree, 9)) else {
        return Outcome::Other;
    };
    is_count(children(alloc, tree, object), 12)
        .then(is_list(elements(alloc, tree, object), &[first, second]))
        .then(Outcome::of(child_at_index(tree, object, 12) == None && are_beside(tree)))
}

/// The comment stands after the comma, on its line.
fn comments_stand<A: Allocator + Copy>(alloc: A, tree: &Tree<A>) -> Outcome {
    let (Some(first), Some(comma)) = (child_of_object(tree, 3), child_of_object(tree, 4)) else {
        return Outcome::Other;
    };
    let (Some(comment), Some(newline)) = (child_of_object(tree, 6), child_of_object(tree, 7)) else {
        return Outcome::Other;
    };
    is_list(trailing_comments_same_line(alloc, tree, first), &[])
        .then(is_list(trailing_comments_same_line(alloc, tree, comma), &[comment]))
        .then(is_list(leading_comments_same_line(alloc, tree, newline), &[comment]))
}

/// What a string leaf stands for.
fn is_string_of<A: Allocator + Copy>(alloc: A, tree: &Tree<A>, leaf: usize, text: &str) -> Outcome
    requires { leaf < length tree.now.nodes }
{
    match tree.kind(leaf) {
        Kind::StringPart(_) => Outcome::of_text(decoded_value(alloc, tree, leaf), text),
        _ => Outcome::Other,
    }
}

/// The property of this name is this child of the document's object.
fn is_found<A: Allocator + Copy>(
    alloc: A,
    tree: &Tree<A>,
    name: &str,
    wanted: Option<usize>,
) -> Outcome {
    match object_of(tree) {
        Some(object) => Outcome::of_answer(get(alloc, tree, object, name), &wanted),
        None => Outcome::Other,
    }
}

fn is_named<A: Allocator + Copy>(alloc: A, tree: &Tree<A>, property: usize) -> Outcome
    requires { property < length tree.now.nodes }
{
    match decoded_name(alloc, tree, property) {
        Ok(Some(name)) => Outcome::of(name.as_str() == "a"),
        Ok(None) => Outcome::Other,
        Err(kind) => Outcome::from(kind),
    }
}

fn names_are_decoded<A: Allocator + Copy>(alloc: A, tree: &Tree<A>) -> Outcome {
    let (Some(first), Some(second)) = (child_of_object(tree, 3), child_of_object(tree, 9)) else {
        return Outcome::Other;
    };
    let (Some(name), Some(value)) = (name_of(tree, first), value_of(tree, second)) else {
        return Outcome::Other;
    };
    is_named(alloc, tree, first)
        .then(is_found(alloc, tree, "a", Some(first)))
        .then(is_found(alloc, tree, "b", Some(second)))
        .then(is_found(alloc, tree, "\\u0061", None))
        .then(is_string_of(alloc, tree, name, "a"))
        .then(is_string_of(alloc, tree, value, "c"))
}

/// The names of the document, looked up and decoded.
pub fn node_names<A: Allocator + Copy>(alloc: A) -> Outcome {
    match tree_of(alloc, TEXT) {
        Ok(tree) => names_are_decoded(alloc, &tree),
        Err(outcome) => outcome,
    }
}

/// The rows of the document. A list that is collected asks again for less where it was refused, so
/// that one refusal need not show.
fn node_rows<A: Allocator + Copy>(alloc: A) -> Outcome {
    match tree_of(alloc, TEXT) {
        Ok(tree) => siblings_stand(alloc, &tree).then(comments_stand(alloc, &tree)),
        Err(outcome) => outcome,
    }
}

#[test]
fn nodes_stand_in_their_rows(rt: HostRuntime) {
    assert!(rt; node_rows::<Global>(rt.alloc()) == Outcome::Answered);
}
