//! The indents for what is put in beside a node.
ghost use Rattle.std.specs.Prelude.{◌≡◌, ◌<◌, ◌++◌, [], All, IfOk, IfSome, length};
ghost use Rattle.std.specs.Prelude.{map, option_map, string_bytes, unwrap_or};
ghost use Rattle.jsonc_tree.specs.Order.{upward};
ghost use Rattle.jsonc_tree.specs.Tree.{parent_at};
ghost use Rattle.jsonc_layout.specs.lines.Indents.{above_properties, document_indent, first_indent_in};
ghost use Rattle.jsonc_layout.specs.lines.Indents.{follows_first_blank, held_after, indents_at};
ghost use Rattle.jsonc_layout.specs.lines.Indents.{is_some_property, levels_above, levels_among, levels_in, more_of};
ghost use Rattle.jsonc_layout.specs.lines.Indents.{repeated, single_at, told_by, without_front};
ghost use Rattle.jsonc_layout.specs.lines.IndentViews.{text_in, texts_of};
ghost use Rattle.jsonc_layout.specs.lines.Lines.{indent_at};
ghost use Rattle.jsonc_layout.specs.nodes.Siblings.{IsThere, siblings_before};

use crate::lines::indent::indent_text;
use crate::nodes::{
    children_from, first_element_from, is_newline, is_property_kind, is_whitespace,
    previous_siblings, root_node,
};
use jsonc_tree::Tree;
use std::alloc::{AllocError, Allocator};

/// The indent of a line, and what one level adds.
#[derive(Drop)]
pub struct Indents<A: Allocator> {
    pub current: String<A>,
    pub single: String<A>,
}

// Whether a node is the child of an object property.
fn stands_in_property<A: Allocator>(tree: &Tree<A>, node: usize) -> bool
    requires { node < length tree.now.nodes }
    ensures { result ≡ is_some_property tree.now.nodes (parent_at tree.now.nodes node) }
{
    match tree.parent(node) {
        Some(parent) => is_property_kind(tree.kind(parent)),
        None => false,
    }
}

// The nearest node above a node that is no object property.
fn beyond_properties<A: Allocator>(tree: &Tree<A>, node: usize) -> Option<usize>
    requires { node < length tree.now.nodes }
    ensures above { above_properties tree.now.nodes node ≡ upward tree.now.nodes result }
    ensures in_tree { IfSome result (λ m. m < length tree.now.nodes) }
{
    let mut next = tree.parent(node);
    while let Some(at) = next {
        if !is_property_kind(tree.kind(at)) {
            return Some(at);
        }
        next = tree.parent(at);
    }
    None
}

// Of a node and those above it the levels of indent, nearest first.
fn levels_from<A: Allocator>(
    alloc: A,
    tree: &Tree<A>,
    start: Option<usize>,
) -> Result<Vec<usize, A>, AllocError>
    requires { IsThere tree.now.nodes start }
    ensures levels { IfOk result (λ v. v.items ≡ levels_among tree.now.nodes (upward tree.now.nodes start)) }
    ensures in_tree { IfOk result (λ v. All (λ m. m < length tree.now.nodes) v.items) }
{
    let mut levels = Vec::new(alloc);
    let mut next = start;
    while let Some(at) = next {
        if at == 0 {
            return Ok(levels);
        }
        next = tree.parent(at);
        if stands_in_property(tree, at) {
            continue;
        }
        levels.push(at)?;
    }
    Ok(levels)
}

// The nodes above a node that are levels of indent, nearest first.
fn levels_above<A: Allocator>(
    alloc: A,
    tree: &Tree<A>,
    node: usize,
) -> Result<Vec<usize, A>, AllocError>
    requires { node < length tree.now.nodes }
    ensures levels { IfOk result (λ v. v.items ≡ levels_above tree.now.nodes node) }
    ensures in_tree { IfOk result (λ v. All (λ m. m < length tree.now.nodes) v.items) }
{
    levels_from(alloc, tree, beyond_properties(tree, node))
}

// The text without another at its front, if it begins with that.
fn without_front<'a>(outer: &str, inner: &'a str) -> Option<&'a str>
    ensures { option_map (λ s. s.now) result ≡ without_front outer.now inner.now }
{
    inner.strip_prefix(outer)
}

// What the inner indent has more than the outer one, if both are there and it begins with that.
fn more_of<'a, A: Allocator>(
    inner: &'a Option<String<A>>,
    outer: &Option<String<A>>,
) -> Option<&'a str>
    ensures { option_map (λ s. s.now) result ≡ more_of (text_in inner.now) (text_in outer.now) }
{
    match (inner, outer) {
        (Some(inner), Some(outer)) => without_front(outer.as_str(), inner.as_str()),
        _ => None,
    }
}

// What the next indent outward is held against: this one, where none was held.
fn held_after<A: Allocator>(held: Option<String<A>>, outer: Option<String<A>>) -> Option<String<A>>
    ensures { text_in result ≡ held_after (text_in held) (text_in outer) }
{
    match held {
        None => outer,
        Some(_) => None,
    }
}

// The text that is held, or none.
fn held_text<A: Allocator>(held: &Option<String<A>>) -> &str
    ensures { result.now ≡ unwrap_or (text_in held.now) [] }
{
    match held {
        Some(held) => held.as_str(),
        None => "",
    }
}

// A text, and then another so many times.
fn followed_by<A: Allocator>(
    alloc: A,
    outer: &str,
    count: usize,
    single: &str,
) -> Result<String<A>, AllocError>
    ensures { IfOk result (λ s. string_bytes s ≡ outer.now ++ repeated count single.now) }
{
    let mut text = String::from_str(alloc, outer)?;
    for _time in 0..count {
        text.push_str(single)?;
    }
    Ok(text)
}

// The indents so many levels further in than a line with this indent.
fn levels_in<A: Allocator + Copy>(
    alloc: A,
    outer: &str,
    count: usize,
    single: &str,
) -> Result<Indents<A>, AllocError>
    ensures { IfOk result (λ i. texts_of i ≡ levels_in outer.now count single.now) }
{
    let current = followed_by(alloc, outer, count, single)?;
    let single = String::from_str(alloc, single)?;
    Ok(Indents { current, single })
}

// The indents that two lines next to one another tell: the one with this indent, and those of the levels above it.
fn told_by<A: Allocator + Copy>(
    alloc: A,
    tree: &Tree<A>,
    own: Option<String<A>>,
    levels: &[usize],
) -> Result<Option<Indents<A>>, AllocError>
    requires { All (λ m. m < length tree.now.nodes) levels.now }
    ensures { IfOk result (λ o. option_map texts_of o
        ≡ told_by 0 (text_in own) (map (indent_at tree.now.nodes) levels.now)) }
{
    let mut held = own;
    for place in 0..levels.len() {
        let outer = indent_text(alloc, tree, levels[place])?;
        if let Some(single) = more_of(&held, &outer) {
            let told = levels_in(alloc, held_text(&held), place, single)?;
            return Ok(Some(told));
        }
        held = held_after(held, outer);
    }
    Ok(None)
}

// Whether the sibling directly before a node is whitespace that its line begins with.
fn follows_first_blank<A: Allocator>(tree: &Tree<A>, node: usize) -> bool
    requires { node < length tree.now.nodes }
    ensures { result ≡ follows_first_blank tree.now.nodes (siblings_before tree.now.nodes node) }
{
    let mut before = previous_siblings(tree, node);
    let Some(nearest) = before.next() else {
        return false;
    };
    if !is_whitespace(tree, nearest) {
        return false;
    }
    match before.next() {
        Some(sibling) => is_newline(tree, sibling),
        None => true,
    }
}

// The first indent among the children of a node.
//
// It is that of a child directly after its line's first blank: no other child's line is looked at.
fn first_indent<A: Allocator + Copy>(
    alloc: A,
    tree: &Tree<A>,
    node: usize,
) -> Result<Option<String<A>>, AllocError>
    requires { node < length tree.now.nodes }
    ensures { IfOk result (λ o. text_in o ≡ first_indent_in tree.now.nodes node) }
{
    for child in children_from(tree, node, 0) {
        if !follows_first_blank(tree, child) {
            continue;
        }
        let text = indent_text(alloc, tree, child)?;
        if text.is_some() {
            return Ok(text);
        }
    }
    Ok(None)
}

// The first indent among the children of the document's value, where the node stands below the root.
fn document_indent<A: Allocator + Copy>(
    alloc: A,
    tree: &Tree<A>,
    node: usize,
) -> Result<Option<String<A>>, AllocError>
    requires { node < length tree.now.nodes }
    ensures { IfOk result (λ o. text_in o ≡ document_indent tree.now.nodes node) }
{
    if root_node(tree, node).is_none() {
        return Ok(None);
    }
    let Some(value) = first_element_from(tree, 0, 0) else {
        return Ok(None);
    };
    first_indent(alloc, tree, value)
}

// What one level adds, where no two lines tell: the node's own indent where one level is above it,
// the document's, or two spaces.
fn single_at<A: Allocator + Copy>(
    alloc: A,
    tree: &Tree<A>,
    node: usize,
    count: usize,
) -> Result<String<A>, AllocError>
    requires in_tree { node < length tree.now.nodes }
    requires count { count ≡ length (levels_above tree.now.nodes node) }
    ensures { IfOk result (λ s. string_bytes s ≡ single_at tree.now.nodes node) }
{
    if count == 1 {
        if let Some(own) = indent_text(alloc, tree, node)? {
            return Ok(own);
        }
    }
    if let Some(first) = document_indent(alloc, tree, node)? {
        return Ok(first);
    }
    String::from_str(alloc, "  ")
}

/// The indents for what is put in beside a node: that of its line, and what one level adds.
///
/// The lines above the node tell, nearest first: two next to one another of which the inner one's
/// indent begins with the outer one's. Where none do, one level adds the node's own indent if one
/// level is above it, else the first indent in the document's value if the node stands below the root,
/// else two spaces.
pub fn indents_at<A: Allocator + Copy>(
    alloc: A,
    tree: &Tree<A>,
    node: usize,
) -> Result<Indents<A>, AllocError>
    requires in_tree { node < length tree.now.nodes }
    ensures indents { IfOk result (λ i. texts_of i ≡ indents_at tree.now.nodes node) }
{
    let levels = levels_above(alloc, tree, node)?;
    let own = indent_text(alloc, tree, node)?;
    if let Some(told) = told_by(alloc, tree, own, &levels)? {
        return Ok(told);
    }
    let single = single_at(alloc, tree, node, levels.len())?;
    levels_in(alloc, "", levels.len(), single.as_str())
}
