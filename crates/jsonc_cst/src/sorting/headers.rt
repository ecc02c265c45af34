//! Rules of headers: which comments above elements are pinned.

ghost use Rattle.std.specs.Prelude.{◌≡◌, [], ℕ, IfErr, IfOk, IfSome, List, Option, ⊤, map};
ghost use Rattle.std.specs.List.{All, filter_map};
ghost use Rattle.jsonc_sort.specs.ordering.Order.{node_in};
ghost use Rattle.jsonc_cst.specs.declared.cst.CstRootNode.{CstRootNode};
ghost use Rattle.jsonc_cst.specs.declared.cst.node.CstNode.{CstNode};
ghost use Rattle.jsonc_cst.specs.Document.{nodes_of, HasNode};
ghost use Rattle.jsonc_cst.specs.Nodes.{typed_at};
ghost use Rattle.jsonc_cst.specs.sorting.Pins.{blank_line_pin, comment_if, comments_of, header_pin, kept_headers, leads_of, pins_where};
ghost use Rattle.jsonc_cst.specs.sorting.Pins.{ArePins, HoldsComment, IsPin, MayPin};

use crate::cst::{CstComment, CstLeafNode, CstNode, CstRootNode, EditError, TypedNode, node_at};
use crate::typed::DocumentArg;
use jsonc_sort::{LeadRead, comments_above, read_leads};
use std::alloc::{AllocError, Allocator};

// The node, if it is a comment.
fn comment_if(node: CstNode) -> Option<CstComment>
    ensures { result ≡ comment_if node }
{
    match node {
        CstNode::Leaf(CstLeafNode::Comment(comment)) => Some(comment),
        _ => None,
    }
}

// The node of a number, if it is a comment.
fn comment_at<A: Allocator>(doc: &CstRootNode<A>, number: usize) -> Option<CstComment>
    ensures { result ≡ comment_if (typed_at (nodes_of doc.now) number) }
{
    if number >= doc.tree.len() {
        return None;
    }
    comment_if(node_at(&doc.tree, number))
}

// What is before each element of a container.
pub(crate) fn leads_of<A: Allocator + Copy>(
    doc: &CstRootNode<A>,
    container: CstNode,
) -> Result<Vec<LeadRead, A>, EditError>
    requires { HasNode doc.now container }
    ensures leads { IfOk result (λ v. v.items ≡ leads_of doc.now container) }
    ensures memory { IfErr result (λ e. e ≡ EditError.OutOfMemory) }
{
    let Ok(leads) = read_leads(doc.alloc, &doc.tree, container.number()) else {
        return Err(EditError::OutOfMemory);
    };
    Ok(leads)
}

// The comments of these numbers, in order.
fn comments_at<A: Allocator + Copy>(
    doc: &CstRootNode<A>,
    numbers: &[usize],
) -> Result<Vec<CstComment, A>, AllocError>
    ensures { IfOk result
        (λ v. v.items ≡ filter_map (λ n. comment_if (typed_at (nodes_of doc.now) n)) numbers.now) }
{
    numbers
        .iter()
        .filter_map(|number| comment_at(doc, *number))
        .collect(doc.alloc)
}

// The comments above its elements.
fn comments_of<A: Allocator + Copy>(
    doc: &CstRootNode<A>,
    container: CstNode,
) -> Result<Vec<CstComment, A>, EditError>
    requires { HasNode doc.now container }
    ensures comments { IfOk result (λ v. v.items ≡ comments_of doc.now container) }
    ensures in_document { IfOk result (λ v. All (HoldsComment doc.now) v.items) }
    ensures memory { IfErr result (λ e. e ≡ EditError.OutOfMemory) }
{
    let Ok(numbers) = comments_above(doc.alloc, &doc.tree, container.number()) else {
        return Err(EditError::OutOfMemory);
    };
    let Ok(comments) = comments_at(doc, &numbers) else {
        return Err(EditError::OutOfMemory);
    };
    Ok(comments)
}

// How many comments above a node a rule pins.
fn pin_of<A: Allocator, D: DocumentArg<A>, N: TypedNode, F: Fn(&D, N, &[CstComment]) -> usize>(
    doc: &CstRootNode<A>,
    node: Option<N>,
    comments: &[CstComment],
    rule: &F,
) -> Option<usize>
    requires node { IfSome node (λ x. HasNode doc.now (N.node_of x)) }
    requires comments { All (HoldsComment doc.now) comments.now }
    requires asked { MayPin F.Fn rule.now (D.same doc.now) (λ x. HasNode doc.now (N.node_of x)) (HoldsComment doc.now) }
    ensures { IsPin F.Fn rule.now (D.same doc.now) node comments.now result }
{
    let Some(node) = node else {
        return Some(0);
    };
    if comments.len() == 0 {
        return Some(0);
    }
    Some(rule(D::of(doc), node, comments))
}

// The node at a place, if there is one.
fn node_at_place<N: Copy>(nodes: &[Option<N>], place: usize) -> Option<N>
    ensures { result ≡ node_in nodes.now place }
{
    if place < nodes.len() {
        return nodes[place];
    }
    None
}

// The same for each node of a list of children.
fn pins_by<
    A: Allocator + Copy,
    D: DocumentArg<A>,
    N: TypedNode,
    F: Fn(&D, N, &[CstComment]) -> usize,
>(
    doc: &CstRootNode<A>,
    nodes: &[Option<N>],
    leads: &[LeadRead],
    comments: &[CstComment],
    rule: &F,
) -> Result<Vec<Option<usize>, A>, AllocError>
    requires in_document { All (λ o. IfSome o (λ x. HasNode doc.now (N.node_of x))) nodes.now }
    requires comments { All (HoldsComment doc.now) comments.now }
    requires asked { MayPin F.Fn rule.now (D.same doc.now) (λ x. HasNode doc.now (N.node_of x)) (HoldsComment doc.now) }
    ensures { IfOk result (λ v. ArePins F.Fn rule.now (D.same doc.now) nodes.now 0 leads.now comments.now v.items) }
{
    let mut pins = Vec::new(doc.alloc);
    let mut from = 0;
    for place in 0..leads.len() {
        let upto = from + leads[place].comments.min(comments.len() - from);
        pins.push(pin_of(
            doc,
            node_at_place(nodes, place),
            &comments[from..upto],
            rule,
        ))?;
        from = upto;
    }
    Ok(pins)
}

// How many comments blank lines pin above each element.
fn blank_line_pins<A: Allocator + Copy>(
    alloc: A,
    leads: &[LeadRead],
) -> Result<Vec<Option<usize>, A>, AllocError>
    ensures { IfOk result (λ v. v.items ≡ map blank_line_pin leads.now) }
{
    leads
        .iter()
        .map(|lead| blank_line_pin(*lead))
        .collect(alloc)
}

// How many they pin above one.
fn blank_line_pin(lead: LeadRead) -> Option<usize>
    ensures { result ≡ blank_line_pin lead }
{
    if lead.blank_line {
        return Some(lead.comments);
    }
    Some(0)
}

// How many comments blank lines pin above each element, where they are to.
pub(crate) fn pins_where<A: Allocator + Copy>(
    doc: &CstRootNode<A>,
    container: CstNode,
    pin: bool,
) -> Result<Vec<Option<usize>, A>, EditError>
    requires { HasNode doc.now container }
    ensures pins { IfOk result (λ v. v.items ≡ pins_where doc.now container pin) }
    ensures memory { IfErr result (λ e. e ≡ EditError.OutOfMemory) }
{
    if !pin {
        return Ok(Vec::new(doc.alloc));
    }
    let leads = leads_of(doc, container)?;
    let Ok(pins) = blank_line_pins(doc.alloc, &leads) else {
        return Err(EditError::OutOfMemory);
    };
    Ok(pins)
}

/// A rule for how many of the comments above each element are a header.
///
/// These stay where they are, and the others move with the element. The four rules here are all
/// that are meant.
pub trait HeaderRule<A: Allocator + Copy, D: DocumentArg<A>, N: TypedNode>: Drop {
    ghost may_ask: { Self → CstRootNode A → Type 0 };

    ghost pins: { Self → CstRootNode A → CstNode → List (Option N) → List (Option ℕ) → Type 0 };

    /// How many comments above each node stay where they are.
    ///
    /// None for a node of which the rule says nothing.
    fn pins(
        &self,
        doc: &CstRootNode<A>,
        container: CstNode,
        nodes: &[Option<N>],
    ) -> Result<Vec<Option<usize>, A>, EditError>
        requires container { HasNode doc.now container }
        requires in_document { All (λ o. IfSome o (λ x. HasNode doc.now (N.node_of x))) nodes.now }
        requires asked { may_ask self.now doc.now }
        ensures pins { IfOk result (λ v. pins self.now doc.now container nodes.now v.items) }
        ensures memory { IfErr result (λ e. e ≡ EditError.OutOfMemory) };
}

/// No rule: all comments above an element move with it.
#[derive(Clone, Copy)]
pub struct NoHeaders;

impl<A: Allocator + Copy, D: DocumentArg<A>, N: TypedNode> HeaderRule<A, D, N> for NoHeaders {
    ghost may_ask = { λ rule d. ⊤ };

    ghost pins = { λ rule d container nodes pins. pins ≡ [] };

    fn pins(
        &self,
        doc: &CstRootNode<A>,
        _container: CstNode,
        _nodes: &[Option<N>],
    ) -> Result<Vec<Option<usize>, A>, EditError> {
        Ok(Vec::new(doc.alloc))
    }
}

/// All comments above an element stay where a blank line is before it.
///
/// They are a header of what follows.
#[derive(Clone, Copy)]
pub struct BlankLineHeaders;

impl<A: Allocator + Copy, D: DocumentArg<A>, N: TypedNode> HeaderRule<A, D, N>
    for BlankLineHeaders {
    ghost may_ask = { λ rule d. ⊤ };

    ghost pins = { λ rule d container nodes pins. pins ≡ map blank_line_pin (leads_of d container) };

    fn pins(
        &self,
        doc: &CstRootNode<A>,
        container: CstNode,
        _nodes: &[Option<N>],
    ) -> Result<Vec<Option<usize>, A>, EditError> {
        pins_where(doc, container, true)
    }
}

// How many comments are above the last blank line before each element.
fn header_pins<A: Allocator + Copy>(
    alloc: A,
    leads: &[LeadRead],
) -> Result<Vec<Option<usize>, A>, AllocError>
    ensures { IfOk result (λ v. v.items ≡ map header_pin leads.now) }
{
    leads.iter().map(|lead| header_pin(*lead)).collect(alloc)
}

// How many are there before one.
fn header_pin(lead: LeadRead) -> Option<usize>
    ensures { result ≡ header_pin lead }
{
    Some(lead.header)
}

/// The comments above the last blank line before an element stay where they are, and those below move with it.
///
/// What moves is what [`CstRootNode::comments_of`] answers.
#[derive(Clone, Copy)]
pub struct KeptHeaders;

impl<A: Allocator + Copy, D: DocumentArg<A>, N: TypedNode> HeaderRule<A, D, N> for KeptHeaders {
    ghost may_ask = { λ rule d. ⊤ };

    ghost pins = { λ rule d container nodes pins. pins ≡ kept_headers d container };

    fn pins(
        &self,
        doc: &CstRootNode<A>,
        container: CstNode,
        _nodes: &[Option<N>],
    ) -> Result<Vec<Option<usize>, A>, EditError> {
        let leads = leads_of(doc, container)?;
        let Ok(pins) = header_pins(doc.alloc, &leads) else {
            return Err(EditError::OutOfMemory);
        };
        Ok(pins)
    }
}

/// A rule of the caller's.
///
/// It is asked of an element and the comments above it, where there are any, and answers how many
/// of them are a header, from the first on.
#[derive(Drop)]
pub struct HeadersBy<F> {
    /// The rule.
    pub rule: F,
}

impl<
    A: Allocator + Copy,
    D: DocumentArg<A>,
    N: TypedNode,
    F: Fn(&D, N, &[CstComment]) -> usize + Drop,
> HeaderRule<A, D, N> for HeadersBy<F> {
    ghost may_ask = { λ rule d. MayPin F.Fn rule.rule (D.same d) (λ x. HasNode d (N.node_of x)) (HoldsComment d) };

    ghost pins = { λ rule d container nodes pins.
        ArePins F.Fn rule.rule (D.same d) nodes 0 (leads_of d container) (comments_of d container) pins };

    fn pins(
        &self,
        doc: &CstRootNode<A>,
        container: CstNode,
        nodes: &[Option<N>],
    ) -> Result<Vec<Option<usize>, A>, EditError> {
        let leads = leads_of(doc, container)?;
        let comments = comments_of(doc, container)?;
        let Ok(pins) = pins_by(doc, nodes, &leads, &comments, &self.rule) else {
            return Err(EditError::OutOfMemory);
        };
        Ok(pins)
    }
}
