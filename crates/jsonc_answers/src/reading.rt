//! What a document tells of itself and of each of its nodes.

ghost use Rattle.jsonc_cst.specs.Document.{HasNode};
ghost use Rattle.jsonc_cst.specs.Nodes.{object_prop_node, string_lit_node};

use crate::input::push_input;
use crate::show::push_string_kind;
use jsonc_cases::escape::Escaped;
use jsonc_cases::push_children;
use jsonc_layout::lines::indents_at;
use jsonc_parser::cst::{
    CstComment, CstContainerNode, CstLeafNode, CstNewlineKind, CstNode, CstObjectProp, CstRootNode,
    CstStringLit, ParentNode, TypedNode,
};
use std::alloc::{AllocError, Global};

/// The readings of a document and of its nodes in printed order.
pub fn push_readings(
    alloc: Global,
    out: &mut String,
    doc: &CstRootNode<Global>,
) -> Result<(), AllocError> {
    out.push('\t')?;
    push_document(out, doc)?;
    push_value(out, doc)?;
    push_nodes(alloc, out, doc)
}

/// How lines end, what one level of indent adds, and where the value stands.
fn push_document(out: &mut String, doc: &CstRootNode<Global>) -> Result<(), AllocError> {
    let Ok(single) = doc.single_indent_text() else {
        return Err(AllocError);
    };
    let name = match doc.newline_kind() {
        CstNewlineKind::LineFeed => "LF",
        CstNewlineKind::CarriageReturnLineFeed => "CRLF",
        CstNewlineKind::CarriageReturn => "CR",
    };
    write!(out, "nk={name} si=")?;
    push_text(out, &single)?;
    out.push_str(" value=")?;
    push_place(out, doc, doc.value())
}

fn push_value(out: &mut String, doc: &CstRootNode<Global>) -> Result<(), AllocError> {
    out.push('\t')?;
    match doc.to_value() {
        Ok(Some(value)) => push_input(out, &value),
        Ok(None) => out.push('-'),
        Err(_) => Err(AllocError),
    }
}

/// Each node in printed order.
fn push_nodes(
    alloc: Global,
    out: &mut String,
    doc: &CstRootNode<Global>,
) -> Result<(), AllocError> {
    // The next node is the last.
    let mut left = Vec::new(alloc);
    left.push(CstNode::from(doc.root()))?;
    for _ in 0..u64::MAX {
        let Some(node) = left.pop() else {
            break;
        };
        if !doc.holds(node) {
            return Err(AllocError);
        }
        push_node(out, doc, node)?;
        push_indents(alloc, out, doc, node)?;
        let before = left.len();
        push_children(&mut left, doc, node)?;
        push_content(out, doc, node, left.len().saturating_sub(before))?;
    }
    Ok(())
}

/// A node's kind, its depth, its places, and how it is laid out.
fn push_node(out: &mut String, doc: &CstRootNode<Global>, node: CstNode) -> Result<(), AllocError>
    requires { HasNode doc.now node }
{
    let kind = kind_of(node);
    let depth = depth_of(doc, node);
    write!(out, "\t{kind} d={depth} ci={} it=", node.child_index(doc))?;
    push_layout(out, doc, node)?;
    out.push_str(" ei=")?;
    push_number(out, node.element_index(doc))?;
    out.push_str(" pi=")?;
    match node {
        CstNode::Container(CstContainerNode::ObjectProp(property)) => {
            write!(out, "{}", property.property_index(doc))?;
        }
        _ => out.push('-')?,
    }
    push_comments(out, doc, node)
}

/// How many containers are above a node.
fn depth_of(doc: &CstRootNode<Global>, node: CstNode) -> usize
    requires { HasNode doc.now node }
{
    let mut depth = 0usize;
    for _ in node.ancestors(doc) {
        depth = depth.saturating_add(1);
    }
    depth
}

fn push_layout(out: &mut String, doc: &CstRootNode<Global>, node: CstNode) -> Result<(), AllocError>
    requires { HasNode doc.now node }
{
    let Ok(indent) = node.indent_text(doc) else {
        return Err(AllocError);
    };
    push_text(out, &indent)?;
    write!(out, " bl={} tc=", digit(node.has_blank_line_before(doc)))?;
    match node.trailing_comma(doc) {
        Some(comma) => write!(out, "{}", CstNode::from(comma).child_index(doc))?,
        None => out.push('-')?,
    }
    write!(out, " ut={}", digit(node.uses_trailing_commas(doc)))
}

fn push_comments(
    out: &mut String,
    doc: &CstRootNode<Global>,
    node: CstNode,
) -> Result<(), AllocError>
    requires { HasNode doc.now node }
{
    let (Ok(leading), Ok(trailing)) = (
        node.leading_comments_same_line(doc),
        node.trailing_comments_same_line(doc),
    ) else {
        return Err(AllocError);
    };
    out.push_str(" lc=")?;
    push_places(out, doc, leading.as_slice())?;
    out.push_str(" tr=")?;
    push_places(out, doc, trailing.as_slice())
}

/// The indents that a node's line tells; the root stands on none.
fn push_indents(
    alloc: Global,
    out: &mut String,
    doc: &CstRootNode<Global>,
    node: CstNode,
) -> Result<(), AllocError>
    requires { HasNode doc.now node }
{
    if node.as_root_node().is_some() {
        return out.push_str(" in=, ");
    }
    let indents = indents_at(alloc, doc.tree(), node.number())?;
    let current = Escaped::word(indents.current.as_str());
    let single = Escaped::word(indents.single.as_str());
    write!(out, " in={current},{single} ")
}

/// What a leaf prints, or how many children a container has; and what a property or a string tells.
fn push_content(
    out: &mut String,
    doc: &CstRootNode<Global>,
    node: CstNode,
    child_count: usize,
) -> Result<(), AllocError>
    requires { HasNode doc.now node }
{
    match node {
        CstNode::Container(CstContainerNode::ObjectProp(property)) => {
            write!(out, "n={child_count}")?;
            push_property(out, doc, property)
        }
        CstNode::Container(_) => write!(out, "n={child_count}"),
        CstNode::Leaf(CstLeafNode::StringLit(string)) => {
            push_shown(out, doc, node)?;
            push_decoded(out, doc, string)
        }
        CstNode::Leaf(_) => push_shown(out, doc, node),
    }
}

fn push_shown(out: &mut String, doc: &CstRootNode<Global>, node: CstNode) -> Result<(), AllocError>
    requires { HasNode doc.now node }
{
    let text = node.shown(doc).to_string(*out.allocator())?;
    write!(out, "t={}", Escaped::word(text.as_str()))
}

fn push_property(
    out: &mut String,
    doc: &CstRootNode<Global>,
    property: CstObjectProp,
) -> Result<(), AllocError>
    requires { HasNode doc.now (object_prop_node property) }
{
    let Ok(name) = property.decoded_name(doc) else {
        return Err(AllocError);
    };
    out.push_str(" name=")?;
    push_text(out, &name)?;
    out.push_str(" v=")?;
    push_place(out, doc, property.value(doc))?;
    out.push_str(" pp=")?;
    push_place(out, doc, property.previous_property(doc).map(CstNode::from))?;
    out.push_str(" np=")?;
    push_place(out, doc, property.next_property(doc).map(CstNode::from))
}

fn push_decoded(
    out: &mut String,
    doc: &CstRootNode<Global>,
    string: CstStringLit,
) -> Result<(), AllocError>
    requires { HasNode doc.now (string_lit_node string) }
{
    out.push_str(" dec=")?;
    match string.decoded_value(doc) {
        Ok(text) => write!(out, "={}", Escaped::word(text.as_str())),
        Err(kind) => push_string_kind(out, &kind),
    }
}

/// Places among children, with commas between.
fn push_places(
    out: &mut String,
    doc: &CstRootNode<Global>,
    comments: &[CstComment],
) -> Result<(), AllocError> {
    if comments.is_empty() {
        return out.push('-');
    }
    for (number, comment) in comments.iter().enumerate() {
        if number > 0 {
            out.push(',')?;
        }
        push_place(out, doc, Some(CstNode::from(*comment)))?;
    }
    Ok(())
}

/// A node's place among its parent's children.
fn push_place(
    out: &mut String,
    doc: &CstRootNode<Global>,
    node: Option<CstNode>,
) -> Result<(), AllocError> {
    match node {
        Some(node) if doc.holds(node) => write!(out, "{}", node.child_index(doc)),
        _ => out.push('-'),
    }
}

fn push_number(out: &mut String, number: Option<usize>) -> Result<(), AllocError> {
    match number {
        Some(number) => write!(out, "{number}"),
        None => out.push('-'),
    }
}

fn push_text(out: &mut String, text: &Option<String>) -> Result<(), AllocError> {
    match text {
        Some(text) => write!(out, "={}", Escaped::word(text.as_str())),
        None => out.push('-'),
    }
}

fn digit(holds: bool) -> char {
    if holds { '1' } else { '0' }
}

fn kind_of(node: CstNode) -> &'static str {
    match node {
        CstNode::Container(CstContainerNode::Root(_)) => "Root",
        CstNode::Container(CstContainerNode::Array(_)) => "Array",
        CstNode::Container(CstContainerNode::Object(_)) => "Object",
        CstNode::Container(CstContainerNode::ObjectProp(_)) => "ObjectProp",
        CstNode::Leaf(CstLeafNode::BooleanLit(_)) => "BooleanLit",
        CstNode::Leaf(CstLeafNode::NullKeyword(_)) => "NullKeyword",
        CstNode::Leaf(CstLeafNode::NumberLit(_)) => "NumberLit",
        CstNode::Leaf(CstLeafNode::StringLit(_)) => "StringLit",
        CstNode::Leaf(CstLeafNode::WordLit(_)) => "WordLit",
        CstNode::Leaf(CstLeafNode::Token(_)) => "Token",
        CstNode::Leaf(CstLeafNode::Whitespace(_)) => "Whitespace",
        CstNode::Leaf(CstLeafNode::Newline(_)) => "Newline",
        CstNode::Leaf(CstLeafNode::Comment(_)) => "Comment",
    }
}
