//! Printing: the texts of the leaves in order.

ghost use Rattle.std.specs.Prelude.{◌≡◌, ◌<◌, ◌++◌, Some, length, string_bytes, vec_len, IfOk, OnOk};
ghost use Rattle.std.specs.Fmt.{WritesOnOk, WritesStyledOnOk};
ghost use Rattle.jsonc_tree.specs.Content.{text_of};
ghost use Rattle.jsonc_tree.specs.OrderedTree.{ordered_tree, printed};
ghost use Rattle.jsonc_tree.specs.Stored.{content_of, nodes_in, IsStored};

use crate::node::{Kind, Node};
use crate::tree::Tree;
use crate::walk::{kind_of, node_after};
use std::alloc::{AllocError, Allocator};
use std::fmt;
use std::marker::Model;

fn write_own<A: Allocator, W: fmt::Write>(kind: &Kind<A>, f: &mut fmt::Formatter<W>) -> fmt::Result
    ensures { WritesStyledOnOk W.write_str_gives f.old result (text_of (content_of kind.now)) f.new }
{
    match kind {
        Kind::Root(_) | Kind::Object(_) | Kind::Array(_) | Kind::Property(_) => Ok(()),
        Kind::String(s) => f.write_str(s.as_str()),
        Kind::Word(s) => f.write_str(s.as_str()),
        Kind::Number(s) => f.write_str(s.as_str()),
        Kind::Boolean(true) => f.write_str("true"),
        Kind::Boolean(false) => f.write_str("false"),
        Kind::Null => f.write_str("null"),
        Kind::Token(c) => f.write_char(c.get()),
        Kind::Whitespace(s) => f.write_str(s.as_str()),
        Kind::Newline(kind) => f.write_str(kind.as_str()),
        Kind::Comment(s) => f.write_str(s.as_str()),
        Kind::StringPart(s) => f.write_str(s.as_str()),
        Kind::WordPart(s) => f.write_str(s.as_str()),
        Kind::NumberPart(s) => f.write_str(s.as_str()),
        Kind::WhitespacePart(s) => f.write_str(s.as_str()),
        Kind::CommentPart(s) => f.write_str(s.as_str()),
    }
}

// Writes what the leaves below `end` print, with no memory.
fn write_below<A: Allocator, W: fmt::Write>(
    nodes: &Vec<Node<A>, A>,
    end: usize,
    f: &mut fmt::Formatter<W>,
) -> fmt::Result
    requires stored { IsStored nodes.now.items }
    requires in_tree { end < vec_len nodes.now }
    ensures writes { WritesOnOk W.write_str_gives f.old result (printed (ordered_tree (nodes_in nodes.now) end)) f.new }
    ensures styled { WritesStyledOnOk W.write_str_gives f.old result
        (printed (ordered_tree (nodes_in nodes.now) end)) f.new }
{
    let mut next = Some(end);
    while let Some(n) = next {
        write_own(kind_of(nodes, n), f)?;
        next = node_after(nodes, end, n);
    }
    Ok(())
}

// Appends what a node prints itself.
#[inline(always)]
fn push_own<A: Allocator, B: Allocator>(
    kind: &Kind<A>,
    out: &mut String<B>,
) -> Result<(), AllocError>
    ensures { OnOk result (string_bytes out.new ≡ string_bytes out.old ++ text_of (content_of kind.now)) }
{
    match kind {
        Kind::Root(_) | Kind::Object(_) | Kind::Array(_) | Kind::Property(_) => Ok(()),
        Kind::String(s) => out.push_str(s.as_str()),
        Kind::Word(s) => out.push_str(s.as_str()),
        Kind::Number(s) => out.push_str(s.as_str()),
        Kind::Boolean(true) => out.push_str("true"),
        Kind::Boolean(false) => out.push_str("false"),
        Kind::Null => out.push_str("null"),
        Kind::Token(c) => out.push(c.get()),
        Kind::Whitespace(s) => out.push_str(s.as_str()),
        Kind::Newline(kind) => out.push_str(kind.as_str()),
        Kind::Comment(s) => out.push_str(s.as_str()),
        Kind::StringPart(s) => out.push_str(s.as_str()),
        Kind::WordPart(s) => out.push_str(s.as_str()),
        Kind::NumberPart(s) => out.push_str(s.as_str()),
        Kind::WhitespacePart(s) => out.push_str(s.as_str()),
        Kind::CommentPart(s) => out.push_str(s.as_str()),
    }
}

// What the leaves below `end` print.
fn text_below<A: Allocator, B: Allocator>(
    alloc: B,
    nodes: &Vec<Node<A>, A>,
    end: usize,
) -> Result<String<B>, AllocError>
    requires stored { IsStored nodes.now.items }
    requires in_tree { end < vec_len nodes.now }
    ensures { IfOk result (λ s. string_bytes s ≡ printed (ordered_tree (nodes_in nodes.now) end)) }
{
    let mut out = String::new(alloc);
    let mut next = Some(end);
    while let Some(n) = next {
        push_own(kind_of(nodes, n), &mut out)?;
        next = node_after(nodes, end, n);
    }
    Ok(out)
}

/// A node that prints itself and all below it.
#[derive(Drop)]
pub struct Shown<'a, A: Allocator> {
    nodes: &'a Vec<Node<A>, A>,
    node: usize,
}

impl<'a, A: Allocator> Model for Shown<'a, A> {
    ghost use Rattle.std.specs.Prelude.{◌<◌, vec_len};
    ghost use Rattle.jsonc_tree.specs.Tree.{Chosen};

    ghost Value = { Chosen };

    ghost use Rattle.jsonc_tree.specs.Stored.{nodes_of, IsStored};

    ghost view = { λ s. record {
      nodes = nodes_of s.nodes.now.items;
      node = s.node;
    } };

    ghost invariant = { λ s. IsStored s.nodes.now.items × (s.node < vec_len s.nodes.now) };
}

impl<A: Allocator> Tree<A> {
    /// What the document prints: the texts of its leaves, in order.
    pub fn text<B: Allocator>(&self, alloc: B) -> Result<String<B>, AllocError>
        ensures { IfOk result (λ s. string_bytes s ≡ printed (ordered_tree self.now.nodes 0)) }
    {
        text_below(alloc, &self.nodes, 0)
    }

    /// A node to be printed with what is below it.
    pub fn shown(&self, node: usize) -> Shown<'_, A>
        requires { node < length self.now.nodes }
        ensures nodes { result.nodes ≡ self.now.nodes }
        ensures node { result.node ≡ node }
    {
        Shown {
            nodes: &self.nodes,
            node,
        }
    }
}

/// Writes what the node and those below it print: the texts of the leaves, in order.
impl<'a, A: Allocator> fmt::Display for Shown<'a, A> {
    ghost output = { λ s. Some (printed (ordered_tree s.nodes s.node)) };

    ghost styled_output = { λ s _. Some (printed (ordered_tree s.nodes s.node)) };

    fn fmt<W: fmt::Write>(&self, f: &mut fmt::Formatter<W>) -> fmt::Result {
        write_below(self.nodes, self.node, f)
    }
}

/// Writes the document: the texts of its leaves, in order.
impl<A: Allocator> fmt::Display for Tree<A> {
    ghost output = { λ t. Some (printed (ordered_tree t.nodes 0)) };

    ghost styled_output = { λ t _. Some (printed (ordered_tree t.nodes 0)) };

    fn fmt<W: fmt::Write>(&self, f: &mut fmt::Formatter<W>) -> fmt::Result {
        write_below(&self.nodes, 0, f)
    }
}
