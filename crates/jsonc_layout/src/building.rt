//! A row of nodes that is built before it is inserted into a container.

ghost use Rattle.std.specs.Prelude.{◌≡◌, ◌∷◌, [], OnOk, length};
ghost use Rattle.jsonc_tree.specs.Building.{Keeps};
ghost use Rattle.jsonc_tree.specs.Content.{comment, newline, whitespace};
ghost use Rattle.jsonc_tree.specs.Stored.{content_of};
ghost use Rattle.jsonc_layout.specs.Building.{Gains};

use jsonc_tree::{CstNewlineKind, Kind, Tree};
use std::alloc::{AllocError, Allocator};

/// Nodes by their numbers, in order: leaves that are made for the row, which have no parent yet, and nodes
/// that are there.
#[derive(Drop)]
pub struct Row<A: Allocator> {
    /// The nodes.
    pub nodes: Vec<usize, A>,
    alloc: A,
}

impl<A: Allocator + Copy> Row<A> {
    /// A row without nodes.
    pub fn new(alloc: A) -> Row<A>
        ensures { result.nodes.items ≡ [] }
    {
        Row {
            nodes: Vec::new(alloc),
            alloc,
        }
    }

    /// Makes a leaf after the nodes of the row. On an error every node that was there stays as it was, as
    /// for the others below.
    pub fn push(&mut self, tree: &mut Tree<A>, kind: Kind<A>) -> Result<(), AllocError>
        ensures gains { OnOk result
            (Gains tree.old.nodes self.old.nodes.items tree.new.nodes self.new.nodes.items (content_of kind ∷ [])) }
        ensures kept { Keeps (length tree.old.nodes) tree.old.nodes tree.new.nodes }
    {
        let leaf = tree.add(kind)?;
        self.nodes.push(leaf)?;
        Ok(())
    }

    /// Makes whitespace.
    pub fn push_blank(&mut self, tree: &mut Tree<A>, text: &str) -> Result<(), AllocError>
        ensures gains { OnOk result
            (Gains tree.old.nodes self.old.nodes.items tree.new.nodes self.new.nodes.items (whitespace text.now ∷ [])) }
        ensures kept { Keeps (length tree.old.nodes) tree.old.nodes tree.new.nodes }
    {
        let text = String::from_str(self.alloc, text)?;
        self.push(tree, Kind::Whitespace(text))
    }

    /// Makes a comment.
    pub fn push_comment(&mut self, tree: &mut Tree<A>, text: &str) -> Result<(), AllocError>
        ensures gains { OnOk result
            (Gains tree.old.nodes self.old.nodes.items tree.new.nodes self.new.nodes.items (comment text.now ∷ [])) }
        ensures kept { Keeps (length tree.old.nodes) tree.old.nodes tree.new.nodes }
    {
        let text = String::from_str(self.alloc, text)?;
        self.push(tree, Kind::Comment(text))
    }

    /// Makes the end of a line, and the indent of the next one.
    pub fn push_line(
        &mut self,
        tree: &mut Tree<A>,
        kind: CstNewlineKind,
        indent: &str,
    ) -> Result<(), AllocError>
        ensures gains { OnOk result (Gains tree.old.nodes self.old.nodes.items tree.new.nodes self.new.nodes.items
            (newline kind ∷ whitespace indent.now ∷ [])) }
        ensures kept { Keeps (length tree.old.nodes) tree.old.nodes tree.new.nodes }
    {
        self.push(tree, Kind::Newline(kind))?;
        self.push_blank(tree, indent)
    }
}
