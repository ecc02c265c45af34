//! How documents are laid out.
ghost use Rattle.std.specs.Prelude.{◌<◌, IfSome, length};

use failing_alloc::outcome::Outcome;
use jsonc_build::parse_tree;
use jsonc_layout::lines::{
    Indents, has_blank_line_before, indent_text, indents_at, newline_kind, single_indent_text,
    trailing_comma, uses_trailing_commas,
};
use jsonc_parser::ParseOptions;
use jsonc_tree::{CstNewlineKind, Kind, Tree};
use std::alloc::{AllocError, Allocator};
use std::default::Default;

/// An object over lines, with a comment at the end of one.
const SPREAD: &str = "{\n  \"a\": 1, // x\n  \"b\": [2]\n}";

/// An array with a blank line, a comment before an element and a comma after the last one.
const GROUPED: &str = "[\r\n\t\"a\",\r\n\r\n\t/* c */ \"b\",\r\n]";

/// Objects in one another, whose levels add two blanks to one.
const NESTED: &str = "{\n \"c\": {\n   \"d\": 3\n }\n}";

/// The tree of a document.
pub fn tree_of<A: Allocator + Copy>(alloc: A, text: &str) -> Result<Tree<A>, Outcome> {
    let tree = parse_tree(alloc, text, &ParseOptions::default())?;
    Ok(tree)
}

fn is_string<A: Allocator>(kind: &Kind<A>, text: &str) -> bool {
    match kind {
        Kind::StringPart(part) => part.as_str() == text,
        _ => false,
    }
}

/// The leaf of a string with this text.
fn string_leaf<A: Allocator>(tree: &Tree<A>, text: &str) -> Option<usize>
    ensures { IfSome result (λ n. n < length tree.now.nodes) }
{
    for node in 0..tree.len() {
        if is_string(tree.kind(node), text) {
            return Some(node);
        }
    }
    None
}

/// The node above a leaf.
fn above<A: Allocator>(tree: &Tree<A>, text: &str) -> Option<usize>
    ensures { IfSome result (λ n. n < length tree.now.nodes) }
{
    let leaf = string_leaf(tree, text)?;
    match tree.parent(leaf) {
        Some(parent) if parent < tree.len() => Some(parent),
        _ => None,
    }
}

/// Whether an indent that is told is this text, or the memory for it was wanted.
fn is_indent<A: Allocator>(found: Result<Option<String<A>>, AllocError>, text: &str) -> Outcome {
    match found {
        Ok(Some(found)) => Outcome::of(found.as_str() == text),
        Ok(None) => Outcome::Other,
        Err(error) => Outcome::from(error),
    }
}

/// Whether the document uses trailing commas, as it is to.
fn uses_commas<A: Allocator>(tree: &Tree<A>, wanted: bool) -> Outcome {
    if tree.len() == 0 {
        return Outcome::Other;
    }
    Outcome::of(uses_trailing_commas(tree, 0) == wanted)
}

fn is_spread_told<A: Allocator + Copy>(alloc: A, tree: &Tree<A>) -> Outcome {
    let (Some(first), Some(second)) = (above(tree, "\"a\""), above(tree, "\"b\"")) else {
        return Outcome::Other;
    };
    let has_commas = trailing_comma(tree, first).is_some()
        && trailing_comma(tree, second).is_none()
        && !has_blank_line_before(tree, second);
    is_indent(indent_text(alloc, tree, second), "  ")
        .then(is_indent(single_indent_text(alloc, tree), "  "))
        .then(uses_commas(tree, false))
        .then(Outcome::of(has_commas))
}

fn is_grouped_told<A: Allocator + Copy>(alloc: A, tree: &Tree<A>) -> Outcome {
    let (Some(first), Some(second)) = (string_leaf(tree, "\"a\""), string_leaf(tree, "\"b\""))
    else {
        return Outcome::Other;
    };
    let has_groups = has_blank_line_before(tree, second) && !has_blank_line_before(tree, first);
    let windows = CstNewlineKind::CarriageReturnLineFeed;
    is_indent(indent_text(alloc, tree, second), "\t")
        .then(is_indent(single_indent_text(alloc, tree), "\t"))
        .then(Outcome::of(newline_kind(tree) == windows))
        .then(uses_commas(tree, true))
        .then(Outcome::of(has_groups))
}

/// Whether these are the indents at the node above a leaf.
fn are_indents<A: Allocator + Copy>(
    alloc: A,
    tree: &Tree<A>,
    leaf: &str,
    current: &str,
    single: &str,
) -> Outcome {
    let Some(node) = above(tree, leaf) else {
        return Outcome::Other;
    };
    match indents_at(alloc, tree, node) {
        Ok(
            Indents {
                current: found,
                single: level,
            },
        ) => { Outcome::of(found.as_str() == current && level.as_str() == single) }
        Err(error) => Outcome::from(error),
    }
}

fn spread<A: Allocator + Copy>(alloc: A) -> Outcome {
    match tree_of(alloc, SPREAD) {
        Ok(tree) => {
            is_spread_told(alloc, &tree).then(are_indents(alloc, &tree, "\"b\"", "  ", "  "))
        }
        Err(outcome) => outcome,
    }
}

fn grouped<A: Allocator + Copy>(alloc: A) -> Outcome {
    match tree_of(alloc, GROUPED) {
        Ok(tree) => is_grouped_told(alloc, &tree),
        Err(outcome) => outcome,
    }
}

fn nested<A: Allocator + Copy>(alloc: A) -> Outcome {
    match tree_of(alloc, NESTED) {
        Ok(tree) => are_indents(alloc, &tree, "\"d\"", "   ", "  "),
        Err(outcome) => outcome,
    }
}

/// Each call on a few documents.
pub fn laid_out<A: Allocator + Copy>(alloc: A) -> Outcome {
    spread(alloc).then(grouped(alloc)).then(nested(alloc))
}
