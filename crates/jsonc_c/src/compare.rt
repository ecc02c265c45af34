//! The order of what an edit sorts.
ghost use Rattle.std.specs.Prelude.{◌≡◌};
ghost use Rattle.std.specs.Cmp.Lexicographic.{slice_cmp};
ghost use Rattle.std.specs.Ordering.{nat_cmp};
ghost use Rattle.jsonc_cst.specs.Document.{content_of};
ghost use Rattle.jsonc_c.specs.Compared.{literal_text, sorted_by};
ghost use Rattle.jsonc_cst.specs.Document.{HasNode};
ghost use Rattle.jsonc_cst.specs.Nodes.{boolean_lit_node};

use jsonc_engine::written_name;
use jsonc_parser::cst::{CstBooleanLit, CstContainerNode, CstLeafNode, CstNode, CstRootNode};
use std::alloc::Global;
use std::cmp::Ordering;

/// A truth value as it is written.
fn boolean_of(document: &CstRootNode<Global>, boolean: CstBooleanLit) -> &'static [u8]
    requires { HasNode document.now (boolean_lit_node boolean) }
    ensures { result.now ≡ literal_text (content_of document.now (boolean_lit_node boolean)) }
{
    if boolean.value(document) {
        b"true"
    } else {
        b"false"
    }
}

/// What goes by in a sort: of a property its name, of a literal its text, of an array or object nothing.
fn sorted_by(document: &CstRootNode<Global>, node: CstNode) -> &[u8]
    requires { HasNode document.now node }
    ensures { result.now ≡ sorted_by document.now node }
{
    match node {
        CstNode::Container(CstContainerNode::ObjectProp(property)) => written_name(
            document, property,
        ),
        CstNode::Leaf(CstLeafNode::StringLit(string)) => string.raw_value(document).as_bytes(),
        CstNode::Leaf(CstLeafNode::NumberLit(number)) => number.raw_value(document).as_bytes(),
        CstNode::Leaf(CstLeafNode::BooleanLit(boolean)) => boolean_of(document, boolean),
        CstNode::Leaf(CstLeafNode::NullKeyword(_)) => b"null",
        _ => &[],
    }
}

/// Compares properties by their names and literals by their texts, as they are written, without the quotes of names,
/// byte by byte. Arrays and objects come first, and are all equal.
pub(crate) fn compare(document: &CstRootNode<Global>, one: CstNode, other: CstNode) -> Ordering
    requires one { HasNode document.now one }
    requires other { HasNode document.now other }
    ensures { result ≡ slice_cmp nat_cmp (sorted_by document.now one) (sorted_by document.now other) }
{
    let text = sorted_by(document, one);
    text.cmp(&sorted_by(document, other))
}
