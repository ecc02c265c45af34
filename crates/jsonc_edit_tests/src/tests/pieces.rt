//! The pieces of documents, one for each leaf.

use crate::tests::changes::{Change, Way};
use crate::tests::reading::read;
use crate::tests::rows::{Edits, make};
use jsonc_parser::cst::{CstLeafNode, CstNode, CstRootNode, ParentNode};
use std::alloc::Global;
use std::test::Fail;

/// Edits, the text before them, and the pieces after them.
type Row = (Edits<'static>, &'static str, &'static [&'static str]);

static ROWS: [Row; 4] = [
    (Edits::List(&[]), "[1, 2]", &["[", "1", ",", " ", "2", "]"]),
    (
        Edits::Node(Change::Value(Way::Append, "3")),
        "[1, 2]",
        &["[", "1", ",", " ", "2", ",", " ", "3", "]"],
    ),
    // An array that is put into another one, with an empty indent before its last bracket.
    (
        Edits::List(&[(&[0], Change::Value(Way::Replace, "[7, [8]]"))]),
        "[true, 2]",
        &[
            "[", "[", "\n", "  ", "7", ",", "\n", "  ", "[", "8", "]", "\n", "", "]", ",", " ",
            "2", "]",
        ],
    ),
    // The same text, read, has no empty leaf.
    (
        Edits::List(&[]),
        "[[\n  7,\n  [8]\n], 2]",
        &[
            "[", "[", "\n", "  ", "7", ",", "\n", "  ", "[", "8", "]", "\n", "]", ",", " ", "2",
            "]",
        ],
    ),
];

/// Whether the pieces of a document are these.
fn has_pieces(doc: &CstRootNode<Global>, wanted: &[&str]) -> bool {
    let mut count = 0;
    for piece in doc.pieces() {
        match wanted.get(count) {
            Some(text) if text.as_bytes() == piece => count += 1,
            _ => return false,
        }
    }
    count == wanted.len()
}

/// Whether they are those of a row after its edits.
fn is_in_pieces(alloc: Global, row: &Row) -> bool {
    let Ok(mut doc) = read(alloc, row.1) else {
        return false;
    };
    let (_, done) = make(&mut doc, alloc, row.0);
    done.is_ok() && has_pieces(&doc, row.2)
}

/// Whether they are those of a document whose comma was set to a character of three bytes.
fn is_set(alloc: Global) -> bool {
    let Ok(mut doc) = read(alloc, "[1, 2]") else {
        return false;
    };
    let Some(array) = doc.array_value() else {
        return false;
    };
    let Some(CstNode::Leaf(CstLeafNode::Token(comma))) = array.child_at_index(&doc, 2) else {
        return false;
    };
    comma.set_value(&mut doc, '\u{20ac}');
    has_pieces(&doc, &["[", "1", "\u{20ac}", " ", "2", "]"])
}

#[test]
fn each_leaf_gives_a_piece(rt: HostRuntime) -> Result<(), Fail> {
    for row in &ROWS {
        assert!(rt; is_in_pieces(rt.alloc(), row), "{}", row.1);
    }
    assert!(rt; is_set(rt.alloc()));
    Ok(())
}
