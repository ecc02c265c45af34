//! Edits on typed nodes: the text that each leaves, and the memory that it wants.

use crate::tests::node_edits::NodeEdit::{
    ArrayOrSet, ObjectOrSet, Remove, RemoveLeaf, RemoveName, RemoveValue, Rename, Replace,
    ReplaceName, ReplaceProperty, SetFalse, SetLeaf, SetRaw, SetRawName, SetValue,
};
use crate::tests::node_edits::{NodeEdit, edit_node};
use crate::tests::reading::{child_at, prepared};
use crate::tests::root_edits::{RootEdit, edit_root};
use TypedEdit::{At, Root};
use failing_alloc::Refusing;
use failing_alloc::awaited::prints;
use failing_alloc::in_turn::refused_in_turn;
use failing_alloc::outcome::Outcome;
use jsonc_parser::cst::CstRootNode;
use std::alloc::{Allocator, Global};
use std::test::Fail;

/// An edit on a typed node.
#[derive(Clone, Copy)]
enum TypedEdit {
    Root(RootEdit),
    /// Of the child of the document's array or object at a place.
    At(usize, NodeEdit),
}

/// A text, an edit of it with the word that it writes, and the text after it.
type Row = (&'static str, TypedEdit, &'static str, &'static str);

const TWO: &str = "{ \"a\": 1, \"b\": 2 }";

const NOTED: &str = "{\n// c\n  a /*c*/ : /*d*/ 1 // e\n}";

const RENAMED: &str = "{\n// c\n  \"b\" /*c*/ : /*d*/ 1 // e\n}";

/// The edits that want memory.
static WANTING: [Row; 19] = [
    ("// c", Root(RootEdit::Set), "1", "// c\n1\n"),
    (TWO, At(5, ReplaceProperty), "3", "{ \"a\": 1, \"c\": 3 }"),
    ("// c\n", Root(RootEdit::Set), "1", "// c\n1\n"),
    (TWO, At(2, SetValue), "3", "{ \"a\": 3, \"b\": 2 }"),
    ("", Root(RootEdit::ObjectOrCreate), "", "{}\n"),
    ("", Root(RootEdit::ArrayOrCreate), "", "[]\n"),
    ("[/*a*/1/*b*/]", At(2, Replace), "2", "[/*a*/2/*b*/]"),
    ("[1[2]3]", At(2, Replace), "9", "[1 9 3]"),
    ("{a:1\"b\":2}", At(2, ReplaceName), "7", "{a:17:2}"),
    ("{a:[1]b:2}", At(1, SetValue), "7", "{a:7 b:2}"),
    ("{a:1b:2}", At(2, Rename), "c", "{a:1\"c\":2}"),
    ("{a:1b:2}", At(1, Rename), "c", "{\"c\":1b:2}"),
    ("{0x1:1,}", At(1, Rename), "", "{\"\":1,}"),
    (TWO, At(2, Rename), "\"\\", "{ \"\\\"\\\\\": 1, \"b\": 2 }"),
    (NOTED, At(5, Rename), "b", RENAMED),
    ("[0x1true]", At(2, SetFalse), "", "[0x1 false]"),
    ("[1/*c*/2]", At(2, Remove), "", "[1 2]"),
    ("[1[2]3]", At(2, Remove), "", "[1 3]"),
    ("{a:1\"x\":2b:3}", At(2, Remove), "", "{a:1 b:3}"),
];

/// The edits that write an empty array or object in the place of a value: they want memory only where there
/// is none left for its nodes.
static WRITING_EMPTY: [Row; 4] = [
    (TWO, At(2, ObjectOrSet), "", "{ \"a\": {}, \"b\": 2 }"),
    ("[1] // c", Root(RootEdit::ObjectOrSet), "", "{} // c"),
    (TWO, At(5, ArrayOrSet), "", "{ \"a\": 1, \"b\": [] }"),
    ("{} // c", Root(RootEdit::ArrayOrSet), "", "[] // c"),
];

/// The edits that want none, though all further requests are refused.
static UNASKED: [Row; 28] = [
    ("// c\n[1]", Root(RootEdit::Clear), "", ""),
    ("// c\n[1]", Root(RootEdit::RemoveRoot), "", ""),
    ("{ } // c", Root(RootEdit::ObjectOrCreate), "", "{ } // c"),
    ("[ ]", Root(RootEdit::ObjectOrCreate), "", "[ ]"),
    ("{ } // c", Root(RootEdit::ObjectOrSet), "", "{ } // c"),
    ("[ ] // c", Root(RootEdit::ArrayOrCreate), "", "[ ] // c"),
    ("{ }", Root(RootEdit::ArrayOrCreate), "", "{ }"),
    ("[ ] // c", Root(RootEdit::ArrayOrSet), "", "[ ] // c"),
    ("// a\n1", Root(RootEdit::Remove), "", "// a\n"),
    ("{a:{ }}", At(1, ObjectOrSet), "", "{a:{ }}"),
    ("{a:[ ]}", At(1, ArrayOrSet), "", "{a:[ ]}"),
    ("[true-1]", At(1, SetFalse), "", "[false-1]"),
    (TWO, At(5, Remove), "", "{ \"a\": 1 }"),
    ("[ 1 ]", At(2, Remove), "", "[]"),
    ("[/*a*/1, /*b*/2]", At(5, Remove), "", "[/*a*/1, 2]"),
    ("[1 // c\n]", At(3, Remove), "", "[1\n]"),
    ("{\"a\": 1}", At(1, RemoveName), "", "{: 1}"),
    ("{\"a\": 1}", At(1, RemoveValue), "", "{\"a\":}"),
    ("[1,2]", At(2, RemoveLeaf), "", "[12]"),
    ("[1, 2]", At(3, RemoveLeaf), "", "[1,2]"),
    ("[\n1]", At(1, RemoveLeaf), "", "[1]"),
    ("[\"a\"]", At(1, SetRaw), "abc", "[abc]"),
    ("[12]", At(1, SetRaw), "3", "[3]"),
    ("[1 /*a*/]", At(3, SetRaw), "x", "[1 x]"),
    ("{a:1}", At(1, SetRawName), "b", "{b:1}"),
    ("[1,2]", At(2, SetLeaf), "", "[1;2]"),
    ("[1, 2]", At(3, SetLeaf), "\t", "[1,\t2]"),
    ("[\n1]", At(1, SetLeaf), "", "[\r\n1]"),
];

/// Makes an edit, and tells whether it was made or the memory for it wanted.
fn edit<A: Allocator + Copy>(
    doc: &mut CstRootNode<A>,
    edit: TypedEdit,
    word: String<A>,
) -> Outcome {
    match edit {
        Root(edit) => edit_root(doc, edit, word),
        At(place, edit) => match child_at(doc, place) {
            Some(node) => edit_node(doc, edit, node, word),
            None => Outcome::Other,
        },
    }
}

/// Makes the edit of a row: the text is the one after it, or after an error the one before.
fn edit_row<A: Allocator + Copy>(doc: CstRootNode<A>, word: String<A>, row: &Row) -> Outcome {
    let mut doc = doc;
    let (before, change, _, after) = *row;
    match edit(&mut doc, change, word) {
        Outcome::Answered => Outcome::of(prints(&doc, after)),
        Outcome::Wanted if prints(&doc, before) => Outcome::Wanted,
        _ => Outcome::Other,
    }
}

fn edited<A: Allocator + Copy>(alloc: A, row: &Row) -> Outcome {
    match prepared(alloc, row.0, row.2) {
        Ok((doc, word)) => edit_row(doc, word, row),
        Err(outcome) => outcome,
    }
}

/// How many requests the text and the word of a row make.
fn asked_before(alloc: Global, row: &Row) -> u64 {
    let heap = Refusing::at(alloc, u64::MAX);
    drop(prepared(&heap, row.0, row.2));
    heap.asked()
}

/// Each request of the edit itself is refused in turn, of which there is one at least.
fn is_refused(alloc: Global, row: &Row) -> bool {
    match refused_in_turn(alloc, |heap| edited(heap, row)) {
        Some(count) => count > asked_before(alloc, row),
        None => false,
    }
}

/// Each request of the edit itself is refused in turn, if there is any.
fn is_refused_if_asked(alloc: Global, row: &Row) -> bool {
    refused_in_turn(alloc, |heap| edited(heap, row)).is_some()
}

/// The edit is made though every request for it would be refused, and there is none.
fn is_made_unasked(alloc: Global, row: &Row) -> bool {
    let asked = asked_before(alloc, row);
    let heap = Refusing::after(alloc, asked);
    edited(&heap, row) == Outcome::Answered && heap.asked() == asked
}

#[test]
fn typed_edits_are_refused_in_turn(rt: HostRuntime) -> Result<(), Fail> {
    for row in &WANTING {
        assert!(rt; is_refused(rt.alloc(), row), "{} to {}", row.0, row.3);
    }
    Ok(())
}

#[test]
fn empty_values_are_written_or_refused(rt: HostRuntime) -> Result<(), Fail> {
    for row in &WRITING_EMPTY {
        assert!(rt;
            is_refused_if_asked(rt.alloc(), row),
            "{} to {}",
            row.0,
            row.3
        );
    }
    Ok(())
}

#[test]
fn other_typed_edits_take_no_memory(rt: HostRuntime) -> Result<(), Fail> {
    for row in &UNASKED {
        assert!(rt; is_made_unasked(rt.alloc(), row), "{} to {}", row.0, row.3);
    }
    Ok(())
}
