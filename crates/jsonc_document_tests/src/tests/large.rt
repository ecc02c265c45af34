//! Documents of many nodes, of many entries on one line, and of a long leaf.

use crate::tests::node_edits::{NodeEdit, edit_node};
use crate::tests::reading::{asked_by, child_at, read};
use failing_alloc::awaited::prints;
use failing_alloc::outcome::Outcome;
use jsonc_parser::cst::{CstRootNode, Place};
use std::alloc::{AllocError, Global};
use std::test::Fail;

/// How many hundreds of elements an array has that takes more than 65,536 nodes: each element has a comma or the
/// last bracket behind it.
const HUNDREDS: usize = 330;

/// An array of zeros, the last of them this element.
fn zeros(alloc: Global, last: &str) -> Result<String<Global>, AllocError> {
    let mut hundred = String::new(alloc);
    for _place in 0..100usize {
        hundred.push_str("0,")?;
    }
    let mut text = String::from_str(alloc, "[")?;
    for _place in 0..HUNDREDS {
        text.push_str(hundred.as_str())?;
    }
    text.push_str(last)?;
    text.push_str("]")?;
    Ok(text)
}

/// The last element is written anew: the text is the one after it.
fn is_edited(alloc: Global, doc: CstRootNode<Global>, after: &str) -> bool {
    let mut doc = doc;
    let (Some(node), Ok(word)) = (child_at(&doc, 66_001), String::from_str(alloc, "1")) else {
        return false;
    };
    edit_node(&mut doc, NodeEdit::SetRaw, node, word) == Outcome::Answered && prints(&doc, after)
}

fn is_large(alloc: Global) -> Result<bool, AllocError> {
    let (text, after) = (zeros(alloc, "0")?, zeros(alloc, "1")?);
    match read(alloc, text.as_str()) {
        Ok(doc) => Ok(is_edited(alloc, doc, after.as_str())),
        Err(_) => Ok(false),
    }
}

#[test]
fn documents_may_have_more_than_65536_nodes(rt: HostRuntime) -> Result<(), Fail> {
    assert!(rt; is_large(rt.alloc())?);
    Ok(())
}

/// An array of a short string and of a string of so many letters.
fn two_strings(alloc: Global, letters: usize) -> Result<String<Global>, AllocError> {
    let mut text = String::from_str(alloc, "[\"a\", \"")?;
    for _letter in 0..letters {
        text.push_str("b")?;
    }
    text.push_str("\"]")?;
    Ok(text)
}

/// A long string makes as many requests as a short one.
fn is_asked_alike(alloc: Global) -> Result<bool, AllocError> {
    let (short, long) = (two_strings(alloc, 1)?, two_strings(alloc, 100_000)?);
    Ok(asked_by(alloc, short.as_str()) == asked_by(alloc, long.as_str()))
}

#[test]
fn a_long_string_asks_for_no_further_room(rt: HostRuntime) -> Result<(), Fail> {
    assert!(rt; is_asked_alike(rt.alloc())?);
    Ok(())
}

/// Puts 10,000 zeros on a line.
fn push_zeros(line: &mut String<Global>) -> Result<(), AllocError> {
    line.push_str("0")?;
    for _zero in 1..10_000usize {
        line.push_str(", 0")?;
    }
    Ok(())
}

/// An array on one line of 20,000 zeros, with this between the comma of one in the middle and the blank before the next.
fn on_one_line(alloc: Global, between: &str) -> Result<String<Global>, AllocError> {
    let mut line = String::from_str(alloc, "[")?;
    push_zeros(&mut line)?;
    line.push_str(",")?;
    line.push_str(between)?;
    line.push_str(" ")?;
    push_zeros(&mut line)?;
    line.push_str("]")?;
    Ok(line)
}

/// Of three entries in the middle of a line the first is removed with its comments, and the others get one.
fn is_commented_on_line(doc: CstRootNode<Global>, after: &str) -> bool {
    let mut doc = doc;
    let (Some(one), Some(two), Some(three)) = (
        child_at(&doc, 30_003),
        child_at(&doc, 30_006),
        child_at(&doc, 30_009),
    ) else {
        return false;
    };
    let removed = one.remove_with_comments(&mut doc);
    let behind = two.insert_comment(&mut doc, "/* d */", Place::After);
    let above = three.insert_comment(&mut doc, "// e", Place::Above);
    removed == Ok(()) && behind == Ok(()) && above == Ok(()) && prints(&doc, after)
}

fn is_long_line_commented(alloc: Global) -> Result<bool, AllocError> {
    let text = on_one_line(alloc, " /* c */ 1, 2, 3,")?;
    let after = on_one_line(alloc, " 2, /* d */\n  // e\n  3,")?;
    match read(alloc, text.as_str()) {
        Ok(doc) => Ok(is_commented_on_line(doc, after.as_str())),
        Err(_) => Ok(false),
    }
}

#[test]
fn entries_on_a_line_of_20000_gain_and_lose_comments(rt: HostRuntime) -> Result<(), Fail> {
    assert!(rt; is_long_line_commented(rt.alloc())?);
    Ok(())
}
