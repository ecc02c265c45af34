//! The document of a mended text, and which of its nodes the mends wrote.

use crate::tests::rows::{Row, options_of};
use failing_alloc::outcome::Outcome;
use jsonc_cst::cst::TypedNode;
use jsonc_text::options::ParseOptions;
use jsonc_tolerant::{MendedDocument, parse_mended};
use std::alloc::{AllocError, Allocator, Global};
use std::test::Fail;

/// What came of the document of a row, which is to print the mended text.
pub fn printed<A: Allocator + Copy>(alloc: A, row: &Row) -> Outcome {
    let (dialect, text, mended, _) = *row;
    match parse_mended(alloc, text, &options_of(dialect)) {
        Ok(read) => Outcome::of_text(read.document.text(), mended),
        Err(_) => Outcome::Wanted,
    }
}

static TEXT: &str = "{\"a\": , \"b\": 1}";

/// Places of the mended text `{"a": null , "b": 1}`, and whether the mends wrote the leaf there.
static LEAVES: [(usize, bool); 7] = [
    (0, false),
    (1, false),
    (5, true),
    (6, true),
    (10, false),
    (13, false),
    (18, false),
];

/// Whether the mends wrote the leaf at a place. None where there is none.
fn is_inserted_at<A: Allocator>(read: &MendedDocument<A>, place: usize) -> Option<bool> {
    let leaf = read.document.node_at(place)?;
    Some(read.is_inserted(leaf))
}

fn document_of(alloc: Global) -> Result<MendedDocument<Global>, AllocError> {
    parse_mended(alloc, TEXT, &ParseOptions::json())
}

#[test]
fn what_the_mends_wrote_is_inserted(rt: HostRuntime) -> Result<(), Fail> {
    let read = document_of(rt.alloc())?;
    for (place, inserted) in LEAVES.iter() {
        assert!(rt; is_inserted_at(&read, *place) == Some(*inserted));
    }
    assert!(rt; !read.is_inserted(read.document.root().into()));
    Ok(())
}
