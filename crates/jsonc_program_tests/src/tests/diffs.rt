//! Unified diffs: rows with what `diff -u` of GNU diffutils 3.8 writes, and memory refused in turn.

use failing_alloc::in_turn::is_refused_in_turn;
use failing_alloc::outcome::Outcome;
use jsonc_diff::unified_diff;
use std::alloc::Allocator;
use std::test::Fail;

/// An old text, a new one, and their diff.
type Row = (&'static str, &'static str, &'static str);

static ROWS: [Row; 14] = [
    ("", "", ""),
    ("a\n", "a\n", ""),
    ("", "a\n", "--- f\n+++ f\n@@ -0,0 +1 @@\n+a\n"),
    ("a\n", "", "--- f\n+++ f\n@@ -1 +0,0 @@\n-a\n"),
    (
        "a",
        "a\n",
        "--- f\n+++ f\n@@ -1 +1 @@\n-a\n\\ No newline at end of file\n+a\n",
    ),
    (
        "a\n",
        "a",
        "--- f\n+++ f\n@@ -1 +1 @@\n-a\n+a\n\\ No newline at end of file\n",
    ),
    (
        "a",
        "b",
        "--- f\n+++ f\n@@ -1 +1 @@\n-a\n\\ No newline at end of file\n+b\n\\ No newline at end of file\n",
    ),
    (
        "a\nb\nc\n",
        "a\nc\n",
        "--- f\n+++ f\n@@ -1,3 +1,2 @@\n a\n-b\n c\n",
    ),
    (
        "a\nc\n",
        "a\nb\nc\n",
        "--- f\n+++ f\n@@ -1,2 +1,3 @@\n a\n+b\n c\n",
    ),
    (
        "1\n2\n3\n4\n5\n6\n7\n8\n9\n10\n11\n12\n13\n14\n15\n16\n17\n18\n19\n",
        "1\n2\n3\n4\nx\n6\n7\n8\n9\n10\n11\ny\n13\n14\n15\n16\n17\n18\n19\n",
        "--- f\n+++ f\n@@ -2,14 +2,14 @@\n 2\n 3\n 4\n-5\n+x\n 6\n 7\n 8\n 9\n 10\n 11\n-12\n+y\n 13\n 14\n 15\n",
    ),
    (
        "1\n2\n3\n4\n5\n6\n7\n8\n9\n10\n11\n12\n13\n14\n15\n16\n17\n18\n19\n",
        "1\n2\n3\n4\nx\n6\n7\n8\n9\n10\n11\n12\ny\n14\n15\n16\n17\n18\n19\n",
        "--- f\n+++ f\n@@ -2,7 +2,7 @@\n 2\n 3\n 4\n-5\n+x\n 6\n 7\n 8\n@@ -10,7 +10,7 @@\n 10\n 11\n 12\n-13\n+y\n 14\n 15\n 16\n",
    ),
    (
        "1\n2\n3\n4\n5\n6\n7\n8\n9\n",
        "x\n2\n3\n4\n5\n6\n7\n8\ny\n",
        "--- f\n+++ f\n@@ -1,4 +1,4 @@\n-1\n+x\n 2\n 3\n 4\n@@ -6,4 +6,4 @@\n 6\n 7\n 8\n-9\n+y\n",
    ),
    (
        "a\nb\nc\nd\ne\n",
        "b\nc\nx\ne\nf\n",
        "--- f\n+++ f\n@@ -1,5 +1,5 @@\n-a\n b\n c\n-d\n+x\n e\n+f\n",
    ),
    (
        "é\r\nb\n",
        "é\nb\n",
        "--- f\n+++ f\n@@ -1,2 +1,2 @@\n-é\r\n+é\n b\n",
    ),
];

/// What came of the diff of a number.
fn outcome_at<A: Allocator + Copy>(heap: A, number: usize) -> Outcome {
    match ROWS.get(number) {
        Some((old, new, diff)) => Outcome::of_text(unified_diff(heap, "f", old, new), diff),
        None => Outcome::Other,
    }
}

#[test]
fn diffs_are_those_of_another_program(rt: HostRuntime) -> Result<(), Fail> {
    for number in 0..ROWS.len() {
        assert!(rt;
            outcome_at(rt.alloc(), number) == Outcome::Answered,
            "diff {number}"
        );
    }
    Ok(())
}

/// The diff of two empty texts, the first row, asks for no memory.
#[test]
fn each_request_of_a_diff_is_refused_in_turn(rt: HostRuntime) -> Result<(), Fail> {
    for number in 1..ROWS.len() {
        assert!(rt;
            is_refused_in_turn(rt.alloc(), |heap| outcome_at(heap, number)),
            "diff {number}"
        );
    }
    Ok(())
}
