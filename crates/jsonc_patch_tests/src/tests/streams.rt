//! A reader and a writer of a few bytes a call, one of whose calls fails.

use engine_runs::run;
use std::test::Fail;

/// The words, the input, what is written, how many reads bring the input, the one that finds its end among them, and how
/// many writes and a flush bring the output.
static CASES: [(&[&str], &[u8], &[u8], usize, usize); 3] = [
    (
        &["get", "/a/1"],
        b"{a: [0, 'one two']}",
        b"'one two'\n",
        5,
        3,
    ),
    (
        &["json"],
        b"{a: [0, 'one'], // b\n}",
        b"{\"a\": [0, \"one\"] \n}",
        6,
        5,
    ),
    (
        &["patch", "[{op: 'replace', path: '/a', value: 1}]"],
        b"{a: 0, // b\n}",
        b"{a: 1, // b\n}",
        4,
        // (ten pieces of the document)
        11,
    ),
];

#[test]
fn a_failed_read_is_told_and_nothing_written(rt: HostRuntime) -> Result<(), Fail> {
    for (words, input, _output, count, _writes) in &CASES {
        for reads in 0..*count {
            let run = run(rt.alloc(), words, input, reads, 100);
            assert!(rt;
                run.is_told("jsonc: read failed"),
                "{words:?} after {reads} reads"
            );
            assert!(rt; run.reads.failed == 1 && run.empty_reads == 0);
            assert!(rt; run.writes.made == 0 && run.written.is_empty());
        }
    }
    Ok(())
}

#[test]
fn a_failed_write_leaves_a_beginning(rt: HostRuntime) -> Result<(), Fail> {
    for (words, input, output, reads, count) in &CASES {
        for writes in 0..*count {
            let run = run(rt.alloc(), words, input, 100, writes);
            assert!(rt;
                run.is_told("jsonc: write failed"),
                "{words:?} after {writes} writes"
            );
            assert!(rt; output.starts_with(run.written.as_slice()));
            assert!(rt; run.writes.failed == 1 && run.reads.made == *reads);
        }
    }
    Ok(())
}

#[test]
fn all_is_read_and_written(rt: HostRuntime) -> Result<(), Fail> {
    for (words, input, output, reads, writes) in &CASES {
        let run = run(rt.alloc(), words, input, *reads, *writes);
        assert!(rt;
            run.ended.is_ok() && run.written.as_slice() == *output,
            "{words:?}"
        );
        assert!(rt; run.reads.made == *reads && run.empty_reads == 1);
        assert!(rt; run.writes.made == *writes);
    }
    Ok(())
}

#[test]
fn usage_and_a_refused_word_come_before_reading(rt: HostRuntime) -> Result<(), Fail> {
    for words in [
        ["get", "a"].as_slice(),
        ["patch", "{}"].as_slice(),
        ["patch", "[{}]"].as_slice(),
        ["merge", ""].as_slice(),
        ["merge", "{a: 1, a: 2}"].as_slice(),
        ["get"].as_slice(),
        ["json", ""].as_slice(),
    ] {
        let run = run(rt.alloc(), words, b"1", 100, 100);
        assert!(rt;
            run.ended.is_err() && run.reads.made == 0 && run.writes.made == 0,
            "{words:?}"
        );
    }
    Ok(())
}
