//! A reader and a writer of a few bytes a call, one of whose calls fails.

use engine_runs::{Course, run, run_by};
use failing_alloc::streams::{Calls, STEP, Writer};
use jsonc_engine::calls::{FromReader, ToWriter};
use std::alloc::Global;
use std::io;
use std::io::{ErrorKind, Read};
use std::test::Fail;

/// A command over a text, how many reads bring that, what it writes, and how many writes and a flush that takes.
#[derive(Drop)]
struct Case {
    words: &'static [&'static str],
    input: &'static [u8],
    reads: usize,
    written: &'static [u8],
    writes: usize,
}

const TEXT: &[u8] = b"[1, [2], \"three\", {\"four\": 5}]";

/// An object with a comment behind its first property.
const OBJECT: &[u8] = b"{\"b\": 1, // one\n \"a\": 2}";

/// The array takes seven reads: six of five bytes, and one that finds the end. The object takes six. Each piece
/// of what is written takes one write, but two where it is longer than five bytes, as the strings of the array
/// and the comment are; and one call more is the flush. A text that is printed as it is, and a value that is got, are one piece.
static CASES: [Case; 10] = [
    Case {
        words: &["print"],
        input: TEXT,
        reads: 7,
        written: TEXT,
        // One piece of 30 bytes.
        writes: 7,
    },
    Case {
        words: &["append", "6"],
        input: TEXT,
        reads: 7,
        written: b"[1, [2], \"three\", {\"four\": 5}, 6]",
        // Three pieces more.
        writes: 25,
    },
    Case {
        words: &["sort"],
        input: OBJECT,
        reads: 6,
        written: b"{\"a\": 2,\n \"b\": 1 // one\n}",
        // 16 pieces, with the comment.
        writes: 18,
    },
    Case {
        words: &["set", "a", "[true]"],
        input: OBJECT,
        reads: 6,
        written: b"{\"b\": 1, // one\n \"a\": [true]}",
        // 17 pieces, with the comment.
        writes: 19,
    },
    Case {
        words: &["set", "c", "[true]"],
        input: OBJECT,
        reads: 6,
        written: b"{\"b\": 1, // one\n \"a\": 2,\n \"c\": [true]}",
        // 24 pieces, with the comment.
        writes: 26,
    },
    Case {
        words: &["remove", "a"],
        input: OBJECT,
        reads: 6,
        written: b"{\"b\": 1 // one\n}",
        // 9 pieces, with the comment.
        writes: 11,
    },
    Case {
        words: &["get", "[\"a\"]"],
        input: b"{\"a\": [1, /*x*/ 2]}",
        reads: 5,
        written: b"[1, /*x*/ 2]\n",
        // 13 bytes in one piece.
        writes: 4,
    },
    Case {
        words: &["put", "[\"a\",\"b\"]", "2"],
        input: b"{\"a\": {\"b\": 1}}",
        reads: 4,
        written: b"{\"a\": {\"b\": 2}}",
        // 11 pieces.
        writes: 12,
    },
    Case {
        words: &["put", "[\"b\"]", "null"],
        input: b"{\"a\": 1}",
        reads: 3,
        written: b"{\n  \"a\": 1,\n  \"b\": null\n}",
        // 16 pieces.
        writes: 17,
    },
    Case {
        words: &["drop", "[\"a\",\"b\"]"],
        input: b"{\"a\": {\"b\": 1, \"c\": 2}}",
        reads: 6,
        written: b"{\"a\": { \"c\": 2}}",
        // 12 pieces.
        writes: 13,
    },
];

/// Whether a run failed with the status 1 and this line, and wrote nothing.
fn is_told(run: &Course, line: &str) -> bool {
    run.is_told(line) && run.written.is_empty()
}

/// After so many reads the next one fails, and nothing is called behind it.
fn fails_to_read(alloc: Global, case: &Case, reads: usize) -> bool {
    let run = run(alloc, case.words, case.input, reads, 100);
    is_told(&run, "jsonc: read failed")
        && run.reads.failed == 1
        && run.empty_reads == 0
        && run.writes.made == 0
}

/// After so many writes the next one fails, and nothing is called behind it; what they took is a beginning of what is
/// to be written.
fn fails_to_write(alloc: Global, case: &Case, writes: usize) -> bool {
    let run = run(alloc, case.words, case.input, 100, writes);
    let count = run.written.len();
    let is_beginning = case.written.starts_with(run.written.as_slice());
    run.is_told("jsonc: write failed")
        && is_beginning
        && count >= writes
        && count <= writes.saturating_mul(STEP)
        && run.writes.failed == 1
        && run.reads.made == case.reads
}

/// All is read, by one read more that finds the end, and all is written.
fn writes_all(alloc: Global, case: &Case, reads: usize, writes: usize) -> bool {
    let run = run(alloc, case.words, case.input, reads, writes);
    run.ended.is_ok()
        && run.written.as_slice() == case.written
        && run.reads.made == case.reads
        && run.empty_reads == 1
        && run.writes.made == case.writes
}

#[test]
fn a_failure_leaves_nothing_or_a_beginning_written(rt: HostRuntime) -> Result<(), Fail> {
    let alloc = rt.alloc();
    for case in &CASES {
        let words = case.words;
        for reads in 0..case.reads {
            assert!(rt;
                fails_to_read(alloc, case, reads),
                "{words:?} after {reads} reads"
            );
        }
        for writes in 0..case.writes {
            assert!(rt;
                fails_to_write(alloc, case, writes),
                "{words:?} after {writes} writes"
            );
        }
        assert!(rt; writes_all(alloc, case, case.reads, 100), "{words:?}");
        assert!(rt; writes_all(alloc, case, 100, case.writes), "{words:?}");
    }
    Ok(())
}

#[test]
fn a_json_text_is_read_before_the_input(rt: HostRuntime) -> Result<(), Fail> {
    // The first read would fail.
    let line = "jsonc: argument: Unexpected token on line 1 column 1";
    assert!(rt; is_told(&run(rt.alloc(), &["set", "a", "@"], TEXT, 0, 100), line));
    let line = "jsonc: argument: no value";
    assert!(rt; is_told(&run(rt.alloc(), &["append", "/**/"], TEXT, 0, 100), line));
    Ok(())
}

/// What comes first where the path, the JSON text and the first read are wrong.
static FIRST: [(&[&str], &str); 8] = [
    (
        &["get", "@"],
        "jsonc: path: Unexpected token on line 1 column 1",
    ),
    (&["get", " /**/"], "jsonc: path is not a list of strings"),
    (&["drop", "[1]"], "jsonc: path is not a list of strings"),
    (
        &["put", "@", "@"],
        "jsonc: path: Unexpected token on line 1 column 1",
    ),
    (
        &["put", "[\"a\",2]", "@"],
        "jsonc: path is not a list of strings",
    ),
    (
        &["put", "[\"a\"]", "@"],
        "jsonc: argument: Unexpected token on line 1 column 1",
    ),
    (&["put", "[\"a\"]", "/**/"], "jsonc: argument: no value"),
    (&["put", "[\"a\"]", "1"], "jsonc: read failed"),
];

#[test]
fn a_path_is_read_before_a_json_text_and_the_input(rt: HostRuntime) -> Result<(), Fail> {
    for (words, line) in &FIRST {
        let run = run(rt.alloc(), words, TEXT, 0, 100);
        assert!(rt; is_told(&run, line), "{words:?}");
    }
    Ok(())
}

/// What is told of the input at a path.
static AT_PATHS: [(&[&str], &[u8], &str); 4] = [
    (&["get", "[\"b\"]"], b"{\"a\": 1}", "jsonc: no such setting"),
    (&["get", "[]"], b"// one", "jsonc: no such setting"),
    (
        &["get", "[\"a\",\"b\"]"],
        b"{\"a\": 1}",
        "jsonc: no such setting",
    ),
    (
        &["put", "[\"a\",\"b\"]", "2"],
        b"{\"a\": 1}",
        "jsonc: a value on the path is not an object",
    ),
];

#[test]
fn nothing_is_written_where_a_path_leads_nowhere(rt: HostRuntime) -> Result<(), Fail> {
    for (words, input, line) in &AT_PATHS {
        let run = run(rt.alloc(), words, input, 100, 100);
        assert!(rt; is_told(&run, line), "{words:?}");
    }
    Ok(())
}

static PARTS: [&[u8]; 4] = [b"[1", b"]", b"", b", 2"];

/// A reader that gives one of these parts a read, be it empty.
#[derive(Drop)]
struct Parts {
    given: usize,
}

impl Read for Parts {
    fn read(&mut self, buffer: &mut [u8]) -> io::Result<usize> {
        let Some(part) = PARTS.get(self.given) else {
            return Err(io::Error::from(ErrorKind::Other));
        };
        self.given = self.given.saturating_add(1);
        let count = buffer.len().min(part.len());
        buffer[..count].copy_from_slice(&part[..count]);
        Ok(count)
    }
}

#[test]
fn a_read_of_no_bytes_is_the_last(rt: HostRuntime) -> Result<(), Fail> {
    let mut source = FromReader::new(Parts { given: 0 });
    let mut sink = ToWriter::new(Writer {
        bytes: Vec::new(rt.alloc()),
        calls: Calls::new(100),
    });
    let ended = run_by(rt.alloc(), &["print"], &mut source, &mut sink);
    assert!(rt; ended.is_ok() && sink.writer.bytes.as_slice() == b"[1]".as_slice());
    assert_eq!(rt; source.reader.given, 3);
    Ok(())
}
