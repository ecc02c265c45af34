//! Rows of runs: the words, the input, and what is written or told.

/// The document of RFC 6901, 5.
const EXAMPLE: &str =
    "{\"foo\": [\"bar\", \"baz\"], \"\": 0, \"a/b\": 1, \"c%d\": 2, \"e^f\": 3, \"g|h\": 4, \"i\\\\j\": 5, \"k\\\"l\": 6, \" \": 7, \"m~n\": 8}";

/// The words, the input, and what is written.
pub type Row = (&'static [&'static str], &'static str, &'static str);

/// The pointers of RFC 6901, 5, with what they refer to; others through arrays and names of all forms; each form that
/// `json` writes anew; and patches whose result has as many bytes as it may have.
pub static WRITTEN: [Row; 42] = [
    (&["get", "/foo"], EXAMPLE, "[\"bar\", \"baz\"]\n"),
    (&["get", "/foo/0"], EXAMPLE, "\"bar\"\n"),
    (&["get", "/"], EXAMPLE, "0\n"),
    (&["get", "/a~1b"], EXAMPLE, "1\n"),
    (&["get", "/c%d"], EXAMPLE, "2\n"),
    (&["get", "/e^f"], EXAMPLE, "3\n"),
    (&["get", "/g|h"], EXAMPLE, "4\n"),
    (&["get", "/i\\j"], EXAMPLE, "5\n"),
    (&["get", "/k\"l"], EXAMPLE, "6\n"),
    (&["get", "/ "], EXAMPLE, "7\n"),
    (&["get", "/m~0n"], EXAMPLE, "8\n"),
    (&["get", ""], "// a\n{b: 1, // c\n}\n", "{b: 1, // c\n}\n"),
    (
        &["get", "/tasks/1/name"],
        "{tasks: [{}, {'name': 'b' /* c */}]}",
        "'b'\n",
    ),
    (&["get", "/0x1F"], "{a: 1, a: 2, 0x1F: +.5}", "+.5\n"),
    (&["json"], "+1", "1"),
    (&["json"], ".5", "0.5"),
    (&["json"], "5.", "5"),
    (&["json"], "-.5E-3", "-0.5E-3"),
    (&["json"], "+5.e+2", "5e+2"),
    (&["json"], "1.50e00", "1.50e00"),
    (&["json"], "0x0", "0"),
    (&["json"], "-0XfF", "-255"),
    (
        &["json"],
        "0x00FFFFFFFFFFFFFFFFFFFF",
        "1208925819614629174706175",
    ),
    (&["json"], "'say \"hi\"'", "\"say \\\"hi\\\"\""),
    (&["json"], "\"\\x41\\v\"", "\"A\\u000b\""),
    (&["json"], "\"a\\/\\u0041\"", "\"a\\/\\u0041\""),
    (&["json"], "\"a\tb\"", "\"a\\tb\""),
    (&["json"], "[1, 2, ]", "[1, 2 ]"),
    (
        &["json"],
        "[1 'a'[] {}\n null]",
        "[1, \"a\",[], {},\n null]",
    ),
    (&["json"], "[1/**/2]", "[1,2]"),
    (&["json"], "{a: 1 b: 2,}", "{\"a\": 1, \"b\": 2}"),
    (&["json"], "// a\r\n[ /* b */ ]// c", "\r\n[  ]"),
    (&["json"], "\u{b}[\u{a0}]\u{2028}", " [ ] "),
    (
        &["json"],
        "{true:true,Infinity:null,-0x1F:{}}",
        "{\"true\":true,\"Infinity\":null,\"-0x1F\":{}}",
    ),
    (&["json"], "{\"a\":1,'a':2}", "{\"a\":1,\"a\":2}"),
    (&["json"], "\"é\u{1F600}\"", "\"é\u{1F600}\""),
    (&["json"], "true", "true"),
    (&["json"], " false\n", " false\n"),
    (&["json"], "null\t", "null\t"),
    (&["json"], "{}", "{}"),
    (
        &[
            "patch",
            "--max-bytes",
            "6",
            "[{\"op\": \"add\", \"path\": \"/-\", \"value\": 2}]",
        ],
        "[1]",
        "[1, 2]",
    ),
    (&["patch", "--max-bytes", "0", "[]"], "[1]", "[1]"),
];

/// What is told of a run that cannot succeed, and the status.
pub static TOLD: [(&[&str], &str, &str, u8); 48] = [
    (&["json"], "", "jsonc: root value is missing", 1),
    (&["json"], "// c", "jsonc: root value is missing", 1),
    (
        &["json"],
        "[1,\n -Infinity]",
        "jsonc: number is not finite on line 2 column 2",
        1,
    ),
    (
        &["json"],
        "{Infinity: /* é */ NaN}",
        "jsonc: number is not finite on line 1 column 20",
        1,
    ),
    (
        &["json"],
        "[1",
        "jsonc: Unterminated array on line 1 column 1",
        1,
    ),
    (
        &["json"],
        "[NaN",
        "jsonc: Unterminated array on line 1 column 1",
        1,
    ),
    (
        &["get", "a"],
        "{}",
        "jsonc: path: Unexpected word on line 1 column 1",
        1,
    ),
    (
        &["get", "/a~2"],
        "[",
        "jsonc: pointer: Neither 0 nor 1 after the tilde at byte 2",
        1,
    ),
    (&["get", "/a"], "{}", "jsonc: no such value", 1),
    (&["get", "/a"], "[1]", "jsonc: no such value", 1),
    (&["get", "/-"], "[1]", "jsonc: no such value", 1),
    (&["get", "/01"], "[1, 2]", "jsonc: no such value", 1),
    (&["get", "/1"], "[1]", "jsonc: no such value", 1),
    (&["get", "/a/b"], "{a: 1}", "jsonc: no such value", 1),
    (&["get", ""], "", "jsonc: no such value", 1),
    (
        &["get", "/b/a"],
        "{b: {a: 1, \"\\u0061\": 2}}",
        "jsonc: Name stands twice: \"a\"",
        1,
    ),
    (
        &["get", "/a"],
        "{a: 1",
        "jsonc: Unterminated object on line 1 column 1",
        1,
    ),
    (&["patch", ""], "[", "jsonc: patch: Patch is no array", 1),
    (
        &["patch", "{\"op\":\"remove\",\"path\":\"\"}"],
        "[",
        "jsonc: patch: Patch is no array",
        1,
    ),
    (
        &["patch", "[1"],
        "[",
        "jsonc: patch: Unterminated array on line 1 column 1",
        1,
    ),
    (
        &["patch", "[{}]"],
        "[",
        "jsonc: patch: Operation 0: Operation lacks op",
        1,
    ),
    (
        &[
            "patch",
            "[{op: 'remove', path: '/a'}, {op: 'spam', path: ''}]",
        ],
        "[",
        "jsonc: patch: Operation 1: Operation has a wrong op",
        1,
    ),
    (
        &["patch", "[{op: 'remove', path: 'a'}]"],
        "[",
        "jsonc: patch: Operation 0: path: Pointer does not begin with a slash",
        1,
    ),
    (
        &[
            "patch",
            "[{ \"op\": \"add\", \"path\": \"/baz\", \"value\": \"qux\", \"op\": \"remove\" }]",
        ],
        "{ \"foo\": \"bar\" }",
        "jsonc: patch: Operation 0: Name stands twice: \"op\"",
        1,
    ),
    (
        &[
            "patch",
            "[{op: 'add', path: '', value: [{a: 1, '\\u0061': 2}]}]",
        ],
        "[",
        "jsonc: patch: Operation 0: Name stands twice: \"a\"",
        1,
    ),
    (
        &[
            "patch",
            "[{ \"op\": \"test\", \"path\": \"/baz\", \"value\": \"bar\" }]",
        ],
        "{ \"baz\": \"qux\" }",
        "jsonc: Operation 0: Value is another",
        1,
    ),
    (
        &[
            "patch",
            "[{ \"op\": \"add\", \"path\": \"/baz/bat\", \"value\": \"qux\" }]",
        ],
        "{ \"foo\": \"bar\" }",
        "jsonc: Operation 0: Pointer leads to nothing",
        1,
    ),
    (
        &[
            "patch",
            "[{\"op\": \"test\", \"path\": \"/~01\", \"value\": \"10\"}]",
        ],
        "{ \"/\": 9, \"~1\": 10 }",
        "jsonc: Operation 0: Value is another",
        1,
    ),
    (
        &[
            "patch",
            "[{op: 'replace', path: '/0', value: 3}, {op: 'replace', path: '/2', value: 4}]",
        ],
        "[1, 2]",
        "jsonc: Operation 1: Pointer leads to nothing",
        1,
    ),
    (
        &["patch", "[{op: 'move', from: '/a', path: '/a/b'}]"],
        "{a: {b: 1}}",
        "jsonc: Operation 0: Value cannot be moved into itself",
        1,
    ),
    (
        &["patch", "[{op: 'remove', path: '/a'}]"],
        "{a: 1, \"\\u0061\": 2}",
        "jsonc: Operation 0: Name stands twice: \"a\"",
        1,
    ),
    (
        &["patch", "[]"],
        "[1",
        "jsonc: Unterminated array on line 1 column 1",
        1,
    ),
    (&["merge", ""], "[", "jsonc: patch: Patch has no value", 1),
    (
        &["merge", "[1"],
        "[",
        "jsonc: patch: Unterminated array on line 1 column 1",
        1,
    ),
    (
        &["merge", "{b: [{a: 1, '\\u0061': 2}]}"],
        "[",
        "jsonc: patch: Name stands twice: \"a\"",
        1,
    ),
    (
        &["merge", "{b: {a: 1}}"],
        "{b: {a: 1, \"\\u0061\": 2}}",
        "jsonc: Name stands twice: \"a\"",
        1,
    ),
    (
        &["merge", "1"],
        "{a: 1",
        "jsonc: Unterminated object on line 1 column 1",
        1,
    ),
    (
        &["patch"],
        "1",
        "usage: jsonc check|print|set NAME JSON|append JSON|remove NAME|sort|get PLACE|put PATH JSON|drop PATH|patch [--max-bytes N] PATCH|merge PATCH|json",
        2,
    ),
    (
        &["merge", "1", "2"],
        "1",
        "usage: jsonc check|print|set NAME JSON|append JSON|remove NAME|sort|get PLACE|put PATH JSON|drop PATH|patch [--max-bytes N] PATCH|merge PATCH|json",
        2,
    ),
    (
        &[],
        "1",
        "usage: jsonc check|print|set NAME JSON|append JSON|remove NAME|sort|get PLACE|put PATH JSON|drop PATH|patch [--max-bytes N] PATCH|merge PATCH|json",
        2,
    ),
    (
        &["get"],
        "1",
        "usage: jsonc check|print|set NAME JSON|append JSON|remove NAME|sort|get PLACE|put PATH JSON|drop PATH|patch [--max-bytes N] PATCH|merge PATCH|json",
        2,
    ),
    (
        &["json", ""],
        "1",
        "usage: jsonc check|print|set NAME JSON|append JSON|remove NAME|sort|get PLACE|put PATH JSON|drop PATH|patch [--max-bytes N] PATCH|merge PATCH|json",
        2,
    ),
    (
        &["get", "", ""],
        "1",
        "usage: jsonc check|print|set NAME JSON|append JSON|remove NAME|sort|get PLACE|put PATH JSON|drop PATH|patch [--max-bytes N] PATCH|merge PATCH|json",
        2,
    ),
    (
        &["find", ""],
        "1",
        "usage: jsonc check|print|set NAME JSON|append JSON|remove NAME|sort|get PLACE|put PATH JSON|drop PATH|patch [--max-bytes N] PATCH|merge PATCH|json",
        2,
    ),
    (
        &["get", "/\n"],
        "{\"\\n\": 1, \"\\n\": 2}",
        "jsonc: Name stands twice: \"\\n\"",
        1,
    ),
    (
        &[
            "patch",
            "--max-bytes",
            "6",
            "[{\"op\": \"add\", \"path\": \"/-\", \"value\": 2}, {\"op\": \"add\", \"path\": \"/-\", \"value\": 3}]",
        ],
        "[1]",
        "jsonc: Operation 1: Document would have more bytes than 6",
        1,
    ),
    (
        &["patch", "--max-bytes", "1e9", "[]"],
        "[1]",
        "usage: jsonc check|print|set NAME JSON|append JSON|remove NAME|sort|get PLACE|put PATH JSON|drop PATH|patch [--max-bytes N] PATCH|merge PATCH|json",
        2,
    ),
    (
        &["patch", "--max-bytes", "18446744073709551616", "[]"],
        "[1]",
        "usage: jsonc check|print|set NAME JSON|append JSON|remove NAME|sort|get PLACE|put PATH JSON|drop PATH|patch [--max-bytes N] PATCH|merge PATCH|json",
        2,
    ),
];
