//! Rows of runs that make patches: the words, the input, and what is written.

use crate::tests::rows::Row;

/// What is written, to the byte: what a patch does not name stays, and so do comments.
pub static PATCHED: [Row; 10] = [
    (&["patch", "[]"], "// a\n[1,]\n", "// a\n[1,]\n"),
    (
        &[
            "patch",
            "[{\"op\": \"replace\", \"path\": \"/b/0\", \"value\": 3}, {\"op\": \"add\", \"path\": \"/c\", \"value\": null}]",
        ],
        "{\n  \"a\": 1, // one\n  \"b\": [2 /* of */]\n}\n",
        "{\n  \"a\": 1, // one\n  \"b\": [3 /* of */],\n  \"c\": null\n}\n",
    ),
    (
        &[
            "patch",
            "[{op: 'replace', path: '/0', value: +.5,} /* c */] // d",
        ],
        "[1, /* e */]",
        "[+.5, /* e */]",
    ),
    (
        &["patch", "[{op: 'test', path: '/a', value: 16}]"],
        "{a: 0x10, // b\n}",
        "{a: 0x10, // b\n}",
    ),
    (
        &["patch", "[{op: 'move', from: '/a', path: '/a'}]"],
        "{a: 'b' /* c */}",
        "{a: 'b' /* c */}",
    ),
    (
        &["patch", "[{op: 'replace', path: '', value: 2}]"],
        "/*a*/ 1 // b",
        "/*a*/ 2 // b",
    ),
    (
        &["merge", "{\"a\": \"c\"}"],
        "{a: 'b' /* d */, // e\n}",
        "{a: \"c\" /* d */, // e\n}",
    ),
    (
        &["merge", "{a: 'b', c: {d: [0x10]}, e: null}"],
        "{ \"a\": 'b', // f\n  \"c\": {\"d\": [ 0x10 ]} }",
        "{ \"a\": 'b', // f\n  \"c\": {\"d\": [ 0x10 ]} }",
    ),
    (
        &["merge", "{a: {b: 2}}"],
        "{a: {b: 1 /* c */, d: 3}, /* e */ f: 4}",
        "{a: {b: 2 /* c */, d: 3}, /* e */ f: 4}",
    ),
    (&["merge", "2"], "/*a*/ 1 // b", "/*a*/ 2 // b"),
];

/// The examples of RFC 6902, appendix A, that succeed, and of RFC 7396, 3 and appendix A, with the value of what is
/// written.
pub static STANDARD: [Row; 28] = [
    (
        &[
            "patch",
            r#"[{ "op": "add", "path": "/baz", "value": "qux" }]"#,
        ],
        r#"{ "foo": "bar"}"#,
        r#"{ "baz": "qux", "foo": "bar" }"#,
    ),
    (
        &[
            "patch",
            r#"[{ "op": "add", "path": "/foo/1", "value": "qux" }]"#,
        ],
        r#"{ "foo": [ "bar", "baz" ] }"#,
        r#"{ "foo": [ "bar", "qux", "baz" ] }"#,
    ),
    (
        &["patch", r#"[{ "op": "remove", "path": "/baz" }]"#],
        r#"{ "baz": "qux", "foo": "bar" }"#,
        r#"{ "foo": "bar" }"#,
    ),
    (
        &["patch", r#"[{ "op": "remove", "path": "/foo/1" }]"#],
        r#"{ "foo": [ "bar", "qux", "baz" ] }"#,
        r#"{ "foo": [ "bar", "baz" ] }"#,
    ),
    (
        &[
            "patch",
            r#"[{ "op": "replace", "path": "/baz", "value": "boo" }]"#,
        ],
        r#"{ "baz": "qux", "foo": "bar" }"#,
        r#"{ "baz": "boo", "foo": "bar" }"#,
    ),
    (
        &[
            "patch",
            r#"[{ "op": "move", "from": "/foo/waldo", "path": "/qux/thud" }]"#,
        ],
        r#"{ "foo": { "bar": "baz", "waldo": "fred" }, "qux": { "corge": "grault" } }"#,
        r#"{ "foo": { "bar": "baz" }, "qux": { "corge": "grault", "thud": "fred" } }"#,
    ),
    (
        &[
            "patch",
            r#"[{ "op": "move", "from": "/foo/1", "path": "/foo/3" }]"#,
        ],
        r#"{ "foo": [ "all", "grass", "cows", "eat" ] }"#,
        r#"{ "foo": [ "all", "cows", "eat", "grass" ] }"#,
    ),
    (
        &[
            "patch",
            r#"[{ "op": "test", "path": "/baz", "value": "qux" }, { "op": "test", "path": "/foo/1", "value": 2 }]"#,
        ],
        r#"{ "baz": "qux", "foo": [ "a", 2, "c" ] }"#,
        r#"{ "baz": "qux", "foo": [ "a", 2, "c" ] }"#,
    ),
    (
        &[
            "patch",
            r#"[{ "op": "add", "path": "/child", "value": { "grandchild": { } } }]"#,
        ],
        r#"{ "foo": "bar" }"#,
        r#"{ "foo": "bar", "child": { "grandchild": { } } }"#,
    ),
    (
        &[
            "patch",
            r#"[{ "op": "add", "path": "/baz", "value": "qux", "xyz": 123 }]"#,
        ],
        r#"{ "foo": "bar" }"#,
        r#"{ "foo": "bar", "baz": "qux" }"#,
    ),
    (
        &["patch", r#"[{"op": "test", "path": "/~01", "value": 10}]"#],
        r#"{ "/": 9, "~1": 10 }"#,
        r#"{ "/": 9, "~1": 10 }"#,
    ),
    (
        &[
            "patch",
            r#"[{ "op": "add", "path": "/foo/-", "value": ["abc", "def"] }]"#,
        ],
        r#"{ "foo": ["bar"] }"#,
        r#"{ "foo": ["bar", ["abc", "def"]] }"#,
    ),
    (
        &[
            "merge",
            r#"{ "title": "Hello!", "phoneNumber": "+01-123-456-7890", "author": { "familyName": null }, "tags": [ "example" ] }"#,
        ],
        r#"{ "title": "Goodbye!", "author" : { "givenName" : "John", "familyName" : "Doe" }, "tags":[ "example", "sample" ], "content": "This will be unchanged" }"#,
        r#"{ "title": "Hello!", "author" : { "givenName" : "John" }, "tags": [ "example" ], "content": "This will be unchanged", "phoneNumber": "+01-123-456-7890" }"#,
    ),
    (&["merge", r#"{"a":"c"}"#], r#"{"a":"b"}"#, r#"{"a":"c"}"#),
    (
        &["merge", r#"{"b":"c"}"#],
        r#"{"a":"b"}"#,
        r#"{"a":"b","b":"c"}"#,
    ),
    (&["merge", r#"{"a":null}"#], r#"{"a":"b"}"#, "{}"),
    (
        &["merge", r#"{"a":null}"#],
        r#"{"a":"b","b":"c"}"#,
        r#"{"b":"c"}"#,
    ),
    (&["merge", r#"{"a":"c"}"#], r#"{"a":["b"]}"#, r#"{"a":"c"}"#),
    (
        &["merge", r#"{"a":["b"]}"#],
        r#"{"a":"c"}"#,
        r#"{"a":["b"]}"#,
    ),
    (
        &["merge", r#"{"a":{"b":"d","c":null}}"#],
        r#"{"a":{"b":"c"}}"#,
        r#"{"a":{"b":"d"}}"#,
    ),
    (
        &["merge", r#"{"a":[1]}"#],
        r#"{"a":[{"b":"c"}]}"#,
        r#"{"a":[1]}"#,
    ),
    (&["merge", r#"["c","d"]"#], r#"["a","b"]"#, r#"["c","d"]"#),
    (&["merge", r#"["c"]"#], r#"{"a":"b"}"#, r#"["c"]"#),
    (&["merge", "null"], r#"{"a":"foo"}"#, "null"),
    (&["merge", r#""bar""#], r#"{"a":"foo"}"#, r#""bar""#),
    (
        &["merge", r#"{"a":1}"#],
        r#"{"e":null}"#,
        r#"{"e":null,"a":1}"#,
    ),
    (&["merge", r#"{"a":"b","c":null}"#], "[1,2]", r#"{"a":"b"}"#),
    (
        &["merge", r#"{"a":{"bb":{"ccc":null}}}"#],
        "{}",
        r#"{"a":{"bb":{}}}"#,
    ),
];
