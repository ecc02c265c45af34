//! Commands whose value is nested as deep as a text may be, and deeper.

use failing_alloc::awaited::prints;
use failing_alloc::outcome::Outcome;
use jsonc_engine::command::Command;
use jsonc_engine::engine::run_on;
use std::alloc::{AllocError, Global};
use std::test::Fail;

/// A command with a value, with the names that it is put at.
#[derive(Clone, Copy)]
enum Deep {
    Set,
    Append,
    Put(usize),
}

/// The command, how many arrays are around `1` in its value, the text, and whether it is made: where no more than 512
/// arrays, objects and properties would be around `1`, two for each name.
type Row = (Deep, usize, &'static str, bool);

static ROWS: [Row; 17] = [
    (Deep::Set, 510, "", true),
    (Deep::Set, 510, "{\"a\": 1}", true),
    (Deep::Set, 511, "", false),
    (Deep::Set, 511, "{\"a\": 1}", false),
    (Deep::Set, 511, "[]", false),
    (Deep::Append, 511, "", true),
    (Deep::Append, 511, "[1]", true),
    (Deep::Append, 512, "[1]", false),
    (Deep::Append, 512, "{}", false),
    (Deep::Put(0), 512, "{}", true),
    (Deep::Put(1), 510, "{}", true),
    (Deep::Put(1), 511, "{}", false),
    (Deep::Put(256), 0, "{}", true),
    (Deep::Put(256), 1, "{}", false),
    (Deep::Put(257), 0, "{}", false),
    (Deep::Put(257), 0, "[]", false),
    (Deep::Put(16000), 0, "{}", false),
];

/// A text, so often, with another between each two.
fn repeated(alloc: Global, text: &str, between: &str, count: usize) -> Result<String, AllocError> {
    let mut all = String::new(alloc);
    for place in 0..count {
        if place > 0 {
            all.push_str(between)?;
        }
        all.push_str(text)?;
    }
    Ok(all)
}

/// `1` in so many arrays, one in another.
fn in_arrays(alloc: Global, count: usize) -> Result<String, AllocError> {
    let mut text = repeated(alloc, "[", "", count)?;
    text.push('1')?;
    text.push_str(&repeated(alloc, "]", "", count)?)?;
    Ok(text)
}

/// A path of so many names.
fn path(alloc: Global, count: usize) -> Result<String, AllocError> {
    let mut text = String::from_str(alloc, "[")?;
    text.push_str(&repeated(alloc, "\"a\"", ",", count)?)?;
    text.push(']')?;
    Ok(text)
}

/// Whether the command of a row is made, and `check` accepts what it writes; where it is refused, the line says that it
/// is for depth.
fn is_made(alloc: Global, row: &Row) -> Result<bool, Outcome> {
    let (deep, arrays, text, _) = *row;
    let json = in_arrays(alloc, arrays)?;
    let path = match deep {
        Deep::Put(names) => path(alloc, names)?,
        _ => String::new(alloc),
    };
    let command = match deep {
        Deep::Set => Command::Set {
            name: "a",
            json: &json,
        },
        Deep::Append => Command::Append { json: &json },
        Deep::Put(_) => Command::Put {
            names: &path,
            json: &json,
        },
    };
    match run_on(alloc, command, text.as_bytes()) {
        Ok(Some(written)) => match run_on(alloc, Command::Check, written.as_bytes()) {
            Ok(None) => Ok(true),
            _ => Err(Outcome::Other),
        },
        Ok(None) => Err(Outcome::Other),
        Err(fault) if prints(&fault, "jsonc: Maximum nesting depth exceeded") => Ok(false),
        Err(_) => Err(Outcome::Other),
    }
}

#[test]
fn what_commands_write_is_accepted(rt: HostRuntime) -> Result<(), Fail> {
    for (place, row) in ROWS.iter().enumerate() {
        assert!(rt; is_made(rt.alloc(), row) == Ok(row.3), "row {}", place);
    }
    Ok(())
}
