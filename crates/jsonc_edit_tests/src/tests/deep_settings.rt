//! Values that are put at as many names as a text may nest, and at more.

use crate::tests::nested::nested;
use crate::tests::reading::read;
use failing_alloc::outcome::Outcome;
use jsonc_parser::cst::{CstInputValue, EditError, Over};
use jsonc_parser::patch::{MergeFault, merge};
use jsonc_parser::settings::{set_at, set_last_at};
use std::alloc::{AllocError, Global};
use std::test::Fail;

/// How many names there are, how many arrays are around `null` in the value that is put there, and whether it is
/// put: where no more than 512 arrays, objects and properties would be around `null`, two for each name.
type Deep = (usize, usize, bool);

static ROWS: [Deep; 10] = [
    (0, 512, true),
    (0, 513, false),
    (1, 510, true),
    (1, 511, false),
    (255, 2, true),
    (255, 3, false),
    (256, 0, true),
    (256, 1, false),
    (257, 0, false),
    (16000, 0, false),
];

/// So many names, all the same.
fn names(alloc: Global, count: usize) -> Result<Vec<String, Global>, AllocError> {
    let mut names = Vec::new(alloc);
    for _ in 0..count {
        names.push(String::from_str(alloc, "a")?)?;
    }
    Ok(names)
}

/// Whether the value of a row is put into the document of a text, which can be read again; where it is refused it is
/// for depth, and the text is as it was.
fn is_put(alloc: Global, row: &Deep, text: &str, last: bool) -> Result<bool, Outcome> {
    let names = names(alloc, row.0)?;
    let value = nested(alloc, row.1)?;
    let mut doc = read(alloc, text)?;
    let answer = if last {
        set_last_at(&mut doc, &names, value, Over::Replace)
    } else {
        set_at(&mut doc, &names, value, Over::Replace)
    };
    let after = doc.text()?;
    match answer {
        Ok(true) => {
            read(alloc, &after)?;
            Ok(true)
        }
        Err(EditError::NestingDepthExceeded) if after.as_str() == text => Ok(false),
        _ => Err(Outcome::Other),
    }
}

/// Whether a patch of the member `a`, with so many arrays around `null`, is merged into the document of a text.
fn is_merged(alloc: Global, text: &str, arrays: usize) -> Result<bool, Outcome> {
    let mut members = Vec::new(alloc);
    members.push((String::from_str(alloc, "a")?, nested(alloc, arrays)?))?;
    let patch = CstInputValue::Object(members);
    let mut doc = read(alloc, text)?;
    let answer = merge(&mut doc, &patch);
    let after = doc.text()?;
    match answer {
        Ok(()) => {
            read(alloc, &after)?;
            Ok(true)
        }
        Err(MergeFault::NestingDepthExceeded) if after.as_str() == text => Ok(false),
        Err(_) => Err(Outcome::Other),
    }
}

#[test]
fn merges_nest_no_deeper_than_texts(rt: HostRuntime) -> Result<(), Fail> {
    for text in ["", "1", "{}", "{\"a\": 1}"] {
        assert!(rt; is_merged(rt.alloc(), text, 510) == Ok(true), "{:?}", text);
        assert!(rt; is_merged(rt.alloc(), text, 511) == Ok(false), "{:?}", text);
    }
    Ok(())
}

#[test]
fn settings_nest_no_deeper_than_texts(rt: HostRuntime) -> Result<(), Fail> {
    for (place, row) in ROWS.iter().enumerate() {
        for text in ["", "1", "{}", "{\"a\": {\"a\": 1}}"] {
            for last in [false, true] {
                assert!(rt;
                    is_put(rt.alloc(), row, text, last) == Ok(row.2),
                    "row {} of {:?}",
                    place,
                    text
                );
            }
        }
    }
    Ok(())
}
