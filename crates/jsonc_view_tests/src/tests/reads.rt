//! What is read of an object with a value of each kind, without memory.

use failing_alloc::Refusing;
use jsonc_text::options::ParseOptions;
use jsonc_view::{JsonView, ViewArray, ViewObject, ViewValue, parse_to_view};
use std::alloc::{Allocator, Global};
use std::default::Default;
use std::test::Fail;

/// A property of each kind of value, with names and strings of each form; three names stand twice.
const TEXT: &str = "// settings
{
  \"s\": \"a\\tb\", 'n': -1.5e3, t: true, f: false, // 1
  z: null, o: {x: 1}, l: [1, 'two', []], \"\\u0074\": {}, s: \"é\", z: 0x1F, \"\": ''
}
";

/// A value as a mark of its kind, with its text.
type Told = (char, &'static str);

/// The properties of the text, as they stand there.
static PROPERTIES: [(&str, Told); 11] = [
    ("s", ('\'', "a\tb")),
    ("n", ('#', "-1.5e3")),
    ("t", ('T', "")),
    ("f", ('F', "")),
    ("z", ('N', "")),
    ("o", ('{', "")),
    ("l", ('[', "")),
    ("t", ('{', "")),
    ("s", ('\'', "é")),
    ("z", ('#', "0x1F")),
    ("", ('\'', "")),
];

/// The value of each name: of several the last. There is no other name.
static NAMED: [(&str, Option<Told>); 10] = [
    ("s", Some(('\'', "é"))),
    ("n", Some(('#', "-1.5e3"))),
    ("t", Some(('{', ""))),
    ("f", Some(('F', ""))),
    ("z", Some(('#', "0x1F"))),
    ("o", Some(('{', ""))),
    ("l", Some(('[', ""))),
    ("", Some(('\'', ""))),
    ("x", None),
    ("\\u0074", None),
];

/// The elements of its array.
static ELEMENTS: [Told; 3] = [('#', "1"), ('\'', "two"), ('[', "")];

/// A value as a mark of its kind, with its text.
fn told<'v, 'a, A: Allocator>(value: &ViewValue<'v, 'a, A>) -> (char, &'v str) {
    match value {
        ViewValue::String(text) => ('\'', *text),
        ViewValue::Number(text) => ('#', *text),
        ViewValue::Boolean(true) => ('T', ""),
        ViewValue::Boolean(false) => ('F', ""),
        ViewValue::Object(_) => ('{', ""),
        ViewValue::Array(_) => ('[', ""),
        ViewValue::Null => ('N', ""),
    }
}

/// Whether an array has these elements, by places and one after another.
fn has_elements<'v, 'a, A: Allocator>(array: &ViewArray<'v, 'a, A>, wanted: &[Told]) -> bool {
    let mut left = array.iter();
    for place in 0..wanted.len() {
        let (Some(value), Some(next)) = (array.get(place), left.next()) else {
            return false;
        };
        if told(&value) != wanted[place] || told(&next) != wanted[place] {
            return false;
        }
    }
    let is_end = array.get(wanted.len()).is_none() && left.next().is_none();
    is_end && array.len() == wanted.len() && array.is_empty() == wanted.is_empty()
}

/// Whether an object has these properties, by places and one after another.
fn has_properties<'v, 'a, A: Allocator>(
    object: &ViewObject<'v, 'a, A>,
    wanted: &[(&str, Told)],
) -> bool {
    let mut left = object.iter();
    for place in 0..wanted.len() {
        let (Some((name, value)), Some((next_name, next))) = (object.get_index(place), left.next())
        else {
            return false;
        };
        if (name, told(&value)) != wanted[place] || (next_name, told(&next)) != wanted[place] {
            return false;
        }
    }
    let is_end = object.get_index(wanted.len()).is_none() && left.next().is_none();
    is_end && object.len() == wanted.len() && object.is_empty() == wanted.is_empty()
}

/// Whether an object gives these values by their names.
fn has_named<'v, 'a, A: Allocator>(
    object: &ViewObject<'v, 'a, A>,
    wanted: &[(&str, Option<Told>)],
) -> bool {
    for (name, value) in wanted {
        let is_wanted = match (object.get(name), value) {
            (Some(found), Some(value)) => told(&found) == *value,
            (None, None) => true,
            _ => false,
        };
        if !is_wanted {
            return false;
        }
    }
    true
}

/// Whether the containers in the object have what the text gives them.
fn has_containers<'v, 'a, A: Allocator>(object: &ViewObject<'v, 'a, A>) -> bool {
    let is_array = match object.get("l") {
        Some(ViewValue::Array(array)) => has_elements(&array, &ELEMENTS),
        _ => false,
    };
    let is_object = match object.get("o") {
        Some(ViewValue::Object(object)) => has_properties(&object, &[("x", ('#', "1"))]),
        _ => false,
    };
    let is_empty = match object.get("t") {
        Some(ViewValue::Object(object)) => has_properties(&object, &[]),
        _ => false,
    };
    is_array && is_object && is_empty
}

/// Whether a view of the text is read so.
fn is_read<A: Allocator>(view: &JsonView<'_, A>) -> bool {
    match view.value() {
        Some(ViewValue::Object(object)) => {
            has_properties(&object, &PROPERTIES)
                && has_named(&object, &NAMED)
                && has_containers(&object)
        }
        _ => false,
    }
}

/// Whether a view of the text is read so, and asks for nothing.
fn is_read_without_memory(heap: &Refusing<Global>) -> bool {
    match parse_to_view(heap, TEXT, &ParseOptions::default()) {
        Ok(view) => {
            let asked = heap.asked();
            is_read(&view) && heap.asked() == asked
        }
        Err(_) => false,
    }
}

#[test]
fn reading_takes_no_memory(rt: HostRuntime) -> Result<(), Fail> {
    let heap = Refusing::at(rt.alloc(), u64::MAX);
    assert!(rt; is_read_without_memory(&heap));
    Ok(())
}
