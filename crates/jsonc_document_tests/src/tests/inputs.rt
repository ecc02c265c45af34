//! Values handed to edits, and the spelling of strings.

use failing_alloc::Refusing;
use failing_alloc::awaited::prints;
use failing_alloc::outcome::Outcome;
use jsonc_edit::Shape;
use jsonc_layout::from_input::{Layout, lay_out};
use jsonc_layout::input::CstInputValue;
use jsonc_layout::input::spelling::spell;
use jsonc_tree::{CstNewlineKind, Tree};
use std::alloc::{AllocError, Allocator, Global};

/// Texts with the literals that stand for them: each short escape, in the order of their characters; characters of
/// both stretches that are written by their digits, from each end; and characters beside those stretches, and
/// others that are written as they are.
static SPELLED: [(&str, &str); 5] = [
    ("", "\"\""),
    ("a\"\\\u{1}\u{7f}", r#""a\"\\\u0001\u007f""#),
    ("\u{8}\t\n\u{c}\r\"\\", r#""\b\t\n\f\r\"\\""#),
    (
        "\u{0}\u{b}\u{1f}\u{7f}\u{80}\u{9f}",
        r#""\u0000\u000b\u001f\u007f\u0080\u009f""#,
    ),
    (
        " ~\u{a0}/'\u{2028}\u{1d11e}",
        "\" ~\u{a0}/'\u{2028}\u{1d11e}\"",
    ),
];

/// Spells a few texts, one after another.
fn spelled<A: Allocator + Copy>(alloc: A) -> Outcome {
    let mut outcome = Outcome::Answered;
    for (text, literal) in &SPELLED {
        outcome = outcome.then(Outcome::of_text(spell(alloc, text), literal));
    }
    outcome
}

/// Whether a value that is laid out by itself is this text.
fn is_laid_out<A: Allocator + Copy>(
    alloc: A,
    value: &CstInputValue<A>,
    text: &str,
) -> Result<bool, AllocError> {
    let layout = Layout {
        current: String::new(alloc),
        single: String::new(alloc),
        trailing_commas: false,
        newline: CstNewlineKind::LineFeed,
    };
    let mut tree = Tree::new(alloc)?;
    let node = lay_out(alloc, &mut tree, value, &layout)?;
    Ok(node < tree.len() && prints(&tree.shown(node), text))
}

/// Whether a value was made that is written as this text, or the memory for it was wanted.
fn is_made<A: Allocator + Copy, E: Into<Outcome>>(
    alloc: A,
    value: Result<CstInputValue<A>, E>,
    text: &str,
) -> Outcome {
    match value {
        Ok(value) => Outcome::of_answer(is_laid_out(alloc, &value, text), &true),
        Err(error) => error.into(),
    }
}

fn numbers<A: Allocator + Copy>(alloc: A) -> Outcome {
    let size = is_made(alloc, CstInputValue::from_usize(alloc, 10), "10");
    let large = CstInputValue::from_u64(alloc, u64::MAX);
    let small = CstInputValue::from_u32(alloc, u32::MAX);
    size.then(is_made(alloc, large, "18446744073709551615"))
        .then(is_made(alloc, small, "4294967295"))
}

fn signed_numbers<A: Allocator + Copy>(alloc: A) -> Outcome {
    let size = is_made(alloc, CstInputValue::from_isize(alloc, -1), "-1");
    let large = CstInputValue::from_i64(alloc, i64::MIN);
    let small = CstInputValue::from_i32(alloc, 0);
    size.then(is_made(alloc, large, "-9223372036854775808"))
        .then(is_made(alloc, small, "0"))
}

fn text<A: Allocator + Copy>(alloc: A) -> Outcome {
    match String::from_str(alloc, "b") {
        Ok(text) => {
            let value: Result<CstInputValue<A>, AllocError> = Ok(CstInputValue::from(text));
            is_made(alloc, value, "\"b\"")
        }
        Err(error) => Outcome::from(error),
    }
}

/// The array of a truth value and a string.
fn some_array<A: Allocator + Copy>(alloc: A) -> Result<CstInputValue<A>, AllocError> {
    let text = CstInputValue::from_str(alloc, "a\n")?;
    let mut elements = Vec::new(alloc);
    elements.push(CstInputValue::from(true))?;
    elements.push(text)?;
    Ok(CstInputValue::from(elements))
}

/// A property of the object of some values.
fn push_property<A: Allocator + Copy>(
    alloc: A,
    properties: &mut Vec<(String<A>, CstInputValue<A>), A>,
    name: &str,
    value: CstInputValue<A>,
) -> Result<(), AllocError> {
    let name = String::from_str(alloc, name)?;
    properties.push((name, value))?;
    Ok(())
}

/// The object of that array and of a null, under the names `first` and `second`.
fn some_object<A: Allocator + Copy>(alloc: A) -> Result<CstInputValue<A>, AllocError> {
    let mut properties = Vec::new(alloc);
    push_property(alloc, &mut properties, "first", some_array(alloc)?)?;
    push_property(alloc, &mut properties, "second", CstInputValue::Null)?;
    Ok(CstInputValue::from(properties))
}

/// That object, written on its lines.
const OBJECT: &str = "{\n\"first\": [true, \"a\\n\"],\n\"second\": null\n}";

/// Whether an object as that one has its values under their names, and kinds of containers where they are.
fn has_its_values<A: Allocator>(object: &CstInputValue<A>) -> bool {
    let Some(first) = object.get("first") else {
        return false;
    };
    matches!(object.get("second"), Some(CstInputValue::Null))
        && object.get("third").is_none()
        && first.get("first").is_none()
        && object.shape() == Some(Shape::Object)
        && first.shape() == Some(Shape::Array)
}

/// An object and its copy are as they were made, and equal.
fn object<A: Allocator + Copy>(alloc: A) -> Outcome {
    match some_object(alloc) {
        Ok(object) => {
            let copy = is_made(alloc, object.try_clone(), OBJECT);
            copy.then(Outcome::of(has_its_values(&object)))
                .then(Outcome::of_answer(is_laid_out(alloc, &object, OBJECT), &true))
                .then(Outcome::of_answer(object.try_clone(), &object))
        }
        Err(error) => Outcome::from(error),
    }
}

/// Strings are spelled, each kind of value is made, and one is copied.
pub fn inputs<A: Allocator + Copy>(alloc: A) -> Outcome {
    let are_numbers = numbers(alloc).then(signed_numbers(alloc));
    are_numbers
        .then(spelled(alloc))
        .then(text(alloc))
        .then(object(alloc))
}

/// Whether values are made of what is there already.
fn are_given<A: Allocator + Copy>(alloc: A) -> bool {
    let elements: Vec<CstInputValue<A>, A> = Vec::new(alloc);
    let properties: Vec<(String<A>, CstInputValue<A>), A> = Vec::new(alloc);
    let text: CstInputValue<A> = CstInputValue::from(String::new(alloc));
    let yes: CstInputValue<A> = CstInputValue::from(true);
    matches!(text, CstInputValue::String(_))
        && matches!(CstInputValue::from(elements), CstInputValue::Array(_))
        && matches!(CstInputValue::from(properties), CstInputValue::Object(_))
        && matches!(yes, CstInputValue::Bool(true))
}

#[test]
fn values_are_made_and_strings_spelled(rt: HostRuntime) {
    let heap = Refusing::always(rt.alloc());
    assert!(rt; are_given(&heap) && heap.asked() == 0);
    assert!(rt; inputs::<Global>(rt.alloc()) == Outcome::Answered);
}

fn is_copied(value: CstInputValue<&Refusing<Global>>) -> bool {
    value.try_clone().is_ok()
}

/// Whether values of other kinds, texts and names are not equal.
fn others_differ<A: Allocator + Copy>(alloc: A) -> Result<bool, AllocError> {
    let string = CstInputValue::from_str(alloc, "1")?;
    let number = CstInputValue::from_usize(alloc, 1)?;
    let other = CstInputValue::Number(String::from_str(alloc, "1.0")?);
    let mut renamed = Vec::new(alloc);
    push_property(alloc, &mut renamed, "first", some_array(alloc)?)?;
    push_property(alloc, &mut renamed, "third", CstInputValue::Null)?;
    let object = CstInputValue::from(renamed);
    Ok(string != number && number != other && some_object(alloc)? != object)
}

#[test]
fn values_are_compared_by_their_texts(rt: HostRuntime) {
    assert!(rt; others_differ::<Global>(rt.alloc()) == Ok(true));
}

#[test]
fn copies_of_what_owns_nothing_take_no_memory(rt: HostRuntime) {
    let heap = Refusing::always(rt.alloc());
    assert!(rt; is_copied(CstInputValue::Null) && is_copied(CstInputValue::Bool(true)));
    assert!(rt; is_copied(CstInputValue::Array(Vec::new(&heap))));
    assert!(rt; is_copied(CstInputValue::Object(Vec::new(&heap))));
    assert!(rt; heap.asked() == 0);
}
