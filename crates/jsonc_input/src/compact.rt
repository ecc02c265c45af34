//! A value as JSON text on one line (RFC 8259).

ghost use Rattle.std.specs.Prelude.{◌≡◌, ◌++◌, ◌∷◌, [], Bool, IfOk, chars, encode_utf8_all, false, string_bytes};
ghost use Rattle.jsonc_text.specs.Plain.{array, object};
ghost use Rattle.jsonc_text.specs.Spelling.{spelled};
ghost use Rattle.jsonc_layout.specs.input.Views.{items_plain, members_plain, plain};
ghost use Rattle.jsonc_input.specs.Compact.{Appends, after_comma, compact, compact_items, compact_members};

use jsonc_layout::input::CstInputValue;
use jsonc_layout::input::spelling::spell;
use std::alloc::{AllocError, Allocator};

/// The JSON text of a value, on one line and without blanks: a line of a file of JSON lines.
///
/// Strings and names have the escapes of JSON alone, a number is its text, and equal names stay.
pub fn to_json<A: Allocator + Copy>(
    alloc: A,
    value: &CstInputValue<A>,
) -> Result<String<A>, AllocError>
    ensures { IfOk result (λ s. string_bytes s ≡ encode_utf8_all (compact (plain value.now))) }
{
    let mut text = String::new(alloc);
    push_value(alloc, &mut text, value)?;
    Ok(text)
}

#[cycle(push)]
fn push_value<A: Allocator + Copy>(
    alloc: A,
    text: &mut String<A>,
    value: &CstInputValue<A>,
) -> Result<(), AllocError>
    ensures { IfOk result (λ _. Appends text.old text.new (compact (plain value.now))) }
{
    match value {
        CstInputValue::Null => text.push_str("null"),
        CstInputValue::Bool(true) => text.push_str("true"),
        CstInputValue::Bool(false) => text.push_str("false"),
        CstInputValue::Number(number) => text.push_str(number.as_str()),
        CstInputValue::String(string) => push_string(alloc, text, string.as_str()),
        CstInputValue::Array(elements) => push_array(alloc, text, elements.as_slice()),
        CstInputValue::Object(properties) => push_object(alloc, text, properties.as_slice()),
    }
}

// Appends a string as it is spelled.
fn push_string<A: Allocator + Copy>(
    alloc: A,
    text: &mut String<A>,
    string: &str,
) -> Result<(), AllocError>
    ensures { IfOk result (λ _. Appends text.old text.new (spelled (chars string.now))) }
{
    let literal = spell(alloc, string)?;
    text.push_str(literal.as_str())
}

// Appends a comma, where it is not the first.
fn push_comma_if<A: Allocator + Copy>(text: &mut String<A>, apart: bool) -> Result<(), AllocError>
    ensures { IfOk result (λ _. Appends text.old text.new (after_comma apart [])) }
{
    if apart {
        return text.push(',');
    }
    Ok(())
}

#[cycle(push)]
fn push_array<A: Allocator + Copy>(
    alloc: A,
    text: &mut String<A>,
    elements: &[CstInputValue<A>],
) -> Result<(), AllocError>
    ensures { IfOk result (λ _. Appends text.old text.new (compact (array (items_plain elements.now)))) }
{
    text.push('[')?;
    push_elements(alloc, text, elements)?;
    text.push(']')
}

#[cycle(push)]
fn push_elements<A: Allocator + Copy>(
    alloc: A,
    text: &mut String<A>,
    elements: &[CstInputValue<A>],
) -> Result<(), AllocError>
    ensures { IfOk result (λ _. Appends text.old text.new (compact_items false (items_plain elements.now))) }
{
    let mut apart = false;
    for place in 0..elements.len() {
        push_comma_if(text, apart)?;
        push_value(alloc, text, &elements[place])?;
        apart = true;
    }
    Ok(())
}

#[cycle(push)]
fn push_object<A: Allocator + Copy>(
    alloc: A,
    text: &mut String<A>,
    properties: &[(String<A>, CstInputValue<A>)],
) -> Result<(), AllocError>
    ensures { IfOk result (λ _. Appends text.old text.new (compact (object (members_plain properties.now)))) }
{
    text.push('{')?;
    push_properties(alloc, text, properties)?;
    text.push('}')
}

#[cycle(push)]
fn push_properties<A: Allocator + Copy>(
    alloc: A,
    text: &mut String<A>,
    properties: &[(String<A>, CstInputValue<A>)],
) -> Result<(), AllocError>
    ensures { IfOk result (λ _. Appends text.old text.new (compact_members false (members_plain properties.now))) }
{
    let mut apart = false;
    for place in 0..properties.len() {
        let property = &properties[place];
        push_comma_if(text, apart)?;
        push_string(alloc, text, property.0.as_str())?;
        text.push(':')?;
        push_value(alloc, text, &property.1)?;
        apart = true;
    }
    Ok(())
}
