//! From a value to its nodes.

ghost use Rattle.std.specs.Prelude.{◌≡◌, ◌||◌, IfOk, OnOk, chars, nat_lt};
ghost use Rattle.jsonc_tree.specs.Content.{property};
ghost use Rattle.jsonc_layout.specs.input.Views.{items_plain, plain};
ghost use Rattle.jsonc_layout.specs.from_input.Extending.{Gains, IsUnfinished, KeepsAll, KeepsBefore, Makes};
ghost use Rattle.jsonc_layout.specs.from_input.Given.{array_node, array_row, element_line, element_lines};
ghost use Rattle.jsonc_layout.specs.from_input.Given.{object_node, object_row, property_lines};
ghost use Rattle.jsonc_layout.specs.from_input.Given.{property_node, value_node};
ghost use Rattle.jsonc_layout.specs.from_input.Laid.{begun, holds_filled, is_filled, leaf, node_then};
ghost use Rattle.jsonc_layout.specs.from_input.Laid.{number_leaf, string_leaf};
ghost use Rattle.jsonc_layout.specs.from_input.Layout.{layout_of};

use crate::from_input::layout::Layout;
use crate::from_input::lines::{
    begin_line, begin_node, push_comma_if, push_gap_if, push_leaf, push_spaced,
};
use crate::input::CstInputValue;
use crate::input::spelling::spell;
use jsonc_tree::{Ends, Kind, Tree};
use std::alloc::{AllocError, Allocator};

// Makes a number's leaf.
fn add_number<A: Allocator + Copy>(
    alloc: A,
    tree: &mut Tree<A>,
    text: &str,
) -> Result<usize, AllocError>
    ensures built { IfOk result (Makes tree.old tree.new (leaf (number_leaf (chars text.now)))) }
    ensures kept { KeepsAll tree.old tree.new }
{
    let literal = String::from_str(alloc, text)?;
    tree.add(Kind::Number(literal))
}

// Makes a string's leaf.
fn add_string<A: Allocator + Copy>(
    alloc: A,
    tree: &mut Tree<A>,
    text: &str,
) -> Result<usize, AllocError>
    ensures built { IfOk result (Makes tree.old tree.new (leaf (string_leaf (chars text.now)))) }
    ensures kept { KeepsAll tree.old tree.new }
{
    let literal = spell(alloc, text)?;
    tree.add(Kind::String(literal))
}

// Makes a property's node, with its name.
fn begin_property<A: Allocator + Copy>(
    alloc: A,
    tree: &mut Tree<A>,
    name: &str,
) -> Result<usize, AllocError>
    ensures built { IfOk result (Makes tree.old tree.new (begun property (string_leaf (chars name.now)))) }
    ensures kept { KeepsAll tree.old tree.new }
{
    let literal = spell(alloc, name)?;
    begin_node(tree, Kind::Property(Ends::none()), Kind::String(literal))
}

/// Whether an array or an object has something in it.
pub fn is_filled<A: Allocator>(value: &CstInputValue<A>) -> bool
    ensures { result ≡ is_filled (plain value.now) }
{
    match value {
        CstInputValue::Array(elements) => !elements.is_empty(),
        CstInputValue::Object(properties) => !properties.is_empty(),
        _ => false,
    }
}

/// Whether one of the elements is an array or an object with something in it.
pub fn holds_filled<A: Allocator>(elements: &[CstInputValue<A>]) -> bool
    ensures { result ≡ holds_filled (items_plain elements.now) }
{
    for element in elements {
        if is_filled(element) {
            return true;
        }
    }
    false
}

// Whether a node on a line of its own has a comma, where so many others follow.
fn needs_comma<A: Allocator>(layout: &Layout<A>, others: usize) -> bool
    ensures { result ≡ ((layout_of layout.now).trailing_commas || nat_lt 0 others) }
{
    layout.trailing_commas || others > 0
}

/// Makes the nodes of a value, and answers the number of its own node, which has no parent yet.
///
/// A string is written as `spell` does, a number as its text. An array none of whose elements is a
/// container with something in it stands on one line; any other array, and an object with something
/// in it, on several: each element or property has a line, one level deeper, and the closing bracket
/// the last one. On an error every node that was there stays as it was.
#[cycle(lay_out)]
pub fn lay_out<A: Allocator + Copy>(
    alloc: A,
    tree: &mut Tree<A>,
    value: &CstInputValue<A>,
    layout: &Layout<A>,
) -> Result<usize, AllocError>
    ensures built { IfOk result (Makes tree.old tree.new (value_node layout.now value.now)) }
    ensures kept { KeepsAll tree.old tree.new }
{
    match value {
        CstInputValue::Null => tree.add(Kind::Null),
        CstInputValue::Bool(value) => tree.add(Kind::Boolean(*value)),
        CstInputValue::Number(text) => add_number(alloc, tree, text.as_str()),
        CstInputValue::String(text) => add_string(alloc, tree, text.as_str()),
        CstInputValue::Array(elements) => lay_out_array(alloc, tree, elements.as_slice(), layout),
        CstInputValue::Object(properties) => {
            lay_out_object(alloc, tree, properties.as_slice(), layout)
        }
    }
}

/// Makes the nodes of a property, and answers the number of its own node, which has no parent yet.
///
/// Its children are its name, as `spell` writes it, a colon, a space and its value, as [`lay_out`] lays
/// it out. On an error every node that was there stays as it was.
#[cycle(lay_out)]
pub fn lay_out_property<A: Allocator + Copy>(
    alloc: A,
    tree: &mut Tree<A>,
    name: &str,
    value: &CstInputValue<A>,
    layout: &Layout<A>,
) -> Result<usize, AllocError>
    ensures built { IfOk result (Makes tree.old tree.new (property_node layout.now name.now value.now)) }
    ensures kept { KeepsAll tree.old tree.new }
{
    let property = begin_property(alloc, tree, name)?;
    push_spaced(alloc, tree, property, ':')?;
    push_value(alloc, tree, property, value, layout)?;
    Ok(property)
}

// Makes the nodes of an array.
#[cycle(lay_out)]
fn lay_out_array<A: Allocator + Copy>(
    alloc: A,
    tree: &mut Tree<A>,
    elements: &[CstInputValue<A>],
    layout: &Layout<A>,
) -> Result<usize, AllocError>
    ensures built { IfOk result (Makes tree.old tree.new (array_node layout.now elements.now)) }
    ensures kept { KeepsAll tree.old tree.new }
{
    let array = begin_node(tree, Kind::Array(Ends::none()), Kind::token('['))?;
    push_elements(alloc, tree, array, elements, layout)?;
    push_leaf(tree, array, Kind::token(']'))?;
    Ok(array)
}

// Makes the nodes of an object.
#[cycle(lay_out)]
fn lay_out_object<A: Allocator + Copy>(
    alloc: A,
    tree: &mut Tree<A>,
    properties: &[(String<A>, CstInputValue<A>)],
    layout: &Layout<A>,
) -> Result<usize, AllocError>
    ensures built { IfOk result (Makes tree.old tree.new (object_node layout.now properties.now)) }
    ensures kept { KeepsAll tree.old tree.new }
{
    let object = begin_node(tree, Kind::Object(Ends::none()), Kind::token('{'))?;
    push_properties(alloc, tree, object, properties, layout)?;
    push_leaf(tree, object, Kind::token('}'))?;
    Ok(object)
}

// Makes a value the last child of a node that is being built.
#[cycle(lay_out)]
fn push_value<A: Allocator + Copy>(
    alloc: A,
    tree: &mut Tree<A>,
    container: usize,
    value: &CstInputValue<A>,
    layout: &Layout<A>,
) -> Result<(), AllocError>
    requires { IsUnfinished tree.old.nodes container }
    ensures added { OnOk result (Gains tree.old tree.new container (node_then (value_node layout.now value.now))) }
    ensures kept { KeepsBefore container tree.old tree.new }
{
    let node = lay_out(alloc, tree, value, layout)?;
    tree.append(container, node);
    Ok(())
}

// Makes a property the last child of an object that is being built.
#[cycle(lay_out)]
fn push_property<A: Allocator + Copy>(
    alloc: A,
    tree: &mut Tree<A>,
    object: usize,
    name: &str,
    value: &CstInputValue<A>,
    layout: &Layout<A>,
) -> Result<(), AllocError>
    requires { IsUnfinished tree.old.nodes object }
    ensures added { OnOk result
        (Gains tree.old tree.new object (node_then (property_node layout.now name.now value.now))) }
    ensures kept { KeepsBefore object tree.old tree.new }
{
    let node = lay_out_property(alloc, tree, name, value, layout)?;
    tree.append(object, node);
    Ok(())
}

// Adds the elements of an array, on one line or on several.
#[cycle(lay_out)]
fn push_elements<A: Allocator + Copy>(
    alloc: A,
    tree: &mut Tree<A>,
    array: usize,
    elements: &[CstInputValue<A>],
    layout: &Layout<A>,
) -> Result<(), AllocError>
    requires { IsUnfinished tree.old.nodes array }
    ensures added { OnOk result (Gains tree.old tree.new array (array_row layout.now elements.now)) }
    ensures kept { KeepsBefore array tree.old tree.new }
{
    if !holds_filled(elements) {
        return push_elements_on_one_line(alloc, tree, array, elements, layout);
    }
    let deeper = layout.deeper(alloc)?;
    push_elements_on_lines(alloc, tree, array, elements, &deeper)?;
    begin_line(alloc, tree, array, layout)
}

// Adds the properties of an object, if there are any, on several lines.
#[cycle(lay_out)]
fn push_properties<A: Allocator + Copy>(
    alloc: A,
    tree: &mut Tree<A>,
    object: usize,
    properties: &[(String<A>, CstInputValue<A>)],
    layout: &Layout<A>,
) -> Result<(), AllocError>
    requires { IsUnfinished tree.old.nodes object }
    ensures added { OnOk result (Gains tree.old tree.new object (object_row layout.now properties.now)) }
    ensures kept { KeepsBefore object tree.old tree.new }
{
    if properties.is_empty() {
        return Ok(());
    }
    let deeper = layout.deeper(alloc)?;
    push_properties_on_lines(alloc, tree, object, properties, &deeper)?;
    begin_line(alloc, tree, object, layout)
}

// Adds elements on one line, with a comma and a space between them.
#[cycle(lay_out)]
fn push_elements_on_one_line<A: Allocator + Copy>(
    alloc: A,
    tree: &mut Tree<A>,
    array: usize,
    elements: &[CstInputValue<A>],
    layout: &Layout<A>,
) -> Result<(), AllocError>
    requires { IsUnfinished tree.old.nodes array }
    ensures added { OnOk result (Gains tree.old tree.new array (element_line layout.now elements.now)) }
    ensures kept { KeepsBefore array tree.old tree.new }
{
    for (place, element) in elements.iter().enumerate() {
        let others = elements.len() - place - 1;
        push_value(alloc, tree, array, element, layout)?;
        push_gap_if(alloc, tree, array, others > 0)?;
    }
    Ok(())
}

// Adds elements, each on a line of its own.
#[cycle(lay_out)]
fn push_elements_on_lines<A: Allocator + Copy>(
    alloc: A,
    tree: &mut Tree<A>,
    array: usize,
    elements: &[CstInputValue<A>],
    layout: &Layout<A>,
) -> Result<(), AllocError>
    requires { IsUnfinished tree.old.nodes array }
    ensures added { OnOk result (Gains tree.old tree.new array (element_lines layout.now elements.now)) }
    ensures kept { KeepsBefore array tree.old tree.new }
{
    for (place, element) in elements.iter().enumerate() {
        let others = elements.len() - place - 1;
        begin_line(alloc, tree, array, layout)?;
        push_value(alloc, tree, array, element, layout)?;
        push_comma_if(tree, array, needs_comma(layout, others))?;
    }
    Ok(())
}

// Adds properties, each on a line of its own.
#[cycle(lay_out)]
fn push_properties_on_lines<A: Allocator + Copy>(
    alloc: A,
    tree: &mut Tree<A>,
    object: usize,
    properties: &[(String<A>, CstInputValue<A>)],
    layout: &Layout<A>,
) -> Result<(), AllocError>
    requires { IsUnfinished tree.old.nodes object }
    ensures added { OnOk result (Gains tree.old tree.new object (property_lines layout.now properties.now)) }
    ensures kept { KeepsBefore object tree.old tree.new }
{
    for (place, property) in properties.iter().enumerate() {
        let others = properties.len() - place - 1;
        begin_line(alloc, tree, object, layout)?;
        push_property(
            alloc,
            tree,
            object,
            property.0.as_str(),
            &property.1,
            layout,
        )?;
        push_comma_if(tree, object, needs_comma(layout, others))?;
    }
    Ok(())
}
