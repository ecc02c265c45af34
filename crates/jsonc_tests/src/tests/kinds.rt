//! What values and syntax trees tell of their kinds, and what is taken out of objects, without memory.

use crate::tests::tree_copies::tree_of;
use failing_alloc::flags::is_alone;
use failing_alloc::{Refusing, given};
use jsonc_parser::ast::{
    Comment, CommentBlock, CommentKind, CommentLine, Node, NodeKind, Object, ObjectProp,
    ObjectPropName, Value,
};
use jsonc_parser::common::{Range, Ranged};
use jsonc_parser::{JsonArray, JsonObject, JsonValue, ParseOptions, parse_to_value};
use std::alloc::{Allocator, Global};
use std::default::Default;
use std::test::Fail;

/// A property of each kind of value, and its name in quotes or as a word.
const TEXT: &str = "{s: 'a', 'n': 1, b: true, 'o': {}, a: [2], 'z': null}";

/// Their names, in the order of the calls that look up or take one kind, with what comes of the kind's node.
static KINDS: [(&str, NodeKind); 6] = [
    ("s", NodeKind::StringLit),
    ("n", NodeKind::NumberLit),
    ("b", NodeKind::BooleanLit),
    ("o", NodeKind::Object),
    ("a", NodeKind::Array),
    ("z", NodeKind::NullKeyword),
];

/// Whether a value is of the kind at a place alone.
fn is_value_of_kind<A: Allocator>(value: &Value<'_, A>, place: usize) -> bool {
    let flags = given!(value;
        as_string_lit, as_number_lit, as_boolean_lit, as_object, as_array, as_null_keyword
    );
    is_alone(&flags, place)
}

/// Whether a node is of the kind at a place alone; properties and words come behind the kinds of values.
fn is_node_of_kind<A: Allocator>(node: &Node<'_, '_, A>, place: usize, kind: NodeKind) -> bool {
    let flags = given!(node;
        as_string_lit, as_number_lit, as_boolean_lit, as_object, as_array, as_null_keyword,
        as_object_prop, as_word_lit
    );
    is_alone(&flags, place) && node.kind() == kind
}

/// The node of what a value holds.
fn held_by<'b, 'a, A: Allocator>(value: &'b Value<'a, A>) -> Node<'b, 'a, A> {
    match value {
        Value::StringLit(string) => Node::from(string),
        Value::NumberLit(number) => Node::from(number),
        Value::BooleanLit(boolean) => Node::from(boolean),
        Value::Object(object) => Node::from(object),
        Value::Array(array) => Node::from(array),
        Value::NullKeyword(null) => Node::from(null),
    }
}

/// Whether a name is a node by itself, with quotes or as a word.
fn is_name_told<A: Allocator>(name: &ObjectPropName<'_, A>, text: &str) -> bool {
    let node = Node::from(name);
    let is_kind = match name {
        ObjectPropName::String(string) => {
            node == Node::from(string) && is_node_of_kind(&node, 0, NodeKind::StringLit)
        }
        ObjectPropName::Word(word) => {
            node == Node::from(word) && is_node_of_kind(&node, 7, NodeKind::WordLit)
        }
    };
    is_kind && name.as_str() == text && node.range() == name.range()
}

/// Whether a property, its name and its value tell what they are, and where.
fn is_property_told<A: Allocator>(
    property: &ObjectProp<'_, A>,
    place: usize,
    row: &(&str, NodeKind),
) -> bool {
    let value = Node::from(&property.value);
    let node = Node::from(property);
    is_value_of_kind(&property.value, place)
        && is_node_of_kind(&value, place, row.1)
        && value == held_by(&property.value)
        && value.range() == property.value.range()
        && is_node_of_kind(&node, 6, NodeKind::ObjectProp)
        && (node.start(), node.end()) == (property.name.start(), property.value.end())
        && is_name_told(&property.name, row.0)
}

/// Whether an object gives the value under a name by the look-up of its kind alone; `null` has none of its own.
fn is_given<A: Allocator>(object: &Object<'_, A>, place: usize, row: &(&str, NodeKind)) -> bool {
    let name = row.0;
    let flags = given!(object, name; get_string, get_number, get_boolean, get_object, get_array);
    let is_of_kind = if place == 5 {
        flags == [false; 5]
    } else {
        is_alone(&flags, place)
    };
    match object.get(name) {
        Some(property) => is_of_kind && is_property_told(property, place, row),
        None => false,
    }
}

/// Whether an object gives up the value under a name to the call of its kind alone, or else its property.
fn is_taken<A: Allocator>(object: &mut Object<'_, A>, place: usize, name: &str) -> bool {
    let flags = given!(object, name;
        take_string, take_number, take_boolean, take_object, take_array, take
    );
    is_alone(&flags, place) && object.get(name).is_none()
}

/// Whether an object tells all of its parts, and gives them up, and asks for nothing.
fn is_object_told(heap: &Refusing<Global>, object: Object<'static, &Refusing<Global>>) -> bool {
    let asked = heap.asked();
    let mut object = object;
    for (place, row) in KINDS.iter().enumerate() {
        if !is_given(&object, place, row) || !is_taken(&mut object, place, row.0) {
            return false;
        }
    }
    object.properties.len() == 0 && heap.asked() == asked
}

/// The same of the text's syntax tree.
fn is_tree_told(heap: &Refusing<Global>) -> bool {
    match tree_of(heap, TEXT) {
        Ok(object) => is_object_told(heap, object),
        Err(_) => false,
    }
}

/// Whether comments give what stands inside their marks, and where they are.
fn are_comments_told() -> bool {
    let range = Range::new(2, 7);
    let line = Comment::Line(CommentLine { range, text: " a " });
    let block = Comment::Block(CommentBlock { range, text: "b" });
    line.text() == " a "
        && line.kind() == CommentKind::Line
        && block.text() == "b"
        && block.kind() == CommentKind::Block
        && line.range() == block.range()
        && (block.width(), Range::from_byte_index(7).width()) == (5, 0)
}

#[test]
fn parts_of_trees_take_no_memory(rt: HostRuntime) -> Result<(), Fail> {
    let heap = Refusing::at(rt.alloc(), u64::MAX);
    assert!(rt; is_tree_told(&heap));
    assert!(rt; are_comments_told());
    Ok(())
}

/// Whether an object of values gives the one under a name by the look-up of its kind alone.
fn is_looked_up<A: Allocator>(object: &JsonObject<'_, A>, place: usize, name: &str) -> bool {
    let flags = given!(object, name; get_string, get_number, get_boolean, get_object, get_array);
    if matches!(object.get(name), Some(JsonValue::Null)) {
        return place == 5 && flags == [false; 5];
    }
    is_alone(&flags, place)
}

/// Whether it gives the value up to the call of its kind alone.
fn is_given_up<A: Allocator>(object: &mut JsonObject<'_, A>, place: usize, name: &str) -> bool {
    let flags = given!(object, name;
        take_string, take_number, take_boolean, take_object, take_array, take
    );
    is_alone(&flags, place) && object.get(name).is_none()
}

/// Whether an array of one value is counted, made anew of its values and gone through.
fn is_array_of_one<A: Allocator>(array: JsonArray<'_, A>) -> bool {
    let is_counted = array.len() == 1 && !array.is_empty() && array.iter().count() == 1;
    let is_first = array.get(0).is_some() && array.get(1).is_none();
    let array = JsonArray::new(array.take_inner());
    let mut values = JsonArray::from(array.take_inner()).into_iter();
    let is_number = matches!(values.next(), Some(JsonValue::Number("2")));
    is_counted && is_first && is_number && values.next().is_none()
}

/// Whether an object is counted, made anew of its map, and gone through: its first property is a string.
fn is_gone_through<A: Allocator>(object: JsonObject<'_, A>) -> bool {
    let is_counted = object.len() == KINDS.len() && !object.is_empty() && object == object;
    let object = JsonObject::new(object.take_inner());
    let mut properties = JsonObject::from(object.take_inner()).into_iter();
    let is_first = match properties.next() {
        Some((name, value)) => name.as_str() == "s" && matches!(value, JsonValue::String(_)),
        None => false,
    };
    is_counted && is_first && properties.nth(4).is_some() && properties.next().is_none()
}

/// The object of the text, read as a value.
fn object_of<A: Allocator + Copy>(alloc: A) -> Option<JsonObject<'static, A>> {
    match parse_to_value(alloc, TEXT, &ParseOptions::default()) {
        Ok(Some(JsonValue::Object(object))) => Some(object),
        _ => None,
    }
}

/// Whether an object gives all that it holds by the calls of the kinds, and gives it up to them.
fn is_emptied<A: Allocator>(object: JsonObject<'_, A>) -> bool {
    let mut object = object;
    let is_array = match object.take_array("a") {
        Some(array) => is_array_of_one(array),
        None => false,
    };
    for (place, (name, _)) in KINDS.iter().enumerate() {
        if place == 4 {
            continue;
        }
        if !is_looked_up(&object, place, name) || !is_given_up(&mut object, place, name) {
            return false;
        }
    }
    is_array && object.is_empty()
}

/// Whether the values of the text tell all that they hold, and ask for nothing more.
fn are_values_told(heap: &Refusing<Global>) -> bool {
    match (object_of(heap), object_of(heap)) {
        (Some(object), Some(other)) => {
            let asked = heap.asked();
            is_emptied(object) && is_gone_through(other) && heap.asked() == asked
        }
        _ => false,
    }
}

#[test]
fn parts_of_values_take_no_memory(rt: HostRuntime) -> Result<(), Fail> {
    let heap = Refusing::at(rt.alloc(), u64::MAX);
    assert!(rt; are_values_told(&heap));
    Ok(())
}
