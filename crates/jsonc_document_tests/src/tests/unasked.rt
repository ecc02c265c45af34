//! What typed nodes tell without memory.
ghost use Rattle.jsonc_cst.specs.Document.{HasNode};
ghost use Rattle.jsonc_cst.specs.Nodes.{object_prop_node};
ghost use Rattle.jsonc_cst.specs.declared.cst.node.CstNode.{CstNode};

use crate::tests::node_edits::{NodeEdit, edit_node};
use crate::tests::reading::{asked_by, child_at, prepared, read};
use crate::tests::typed::SPREAD;
use failing_alloc::awaited::prints;
use failing_alloc::flags::is_alone;
use failing_alloc::outcome::Outcome;
use failing_alloc::{Refusing, given};
use jsonc_parser::cst::{
    CstContainerNode, CstLeafNode, CstNewlineKind, CstNode, CstObject, CstObjectProp, CstRootNode,
    ParentNode, TypedNode,
};
use std::alloc::{Allocator, Global};
use std::test::Fail;

/// Leaves of each kind, in a property and in the array of the next one.
const LEAVES: &str = "{a: \"b\", c: [true,false,null,1 /*c*/\n]}";

/// Leaves by their texts, each with the place of its kind.
static OF_PROPERTY: [(&str, usize); 4] = [("a", 8), (":", 9), (" ", 10), ("\"b\"", 7)];

static OF_ARRAY: [(&str, usize); 12] = [
    ("[", 9),
    ("true", 4),
    (",", 9),
    ("false", 4),
    (",", 9),
    ("null", 5),
    (",", 9),
    ("1", 6),
    (" ", 10),
    ("/*c*/", 12),
    ("\n", 11),
    ("]", 9),
];

/// Whether a node is of the kind at a place alone, by the calls that give it and by those that only tell.
fn is_of_kind(node: CstNode, place: usize) -> bool {
    let given = given!(node;
        as_root_node, as_array, as_object, as_object_prop, as_boolean_lit, as_null_keyword,
        as_number_lit, as_string_lit, as_word_lit, as_token, as_whitespace, as_newline, as_comment
    );
    let told = (
        node.is_token(),
        node.is_whitespace(),
        node.is_newline(),
        node.is_comment(),
    );
    is_alone(&given, place)
        && told == (place == 9, place == 10, place == 11, place == 12)
        && node.is_trivia() == (place >= 10)
}

/// The same of a node that may have children.
fn is_container_of_kind(container: CstContainerNode, place: usize) -> bool {
    let given = given!(container; as_root, as_array, as_object, as_object_prop);
    let told = [
        container.is_root(),
        container.is_array(),
        container.is_object(),
        container.is_object_prop(),
    ];
    is_alone(&given, place)
        && is_alone(&told, place)
        && is_of_kind(CstNode::Container(container), place)
}

/// Whether the name of a property is a string, or else a word.
fn is_name<A: Allocator>(doc: &CstRootNode<A>, property: CstObjectProp, in_quotes: bool) -> bool
    requires { HasNode doc.now (object_prop_node property) }
{
    match property.name(doc) {
        Some(name) => {
            name.as_string_lit().is_some() == in_quotes && name.as_word_lit().is_none() == in_quotes
        }
        None => false,
    }
}

/// Whether the pieces of a document, joined, are a text.
fn is_in_pieces<A: Allocator>(doc: &CstRootNode<A>, text: &str) -> bool {
    let mut rest = text.as_bytes();
    for piece in doc.pieces() {
        match rest.strip_prefix(piece) {
            Some(after) => rest = after,
            None => return false,
        }
    }
    rest.is_empty()
}

/// Whether a leaf holds this text, or what it stands for.
fn is_leaf<A: Allocator>(doc: &CstRootNode<A>, leaf: CstLeafNode, text: &str) -> bool
    requires { HasNode doc.now (CstNode.Leaf leaf) }
{
    match leaf {
        CstLeafNode::BooleanLit(boolean) => boolean.value(doc) == (text == "true"),
        CstLeafNode::NullKeyword(_) => text == "null",
        CstLeafNode::NumberLit(number) => number.raw_value(doc) == text,
        CstLeafNode::StringLit(string) => string.raw_value(doc) == text,
        CstLeafNode::WordLit(word) => word.raw_value(doc) == text,
        CstLeafNode::Token(token) => {
            leaf.node().token_char(doc) == Some(token.value(doc))
                && text.starts_with(token.value(doc))
        }
        CstLeafNode::Whitespace(blanks) => blanks.value(doc) == text,
        CstLeafNode::Newline(newline) => newline.kind(doc) == CstNewlineKind::LineFeed,
        CstLeafNode::Comment(comment) => {
            comment.raw_value(doc) == text && !comment.is_line_comment(doc)
        }
    }
}

/// Whether the children of a node are leaves of these kinds that hold these texts and print them.
fn are_leaves<A: Allocator>(doc: &CstRootNode<A>, node: CstNode, leaves: &[(&str, usize)]) -> bool
    requires { HasNode doc.now node }
{
    for (place, (text, kind)) in leaves.iter().enumerate() {
        let Some(CstNode::Leaf(leaf)) = node.child_at_index(doc, place) else {
            return false;
        };
        let is_told = is_leaf(doc, leaf, text) && is_of_kind(CstNode::Leaf(leaf), *kind);
        if !is_told || !prints(&leaf.shown(doc), text) {
            return false;
        }
    }
    node.child_at_index(doc, leaves.len()) == None
}

/// The leaves of a property and of the value of the next one.
fn leaves_told<A: Allocator>(doc: &CstRootNode<A>) -> bool {
    let (
        Some(CstNode::Container(CstContainerNode::ObjectProp(first))),
        Some(CstNode::Container(CstContainerNode::ObjectProp(second))),
    ) = (child_at(doc, 1), child_at(doc, 4)) else {
        return false;
    };
    match second.value(doc) {
        Some(array) => {
            is_name(doc, first, false)
                && are_leaves(doc, CstNode::from(first), &OF_PROPERTY)
                && are_leaves(doc, array, &OF_ARRAY)
        }
        None => false,
    }
}

/// Above the element under a name stand its array, the property, the object and the root.
fn is_below<A: Allocator>(doc: &CstRootNode<A>, object: CstObject, property: CstObjectProp) -> bool
    requires { HasNode doc.now (object_prop_node property) }
{
    let Some(array) = property.array_value(doc) else {
        return false;
    };
    let Some(element) = array.child_at_index(doc, 1) else {
        return false;
    };
    let mut above = element.ancestors(doc);
    let above_it = [
        CstContainerNode::Root(doc.root()),
        CstContainerNode::Array(array),
        CstContainerNode::Object(object),
        CstContainerNode::ObjectProp(property),
    ];
    for (place, container) in above_it.iter().enumerate() {
        if !is_container_of_kind(*container, place) {
            return false;
        }
    }
    element.element_index(doc) == Some(0)
        && element.parent(doc) == Some(CstContainerNode::Array(array))
        && above.next() == Some(CstContainerNode::Array(array))
        && above.next() == Some(CstContainerNode::ObjectProp(property))
        && above.next() == Some(CstContainerNode::Object(object))
        && above.next() == Some(CstContainerNode::Root(doc.root()))
        && above.next() == None
}

/// Whether a property is the one of this number among the properties and this child of their object, in quotes,
/// without a blank line before it; only the first one has a comma.
fn is_property<A: Allocator>(
    doc: &CstRootNode<A>,
    property: CstObjectProp,
    number: usize,
    child: usize,
) -> bool
    requires { HasNode doc.now (object_prop_node property) }
{
    let numbers = (
        property.property_index(doc),
        CstNode::from(property).child_index(doc),
    );
    let has_comma = property.trailing_comma(doc).is_some();
    numbers == (number, child)
        && has_comma == (number == 0)
        && !property.has_blank_line_before(doc)
        && is_name(doc, property, true)
}

/// Before and after the object's first property stand 3 and 8 siblings.
fn are_counted<A: Allocator>(doc: &CstRootNode<A>, object: CstNode, first: CstNode) -> bool
    requires object { HasNode doc.now object }
    requires first { HasNode doc.now first }
{
    let mut before = first.previous_siblings(doc);
    let mut after = first.next_siblings(doc);
    before.nth(2) == object.child_at_index(doc, 0)
        && before.next() == None
        && after.nth(7) == object.child_at_index(doc, 11)
        && after.next() == None
}

/// Behind the object's first property is a comma.
fn are_siblings<A: Allocator>(doc: &CstRootNode<A>, first: CstNode, comma: CstNode) -> bool
    requires first { HasNode doc.now first }
    requires comma { HasNode doc.now comma }
{
    let stands_beside = first.next_sibling(doc) == Some(comma)
        && comma.previous_sibling(doc) == Some(first);
    let is_comma = comma.is_comma(doc) && comma.is_token() && !comma.is_trivia();
    stands_beside && first.root_node(doc) == Some(doc.root()) && is_comma
}

/// The properties of an object over lines, and what is around them.
fn rows_told<A: Allocator + Copy>(doc: &CstRootNode<A>) -> bool {
    let (
        Some(object),
        Some(CstNode::Container(CstContainerNode::ObjectProp(first))),
        Some(comma),
        Some(CstNode::Container(CstContainerNode::ObjectProp(second))),
    ) = (
        doc.object_value(),
        child_at(doc, 3),
        child_at(doc, 4),
        child_at(doc, 9),
    ) else {
        return false;
    };
    are_siblings(doc, CstNode::from(first), comma)
        && are_counted(doc, CstNode::from(object), CstNode::from(first))
        && is_property(doc, first, 0, 3)
        && is_property(doc, second, 1, 9)
        && first.next_property(doc) == Some(second)
        && second.previous_property(doc) == Some(first)
        && first.previous_property(doc) == None
        && is_below(doc, object, second)
        && doc.holds(comma)
}

/// A walk with ranges comes past the nodes of the walk without, each with the range that the document tells.
fn walk_told<A: Allocator>(doc: &CstRootNode<A>) -> bool {
    let mut nodes = doc.descendants(CstNode::from(doc.root()));
    for (node, range) in doc.descendants_with_ranges(CstNode::from(doc.root())) {
        if nodes.next() != Some(node) || range != doc.range(node) {
            return false;
        }
    }
    nodes.next() == None
}

/// A walk with starts comes past the same nodes, each with the place where its range begins.
fn starts_told<A: Allocator>(doc: &CstRootNode<A>) -> bool {
    let mut nodes = doc.descendants_with_ranges(CstNode::from(doc.root()));
    for (node, start) in doc.descendants_with_starts(CstNode::from(doc.root())) {
        let Some((same, Some(range))) = nodes.next() else {
            return false;
        };
        if same != node || start != Some(range.start) {
            return false;
        }
    }
    nodes.next().is_none()
}

/// Whether this is told of a text though all is refused once it is read, and nothing asked for.
fn is_told_unasked<T: Fn(&CstRootNode<&Refusing<Global>>) -> bool>(
    alloc: Global,
    text: &str,
    told: T,
) -> bool
    requires { T.IsAlwaysCallable told }
{
    let asked = asked_by(alloc, text);
    let heap = Refusing::after(alloc, asked);
    match read(&heap, text) {
        Ok(doc) => told(&doc) && is_in_pieces(&doc, text) && heap.asked() == asked,
        Err(_) => false,
    }
}

#[test]
fn other_readings_take_no_memory(rt: HostRuntime) {
    assert!(rt; is_told_unasked(rt.alloc(), SPREAD, |doc| rows_told(doc)));
    assert!(rt; is_told_unasked(rt.alloc(), LEAVES, |doc| leaves_told(doc)));
    assert!(rt; is_told_unasked(rt.alloc(), SPREAD, |doc| walk_told(doc)));
    assert!(rt; is_told_unasked(rt.alloc(), SPREAD, |doc| starts_told(doc)));
}

/// Texts, how their lines end, and whether they use trailing commas. What is less deep tells, and of what is as deep
/// what stands first.
static LAID_OUT: [(&str, CstNewlineKind, bool); 8] = [
    ("[\r\n  1,\r\n]\n", CstNewlineKind::LineFeed, true),
    ("[[\r\n1],2\n]", CstNewlineKind::LineFeed, false),
    (
        "[[[\r\n1]],[[2\n]]]",
        CstNewlineKind::CarriageReturnLineFeed,
        false,
    ),
    ("[[[\r\n1]],[2\n]]", CstNewlineKind::LineFeed, false),
    (
        "{a:[[[\r\n1, ]]],b:2}",
        CstNewlineKind::CarriageReturnLineFeed,
        true,
    ),
    ("[[ 1,],2]", CstNewlineKind::LineFeed, true),
    ("[[1,], [ 2]]", CstNewlineKind::LineFeed, false),
    ("", CstNewlineKind::LineFeed, false),
];

fn lines_told<A: Allocator + Copy>(doc: &CstRootNode<A>, kind: CstNewlineKind, uses: bool) -> bool {
    doc.newline_kind() == kind && doc.root().uses_trailing_commas(doc) == uses
}

#[test]
fn line_ends_and_trailing_commas_take_no_memory(rt: HostRuntime) -> Result<(), Fail> {
    for (text, kind, uses) in &LAID_OUT {
        assert!(rt;
            is_told_unasked(rt.alloc(), text, |doc| lines_told(doc, *kind, *uses)),
            "{text}"
        );
    }
    Ok(())
}

/// A leaf that becomes this string has no value.
fn gives_nothing<A: Allocator + Copy>(doc: CstRootNode<A>, word: String<A>) -> bool {
    let mut doc = doc;
    let Some(node) = child_at(&doc, 1) else {
        return false;
    };
    if edit_node(&mut doc, NodeEdit::SetRaw, node, word) != Outcome::Answered {
        return false;
    }
    match child_at(&doc, 1) {
        Some(node) => match node.to_value(&doc) {
            Ok(None) => true,
            _ => false,
        },
        None => false,
    }
}

/// The same, though all is refused behind the text and the string.
fn gives_nothing_unasked(alloc: Global, string: &str) -> bool {
    let counted = Refusing::at(alloc, u64::MAX);
    drop(prepared(&counted, "[\"a\"]", string));
    let heap = Refusing::after(alloc, counted.asked());
    match prepared(&heap, "[\"a\"]", string) {
        Ok((doc, word)) => gives_nothing(doc, word),
        Err(_) => false,
    }
}

/// Strings that do not decode: an escape of too few digits, a backslash at the end, and no quotes.
static UNDECODED: [&str; 3] = ["\"\\u12\"", "\"b\\", "\\n"];

#[test]
fn strings_that_do_not_decode_take_no_memory(rt: HostRuntime) -> Result<(), Fail> {
    for string in &UNDECODED {
        assert!(rt; gives_nothing_unasked(rt.alloc(), string), "{string}");
    }
    Ok(())
}
