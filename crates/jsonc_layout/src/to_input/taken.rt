//! Values taken of nodes, by recursion over the tree.

ghost use Rattle.std.specs.Prelude.{◌≡◌, ◌<◌, chars, false, length, IfOk, IsTrue, OnErr, OnOk};
ghost use Rattle.jsonc_text.specs.Plain.{number};
ghost use Rattle.jsonc_layout.specs.input.Views.{plain};
ghost use Rattle.jsonc_tree.specs.OrderedTree.{ordered_tree};
ghost use Rattle.jsonc_tree.specs.Tree.{content_at, is_container_at};
ghost use Rattle.jsonc_layout.specs.nodes.Names.{is_string};
ghost use Rattle.jsonc_layout.specs.to_input.Given.{holds_value};
ghost use Rattle.jsonc_layout.specs.to_input.Taken.{ElementsTaken, IsMemberTaken, IsTaken, IsTakenAt};
ghost use Rattle.jsonc_layout.specs.to_input.Taken.{MembersTaken, inserted};
ghost use Rattle.jsonc_layout.specs.to_input.Wanted.{MayTakeMemory};

use crate::input::CstInputValue;
use crate::nodes::{decoded_name, decoded_value, value_of};
use indexmap::IndexMap;
use jsonc_text::errors::ParseStringErrorKind;
use jsonc_tree::{Kind, Tree};
use std::alloc::{AllocError, Allocator};
use std::hash::{BuildHasherDefault, FoldHasher};

// Names with values, each name once, in the order of their first places.
type Properties<B> = IndexMap<String<B>, CstInputValue<B>, BuildHasherDefault<FoldHasher>, B>;

// The value of a string, or none where it does not decode.
fn string_value<A: Allocator, B: Allocator + Copy>(
    alloc: B,
    tree: &Tree<A>,
    leaf: usize,
) -> Result<Option<CstInputValue<B>>, AllocError>
    requires in_tree { leaf < length tree.now.nodes }
    requires string { IsTrue (is_string (content_at tree.now.nodes leaf)) }
    ensures taken { IfOk result (IsTakenAt tree.now.nodes leaf) }
    ensures memory { OnErr result (MayTakeMemory (content_at tree.now.nodes leaf)) }
{
    match decoded_value(alloc, tree, leaf) {
        Ok(text) => Ok(Some(CstInputValue::from(text))),
        Err(kind) => match kind {
            ParseStringErrorKind::OutOfMemory => Err(AllocError),
            _ => Ok(None),
        },
    }
}

// The number of this text.
fn number_of<B: Allocator>(alloc: B, text: &str) -> Result<CstInputValue<B>, AllocError>
    ensures { IfOk result (λ v. plain v ≡ number (chars text.now)) }
{
    Ok(CstInputValue::Number(String::from_str(alloc, text)?))
}

// The value of a leaf.
fn leaf_value<A: Allocator, B: Allocator + Copy>(
    alloc: B,
    tree: &Tree<A>,
    leaf: usize,
) -> Result<Option<CstInputValue<B>>, AllocError>
    requires in_tree { leaf < length tree.now.nodes }
    requires leaf { is_container_at tree.now.nodes leaf ≡ false }
    ensures taken { IfOk result (IsTakenAt tree.now.nodes leaf) }
    ensures memory { OnErr result (MayTakeMemory (content_at tree.now.nodes leaf)) }
{
    match tree.kind(leaf) {
        Kind::String(_) | Kind::StringPart(_) => string_value(alloc, tree, leaf),
        Kind::Number(text) => Ok(Some(number_of(alloc, text.as_str())?)),
        Kind::NumberPart(text) => Ok(Some(number_of(alloc, text.as_str())?)),
        Kind::Boolean(value) => Ok(Some(CstInputValue::from(*value))),
        Kind::Null => Ok(Some(CstInputValue::Null)),
        _ => Ok(None),
    }
}

// The value of a node.
#[cycle(take)]
fn take<A: Allocator, B: Allocator + Copy>(
    alloc: B,
    tree: &Tree<A>,
    node: usize,
) -> Result<Option<CstInputValue<B>>, AllocError>
    requires in_tree { node < length tree.now.nodes }
    ensures taken { IfOk result (IsTakenAt tree.now.nodes node) }
    ensures memory { OnErr result (MayTakeMemory (content_at tree.now.nodes node)) }
{
    match tree.kind(node) {
        Kind::Root(_) | Kind::Property(_) => take_held(alloc, tree, node),
        Kind::Array(_) => Ok(Some(CstInputValue::from(take_elements(alloc, tree, node)?))),
        Kind::Object(_) => Ok(Some(CstInputValue::from(take_properties(alloc, tree, node)?))),
        _ => leaf_value(alloc, tree, node),
    }
}

// The value of the root or of a property: that of the node that is its value.
#[cycle(take)]
fn take_held<A: Allocator, B: Allocator + Copy>(
    alloc: B,
    tree: &Tree<A>,
    node: usize,
) -> Result<Option<CstInputValue<B>>, AllocError>
    requires in_tree { node < length tree.now.nodes }
    requires holds { IsTrue (holds_value (content_at tree.now.nodes node)) }
    ensures { IfOk result (IsTakenAt tree.now.nodes node) }
{
    match value_of(tree, node) {
        Some(value) => take(alloc, tree, value),
        None => Ok(None),
    }
}

// The values of an array's children that have one.
#[cycle(take)]
fn take_elements<A: Allocator, B: Allocator + Copy>(
    alloc: B,
    tree: &Tree<A>,
    array: usize,
) -> Result<Vec<CstInputValue<B>, B>, AllocError>
    requires in_tree { array < length tree.now.nodes }
    ensures { IfOk result (λ v. ElementsTaken tree.now.nodes array v.items) }
{
    let mut elements = Vec::new(alloc);
    for child in tree.children(array) {
        if let Some(value) = take(alloc, tree, child)? {
            elements.push(value)?;
        }
    }
    Ok(elements)
}

// The names and values of an object's properties that have both.
#[cycle(take)]
fn take_properties<A: Allocator, B: Allocator + Copy>(
    alloc: B,
    tree: &Tree<A>,
    object: usize,
) -> Result<Vec<(String<B>, CstInputValue<B>), B>, AllocError>
    requires in_tree { object < length tree.now.nodes }
    ensures { IfOk result (λ v. MembersTaken tree.now.nodes object v.items) }
{
    let mut properties = IndexMap::new(alloc);
    for child in tree.children(object) {
        if let Some((name, value)) = take_property(alloc, tree, child)? {
            put_property(&mut properties, name, value)?;
        }
    }
    pairs_of(alloc, properties)
}

// The names and values of a map, in their order.
fn pairs_of<B: Allocator>(
    alloc: B,
    properties: Properties<B>,
) -> Result<Vec<(String<B>, CstInputValue<B>), B>, AllocError>
    ensures { IfOk result (λ v. v.items ≡ properties.entries) }
{
    let mut pairs = Vec::with_capacity(alloc, properties.len())?;
    for property in properties {
        pairs.push(property)?;
    }
    Ok(pairs)
}

// One property more, or another value of a name that is there.
fn put_property<B: Allocator>(
    properties: &mut Properties<B>,
    name: String<B>,
    value: CstInputValue<B>,
) -> Result<(), AllocError>
    ensures { OnOk result (properties.new.entries ≡ inserted properties.old.entries name value) }
{
    match properties.insert(name, value) {
        Ok(_) => Ok(()),
        Err(_) => Err(AllocError),
    }
}

// The name and the value of a child of an object, if it is a property that has both.
#[cycle(take)]
fn take_property<A: Allocator, B: Allocator + Copy>(
    alloc: B,
    tree: &Tree<A>,
    child: usize,
) -> Result<Option<(String<B>, CstInputValue<B>)>, AllocError>
    requires in_tree { child < length tree.now.nodes }
    ensures { IfOk result (IsMemberTaken tree.now.nodes child) }
{
    let Kind::Property(_) = tree.kind(child) else {
        return Ok(None);
    };
    let Some(name) = decoded_name(alloc, tree, child)? else {
        return Ok(None);
    };
    match take(alloc, tree, child)? {
        Some(value) => Ok(Some((name, value))),
        None => Ok(None),
    }
}

/// The plain value of a node, as a value for edits.
///
/// Numbers are as written, strings decoded. A property gives its value's, the root its value's; an
/// array what its elements give; an object its properties' names, decoded, with what their values
/// give, of equal names the last value at the first place. A word, a token, trivia and a string that
/// does not decode give None. What gives None inside a container, or has no name that decodes, is
/// passed over. Of a leaf only a number and a string that decodes want memory.
pub fn to_value<A: Allocator, B: Allocator + Copy>(
    alloc: B,
    tree: &Tree<A>,
    node: usize,
) -> Result<Option<CstInputValue<B>>, AllocError>
    requires { node < length tree.now.nodes }
    ensures value { IfOk result (IsTaken (ordered_tree tree.now.nodes node)) }
    ensures memory { OnErr result (MayTakeMemory (content_at tree.now.nodes node)) }
{
    take(alloc, tree, node)
}
