//! Decoded strings, and the names of properties.

ghost use Rattle.std.specs.Prelude.{◌≡◌, ◌<◌, chars, length, string_bytes, IfErr, IfOk, IsTrue, OnErr};
ghost use Rattle.std.specs.Bool.{Decides};
ghost use Rattle.std.specs.Option.{option_map};
ghost use Rattle.jsonc_tree.specs.Order.{text_at};
ghost use Rattle.jsonc_tree.specs.Stored.{content_of};
ghost use Rattle.jsonc_tree.specs.Tree.{content_at};
ghost use Rattle.jsonc_text.specs.string.Escapes.{StringHoldsBackslash};
ghost use Rattle.jsonc_layout.specs.nodes.Names.{FirstInObject, HasEscapedName, HasName, HoldsEscapedName, NameIsEscaped};
ghost use Rattle.jsonc_layout.specs.nodes.Names.{HoldsString, IsEscaped, IsNamed, LeafIsNoString};
ghost use Rattle.jsonc_layout.specs.nodes.Names.{LeafStandsFor, NameReads, Names, ReadsAs, StandsFor};
ghost use Rattle.jsonc_layout.specs.nodes.Names.{is_string, string_text, word_text};
ghost use Rattle.jsonc_layout.specs.nodes.Siblings.{IsThere};

use crate::nodes::property::name_of;
use crate::nodes::siblings::children_from;
use crate::nodes::strings::fault_of;
use jsonc_text::errors::ParseStringErrorKind;
use jsonc_text::string::provider::parse_string;
use jsonc_tree::{Kind, Tree};
use std::alloc::{AllocError, Allocator};
use std::borrow::CowStr;

// The text of a string leaf.
fn text_of_string<A: Allocator>(kind: &Kind<A>) -> Option<&str>
    ensures { option_map (λ s. s.now) result ≡ string_text (content_of kind.now) }
{
    match kind {
        Kind::String(s) => Some(s.as_str()),
        Kind::StringPart(s) => Some(s.as_str()),
        _ => None,
    }
}

// The text of a word.
fn text_of_word<A: Allocator>(kind: &Kind<A>) -> Option<&str>
    ensures { option_map (λ s. s.now) result ≡ word_text (content_of kind.now) }
{
    match kind {
        Kind::Word(s) => Some(s.as_str()),
        Kind::WordPart(s) => Some(s.as_str()),
        _ => None,
    }
}

// What the string at the front of a text stands for, or none where none stands there.
fn front_string<'a, B: Allocator>(
    alloc: B,
    text: &'a str,
) -> Result<Option<CowStr<'a, B>>, AllocError>
    ensures read { IfOk result (ReadsAs (StandsFor text.now)) }
    ensures memory { OnErr result (StringHoldsBackslash text.now 0) }
{
    match parse_string(alloc, text) {
        Ok(string) => Ok(Some(string)),
        Err(fault) => match fault.kind {
            ParseStringErrorKind::OutOfMemory => Err(AllocError),
            _ => Ok(None),
        },
    }
}

/// What a string leaf stands for. What follows its closing quote is ignored.
///
/// A leaf's text with no quote in front is `UnterminatedStringLiteral`, allocation failure
/// `OutOfMemory`. Only a string that decodes wants memory.
pub fn decoded_value<A: Allocator, B: Allocator + Copy>(
    alloc: B,
    tree: &Tree<A>,
    leaf: usize,
) -> Result<String<B>, ParseStringErrorKind>
    requires in_tree { leaf < length tree.now.nodes }
    requires string { IsTrue (is_string (content_at tree.now.nodes leaf)) }
    ensures found { IfOk result (λ s. LeafStandsFor tree.now.nodes leaf (string_bytes s)) }
    ensures fault { IfErr result (LeafIsNoString tree.now.nodes leaf) }
    ensures memory { IfErr result (λ kind. kind ≡ ParseStringErrorKind.OutOfMemory → HoldsString (text_at tree.now.nodes leaf)) }
{
    let Some(text) = text_of_string(tree.kind(leaf)) else {
        unreachable!();
    };
    match parse_string(alloc, text) {
        Ok(string) => match string.into_owned(alloc) {
            Ok(string) => Ok(string),
            Err(_) => Err(ParseStringErrorKind::OutOfMemory),
        },
        Err(fault) => Err(fault_of(text, fault.kind)),
    }
}

// The name that a leaf is, or none where it is none.
fn name_in<'a, A: Allocator, B: Allocator>(
    alloc: B,
    kind: &'a Kind<A>,
) -> Result<Option<CowStr<'a, B>>, AllocError>
    ensures read { IfOk result (ReadsAs (Names (content_of kind.now))) }
    ensures memory { OnErr result (IsEscaped (content_of kind.now)) }
{
    if let Some(text) = text_of_string(kind) {
        return front_string(alloc, text);
    }
    match text_of_word(kind) {
        Some(text) => Ok(Some(CowStr::Borrowed(text))),
        None => Ok(None),
    }
}

/// A property's name with its escapes resolved, or none where it has no name that decodes. It is lent from the tree, and
/// memory is wanted only for a name with a backslash.
pub fn name_read<'a, A: Allocator, B: Allocator>(
    alloc: B,
    tree: &'a Tree<A>,
    property: usize,
) -> Result<Option<CowStr<'a, B>>, AllocError>
    requires { property < length tree.now.nodes }
    ensures read { IfOk result (ReadsAs (HasName tree.now.nodes property)) }
    ensures memory { OnErr result (NameIsEscaped tree.now.nodes property) }
{
    match name_of(tree, property) {
        Some(leaf) => name_in(alloc, tree.kind(leaf)),
        None => Ok(None),
    }
}

/// A property's name with its escapes resolved, or none where it has no name that decodes.
pub fn decoded_name<A: Allocator, B: Allocator + Copy>(
    alloc: B,
    tree: &Tree<A>,
    property: usize,
) -> Result<Option<String<B>>, AllocError>
    requires { property < length tree.now.nodes }
    ensures name { IfOk result (NameReads (HasName tree.now.nodes property)) }
{
    match name_read(alloc, tree, property)? {
        Some(name) => Ok(Some(name.into_owned(alloc)?)),
        None => Ok(None),
    }
}

// Whether a property has this name.
fn has_name<A: Allocator, B: Allocator>(
    alloc: B,
    tree: &Tree<A>,
    property: usize,
    name: &str,
) -> Result<bool, AllocError>
    requires { property < length tree.now.nodes }
    ensures has { IfOk result (λ b. Decides b (HasName tree.now.nodes property (chars name.now))) }
    ensures memory { OnErr result (NameIsEscaped tree.now.nodes property) }
{
    match name_read(alloc, tree, property)? {
        Some(read) => Ok(read.as_str() == name),
        None => Ok(false),
    }
}

/// Whether a node is a property that has this name. Memory is wanted only for a name with a backslash.
pub fn is_named<A: Allocator, B: Allocator>(
    alloc: B,
    tree: &Tree<A>,
    node: usize,
    name: &str,
) -> Result<bool, AllocError>
    requires { node < length tree.now.nodes }
    ensures named { IfOk result (λ b. Decides b (IsNamed tree.now.nodes (chars name.now) node)) }
    ensures memory { OnErr result (HasEscapedName tree.now.nodes node) }
{
    match tree.kind(node) {
        Kind::Property(_) => has_name(alloc, tree, node, name),
        _ => Ok(false),
    }
}

/// The first property of a name among the children of an object. A name in quotes is decoded, and
/// one that does not decode is passed over; a word is its text. Memory is wanted only for a name with a
/// backslash.
pub fn get<A: Allocator, B: Allocator + Copy>(
    alloc: B,
    tree: &Tree<A>,
    object: usize,
    name: &str,
) -> Result<Option<usize>, AllocError>
    requires { object < length tree.now.nodes }
    ensures found { IfOk result (FirstInObject tree.now.nodes object (chars name.now)) }
    ensures in_tree { IfOk result (IsThere tree.now.nodes) }
    ensures memory { OnErr result (HoldsEscapedName tree.now.nodes object) }
{
    for child in children_from(tree, object, 0) {
        if is_named(alloc, tree, child, name)? {
            return Ok(Some(child));
        }
    }
    Ok(None)
}
