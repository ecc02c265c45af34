//! Names that an object has twice. They should be unique there: RFC 8259, section 4.

ghost use Rattle.std.specs.Prelude.{◌≡◌, ◌<◌, [], chars, length, map, string_bytes, IfErr, IfOk, IsTrue, OnOk};
ghost use Rattle.std.specs.Bool.{Decides};
ghost use Rattle.std.specs.List.{All};
ghost use Rattle.jsonc_tree.specs.Tree.{children_at};
ghost use Rattle.jsonc_layout.specs.nodes.Names.{IsNamed, NameReads, ReadsAs};
ghost use Rattle.jsonc_cst.specs.Document.{HasNode};
ghost use Rattle.jsonc_cst.specs.Nodes.{object_node, object_prop_node};
ghost use Rattle.jsonc_cst.specs.Readings.{property_under};
ghost use Rattle.jsonc_cst.specs.RepeatedNames.{AreRepeated, AreRepeatedIn, HasNamed, HasText, IsNameJoined, IsPassed, IsTextJoined, RepeatsOneOf};

use super::node::{CstObject, CstObjectProp};
use super::{CstRootNode, EditError};
use arrayvec::ArrayVec;
use indexmap::IndexSet;
use jsonc_layout::nodes::{decoded_name, is_named, name_read};
use jsonc_tree::{Kind, Tree};
use std::alloc::{AllocError, Allocator};
use std::borrow::CowStr;
use std::hash::{BuildHasherDefault, FoldHasher};

// The names that were seen, each once.
type Names<B> = IndexSet<String<B>, BuildHasherDefault<FoldHasher>, B>;

/// How many names of an object are compared one by one.
const FEW: usize = 16;

// Properties that were passed, each of a name of its own.
type Passed = ArrayVec<usize, FEW>;

// The name of a node, or none where it is no property with a name that decodes. Memory is wanted only for a name with a
// backslash.
fn name_lent<'a, A: Allocator, B: Allocator>(
    alloc: B,
    tree: &'a Tree<A>,
    node: usize,
) -> Result<Option<CowStr<'a, B>>, AllocError>
    requires { node < length tree.now.nodes }
    ensures { IfOk result (ReadsAs (λ v. IsNamed tree.now.nodes v node)) }
{
    match tree.kind(node) {
        Kind::Property(_) => name_read(alloc, tree, node),
        _ => Ok(None),
    }
}

// Whether it is seen without memory that a node does not have a name.
fn lacks_name<A: Allocator, B: Allocator>(alloc: B, tree: &Tree<A>, node: usize, name: &str) -> bool
    requires { node < length tree.now.nodes }
    ensures { IsTrue result → IsNamed tree.now.nodes (chars name.now) node → ⊥ }
{
    match is_named(alloc, tree, node, name) {
        Ok(named) => !named,
        Err(_) => false,
    }
}

// Whether it is seen without memory that none of these nodes has a name.
fn all_lack_name<A: Allocator, B: Allocator + Copy>(
    alloc: B,
    tree: &Tree<A>,
    nodes: &[usize],
    name: &str,
) -> bool
    requires { All (λ n. n < length tree.now.nodes) nodes.now }
    ensures { IsTrue result → All (λ n. IsNamed tree.now.nodes (chars name.now) n → ⊥) nodes.now }
{
    for node in nodes {
        if !lacks_name(alloc, tree, *node, name) {
            return false;
        }
    }
    true
}

// Adds a property of this name to those passed, and answers whether it is seen without memory that it is new among them,
// which are few.
fn add_named<A: Allocator, B: Allocator + Copy>(
    alloc: B,
    tree: &Tree<A>,
    node: usize,
    name: &str,
    passed: &mut Passed,
) -> bool
    requires node { node < length tree.now.nodes }
    requires named { IsNamed tree.now.nodes (chars name.now) node }
    requires passed { All (λ n. n < length tree.now.nodes) passed.old.items }
    ensures apart { IsTrue result → IsPassed tree.now.nodes passed.old.items node passed.new.items }
    ensures in_tree { All (λ n. n < length tree.now.nodes) passed.new.items }
{
    if !all_lack_name(alloc, tree, passed, name) {
        return false;
    }
    match passed.try_push(node) {
        Ok(()) => true,
        Err(_) => false,
    }
}

// The same of any node, of which one without a name is not added.
fn add_node<A: Allocator, B: Allocator + Copy>(
    alloc: B,
    tree: &Tree<A>,
    node: usize,
    passed: &mut Passed,
) -> bool
    requires node { node < length tree.now.nodes }
    requires passed { All (λ n. n < length tree.now.nodes) passed.old.items }
    ensures apart { IsTrue result → IsPassed tree.now.nodes passed.old.items node passed.new.items }
    ensures in_tree { All (λ n. n < length tree.now.nodes) passed.new.items }
{
    match name_lent(alloc, tree, node) {
        Ok(Some(CowStr::Borrowed(name))) => add_named(alloc, tree, node, name, passed),
        Ok(None) => true,
        _ => false,
    }
}

// Whether it is seen without memory that no property of an object has the name of an earlier one: these are few.
fn are_few_apart<A: Allocator, B: Allocator + Copy>(alloc: B, tree: &Tree<A>, object: usize) -> bool
    requires { object < length tree.now.nodes }
    ensures { IsTrue result → AreRepeated tree.now.nodes (children_at tree.now.nodes object) [] }
{
    let mut passed = Passed::new();
    for child in tree.children(object) {
        if !add_node(alloc, tree, child, &mut passed) {
            return false;
        }
    }
    true
}

// The name of a node, decoded, or none where it is no property with a name that decodes.
fn name_at<A: Allocator, B: Allocator + Copy>(
    alloc: B,
    tree: &Tree<A>,
    node: usize,
) -> Result<Option<String<B>>, AllocError>
    requires { node < length tree.now.nodes }
    ensures { IfOk result (NameReads (λ v. IsNamed tree.now.nodes v node)) }
{
    match tree.kind(node) {
        Kind::Property(_) => decoded_name(alloc, tree, node),
        _ => Ok(None),
    }
}

// Whether a name was seen before. It joins those seen.
fn put_name<B: Allocator>(seen: &mut Names<B>, name: String<B>) -> Result<bool, AllocError>
    ensures there { IfOk result (λ b. Decides b (HasText seen.old.keys (chars (string_bytes name)))) }
    ensures joined { OnOk result (IsTextJoined seen.old.keys (chars (string_bytes name)) seen.new.keys) }
{
    let Ok(added) = seen.insert(name) else {
        return Err(AllocError);
    };
    Ok(!added)
}

// Whether a node has one of the names seen. Its name joins them.
fn repeats_name<A: Allocator, B: Allocator + Copy>(
    alloc: B,
    tree: &Tree<A>,
    node: usize,
    seen: &mut Names<B>,
) -> Result<bool, AllocError>
    requires { node < length tree.now.nodes }
    ensures repeats { IfOk result (λ b. Decides b (RepeatsOneOf tree.now.nodes seen.old.keys node)) }
    ensures joined { OnOk result (IsNameJoined tree.now.nodes seen.old.keys node seen.new.keys) }
{
    match name_at(alloc, tree, node)? {
        Some(name) => put_name(seen, name),
        None => Ok(false),
    }
}

// Each property of an object whose name an earlier one has, in order.
fn repeated_names<A: Allocator, B: Allocator + Copy>(
    alloc: B,
    tree: &Tree<A>,
    object: usize,
) -> Result<Vec<usize, B>, AllocError>
    requires { object < length tree.now.nodes }
    ensures repeated { IfOk result (λ found. AreRepeated tree.now.nodes (children_at tree.now.nodes object) found.items) }
{
    let mut found = Vec::new(alloc);
    if are_few_apart(alloc, tree, object) {
        return Ok(found);
    }
    let mut seen = IndexSet::new(alloc);
    for child in tree.children(object) {
        if repeats_name(alloc, tree, child, &mut seen)? {
            found.push(child)?;
        }
    }
    Ok(found)
}

// The properties of these numbers, in order.
fn properties_at<A: Allocator>(
    alloc: A,
    numbers: &[usize],
) -> Result<Vec<CstObjectProp, A>, AllocError>
    ensures { IfOk result (λ v. v.items ≡ map property_under numbers.now) }
{
    numbers
        .iter()
        .map(|number| CstObjectProp { number: *number })
        .collect(alloc)
}

impl CstObject {
    /// Each of its properties whose name an earlier one has, in order.
    ///
    /// Names are compared with their escapes decoded, and a name that does not decode is passed over.
    /// In `{"a": 1, "b": 2, "\u0061": 3}` it is the third property.
    pub fn repeated_names<A: Allocator + Copy>(
        self,
        doc: &CstRootNode<A>,
    ) -> Result<Vec<CstObjectProp, A>, EditError>
        requires { HasNode doc.now (object_node self) }
        ensures repeated { IfOk result (λ v. AreRepeatedIn doc.now self v.items) }
        ensures in_document { IfOk result (λ v. All (λ p. HasNode doc.now (object_prop_node p)) v.items) }
        ensures memory { IfErr result (λ e. e ≡ EditError.OutOfMemory) }
    {
        let Ok(numbers) = repeated_names(doc.alloc, &doc.tree, self.number) else {
            return Err(EditError::OutOfMemory);
        };
        let Ok(properties) = properties_at(doc.alloc, &numbers) else {
            return Err(EditError::OutOfMemory);
        };
        Ok(properties)
    }
}
