//! Lists of edits.

ghost use Rattle.std.specs.Prelude.{◌≡◌, IfErr, OnErr, OnOk, true};
ghost use Rattle.jsonc_cst.specs.Document.{nodes_of};
ghost use Rattle.jsonc_run.specs.Edits.{operation_of, rearrange, EditStep, Sorting};
ghost use Rattle.jsonc_run.specs.Refusals.{IsLeft, FailsWith};
ghost use Rattle.jsonc_parser.specs.Lists.{RunOk, RunErr, RunUnsortedOk, RunUnsortedErr, IsRunStep, IsSorting, MayBeAsked};

use jsonc_cst::cst::{CstNode, CstRootNode, EditError, node_at};
use jsonc_cst::sorting::sort_container;
use jsonc_cst::typed::DocumentArg;
use jsonc_run::{Edit, find_container};
use std::alloc::Allocator;
use std::cmp::Ordering;

// Sorts the array or object at a path.
fn sort_at<A: Allocator + Copy, D: DocumentArg<A>, C: Fn(&D, CstNode, CstNode) -> Ordering>(
    doc: &mut CstRootNode<A>,
    path: &[usize],
    pin: bool,
    groups: bool,
    compare: &C,
) -> Result<(), EditError>
    requires callable { MayBeAsked C.Fn compare.now D.same }
    ensures made { OnOk result ((s : Sorting) × IsSorting C.Fn compare.now D.same doc.old path.now pin groups s
        × EditStep (nodes_of doc.old) (rearrange true path.now s.headers s.order) (nodes_of doc.new)) }
    ensures error { (s : Sorting)
        → IfErr result (FailsWith (nodes_of doc.old) (rearrange true path.now s.headers s.order)) }
    ensures left { (s : Sorting)
        → OnErr result (IsLeft (nodes_of doc.old) (rearrange true path.now s.headers s.order) (nodes_of doc.new)) }
{
    let tree = doc.tree();
    let Some(number) = find_container(tree, path) else {
        return Err(EditError::NoSuchPlace);
    };
    let container = node_at(tree, number);
    sort_container(doc, container, pin, groups, compare)
}

// Makes an edit.
fn make<A: Allocator + Copy, D: DocumentArg<A>, C: Fn(&D, CstNode, CstNode) -> Ordering>(
    doc: &mut CstRootNode<A>,
    edit: &Edit<A>,
    compare: &C,
) -> Result<(), EditError>
    requires callable { MayBeAsked C.Fn compare.now D.same }
    ensures made { OnOk result (IsRunStep C.Fn compare.now D.same doc.old edit.now doc.new) }
    ensures error { (s : Sorting) → IfErr result (FailsWith (nodes_of doc.old) (operation_of s edit.now)) }
    ensures left { (s : Sorting)
        → OnErr result (IsLeft (nodes_of doc.old) (operation_of s edit.now) (nodes_of doc.new)) }
{
    match edit {
        Edit::Sort(path, pin, groups) => sort_at(doc, path, *pin, *groups, compare),
        _ => doc.make(edit),
    }
}

// Makes edits in order.
fn make_all<A: Allocator + Copy, D: DocumentArg<A>, C: Fn(&D, CstNode, CstNode) -> Ordering>(
    doc: &mut CstRootNode<A>,
    edits: &[Edit<A>],
    compare: &C,
) -> Result<(), (usize, EditError)>
    requires callable { MayBeAsked C.Fn compare.now D.same }
    ensures made { OnOk result (RunOk C.Fn compare.now D.same doc.old edits.now doc.new) }
    ensures stopped { IfErr result
        (λ e. RunErr C.Fn compare.now D.same doc.old edits.now e.0 e.1 doc.new) }
{
    for (count, edit) in edits.iter().enumerate() {
        if let Err(stop) = make(doc, edit, compare) {
            return Err((count, stop));
        }
    }
    Ok(())
}

/// Makes edits in order, each in the document that the ones before it made.
///
/// The path of an edit, or its number of a comment, is one of that document. `compare` says how the
/// elements or properties are ordered that an edit sorts; it is asked with the document as it
/// is before that edit. [`Edit`] says what each edit does.
///
/// On an error the answer is how many edits were made, each whole, and why the next was not, and
/// the document is as those left it; where the next was to set trailing commas, those of some
/// arrays and objects may have been set. The error is an allocation failure, or there is no place:
/// the path leads to nothing that the edit can be made at, or there is no such comment. Only edits
/// of single leaves can bring about more: an array or object that an entry was to be removed from,
/// or that was to be put on several lines, may lack a bracket then, and a property its name or
/// colon. In a sound document there is no place exactly where the document's value has at the path
/// nothing that the edit needs, or the document no comment of that number. A comment that is to be
/// inserted is refused too where its text is not one comment, or where it ends with its line and
/// something follows the entry there. A value that would be nested deeper in the document than
/// [`CstRootNode::parse`] accepts is refused with [`EditError::NestingDepthExceeded`], so a document
/// that can be parsed stays one that can.
///
/// If the document is sound, as a parsed one is, and stays so under the edits of single leaves,
/// then its text after the edits is a document again, whose value is what the same edits make of
/// the old value, under options that allow trailing commas where an edit was to set some. Where a
/// comment is inserted, the options have to allow comments. All leaves around what is replaced or
/// removed stay, comments among them; of the literals and comments of the text, as they are
/// written, each edit changes what it names alone.
pub fn run<A: Allocator + Copy, D: DocumentArg<A>, C: Fn(&D, CstNode, CstNode) -> Ordering>(
    doc: &mut CstRootNode<A>,
    edits: Vec<Edit<A>, A>,
    compare: &C,
) -> Result<(), (usize, EditError)>
    requires callable { MayBeAsked C.Fn compare.now D.same }
    ensures made { OnOk result (RunOk C.Fn compare.now D.same doc.old edits.items doc.new) }
    ensures stopped { IfErr result
        (λ e. RunErr C.Fn compare.now D.same doc.old edits.items e.0 e.1 doc.new) }
{
    make_all(doc, &edits, compare)
}

/// Makes edits in order, without a comparison.
///
/// It does what [`run`] does, and answers as it does. It is for edits that do not sort: in which
/// order an edit that sorts puts what it sorts is not said. [`run`] takes a comparison.
pub fn run_unsorted<A: Allocator + Copy>(
    doc: &mut CstRootNode<A>,
    edits: Vec<Edit<A>, A>,
) -> Result<(), (usize, EditError)>
    ensures made { OnOk result (RunUnsortedOk doc.old edits.items doc.new) }
    ensures stopped { IfErr result (λ e. RunUnsortedErr doc.old edits.items e.0 e.1 doc.new) }
{
    let equal = |_: &CstRootNode<A>, _: CstNode, _: CstNode| Ordering::Equal;
    make_all(doc, &edits, &equal)
}
