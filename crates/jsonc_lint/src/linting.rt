//! What is found in a text.

ghost use Rattle.std.specs.Prelude.{◌≡◌, ◌<◌, length, IfOk, chars};
ghost use Rattle.jsonc_text.specs.OptionsOf.{parse_options};
ghost use Rattle.jsonc_tree.specs.Order.{in_order};
ghost use Rattle.jsonc_tree.specs.Tree.{IsOver};
ghost use Rattle.jsonc_cst.specs.Document.{nodes_of};
ghost use Rattle.jsonc_cst.specs.Ranges.{IsRangeOf};
ghost use Rattle.jsonc_lint.specs.Findings.{AreFindings};
ghost use Rattle.jsonc_lint.specs.Linted.{IsFaultAlone, IsLinted, TellsFault};
ghost use Rattle.jsonc_lint.specs.SeenNames.{AreKnown};
ghost use Rattle.jsonc_lint.specs.Steps.{IsFound, PrintsText};

use crate::finding::{Finding, FindingKind, Findings};
use crate::names::Names;
use crate::nodes::{kind_at, position};
use crate::rules::Rules;
use jsonc_parser::common::Range;
use jsonc_parser::cst::CstRootNode;
use jsonc_parser::errors::{ParseError, ParseErrorKind};
use jsonc_parser::{LineIndex, ParseOptions};
use jsonc_tree::Tree;
use std::alloc::{AllocError, Allocator};
use std::collections::HashMap;

// What is found at a node, with its place.
fn found_at<A: Allocator + Copy>(
    alloc: A,
    tree: &Tree<A>,
    lines: &LineIndex<A>,
    rules: Rules,
    node: usize,
    range: Option<Range>,
    names: &mut Names<A>,
) -> Result<Option<Finding<A>>, AllocError>
    requires in_tree { node < length tree.now.nodes }
    requires attached { IsOver tree.now.nodes 0 node }
    requires range { IsRangeOf tree.now.nodes node range }
    requires text { PrintsText tree.now.nodes lines.now }
    requires names { AreKnown tree.now.nodes names.old }
    ensures { IfOk result (IsFound rules tree.now.nodes (chars lines.now) node names.old names.new) }
{
    let Some(range) = range else { unreachable!() };
    let Some(kind) = kind_at(alloc, tree, lines, rules, node, range.start, names)? else {
        return Ok(None);
    };
    let at = position(lines, range.start);
    Ok(Some(Finding {
        kind,
        range,
        line: at.line,
        column: at.column,
    }))
}

// What is found in the document of a text.
fn findings_of<A: Allocator + Copy>(
    alloc: A,
    doc: &CstRootNode<A>,
    text: &str,
    rules: Rules,
) -> Result<Findings<A>, AllocError>
    requires { PrintsText (nodes_of doc.now) text.now }
    ensures { IfOk result (λ found. AreFindings rules (nodes_of doc.now) (chars text.now)
        (in_order (nodes_of doc.now) 0) found.items) }
{
    let tree = doc.tree();
    let lines = LineIndex::new(alloc, text)?;
    let mut names = HashMap::new(alloc);
    let mut findings = Vec::new(alloc);
    for (node, range) in doc.descendants_with_ranges(doc.root().into()) {
        let number = node.number();
        if let Some(finding) = found_at(alloc, tree, &lines, rules, number, range, &mut names)? {
            findings.push(finding)?;
        }
    }
    Ok(findings)
}

/// The finding that tells a fault.
pub fn fault_finding<A: Allocator>(fault: &ParseError) -> Finding<A>
    ensures { TellsFault fault.now result }
{
    Finding {
        kind: FindingKind::Fault(*fault.kind()),
        range: fault.range(),
        line: fault.line_display(),
        column: fault.column_display(),
    }
}

// The fault of a text, alone.
fn fault_alone<A: Allocator>(alloc: A, fault: &ParseError) -> Result<Findings<A>, AllocError>
    ensures { IfOk result (IsFaultAlone fault.now) }
{
    let mut findings = Vec::new(alloc);
    findings.push(fault_finding(fault))?;
    Ok(findings)
}

/// Finds what the rules say of a text, in order of place.
///
/// Where the text is no document under these options, its fault is found alone, as
/// [`check_document`](jsonc_parser::check_document) answers it. Else each property whose name an earlier property of
/// the same object has is found, names compared with their escapes decoded; each comment that has `TODO` in it; and,
/// if the rules ask for them, each comma after which only blanks and comments are before a closing bracket. The
/// error is an allocation failure. It takes time in proportion to the text.
pub fn lint<A: Allocator + Copy>(
    alloc: A,
    text: &str,
    options: &ParseOptions,
    rules: Rules,
) -> Result<Findings<A>, AllocError>
    ensures { IfOk result (λ found. IsLinted (parse_options options.now) rules text.now found.items) }
{
    match CstRootNode::parse(alloc, text, options) {
        Ok(doc) => findings_of(alloc, &doc, text, rules),
        Err(fault) => match fault.kind() {
            ParseErrorKind::OutOfMemory => Err(AllocError),
            _ => fault_alone(alloc, &fault),
        },
    }
}
