//! What is found at each node of a document.

ghost use Rattle.std.specs.Prelude.{◌≡◌, ◌<◌, length, chars, IfOk, IsCharBoundary};
ghost use Rattle.std.specs.Bool.{Decides};
ghost use Rattle.jsonc_text.specs.Places.{LineColumn};
ghost use Rattle.jsonc_tree.specs.Content.{Content};
ghost use Rattle.jsonc_tree.specs.Tree.{content_at};
ghost use Rattle.jsonc_cst.specs.Ranges.{IsBefore};
ghost use Rattle.jsonc_lint.specs.declared.rules.Rules.{Rules};
ghost use Rattle.jsonc_lint.specs.Findings.{after_trivia, closes, is_closing, IsTrailingComma};
ghost use Rattle.jsonc_lint.specs.SeenNames.{AreKnown};
ghost use Rattle.jsonc_lint.specs.Steps.{IsCommentKind, IsKindFound, IsTokenKind, PrintsText};

use crate::finding::{FindingKind, FirstProperty};
use crate::names::{Names, repeated_name};
use crate::rules::Rules;
use jsonc_layout::nodes::{is_comma, is_trivia, next_siblings};
use jsonc_parser::{LineAndColumn, LineIndex};
use jsonc_tree::{Kind, Tree};
use std::alloc::{AllocError, Allocator};

// The sibling that is next to a node after all blanks, ends of lines and comments.
fn sibling_after_trivia<A: Allocator>(tree: &Tree<A>, node: usize) -> Option<usize>
    requires { node < length tree.now.nodes }
    ensures { result ≡ after_trivia tree.now.nodes node }
{
    next_siblings(tree, node).find(|sibling| !is_trivia(tree, *sibling))
}

// Whether a node is a closing bracket.
fn is_closing_bracket<A: Allocator>(tree: &Tree<A>, node: usize) -> bool
    ensures { result ≡ is_closing (content_at tree.now.nodes node) }
{
    if node >= tree.len() {
        return false;
    }
    match tree.kind(node) {
        Kind::Token(c) => (c.get() == ']') | (c.get() == '}'),
        _ => false,
    }
}

// Whether a node is a comma before a closing bracket.
fn is_trailing_comma<A: Allocator>(tree: &Tree<A>, node: usize) -> bool
    requires { node < length tree.now.nodes }
    ensures { Decides result (IsTrailingComma tree.now.nodes node) }
{
    if !is_comma(tree, node) {
        return false;
    }
    match sibling_after_trivia(tree, node) {
        Some(sibling) => is_closing_bracket(tree, sibling),
        None => false,
    }
}

/// The line and the column of a place.
pub(crate) fn position<A: Allocator>(lines: &LineIndex<A>, place: usize) -> LineAndColumn
    requires { IsCharBoundary lines.now place }
    ensures { LineColumn (chars lines.now) place result.line result.column }
{
    match lines.line_and_column(place) {
        Some(at) => at,
        None => unreachable!(),
    }
}

// What is found at a property that begins at a place. Its name joins the names that were passed.
fn property_kind<A: Allocator + Copy>(
    alloc: A,
    tree: &Tree<A>,
    lines: &LineIndex<A>,
    property: usize,
    start: usize,
    names: &mut Names<A>,
) -> Result<Option<FindingKind<A>>, AllocError>
    requires in_tree { property < length tree.now.nodes }
    requires property { content_at tree.now.nodes property ≡ Content.property }
    requires start { IsBefore tree.now.nodes property start }
    requires text { PrintsText tree.now.nodes lines.now }
    requires names { AreKnown tree.now.nodes names.old }
    ensures { (rules : Rules) → IfOk result (IsKindFound rules tree.now.nodes (chars lines.now) property names.old names.new) }
{
    let Some(repeat) = repeated_name(alloc, tree, property, start, names)? else {
        return Ok(None);
    };
    let (name, first) = repeat;
    let at = position(lines, first);
    let first = FirstProperty {
        start: first,
        line: at.line,
        column: at.column,
    };
    Ok(Some(FindingKind::RepeatedName(name, first)))
}

// What is found at a comment of this text.
fn comment_kind<A: Allocator>(text: &str) -> Option<FindingKind<A>>
    ensures { IsCommentKind text.now result }
{
    if text.contains("TODO") {
        return Some(FindingKind::Todo);
    }
    None
}

// What is found at a comma, a bracket or a colon.
fn token_kind<A: Allocator>(tree: &Tree<A>, rules: Rules, token: usize) -> Option<FindingKind<A>>
    requires { token < length tree.now.nodes }
    ensures { IsTokenKind rules tree.now.nodes token result }
{
    if !rules.trailing_commas {
        return None;
    }
    if is_trailing_comma(tree, token) {
        return Some(FindingKind::TrailingComma);
    }
    None
}

/// What is found at a node that begins at a place. The name of a property joins the names that were passed.
pub(crate) fn kind_at<A: Allocator + Copy>(
    alloc: A,
    tree: &Tree<A>,
    lines: &LineIndex<A>,
    rules: Rules,
    node: usize,
    start: usize,
    names: &mut Names<A>,
) -> Result<Option<FindingKind<A>>, AllocError>
    requires in_tree { node < length tree.now.nodes }
    requires start { IsBefore tree.now.nodes node start }
    requires text { PrintsText tree.now.nodes lines.now }
    requires names { AreKnown tree.now.nodes names.old }
    ensures { IfOk result (IsKindFound rules tree.now.nodes (chars lines.now) node names.old names.new) }
{
    match tree.kind(node) {
        Kind::Property(_) => property_kind(alloc, tree, lines, node, start, names),
        Kind::Comment(text) => Ok(comment_kind(text.as_str())),
        Kind::CommentPart(text) => Ok(comment_kind(text.as_str())),
        Kind::Token(_) => Ok(token_kind(tree, rules, node)),
        _ => Ok(None),
    }
}
