//! What stands before the elements of an array or object, as rules of headers and groups ask for it.

ghost use Rattle.std.specs.Prelude.{◌≡◌, ◌<◌, ◌∷◌, ◌++◌, [], IfOk, IsTrue, OnOk, filter, length, map};
ghost use Rattle.std.specs.List.{flat_map, list_any};
ghost use Rattle.jsonc_tree.specs.Tree.{content_at};
ghost use Rattle.jsonc_edit.specs.remove.Removed.{has_brackets};
ghost use Rattle.jsonc_sort.specs.Above.{above, all_comments_above, comments_above, lead_read, leads, leads_read};
ghost use Rattle.jsonc_sort.specs.Leads.{below, comments, is_comment_at};
ghost use Rattle.jsonc_sort.specs.Parts.{is_newline_at};

use crate::leads::{comments, has_blank_line, own_lead};
use crate::parts::up_to_spaces;
use crate::places::entries;
use jsonc_edit::multiline::has_brackets;
use jsonc_layout::nodes::{children, is_comment};
use jsonc_layout::rows::{has_newline, line_length};
use jsonc_tree::Tree;
use std::alloc::{AllocError, Allocator};

/// What stands before an element.
#[derive(Clone, Copy)]
pub struct LeadRead {
    /// Whether a blank line does.
    pub blank_line: bool,
    /// How many comments do, after the end of a line.
    pub comments: usize,
    /// How many of these are a header: those above the last blank line.
    pub header: usize,
}

// How many comments stand in a lead after the end of a line that is there.
fn comments_behind<A: Allocator>(tree: &Tree<A>, lead: &[usize]) -> usize
    requires { IsTrue (list_any (is_newline_at (content_at tree.now.nodes)) lead.now) }
    ensures { result ≡ comments (content_at tree.now.nodes) (above (content_at tree.now.nodes) lead.now) }
{
    let first = line_length(tree, lead) + 1;
    let rest = &lead[first..];
    comments(tree, &rest[..up_to_spaces(tree, rest)])
}

// How many comments of a lead in which a line ends belong to the element.
fn own_comments<A: Allocator>(tree: &Tree<A>, lead: &[usize]) -> usize
    requires { IsTrue (list_any (is_newline_at (content_at tree.now.nodes)) lead.now) }
    ensures { result ≡ comments (content_at tree.now.nodes) (below (content_at tree.now.nodes) lead.now) }
{
    comments(tree, &lead[own_lead(tree, lead)..])
}

// What a lead tells.
fn read_lead<A: Allocator>(tree: &Tree<A>, lead: &[usize]) -> LeadRead
    ensures { result ≡ lead_read (content_at tree.now.nodes) lead.now }
{
    let blank_line = has_blank_line(tree, lead);
    if has_newline(tree, lead) {
        let comments = comments_behind(tree, lead);
        return LeadRead {
            blank_line,
            comments,
            header: comments.saturating_sub(own_comments(tree, lead)),
        };
    }
    LeadRead {
        blank_line,
        comments: 0,
        header: 0,
    }
}

// What the leads of a row tell, element by element.
fn read_row<A: Allocator + Copy>(
    alloc: A,
    tree: &Tree<A>,
    row: &[usize],
) -> Result<Vec<LeadRead, A>, AllocError>
    ensures { IfOk result
        (λ v. v.items ≡ map (lead_read (content_at tree.now.nodes)) (leads (content_at tree.now.nodes) row.now)) }
{
    let entries = entries(alloc, tree, row, &[], false)?;
    let mut told = Vec::new(alloc);
    for entry in &entries {
        told.push(read_lead(tree, &row[entry.lead..entry.element]))?;
    }
    Ok(told)
}

// Puts a node after others where it is a comment.
fn push_comment<A: Allocator>(
    tree: &Tree<A>,
    found: &mut Vec<usize, A>,
    node: usize,
) -> Result<(), AllocError>
    ensures { OnOk result
        (found.new.items ≡ found.old.items ++ filter (is_comment_at (content_at tree.now.nodes)) (node ∷ [])) }
{
    if !is_comment(tree, node) {
        return Ok(());
    }
    found.push(node)?;
    Ok(())
}

// The same of nodes.
fn push_comments<A: Allocator>(
    tree: &Tree<A>,
    found: &mut Vec<usize, A>,
    nodes: &[usize],
) -> Result<(), AllocError>
    ensures { OnOk result
        (found.new.items ≡ found.old.items ++ filter (is_comment_at (content_at tree.now.nodes)) nodes.now) }
{
    for node in nodes {
        push_comment(tree, found, *node)?;
    }
    Ok(())
}

// Puts the comments above an element after others.
fn push_above<A: Allocator>(
    tree: &Tree<A>,
    found: &mut Vec<usize, A>,
    lead: &[usize],
) -> Result<(), AllocError>
    ensures { OnOk result
        (found.new.items ≡ found.old.items ++ comments_above (content_at tree.now.nodes) lead.now) }
{
    if !has_newline(tree, lead) {
        return Ok(());
    }
    let first = line_length(tree, lead) + 1;
    let rest = &lead[first..];
    push_comments(tree, found, &rest[..up_to_spaces(tree, rest)])?;
    Ok(())
}

// The comments above the elements of a row.
fn comments_in<A: Allocator + Copy>(
    alloc: A,
    tree: &Tree<A>,
    row: &[usize],
) -> Result<Vec<usize, A>, AllocError>
    ensures { IfOk result (λ v. v.items
        ≡ flat_map (comments_above (content_at tree.now.nodes)) (leads (content_at tree.now.nodes) row.now)) }
{
    let entries = entries(alloc, tree, row, &[], false)?;
    let mut found = Vec::new(alloc);
    for entry in &entries {
        push_above(tree, &mut found, &row[entry.lead..entry.element])?;
    }
    Ok(found)
}

/// The comments above the elements of an array or object, one element's after another's: so many of each as
/// [`read_leads`] tells.
pub fn comments_above<A: Allocator + Copy>(
    alloc: A,
    tree: &Tree<A>,
    container: usize,
) -> Result<Vec<usize, A>, AllocError>
    requires { container < length tree.now.nodes }
    ensures comments { IfOk result (λ v. v.items ≡ all_comments_above tree.now.nodes container) }
{
    if !has_brackets(tree, container) {
        return Ok(Vec::new(alloc));
    }
    let children = children(alloc, tree, container)?;
    let found = comments_in(alloc, tree, &children[1..children.len() - 1])?;
    Ok(found)
}

/// What stands before each element of an array or object, in order, for rules of headers and groups: where
/// groups are kept, a blank line begins one, and of the comments as many may be pinned.
///
/// Where a bracket is missing, nothing is told, and nothing would move.
pub fn read_leads<A: Allocator + Copy>(
    alloc: A,
    tree: &Tree<A>,
    container: usize,
) -> Result<Vec<LeadRead, A>, AllocError>
    requires { container < length tree.now.nodes }
    ensures leads { IfOk result (λ v. v.items ≡ leads_read tree.now.nodes container) }
{
    if !has_brackets(tree, container) {
        return Ok(Vec::new(alloc));
    }
    let children = children(alloc, tree, container)?;
    let told = read_row(alloc, tree, &children[1..children.len() - 1])?;
    Ok(told)
}
