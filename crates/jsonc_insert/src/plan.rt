//! Where an element is put into a row, and what is written beside it.

ghost use Rattle.std.specs.Prelude.{◌≡◌, ◌≤◌, ◌<◌, Bool, None, false, is_some, length, slice_get, true, ℕ};
ghost use Rattle.jsonc_tree.specs.Tree.{children_at};
ghost use Rattle.jsonc_insert.specs.Planned.{before_next, behind_comma, comma_comes, comma_wanted, element_before};
ghost use Rattle.jsonc_insert.specs.Planned.{elements, has_brackets, has_comma, line_ends};
ghost use Rattle.jsonc_insert.specs.Planned.{line_if, line_unless, parting, past_comments, place_in, plan_alone, plan_behind};
ghost use Rattle.jsonc_insert.specs.Planned.{plan_by, plan_first, planned, through_comments, trivia};

use jsonc_layout::nodes::{is_comma, is_element, is_newline, is_token, is_trivia};
use jsonc_layout::rows::{all_inline_trivia, last_blanks, last_spaces, line_length};
use jsonc_tree::Tree;
use std::alloc::Allocator;

/// What stands between two nodes: nothing, a space, or the end of a line and the next one's indent.
#[derive(Clone, Copy)]
pub(crate) enum Gap {
    Nothing,
    Space,
    Line,
}

/// Where a new element is inserted into a row, and what is inserted with it.
#[derive(Clone, Copy)]
pub(crate) struct Plan {
    /// Where a comma is inserted after the element before it, if one is wanted there.
    pub(crate) comma: Option<usize>,
    /// Where the element is inserted, counted without that comma.
    pub(crate) place: usize,
    /// What is inserted before it.
    pub(crate) before: Gap,
    /// Whether a comma is inserted after it.
    pub(crate) comma_behind: bool,
    /// What is inserted after that.
    pub(crate) behind: Gap,
}

fn line_if(several: bool) -> Gap
    ensures { result ≡ line_if several }
{
    if several { Gap::Line } else { Gap::Nothing }
}

fn parting(several: bool) -> Gap
    ensures { result ≡ parting several }
{
    if several { Gap::Line } else { Gap::Space }
}

// Whether a line ends in the trivia that a row begins with.
fn line_ends<A: Allocator>(tree: &Tree<A>, after: &[usize]) -> bool
    ensures { result ≡ line_ends tree.now.nodes after.now }
{
    after
        .iter()
        .take_while(|node| is_trivia(tree, **node))
        .any(|node| is_newline(tree, *node))
}

// The end of an element's own line, unless a line ends there already.
fn line_unless<A: Allocator>(tree: &Tree<A>, several: bool, after: &[usize]) -> Gap
    ensures { result ≡ line_unless tree.now.nodes several after.now }
{
    line_if(several && !line_ends(tree, after))
}

// What parts a comma from the element that follows.
fn before_next<A: Allocator>(tree: &Tree<A>, several: bool, after: &[usize]) -> Gap
    ensures { result ≡ before_next tree.now.nodes several after.now }
{
    if several {
        return line_unless(tree, several, after);
    }
    Gap::Space
}

// How many nodes at the front of a row are trivia.
fn trivia<A: Allocator>(tree: &Tree<A>, row: &[usize]) -> usize
    ensures count { result ≡ trivia tree.now.nodes row.now }
    ensures within { result ≤ length row.now }
{
    row.iter()
        .take_while(|node| is_trivia(tree, **node))
        .count()
}

// The element of this number in a row, or none where there are fewer.
fn nth_element<A: Allocator>(tree: &Tree<A>, row: &[usize], index: usize) -> Option<usize>
    ensures element { result ≡ slice_get (elements tree.now.nodes row.now) index }
{
    row.iter()
        .copied()
        .filter(|node| is_element(tree, *node))
        .nth(index)
}

// Whether a comma stands past the trivia that a row begins with.
fn comma_comes<A: Allocator>(tree: &Tree<A>, after: &[usize]) -> bool
    ensures { result ≡ comma_comes tree.now.nodes after.now }
{
    let place = trivia(tree, after);
    if place >= after.len() {
        return false;
    }
    is_comma(tree, after[place])
}

// Whether a comma follows a place of a row.
fn has_comma<A: Allocator>(tree: &Tree<A>, row: &[usize], place: usize) -> bool
    requires { place ≤ length row.now }
    ensures { result ≡ has_comma tree.now.nodes row.now place }
{
    comma_comes(tree, &row[place..])
}

// The place after that comma, if there is one; else the place itself.
fn behind_comma<A: Allocator>(tree: &Tree<A>, row: &[usize], place: usize) -> usize
    requires { place ≤ length row.now }
    ensures place { result ≡ behind_comma tree.now.nodes row.now place }
    ensures within { result ≤ length row.now }
{
    let after = &row[place..];
    let count = trivia(tree, after);
    if count >= after.len() {
        return place;
    }
    if is_comma(tree, after[count]) {
        return place + count + 1;
    }
    place
}

// Where a comma is wanted after the element that ends at a place.
fn comma_wanted<A: Allocator>(tree: &Tree<A>, row: &[usize], place: usize) -> Option<usize>
    requires { place ≤ length row.now }
    ensures { result ≡ comma_wanted tree.now.nodes row.now place }
{
    if has_comma(tree, row, place) {
        return None;
    }
    Some(place)
}

// How many nodes it is through the last comment of a line of nothing but whitespace and comments.
fn through_comments<A: Allocator>(tree: &Tree<A>, line: &[usize]) -> usize
    ensures count { result ≡ through_comments tree.now.nodes line.now }
    ensures within { result ≤ length line.now }
{
    if all_inline_trivia(tree, line) {
        return line.len() - last_spaces(tree, line);
    }
    0
}

// The place after the last comment on the line that follows a place of a row.
fn past_comments<A: Allocator>(tree: &Tree<A>, row: &[usize], place: usize) -> usize
    requires { place ≤ length row.now }
    ensures place { result ≡ past_comments tree.now.nodes row.now place }
    ensures within { result ≤ length row.now }
{
    let end = place + line_length(tree, &row[place..row.len()]);
    place + through_comments(tree, &row[place..end])
}

// The plan where no element stands.
fn plan_alone<A: Allocator>(tree: &Tree<A>, several: bool, row: &[usize]) -> Plan
    requires { 2 ≤ length row.now }
    ensures plan { result ≡ plan_alone tree.now.nodes several row.now }
    ensures within { result.place ≤ length row.now }
{
    let end = row.len() - 1;
    let place = end - last_blanks(tree, &row[0..end]);
    Plan {
        comma: None,
        place,
        before: line_if(several),
        comma_behind: false,
        behind: line_unless(tree, several, &row[place..row.len()]),
    }
}

// The plan before the first element.
fn plan_first<A: Allocator>(tree: &Tree<A>, several: bool, row: &[usize]) -> Plan
    requires { 2 ≤ length row.now }
    ensures plan { result ≡ plan_first tree.now.nodes several row.now }
    ensures within { result.place ≤ length row.now }
{
    Plan {
        comma: None,
        place: 1,
        before: line_if(several),
        comma_behind: true,
        behind: before_next(tree, several, &row[1..row.len()]),
    }
}

/// The plan after the element that ends at a place.
pub(crate) fn plan_behind<A: Allocator>(
    tree: &Tree<A>,
    several: bool,
    commas: bool,
    row: &[usize],
    more: bool,
    ended: usize,
) -> Plan
    requires { ended ≤ length row.now }
    ensures plan { result ≡ plan_behind tree.now.nodes several commas row.now more ended }
    ensures within { result.place ≤ length row.now }
{
    let comma = comma_wanted(tree, row, ended);
    let place = past_comments(tree, row, behind_comma(tree, row, ended));
    let before = parting(several);
    if more {
        return Plan {
            comma,
            place,
            before,
            comma_behind: true,
            behind: before_next(tree, several, &row[place..row.len()]),
        };
    }
    Plan {
        comma,
        place,
        before,
        comma_behind: several && commas,
        behind: Gap::Nothing,
    }
}

/// The plan with no element before the new one, by a row that may end with the first element.
pub(crate) fn plan_front<A: Allocator>(tree: &Tree<A>, several: bool, row: &[usize]) -> Plan
    requires size { 2 ≤ length row.now }
    requires brackets { is_some (slice_get (elements tree.now.nodes row.now) 0) ≡ false
        → has_brackets tree.now.nodes row.now ≡ true }
    ensures plan { (commas : Bool) (i : ℕ) → result ≡ plan_by tree.now.nodes several commas row.now i None }
    ensures place { 1 ≤ result.place }
    ensures within { result.place ≤ length row.now }
    ensures comma { result.comma ≡ None }
{
    if nth_element(tree, row, 0).is_some() {
        return plan_first(tree, several, row);
    }
    plan_alone(tree, several, row)
}

/// Whether the first and the last child of a container are tokens, and two.
pub(crate) fn has_brackets<A: Allocator>(tree: &Tree<A>, container: usize) -> bool
    requires { container < length tree.now.nodes }
    ensures { result ≡ has_brackets tree.now.nodes (children_at tree.now.nodes container) }
{
    let Some(first) = tree.first_child(container) else {
        return false;
    };
    let Some(last) = tree.last_child(container) else {
        return false;
    };
    if first == last {
        return false;
    }
    if !is_token(tree, first) {
        return false;
    }
    is_token(tree, last)
}
