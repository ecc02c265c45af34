//! The lines that leave or come, with some that stay around them.
ghost use Rattle.std.specs.Prelude.{◌≡◌, ◌+◌, ◌<◌, ◌≤◌, ◌^◌, ◌++◌, ◌∷◌, [], IfNone, IfOk, IfSome, OnOk, length, nat_eq, string_bytes, take, true};
ghost use Rattle.std.specs.List.{All, ends_with};
ghost use Rattle.jsonc_diff.specs.Diffs.{AreShown, IsKept, end_of, hunk_text, span_text, step_text, steps_text};
ghost use Rattle.jsonc_diff.specs.Going.{GoesOn};
ghost use Rattle.jsonc_diff.specs.Scripts.{new_of, old_of};

use crate::script::Step;
use std::alloc::{AllocError, Allocator};

// How many lines that stay are shown around others.
const CONTEXT: usize = 3;

fn is_kept(step: &Step<'_>) -> bool
    ensures kept { result ≡ true → IsKept step.now }
{
    matches!(step, Step::Kept(_))
}

// How many steps are passed over before the next hunk. None where all lines stay.
fn passed_len(steps: &[Step<'_>]) -> Option<usize>
    ensures within { IfSome result (λ count. count < length steps.now) }
    ensures kept { IfSome result (λ count. All IsKept (take count steps.now)) }
    ensures none { IfNone result (All IsKept steps.now) }
{
    let changed = steps.iter().position(|step| !is_kept(step))?;
    Some(changed.saturating_sub(CONTEXT))
}

// How many steps the hunk has that begins here: up to some lines behind the last one that does not stay, and is near to the one before.
fn hunk_len(steps: &[Step<'_>]) -> usize
    ensures within { result ≤ length steps.now }
    ensures some { 0 < length steps.now → 0 < result }
{
    let mut end: usize = 0;
    for (place, step) in steps.iter().enumerate() {
        if place > end.saturating_add(2 * CONTEXT) {
            break;
        }
        if !is_kept(step) {
            end = place + 1;
        }
    }
    end.saturating_add(CONTEXT).min(steps.len())
}

// Whether a line is one of the old text, and of the new one, as numbers.
fn counts_of(step: &Step<'_>) -> (usize, usize)
    ensures old { result.0 ≡ length (old_of (step.now ∷ [])) }
    ensures new { result.1 ≡ length (new_of (step.now ∷ [])) }
    ensures old_within { result.0 ≤ 1 }
    ensures new_within { result.1 ≤ 1 }
{
    match step {
        Step::Kept(_) => (1, 1),
        Step::Removed(_) => (1, 0),
        Step::Added(_) => (0, 1),
    }
}

// How many lines of the old text are among these, and of the new one.
fn counts(steps: &[Step<'_>]) -> (usize, usize)
    ensures old { result.0 ≡ length (old_of steps.now) }
    ensures new { result.1 ≡ length (new_of steps.now) }
    ensures old_within { result.0 ≤ length steps.now }
    ensures new_within { result.1 ≤ length steps.now }
{
    let mut old = 0;
    let mut new = 0;
    for step in steps {
        let (in_old, in_new) = counts_of(step);
        old += in_old;
        new += in_new;
    }
    (old, new)
}

// So many lines behind so many others.
fn span<A: Allocator>(alloc: A, before: usize, count: usize) -> Result<String<A>, AllocError>
    requires { before + 1 < 2 ^ 64 }
    ensures { IfOk result (λ text. string_bytes text ≡ span_text before count) }
{
    match count {
        0 => format!(in alloc; "{before},0"),
        1 => format!(in alloc; "{}", before + 1),
        _ => format!(in alloc; "{},{count}", before + 1),
    }
}

// Whether a line feed ends a line.
fn has_feed(line: &str) -> bool
    ensures { result ≡ ends_with nat_eq line.now (0x0A ∷ []) }
{
    line.ends_with("\n")
}

// What stands behind a line.
fn end_of(line: &str) -> &'static str
    ensures { result.now ≡ end_of line.now }
{
    if has_feed(line) {
        return "";
    }
    "\n\\ No newline at end of file\n"
}

#[tactic(auto, using(std::proofs::Common::append_assoc))]
fn push_line<A: Allocator>(text: &mut String<A>, sign: &str, line: &str) -> Result<(), AllocError>
    ensures { OnOk result (string_bytes text.new ≡ string_bytes text.old ++ (sign.now ++ (line.now ++ end_of line.now))) }
{
    text.push_str(sign)?;
    text.push_str(line)?;
    text.push_str(end_of(line))?;
    Ok(())
}

fn push_step<A: Allocator>(text: &mut String<A>, step: &Step<'_>) -> Result<(), AllocError>
    ensures { OnOk result (string_bytes text.new ≡ string_bytes text.old ++ step_text step.now) }
{
    match step {
        Step::Kept(line) => push_line(text, " ", line),
        Step::Removed(line) => push_line(text, "-", line),
        Step::Added(line) => push_line(text, "+", line),
    }
}

fn push_steps<A: Allocator>(text: &mut String<A>, steps: &[Step<'_>]) -> Result<(), AllocError>
    ensures { OnOk result (string_bytes text.new ≡ string_bytes text.old ++ steps_text steps.now) }
{
    for step in steps {
        push_step(text, step)?;
    }
    Ok(())
}

fn push_hunk<A: Allocator + Copy>(
    alloc: A,
    text: &mut String<A>,
    old: usize,
    new: usize,
    steps: &[Step<'_>],
) -> Result<(), AllocError>
    requires old { old + 1 < 2 ^ 64 }
    requires new { new + 1 < 2 ^ 64 }
    ensures { OnOk result (string_bytes text.new ≡ string_bytes text.old ++ hunk_text old new steps.now) }
{
    let (old_count, new_count) = counts(steps);
    let olds = span(alloc, old, old_count)?;
    let news = span(alloc, new, new_count)?;
    let head = format!(in alloc; "@@ -{olds} +{news} @@\n")?;
    text.push_str(head.as_str())?;
    push_steps(text, steps)
}

// How far the steps are shown, and how many lines of both texts are behind.
#[derive(Clone, Copy)]
pub(crate) struct Place {
    steps: usize,
    old: usize,
    new: usize,
}

// Adds the hunk behind so many kept lines, and answers the place behind it. The steps are those from a place on.
fn push_next<A: Allocator + Copy>(
    alloc: A,
    text: &mut String<A>,
    place: Place,
    rest: &[Step<'_>],
    passed: usize,
) -> Result<Place, AllocError>
    requires kept { All IsKept (take passed rest.now) }
    requires within { passed < length rest.now }
    requires steps { place.steps + length rest.now < 2 ^ 64 }
    requires old { place.old ≤ place.steps }
    requires new { place.new ≤ place.steps }
    ensures steps { IfOk result (λ next. place.steps < next.steps) }
    ensures within { IfOk result (λ next. next.steps ≤ place.steps + length rest.now) }
    ensures old { IfOk result (λ next. next.old ≤ next.steps) }
    ensures new { IfOk result (λ next. next.new ≤ next.steps) }
    ensures shown { IfOk result (λ next. GoesOn place next rest.now (string_bytes text.old) (string_bytes text.new)) }
{
    let (_, behind) = rest.split_at(passed);
    let count = hunk_len(behind);
    let (hunk, _) = behind.split_at(count);
    let (old, new) = counts(hunk);
    push_hunk(alloc, text, place.old + passed, place.new + passed, hunk)?;
    Ok(Place {
        steps: place.steps + passed + count,
        old: place.old + passed + old,
        new: place.new + passed + new,
    })
}

/// The hunks that show these steps.
pub(crate) fn hunks_of<A: Allocator + Copy>(
    alloc: A,
    steps: &[Step<'_>],
) -> Result<String<A>, AllocError>
    ensures { IfOk result (λ text. AreShown 0 0 steps.now (string_bytes text)) }
{
    let mut text = String::new(alloc);
    let mut place = Place {
        steps: 0,
        old: 0,
        new: 0,
    };
    loop {
        let (_, rest) = steps.split_at(place.steps);
        let Some(passed) = passed_len(rest) else {
            return Ok(text);
        };
        place = push_next(alloc, &mut text, place, rest, passed)?;
    }
}
