//! Which lines leave, which come, and which stay.
ghost use Rattle.std.specs.Prelude.{◌≡◌, ◌+◌, ◌-◌, ◌<◌, ◌≤◌, ◌++◌, ℕ, List, IfOk, IfSome, OnOk, length, map, take, true};
ghost use Rattle.jsonc_diff.specs.Scripts.{new_of, old_of};

use std::alloc::{AllocError, Allocator};

/// A line of one text, or of both.
#[derive(Clone, Copy, Debug)]
pub(crate) enum Step<'a> {
    Kept(&'a str),
    Removed(&'a str),
    Added(&'a str),
}

// How many lines, left out of both texts together, are looked at for the next line that both have.
const FAR: usize = 100;

// Whether two lines are the same.
fn is_same(first: &str, second: &str) -> bool
    ensures { result ≡ true → first.now ≡ second.now }
{
    first == second
}

// How many lines two texts have in common at their fronts.
fn same_len(old: &[&str], new: &[&str]) -> usize
    ensures old { result ≤ length old.now }
    ensures new { result ≤ length new.now }
    ensures same { map (λ line. line.now) (take result old.now) ≡ map (λ line. line.now) (take result new.now) }
{
    let shorter = old.len().min(new.len());
    for count in 0..shorter {
        if !is_same(old[count], new[count]) {
            return count;
        }
    }
    shorter
}

// How many old lines are left out before a line that both texts have, where so many of both are left out together.
fn left_out(old: &[&str], new: &[&str], together: usize) -> Option<usize>
    ensures within { IfSome result (λ count. count ≤ together) }
    ensures old { IfSome result (λ count. count < length old.now) }
    ensures new { IfSome result (λ count. together - count < length new.now) }
{
    for count in 0..=together {
        let added = together - count;
        if count < old.len() && added < new.len() && old[count] == new[added] {
            return Some(count);
        }
    }
    None
}

// How many lines leave, and how many come, before lines that both texts have.
fn changed_len(old: &[&str], new: &[&str]) -> (usize, usize)
    ensures old { result.0 ≤ length old.now }
    ensures new { result.1 ≤ length new.now }
    ensures some { 0 < length old.now + length new.now → 0 < result.0 + result.1 }
{
    for together in 1..=FAR {
        if let Some(removed) = left_out(old, new, together) {
            return (removed, together - removed);
        }
    }
    (old.len().min(FAR), new.len().min(FAR))
}

fn push_kept<'a, A: Allocator>(
    steps: &mut Vec<Step<'a>, A>,
    lines: &[&'a str],
) -> Result<(), AllocError>
    ensures old { OnOk result (old_of steps.new.items ≡ old_of steps.old.items ++ map (λ line. line.now) lines.now) }
    ensures new { OnOk result (new_of steps.new.items ≡ new_of steps.old.items ++ map (λ line. line.now) lines.now) }
{
    for line in lines {
        steps.push(Step::Kept(*line))?;
    }
    Ok(())
}

fn push_removed<'a, A: Allocator>(
    steps: &mut Vec<Step<'a>, A>,
    lines: &[&'a str],
) -> Result<(), AllocError>
    ensures old { OnOk result (old_of steps.new.items ≡ old_of steps.old.items ++ map (λ line. line.now) lines.now) }
    ensures new { OnOk result (new_of steps.new.items ≡ new_of steps.old.items) }
{
    for line in lines {
        steps.push(Step::Removed(*line))?;
    }
    Ok(())
}

fn push_added<'a, A: Allocator>(
    steps: &mut Vec<Step<'a>, A>,
    lines: &[&'a str],
) -> Result<(), AllocError>
    ensures old { OnOk result (old_of steps.new.items ≡ old_of steps.old.items) }
    ensures new { OnOk result (new_of steps.new.items ≡ new_of steps.old.items ++ map (λ line. line.now) lines.now) }
{
    for line in lines {
        steps.push(Step::Added(*line))?;
    }
    Ok(())
}

// Adds the lines that stay at the fronts of two texts, and answers how many they are.
fn push_same<'a, A: Allocator>(
    steps: &mut Vec<Step<'a>, A>,
    old: &[&'a str],
    new: &[&'a str],
) -> Result<usize, AllocError>
    ensures old { IfOk result (λ same. old_of steps.new.items ≡ old_of steps.old.items ++ map (λ line. line.now) (take same old.now)) }
    ensures new { IfOk result (λ same. new_of steps.new.items ≡ new_of steps.old.items ++ map (λ line. line.now) (take same new.now)) }
    ensures old_within { IfOk result (λ same. same ≤ length old.now) }
    ensures new_within { IfOk result (λ same. same ≤ length new.now) }
{
    let same = same_len(old, new);
    push_kept(steps, old.split_at(same).0)?;
    Ok(same)
}

// Adds the lines that leave and come before lines that both texts have, and answers how many they are.
fn push_changed<'a, A: Allocator>(
    steps: &mut Vec<Step<'a>, A>,
    old: &[&'a str],
    new: &[&'a str],
) -> Result<(usize, usize), AllocError>
    ensures old { IfOk result (λ taken. old_of steps.new.items ≡ old_of steps.old.items ++ map (λ line. line.now) (take taken.0 old.now)) }
    ensures new { IfOk result (λ taken. new_of steps.new.items ≡ new_of steps.old.items ++ map (λ line. line.now) (take taken.1 new.now)) }
    ensures old_within { IfOk result (λ taken. taken.0 ≤ length old.now) }
    ensures new_within { IfOk result (λ taken. taken.1 ≤ length new.now) }
    ensures some { IfOk result (λ taken. 0 < length old.now + length new.now → 0 < taken.0 + taken.1) }
{
    let (removed, added) = changed_len(old, new);
    push_removed(steps, old.split_at(removed).0)?;
    push_added(steps, new.split_at(added).0)?;
    Ok((removed, added))
}

// Adds the lines that stay at the fronts of two texts, and those behind them that leave and come.
fn push_stretch<'a, A: Allocator>(
    steps: &mut Vec<Step<'a>, A>,
    old: &[&'a str],
    new: &[&'a str],
) -> Result<(usize, usize), AllocError>
    ensures old { IfOk result (λ taken. old_of steps.new.items ≡ old_of steps.old.items ++ map (λ line. line.now) (take taken.0 old.now)) }
    ensures new { IfOk result (λ taken. new_of steps.new.items ≡ new_of steps.old.items ++ map (λ line. line.now) (take taken.1 new.now)) }
    ensures old_within { IfOk result (λ taken. taken.0 ≤ length old.now) }
    ensures new_within { IfOk result (λ taken. taken.1 ≤ length new.now) }
    ensures some { IfOk result (λ taken. 0 < length old.now + length new.now → 0 < taken.0 + taken.1) }
{
    let same = push_same(steps, old, new)?;
    let (_, olds) = old.split_at(same);
    let (_, news) = new.split_at(same);
    let (removed, added) = push_changed(steps, olds, news)?;
    Ok((same + removed, same + added))
}

/// The lines of both texts in order: those that stay, and between them those that leave before those that come.
pub(crate) fn script_of<'a, A: Allocator>(
    alloc: A,
    old: &[&'a str],
    new: &[&'a str],
) -> Result<Vec<Step<'a>, A>, AllocError>
    ensures old { IfOk result (λ steps. old_of steps.items ≡ map (λ line. line.now) old.now) }
    ensures new { IfOk result (λ steps. new_of steps.items ≡ map (λ line. line.now) new.now) }
{
    let mut steps = Vec::new(alloc);
    let mut olds = 0;
    let mut news = 0;
    while olds < old.len() || news < new.len() {
        let (_, old_rest) = old.split_at(olds);
        let (_, new_rest) = new.split_at(news);
        let (removed, added) = push_stretch(&mut steps, old_rest, new_rest)?;
        olds += removed;
        news += added;
    }
    Ok(steps)
}
