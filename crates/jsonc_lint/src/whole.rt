//! What is found in a text with faults: its faults, and what is found in its mended text.
ghost use Rattle.std.specs.Prelude.{IfOk, OnOk, IsCharBoundary};
ghost use Rattle.jsonc_text.specs.OptionsOf.{parse_options};
ghost use Rattle.jsonc_mends.specs.Mends.{mended_text};
ghost use Rattle.jsonc_lint.specs.Moves.{AllLieIn, AreAdded, HasMends, IsKindOf, IsSeen, LiesInText};
ghost use Rattle.jsonc_lint.specs.Whole.{IsFirstInText, IsKindInText, IsWhole};

use crate::faults::mend_findings;
use crate::finding::{Finding, FindingKind, Findings, FirstProperty};
use crate::linting::lint;
use crate::nodes::position;
use crate::rules::Rules;
use jsonc_mends::{Mends, mend};
use jsonc_parser::common::Range;
use jsonc_parser::{LineIndex, ParseOptions};
use std::alloc::{AllocError, Allocator};

// The first property of a name, at its place in the text.
fn first_in_text<A: Allocator>(
    lines: &LineIndex<A>,
    mends: &Mends<A>,
    first: FirstProperty,
) -> FirstProperty
    requires mends { HasMends lines.now mends.now }
    requires start { IsCharBoundary (mended_text mends.now) first.start }
    ensures { IsFirstInText lines.now mends.now.list.items first result }
{
    let start = mends.text_place(first.start);
    let at = position(lines, start);
    FirstProperty {
        start,
        line: at.line,
        column: at.column,
    }
}

// What is found in the mended text, with a first property at its place in the text.
fn kind_in_text<A: Allocator>(
    lines: &LineIndex<A>,
    mends: &Mends<A>,
    kind: FindingKind<A>,
) -> FindingKind<A>
    requires mends { HasMends lines.now mends.now }
    requires kind { IsKindOf (mended_text mends.now) kind }
    ensures { IsKindInText lines.now mends.now.list.items kind result }
{
    match kind {
        FindingKind::RepeatedName(name, first) => {
            FindingKind::RepeatedName(name, first_in_text(lines, mends, first))
        }
        FindingKind::Todo => FindingKind::Todo,
        FindingKind::TrailingComma => FindingKind::TrailingComma,
        // The mended text is a document.
        FindingKind::Fault(_) => unreachable!(),
    }
}

// What is found in the mended text, at its place in the text. None where one change wrote its bytes.
fn in_text<A: Allocator>(
    lines: &LineIndex<A>,
    mends: &Mends<A>,
    finding: Finding<A>,
) -> Option<Finding<A>>
    requires mends { HasMends lines.now mends.now }
    requires finding { LiesInText (mended_text mends.now) finding }
    ensures { IsSeen lines.now mends.now.list.items finding result }
{
    let range = finding.range;
    if mends.is_written(range) {
        return None;
    }
    let start = mends.text_place(range.start);
    let end = mends.text_place(range.end);
    let at = position(lines, start);
    Some(Finding {
        kind: kind_in_text(lines, mends, finding.kind),
        range: Range { start, end },
        line: at.line,
        column: at.column,
    })
}

// Adds what is found in the mended text, at places of the text.
fn add_in_text<A: Allocator>(
    lines: &LineIndex<A>,
    mends: &Mends<A>,
    found: Findings<A>,
    findings: &mut Findings<A>,
) -> Result<(), AllocError>
    requires mends { HasMends lines.now mends.now }
    requires found { AllLieIn mends.now found.items }
    ensures { OnOk result (AreAdded lines.now mends.now.list.items found.items findings.old.items findings.new.items) }
{
    for finding in found {
        if let Some(here) = in_text(lines, mends, finding) {
            findings.push(here)?;
        }
    }
    Ok(())
}

/// Finds all faults of a text, and then what the rules say of its mended text, at places of the text.
///
/// The faults are those of [`mend`](jsonc_mends::mend), each once, in the order of their changes. What follows is what
/// [`lint`] finds in the text that all changes make, in order of place, but for what one change wrote: of a text without a
/// fault it is what `lint` finds in it. A range begins and ends at the places of the text that go with its own
/// ([`Mends::text_place`]). The error is an allocation failure.
pub fn lint_all<A: Allocator + Copy>(
    alloc: A,
    text: &str,
    options: &ParseOptions,
    rules: Rules,
) -> Result<Findings<A>, AllocError>
    ensures { IfOk result (λ found. IsWhole (parse_options options.now) rules text.now found.items) }
{
    let mends = mend(alloc, text, options)?;
    let mut findings = mend_findings(alloc, mends.list())?;
    let found = lint(alloc, mends.text(), options, rules)?;
    let lines = LineIndex::new(alloc, text)?;
    add_in_text(&lines, &mends, found, &mut findings)?;
    Ok(findings)
}
