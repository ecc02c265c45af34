//! The mends of a text.
ghost use Rattle.std.specs.Bool.{Decides};
ghost use Rattle.std.specs.Prelude.{◌≡◌, ◌≤◌, IfNone, IfOk, IfSome, IsUtf8, List, chars, length, string_bytes, true, ℕ};
ghost use Rattle.jsonc_text.specs.Options.{Options};
ghost use Rattle.jsonc_text.specs.OptionsOf.{parse_options};
ghost use Rattle.jsonc_check.specs.Checker.{HasValueWithin};
ghost use Rattle.jsonc_mend.specs.Changes.{IsMade};
ghost use Rattle.jsonc_mends.specs.Mends.{IsChangeOf, IsMended, IsWritten};
ghost use Rattle.jsonc_mends.specs.Places.{GoesWith, IsWrittenBy};
ghost use Rattle.jsonc_mends.specs.Told.{HasFirst, IsTold};
ghost use Rattle.jsonc_mends.specs.declared.places.Side.TheVariants.{Text, Mended};

use crate::places::{Side, lies_in, part_of, place_in};
use crate::told::{Mend, Told, told_changes, told_of};
use jsonc_check::check_document;
use jsonc_mend::changes::{Changed, make_changes};
use jsonc_mend::recovery::Recovery;
use jsonc_text::common::Range;
use jsonc_text::options::ParseOptions;
use std::alloc::{AllocError, Allocator};

/// A stretch of a text, and the text that replaces it. The stretch may begin or end inside a CR LF.
#[derive(Clone, Copy, Debug, PartialEq, Eq)]
pub struct TextChange<'n> {
    /// The bytes of the old text that are replaced.
    pub range: Range,
    /// The text in their place.
    pub new_text: &'n str,
}

/// The faults of a text, each with a change, and the document that all changes make of it.
#[derive(Drop)]
pub struct Mends<A: Allocator> {
    text: String<A>,
    list: Vec<Mend, A>,
    /// How many bytes the text with the faults has.
    length: usize,
}

impl<A: Allocator> Mends<A> {
    /// The text with all changes made.
    pub fn text(&self) -> &str
        ensures { result.now ≡ string_bytes self.now.text }
    {
        self.text.as_str()
    }

    /// The text with all changes made, and the faults with their changes. Nothing is copied.
    pub fn into_parts(self) -> (String<A>, Vec<Mend, A>)
        ensures text { string_bytes result.0 ≡ string_bytes self.text }
        ensures list { result.1.items ≡ self.list.items }
    {
        (self.text, self.list)
    }

    /// The faults with their changes, in order.
    pub fn list(&self) -> &[Mend]
        ensures { result.now ≡ self.now.list.items }
    {
        self.list.as_slice()
    }

    /// What the change of a number, counted from 0, writes in the place of its range. None where there is no such change.
    pub fn new_text(&self, number: usize) -> Option<&str>
        ensures part { IfSome result (λ new. IsWritten self.now number new.now) }
        ensures none { (o : Options) (bytes : List ℕ) → IsMended o bytes self.now
            → IfNone result (length self.now.list.items ≤ number) }
    {
        let mend = self.list.get(number)?;
        part_of(self.text.as_str(), mend.written)
    }

    /// The change of a number, counted from 0, as a change of the text. None where there is no such change.
    pub fn change(&self, number: usize) -> Option<TextChange<'_>>
        ensures change { IfSome result (λ change. IsChangeOf self.now number change.range change.new_text.now) }
        ensures none { (o : Options) (bytes : List ℕ) → IsMended o bytes self.now
            → IfNone result (length self.now.list.items ≤ number) }
    {
        let mend = self.list.get(number)?;
        let new_text = self.new_text(number)?;
        Some(TextChange {
            range: mend.range,
            new_text,
        })
    }

    /// Whether some bytes of the mended text were all written by one change. None were, where the range has none. The time
    /// is logarithmic.
    pub fn is_written(&self, range: Range) -> bool
        ensures { (o : Options) (bytes : List ℕ) → IsUtf8 bytes → IsMended o bytes self.now
            → Decides result (IsWrittenBy self.now.list.items range.start range.end) }
    {
        lies_in(self.list.as_slice(), range)
    }

    /// The place of the mended text that goes with a place of the text, which is counted in bytes. The time is logarithmic.
    ///
    /// Between changes it is the place of the same characters. Within the bytes that a change replaces it is the start of
    /// what the change writes.
    pub fn mended_place(&self, place: usize) -> usize
        ensures { (o : Options) (bytes : List ℕ) → IsUtf8 bytes → IsMended o bytes self.now → place ≤ length bytes
            → GoesWith Text self.now.list.items place result }
    {
        place_in(self.list.as_slice(), Side::Text, place, self.text.len())
    }

    /// The place of the text that goes with a place of the mended text. The time is logarithmic.
    ///
    /// Between changes it is the place of the same characters. Within what a change writes it is the start of the bytes
    /// that the change replaces.
    pub fn text_place(&self, place: usize) -> usize
        ensures { (o : Options) (bytes : List ℕ) → IsUtf8 bytes → IsMended o bytes self.now
            → place ≤ length (string_bytes self.now.text)
            → GoesWith Mended self.now.list.items place result }
    {
        place_in(self.list.as_slice(), Side::Mended, place, self.length)
    }
}

// A document has no fault.
fn none_needed<A: Allocator + Copy>(
    alloc: A,
    text: &str,
    options: &ParseOptions,
) -> Result<Mends<A>, AllocError>
    requires { HasValueWithin true (parse_options options.now) (chars text.now) }
    ensures { IfOk result (IsMended (parse_options options.now) text.now) }
{
    Ok(Mends {
        text: String::from_str(alloc, text)?,
        list: Vec::new(alloc),
        length: text.len(),
    })
}

// The changes that are proposed for a text, where all of them can be made and the changed text is a document.
fn document_made<A: Allocator + Copy>(
    alloc: A,
    text: &str,
    options: &ParseOptions,
    recovery: &Recovery<'_, A>,
) -> Result<Option<Changed<A>>, AllocError>
    ensures made { IfOk result (λ changed. IfSome changed (IsMade (chars text.now))) }
    ensures document { IfOk result (λ changed. IfSome changed
        (λ c. HasValueWithin true (parse_options options.now) (chars (string_bytes c.text)))) }
{
    let made = make_changes(alloc, text, recovery.proposals(), recovery.buffer())?;
    let Some(changed) = made else {
        return Ok(None);
    };
    match check_document(alloc, changed.text.as_str(), options) {
        Ok(()) => Ok(Some(changed)),
        Err(_) => Ok(None),
    }
}

// The mends that are proposed for a text with this first fault. None where they are refused.
fn proposed<A: Allocator + Copy>(
    alloc: A,
    text: &str,
    options: &ParseOptions,
    first: Told,
) -> Result<Option<Mends<A>>, AllocError>
    requires told { IsTold text.now first }
    requires first { HasFirst (parse_options options.now) text.now first }
    ensures { IfOk result (λ mends. IfSome mends (IsMended (parse_options options.now) text.now)) }
{
    let mut recovery = Recovery::new(alloc, text, options);
    if !recovery.run()? {
        return Ok(None);
    }
    let Some(changed) = document_made(alloc, text, options, &recovery)? else {
        return Ok(None);
    };
    let Changed {
        text: mended,
        list: changes,
    } = changed;
    let proposals = recovery.proposals();
    let Some(list) = told_changes(alloc, text, first, proposals, changes.as_slice())? else {
        return Ok(None);
    };
    Ok(Some(Mends {
        text: mended,
        list,
        length: text.len(),
    }))
}

// The first fault of a text, and a change that removes all of the text.
fn all_removed<A: Allocator + Copy>(
    alloc: A,
    text: &str,
    options: &ParseOptions,
    first: Told,
) -> Result<Mends<A>, AllocError>
    requires told { IsTold text.now first }
    requires first { HasFirst (parse_options options.now) text.now first }
    ensures { IfOk result (IsMended (parse_options options.now) text.now) }
{
    let mut list = Vec::new(alloc);
    list.push(Mend {
        fault: first.fault,
        at: first.at,
        range: Range::new(0, text.len()),
        written: Range::new(0, 0),
    })?;
    Ok(Mends {
        text: String::new(alloc),
        list,
        length: text.len(),
    })
}

/// Every fault of a text, each with one small change. With all changes made the text is a document of the options.
///
/// The first fault is the one that [`check_document`] tells, and there is none where the text is a document within the
/// depth. Changes are in order and apart, on boundaries of characters, and between them both texts are the same. An error
/// is an allocation failure.
///
/// Each fault is the first one of the text with the changes before it made, and the time is linear in the text, which is
/// tested and not promised. Where no small changes are found, the answer is one change that removes all of the text; no
/// text is known for which that happens. Of `{"a": 1 "b": 2,}` there are two, which make `{"a": 1, "b": 2}`.
pub fn mend<A: Allocator + Copy>(
    alloc: A,
    text: &str,
    options: &ParseOptions,
) -> Result<Mends<A>, AllocError>
    ensures { IfOk result (IsMended (parse_options options.now) text.now) }
{
    let error = match check_document(alloc, text, options) {
        Ok(()) => return none_needed(alloc, text, options),
        Err(error) => error,
    };
    let first = told_of(text, &error);
    if let Some(mends) = proposed(alloc, text, options, first)? {
        return Ok(mends);
    }
    all_removed(alloc, text, options, first)
}
