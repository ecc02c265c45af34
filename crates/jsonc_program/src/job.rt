//! What a call asks for.
ghost use Rattle.std.specs.Borrow.{Bor};
ghost use Rattle.std.specs.Prelude.{◌≡◌, ℕ, Bool, List, Option, IfErr, IfOk, MatchOption};
ghost use Rattle.jsonc_words.specs.declared.call.Command.TheVariants as called;
ghost use Rattle.jsonc_words.specs.declared.call.Text.{Text};
ghost use Rattle.jsonc_words.specs.declared.call.Value.{Value};
ghost use Rattle.jsonc_program.specs.Jobs.{HasPlace, IsJobOf, IsPlaceOf};
ghost use Rattle.jsonc_program.specs.Place.{IsNoPlace, IsPlace};

use crate::edit::{Edit, Target};
use crate::layout::{Layout, layout_of};
use crate::place::place_of;
use jsonc_engine::command::{Command, Place};
use jsonc_words::call;
use jsonc_words::call::{Format, FormatOptions};

/// How many bytes a document may have that is patched, where the words name no other number.
const MOST_BYTES: usize = 1_000_000_000;

/// What is made of each input.
#[derive(Clone, Copy, Debug)]
pub enum Job<'a> {
    /// What the engine makes of it by this command.
    Run(Command<'a>),
    /// The document after an edit that the engine does not have.
    Edit(Edit<'a>),
    /// The value at a place, a string as it is written or raw.
    Get {
        place: Place<'a>,
        is_raw: bool,
    },
    /// Its fault, as JSON.
    Check,
    /// All of its faults.
    CheckAll {
        format: Format,
    },
    /// What a linter finds in it.
    Lint {
        format: Format,
        no_trailing_commas: bool,
    },
    /// The document with other blanks.
    Format {
        layout: Layout,
        /// Whether it is told whether it would change, and the document is not written.
        only_checks: bool,
        /// Whether what would change is written, and not the document.
        shows_diff: bool,
    },
    /// The document that small changes make of it.
    Mend,
}

/// A word that names no place.
#[derive(Clone, Copy, Debug)]
pub struct NotAPlace<'a> {
    pub word: &'a str,
}

/// The place that a word names.
fn place<'a>(word: &'a str) -> Result<Place<'a>, NotAPlace<'a>>
    ensures named { IfOk result (IsPlace word.now) }
    ensures refused { IfErr result (λ fault. (fault.word.now ≡ word.now) × IsNoPlace word.now) }
{
    match place_of(word) {
        Some(place) => Ok(place),
        None => Err(NotAPlace { word }),
    }
}

/// The place that an option names, where it is given.
fn place_if<'a>(word: Option<&'a str>) -> Result<Option<Place<'a>>, NotAPlace<'a>>
    ensures named { IfOk result (IsPlaceOf word.entry) }
    ensures refused { IfErr result (λ fault. MatchOption word.entry ⊥ (λ w. fault.word.now ≡ w.now)
        × IsNoPlace fault.word.now) }
{
    match word {
        None => Ok(None),
        Some(word) => match place_of(word) {
            Some(place) => Ok(Some(place)),
            None => Err(NotAPlace { word }),
        },
    }
}

fn get_job<'a>(place: Place<'a>, is_raw: bool) -> Job<'a>
    ensures { (word : Bor (List ℕ)) (must : Bool) (text : List ℕ) → IsPlace word.now place.entry
        → IsJobOf (called.Get word is_raw) must text result }
{
    Job::Get { place, is_raw }
}

fn rename_job<'a>(place: Place<'a>, name: &'a str) -> Job<'a>
    ensures { (word : Bor (List ℕ)) (must : Bool) (text : List ℕ) → IsPlace word.now place.entry
        → IsJobOf (called.Rename word name.entry) must text result }
{
    Job::Edit(Edit::Rename { place, name })
}

fn comment_job<'a>(place: Place<'a>, text: &'a str, is_after: bool) -> Job<'a>
    ensures { (word : Bor (List ℕ)) (source : Text) (must : Bool) → IsPlace word.now place.entry
        → IsJobOf (called.Comment word source is_after) must text.now result }
{
    Job::Edit(Edit::Comment {
        place,
        text,
        is_after,
    })
}

fn set_job<'a>(name: &'a str, json: &'a str, must_exist: bool) -> Job<'a>
    ensures { (value : Value) → IsJobOf (called.Set name.entry value) must_exist json.now result }
{
    if must_exist {
        let target = Target::Named(name);
        Job::Edit(Edit::Replace { target, json })
    } else {
        Job::Run(Command::Set { name, json })
    }
}

fn remove_job<'a>(name: &'a str, with_comments: bool, must_exist: bool) -> Job<'a>
    ensures { (text : List ℕ) → IsJobOf (called.Remove name.entry with_comments) must_exist text result }
{
    if with_comments || must_exist {
        Job::Edit(Edit::Remove {
            target: Target::Named(name),
            with_comments,
            must_exist,
        })
    } else {
        Job::Run(Command::Remove { name })
    }
}

fn drop_job<'a>(place: Place<'a>, with_comments: bool, must_exist: bool) -> Job<'a>
    ensures { (word : Bor (List ℕ)) (text : List ℕ) → IsPlace word.now place.entry
        → IsJobOf (called.Drop word with_comments) must_exist text result }
{
    match place {
        Place::Names(names) if !with_comments && !must_exist => Job::Run(Command::Drop { names }),
        place => Job::Edit(Edit::Remove {
            target: Target::At(place),
            with_comments,
            must_exist,
        }),
    }
}

fn put_job<'a>(place: Place<'a>, json: &'a str, must_exist: bool) -> Job<'a>
    ensures { (word : Bor (List ℕ)) (value : Value) → IsPlace word.now place.entry
        → IsJobOf (called.Put word value) must_exist json.now result }
{
    if must_exist {
        let target = Target::At(place);
        return Job::Edit(Edit::Replace { target, json });
    }
    match place {
        Place::Names(names) => Job::Run(Command::Put { names, json }),
        Place::Pointer(pointer) => Job::Edit(Edit::Put { pointer, json }),
    }
}

fn sort_job<'a>(at: Option<Place<'a>>, is_recursive: bool, keeps_headers: bool) -> Job<'a>
    ensures { (word : Option (Bor (List ℕ))) (must : Bool) (text : List ℕ) → IsPlaceOf word at.entry
        → IsJobOf (called.Sort word is_recursive keeps_headers) must text result }
{
    if at.is_none() && !is_recursive && !keeps_headers {
        return Job::Run(Command::Sort);
    }
    Job::Edit(Edit::Sort {
        at,
        is_recursive,
        keeps_headers,
    })
}

fn check_job<'a>(format: Format, finds_all: bool) -> Job<'a>
    ensures { (must : Bool) (text : List ℕ) → IsJobOf (called.Check format finds_all) must text result }
{
    if finds_all {
        return Job::CheckAll { format };
    }
    match format {
        Format::Text => Job::Run(Command::Check),
        Format::Json => Job::Check,
    }
}

fn format_job<'a>(options: FormatOptions) -> Job<'a>
    ensures { (must : Bool) (text : List ℕ) → IsJobOf (called.Format options) must text result }
{
    let FormatOptions {
        indent,
        line_end,
        expand,
        trailing_commas,
        only_checks,
        shows_diff,
    } = options;
    let layout = layout_of(indent, line_end, expand, trailing_commas);
    Job::Format {
        layout,
        only_checks,
        shows_diff,
    }
}

fn patch_job<'a>(text: &'a str, most_bytes: Option<u64>) -> Job<'a>
    ensures { (source : Text) (must : Bool) → IsJobOf (called.Patch source most_bytes) must text.now result }
{
    let most = match most_bytes {
        Some(most) => most as usize,
        None => MOST_BYTES,
    };
    Job::Run(Command::Patch { text, most })
}

/// What a command with this text as its last argument asks for.
pub fn job_of<'a>(
    command: call::Command<'a>,
    must_exist: bool,
    text: &'a str,
) -> Result<Job<'a>, NotAPlace<'a>>
    ensures asked { IfOk result (IsJobOf command.entry must_exist text.now) }
    ensures refused { IfErr result (λ fault. HasPlace command.entry fault.word.now × IsNoPlace fault.word.now) }
{
    match command {
        call::Command::Check { format, finds_all } => Ok(check_job(format, finds_all)),
        call::Command::Print => Ok(Job::Run(Command::Print)),
        call::Command::Set { name, .. } => Ok(set_job(name, text, must_exist)),
        call::Command::Append { .. } => Ok(Job::Run(Command::Append { json: text })),
        call::Command::Remove {
            name,
            with_comments,
        } => Ok(remove_job(name, with_comments, must_exist)),
        call::Command::Sort {
            at,
            is_recursive,
            keeps_headers,
        } => Ok(sort_job(place_if(at)?, is_recursive, keeps_headers)),
        call::Command::Drop {
            place: at,
            with_comments,
        } => Ok(drop_job(place(at)?, with_comments, must_exist)),
        call::Command::Get { place: at, is_raw } => Ok(get_job(place(at)?, is_raw)),
        call::Command::Put { place: at, .. } => Ok(put_job(place(at)?, text, must_exist)),
        call::Command::Rename { place: at, name } => Ok(rename_job(place(at)?, name)),
        call::Command::Comment {
            place: at,
            is_after,
            ..
        } => Ok(comment_job(place(at)?, text, is_after)),
        call::Command::Patch { most_bytes, .. } => Ok(patch_job(text, most_bytes)),
        call::Command::Merge { .. } => Ok(Job::Run(Command::Merge { text })),
        call::Command::Json => Ok(Job::Run(Command::Json)),
        call::Command::Lint {
            format,
            no_trailing_commas,
        } => Ok(Job::Lint {
            format,
            no_trailing_commas,
        }),
        call::Command::Format(options) => Ok(format_job(options)),
        call::Command::Mend => Ok(Job::Mend),
    }
}
