//! The calls that were made on a folder, for clauses alone. A record takes no memory.
ghost use Rattle.std.specs.Prelude.{◌≡◌, List, [], ◌∷◌};
ghost use Rattle.std.specs.Borrow.{ftrue};
ghost use Rattle.jsonc_files.specs.Calls.{Event};
ghost use Rattle.jsonc_files.specs.Coded.{events_code};

use std::marker::Model;

/// What a call was to do: the steps of an edit, which an error names.
#[derive(Clone, Copy, Debug, PartialEq, Eq, Drop)]
pub enum Step {
    OpenFolder,
    Open,
    Lock,
    Find,
    Read,
    Create,
    Write,
    FindMode,
    SetOwner,
    SetMode,
    Sync,
    Compare,
    Rename,
    Remove,
    SyncFolder,
}

/// A call that was made, with its answer.
#[derive(Clone, Copy, Drop)]
pub enum Call<'a> {
    OpenedFolder,
    Opened(bool),
    Locked,
    Found(bool),
    Read(&'a [u8]),
    Created(u32),
    Wrote(&'a [u8]),
    FoundMode(u32),
    SetOwner(bool, bool),
    SetMode(u32),
    Synced,
    Compared(bool),
    Renamed,
    Removed,
    SyncedFolder,
    Failed(Step),
}

/// The calls so far, the last one first.
#[derive(Drop)]
pub struct Record {
    pub ghost calls: { List Event } by { events_code },
}

impl Model for Record {
    ghost also_owns = { λ _. ftrue };
}

impl Record {
    ghost use Rattle.jsonc_files.specs.Noted.{event_of};

    pub fn new() -> Record
        ensures { result.calls ≡ [] }
    {
        Record {}
    }

    /// Notes a call.
    #[inline(always)]
    pub fn note(&mut self, call: &Call<'_>)
        ensures { self.new.calls ≡ event_of call.now ∷ self.old.calls }
    {
        *self = self.and(call);
    }

    #[inline(always)]
    fn and(&self, _call: &Call<'_>) -> Record
        ensures { result.calls ≡ event_of _call.now ∷ self.now.calls }
    {
        Record {}
    }
}
