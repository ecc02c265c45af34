//! Edits of a file in a folder in memory.
ghost use Rattle.std.specs.Prelude.{◌≡◌, ◌⊎◌, ◌++◌, [], ◌∷◌, ⊤};

mod memory;

use crate::tests::memory::{Event, Memory};
use failing_alloc::in_turn::is_refused_in_turn;
use failing_alloc::outcome::Outcome;
use jsonc_files::record::Step;
use jsonc_files::{Change, Edited, Fault, FileError, Owners, fitting_mode, replace};
use std::alloc::{AllocError, Allocator, Global};
use std::io::ErrorKind;
use std::test::Fail;

const OLD: &[u8] = b"old";

const NEW: &[u8] = b"old!";

/// Adds a `!` to a text; but one that begins with `#` stays, and an empty one is refused.
#[derive(Drop)]
struct Shout<A: Allocator + Copy> {
    alloc: A,
}

#[derive(Clone, Copy, Debug, PartialEq, Eq, Drop)]
enum Refusal {
    Empty,
    Memory,
}

impl From<AllocError> for Refusal {
    fn from(_error: AllocError) -> Refusal {
        Refusal::Memory
    }
}

impl<A: Allocator + Copy> Change<A> for Shout<A> {
    type Error = Refusal;

    ghost makes = { λ _ old new. (new ≡ old) ⊎ (new ≡ old ++ 33 ∷ []) };

    ghost refuses = { λ _ _ _. ⊤ };

    fn new_text(&mut self, old: &[u8]) -> Result<Option<Vec<u8, A>>, Refusal> {
        match old {
            [] => Err(Refusal::Empty),
            [b'#', ..] => Ok(None),
            _ => {
                let mut new = Vec::new(self.alloc);
                new.extend_from_slice(old)?;
                new.extend_from_slice(b"!")?;
                Ok(Some(new))
            }
        }
    }
}

/// The folder after an edit of a file with this text, and what the edit answered.
fn edited(
    alloc: Global,
    text: &[u8],
    event: Event,
) -> Result<(Memory, Result<Edited, Fault<Refusal>>), AllocError> {
    let mut folder = Memory::new(alloc, text.to_vec(alloc)?, event);
    let mut change = Shout { alloc };
    let answer = replace(alloc, &mut folder, &mut change);
    Ok((folder, answer))
}

/// The steps of an edit, in order.
static STEPS: [Step; 14] = [
    Step::OpenFolder,
    Step::Open,
    Step::Lock,
    Step::Find,
    Step::Read,
    Step::Create,
    Step::Write,
    Step::FindMode,
    Step::SetOwner,
    Step::SetMode,
    Step::Sync,
    Step::Compare,
    Step::Rename,
    Step::SyncFolder,
];

#[test]
fn the_text_is_replaced(rt: HostRuntime) -> Result<(), Fail> {
    let (folder, answer) = edited(rt.alloc(), OLD, Event::Nothing)?;
    assert!(rt; matches!(answer, Ok(Edited::Replaced)));
    assert_eq!(rt; folder.named.bytes.as_slice(), NEW);
    assert_eq!(rt; folder.named.mode, 0o640);
    assert!(rt; folder.named.is_synced && folder.was.is_none() && folder.beside.is_none());
    assert_eq!(rt; folder.count(), 14);
    Ok(())
}

/// Where a step fails, the fault names it, the old text is there, and no other file; but after the renaming the new text
/// is there.
#[test]
fn each_step_fails_in_turn(rt: HostRuntime) -> Result<(), Fail> {
    let mut number = 0u32;
    for step in STEPS.iter() {
        let (folder, answer) = edited(rt.alloc(), OLD, Event::Fails(number))?;
        number = number.saturating_add(1);
        let is_named = match answer {
            Err(Fault::File(FileError::Failed(named, error))) => {
                named == *step
                    && error.kind() == ErrorKind::StorageFull
                    && folder.named.bytes.as_slice() == OLD
            }
            Err(Fault::NotDurable(error)) => {
                *step == Step::SyncFolder
                    && error.kind() == ErrorKind::StorageFull
                    && folder.named.bytes.as_slice() == NEW
            }
            _ => false,
        };
        assert!(rt; is_named);
        assert!(rt; folder.beside.is_none());
    }
    Ok(())
}

/// Whether the text is the old one or the new one, all of it.
fn is_whole(bytes: &[u8]) -> bool {
    bytes == OLD || bytes == NEW
}

/// Where the process ends at a call, the name has a whole text, and so it is after a loss of power: what the name had
/// before, or a new file that the disk has.
#[test]
fn the_process_ends_at_each_call(rt: HostRuntime) -> Result<(), Fail> {
    for number in 0..15u32 {
        let (folder, answer) = edited(rt.alloc(), OLD, Event::Ends(number))?;
        assert!(rt; answer.is_ok() == (number == 14));
        assert!(rt; is_whole(folder.named.bytes.as_slice()) && folder.named.is_synced);
        if let Some(was) = &folder.was {
            assert_eq!(rt; was.bytes.as_slice(), OLD);
        }
    }
    Ok(())
}

#[test]
fn no_text_is_written_in_vain(rt: HostRuntime) -> Result<(), Fail> {
    let (folder, answer) = edited(rt.alloc(), b"#", Event::Nothing)?;
    assert!(rt; matches!(answer, Ok(Edited::Unchanged)));
    assert_eq!(rt; folder.count(), 5);
    let (folder, answer) = edited(rt.alloc(), b"", Event::Nothing)?;
    assert!(rt; matches!(answer, Err(Fault::Refused(Refusal::Empty))));
    assert_eq!(rt; folder.count(), 5);
    Ok(())
}

#[test]
fn other_processes_are_noticed(rt: HostRuntime) -> Result<(), Fail> {
    let (folder, answer) = edited(rt.alloc(), OLD, Event::Changes)?;
    assert!(rt; matches!(answer, Err(Fault::File(FileError::Changed))));
    assert!(rt; folder.named.bytes.as_slice() == OLD && folder.beside.is_none());
    let (folder, answer) = edited(rt.alloc(), OLD, Event::TakesName(15))?;
    assert!(rt; matches!(answer, Ok(Edited::Replaced)));
    assert_eq!(rt; folder.named.bytes.as_slice(), NEW);
    let (folder, answer) = edited(rt.alloc(), OLD, Event::TakesName(16))?;
    assert!(rt; matches!(answer, Err(Fault::File(FileError::Replaced))));
    assert_eq!(rt; folder.named.bytes.as_slice(), OLD);
    let (folder, answer) = edited(rt.alloc(), OLD, Event::IsNoFile)?;
    assert!(rt; matches!(answer, Err(Fault::File(FileError::NotAFile))));
    assert_eq!(rt; folder.count(), 2);
    Ok(())
}

#[test]
fn another_name_is_tried(rt: HostRuntime) -> Result<(), Fail> {
    let (folder, answer) = edited(rt.alloc(), OLD, Event::HasName(15))?;
    assert!(rt; matches!(answer, Ok(Edited::Replaced)));
    assert_eq!(rt; folder.named.bytes.as_slice(), NEW);
    let (folder, answer) = edited(rt.alloc(), OLD, Event::HasName(16))?;
    assert!(rt; matches!(answer, Err(Fault::File(FileError::Failed(Step::Create, _)))));
    assert_eq!(rt; folder.named.bytes.as_slice(), OLD);
    let (folder, answer) = edited(rt.alloc(), OLD, Event::HasOtherOwner)?;
    assert!(rt; matches!(answer, Ok(Edited::Replaced)));
    assert_eq!(rt; folder.named.mode, 0o600);
    Ok(())
}

/// A mode, whether the new file has the owner and the group, and the mode that it is given.
static MODES: [(u32, bool, bool, u32); 9] = [
    (0o100644, true, true, 0o644),
    (0o104755, true, true, 0o4755),
    (0o104755, false, true, 0o755),
    (0o102755, true, false, 0o755),
    (0o100664, true, false, 0o644),
    (0o100640, true, false, 0o600),
    (0o100660, false, false, 0o600),
    (0o100604, true, false, 0o600),
    (0o106777, false, false, 0o777),
];

#[test]
fn modes_give_nobody_more(rt: HostRuntime) -> Result<(), Fail> {
    for (mode, owner, group, given) in MODES.iter() {
        let owners = Owners {
            owner: *owner,
            group: *group,
        };
        assert_eq!(rt; fitting_mode(*mode, owners), *given);
    }
    Ok(())
}

/// What came of an edit, with this memory for the texts.
fn with_memory<A: Allocator + Copy>(alloc: Global, heap: A) -> Result<Outcome, AllocError> {
    let mut folder = Memory::new(alloc, OLD.to_vec(alloc)?, Event::Nothing);
    let mut change = Shout { alloc: heap };
    let answer = replace(heap, &mut folder, &mut change);
    let text = folder.named.bytes.as_slice();
    Ok(match answer {
        Ok(Edited::Replaced) => Outcome::of(text == NEW),
        Err(Fault::Refused(Refusal::Memory)) if text == OLD => Outcome::Wanted,
        Err(Fault::File(FileError::Failed(Step::Read, error)))
            if error.kind() == ErrorKind::OutOfMemory && text == OLD => { Outcome::Wanted }
        _ => Outcome::Other,
    })
}

#[test]
fn memory_is_refused_in_turn(rt: HostRuntime) -> Result<(), Fail> {
    let alloc = rt.alloc();
    assert!(rt;
        is_refused_in_turn(alloc, |heap| {
            with_memory(alloc, heap).unwrap_or(Outcome::Other)
        })
    );
    Ok(())
}
