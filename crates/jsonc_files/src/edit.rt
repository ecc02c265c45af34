// The steps of an edit, in order.
ghost use Rattle.std.specs.Prelude.{◌≡◌, ◌⊎◌, ℕ, Option, Some, None, true, false, List, [], ◌∷◌, IfOk, IfErr, OnOk, OnErr, IsTrue, IsFalse};
ghost use Rattle.jsonc_files.specs.Calls.{Event, found, synced, compared, renamed};
ghost use Rattle.jsonc_files.specs.Order.{IsLocked, IsFree};
ghost use Rattle.jsonc_files.specs.Moments.{MayHaveLeft, AgreesWithRead};
ghost use Rattle.jsonc_files.specs.Edited.{HasMade, AfterFault, NoneBeside, MadeNoFile, IsMade, HasCause, CausesFault};
ghost use Rattle.jsonc_files.specs.Steps.{IsBefore, Keeps, IsCreated, IsFilled, IsWritten, IsPut, IsRenamed, IsGivenUp};

use crate::mode::fitting_mode;
use crate::record::Step;
use crate::{Change, Fault, FileError, Folder};
use std::alloc::Allocator;
use std::io::ErrorKind;

/// Nobody but its owner may read or write the file.
const PRIVATE: u32 = 0o600;

/// How often a step is tried that another process may have got in the way of.
const TRIES: usize = 16;

/// Opens the file and locks it, and tells whether the name still has it.
fn open_locked<F: Folder>(folder: &mut F) -> Result<bool, FileError>
    ensures keeps { Keeps (F.calls folder.old) (F.calls folder.new) }
    ensures nothing { MadeNoFile (F.calls folder.old) → MadeNoFile (F.calls folder.new) }
    ensures locked { IfOk result (λ same. IsTrue same → IsLocked (F.calls folder.new)) }
    ensures replaced { IfOk result (λ same. IsFalse same → IsMade (found false) (F.calls folder.new)) }
    ensures cause { IfErr result (HasCause (F.calls folder.new)) }
{
    if let Err(error) = folder.open_folder() {
        return Err(FileError::Failed(Step::OpenFolder, error));
    }
    match folder.open() {
        Ok(true) => {}
        Ok(false) => return Err(FileError::NotAFile),
        Err(error) => return Err(FileError::Failed(Step::Open, error)),
    }
    if let Err(error) = folder.lock() {
        return Err(FileError::Failed(Step::Lock, error));
    }
    match folder.find() {
        Ok(same) => Ok(same),
        Err(error) => Err(FileError::Failed(Step::Find, error)),
    }
}

/// Opens and locks the file that the name has, again where another has taken the name meanwhile.
fn open_current<F: Folder>(folder: &mut F) -> Result<(), FileError>
    ensures keeps { Keeps (F.calls folder.old) (F.calls folder.new) }
    ensures nothing { MadeNoFile (F.calls folder.old) → MadeNoFile (F.calls folder.new) }
    ensures locked { OnOk result (IsLocked (F.calls folder.new)) }
    ensures cause { IfErr result (HasCause (F.calls folder.new)) }
{
    for _attempt in 0..TRIES {
        if open_locked(folder)? {
            return Ok(());
        }
    }
    Err(FileError::Replaced)
}

/// The text of the file that the name has, which is locked from before it is read.
fn read_current<F: Folder, A: Allocator>(alloc: A, folder: &mut F) -> Result<Vec<u8, A>, FileError>
    ensures nothing { MadeNoFile (F.calls folder.old) → MadeNoFile (F.calls folder.new) }
    ensures ok { IfOk result (λ text. IsBefore None 0 (F.calls folder.old) → IsBefore (Some text.items) 0 (F.calls folder.new)) }
    ensures err { OnErr result (Keeps (F.calls folder.old) (F.calls folder.new)) }
    ensures cause { IfErr result (HasCause (F.calls folder.new)) }
{
    open_current(folder)?;
    match folder.read(alloc) {
        Ok(text) => Ok(text),
        Err(error) => Err(FileError::Failed(Step::Read, error)),
    }
}

/// Makes a new file beside the old one, under a name that is free.
fn create<F: Folder>(folder: &mut F) -> Result<(), FileError>
    requires { IsFree (F.calls folder.old) }
    ensures ok { OnOk result (IsCreated (F.calls folder.old) (F.calls folder.new)) }
    ensures err { OnErr result (Keeps (F.calls folder.old) (F.calls folder.new)) }
    ensures cause { IfErr result (HasCause (F.calls folder.new)) }
{
    for _attempt in 1..TRIES {
        match folder.create(PRIVATE) {
            Ok(()) => return Ok(()),
            Err(error) if error.kind() == ErrorKind::AlreadyExists => {}
            Err(error) => return Err(FileError::Failed(Step::Create, error)),
        }
    }
    match folder.create(PRIVATE) {
        Ok(()) => Ok(()),
        Err(error) => Err(FileError::Failed(Step::Create, error)),
    }
}

/// Writes the text to the new file, and gives it the owner of the old one, and then its mode.
fn fill<F: Folder>(folder: &mut F, text: &[u8]) -> Result<(), FileError>
    ensures ok { OnOk result (IsFilled text.now (F.calls folder.old) (F.calls folder.new)) }
    ensures err { OnErr result (Keeps (F.calls folder.old) (F.calls folder.new)) }
    ensures cause { IfErr result (HasCause (F.calls folder.new)) }
{
    if let Err(error) = folder.write(text) {
        return Err(FileError::Failed(Step::Write, error));
    }
    let mode = match folder.mode() {
        Ok(mode) => mode,
        Err(error) => return Err(FileError::Failed(Step::FindMode, error)),
    };
    let owners = match folder.set_owner() {
        Ok(owners) => owners,
        Err(error) => return Err(FileError::Failed(Step::SetOwner, error)),
    };
    match folder.set_mode(fitting_mode(mode, owners)) {
        Ok(()) => Ok(()),
        Err(error) => Err(FileError::Failed(Step::SetMode, error)),
    }
}

/// Puts the new file on the disk, and gives it the name where the file there is still as it was read.
fn take_name<F: Folder>(folder: &mut F) -> Result<(), FileError>
    requires { (text : List ℕ) × IsWritten text (F.calls folder.old) }
    ensures ok { OnOk result (F.calls folder.new ≡ renamed ∷ compared true ∷ synced ∷ F.calls folder.old) }
    ensures err { OnErr result (Keeps (F.calls folder.old) (F.calls folder.new)) }
    ensures cause { IfErr result (HasCause (F.calls folder.new)) }
{
    if let Err(error) = folder.sync() {
        return Err(FileError::Failed(Step::Sync, error));
    }
    match folder.compare() {
        Ok(true) => {}
        Ok(false) => return Err(FileError::Changed),
        Err(error) => return Err(FileError::Failed(Step::Compare, error)),
    }
    match folder.rename() {
        Ok(()) => Ok(()),
        Err(error) => Err(FileError::Failed(Step::Rename, error)),
    }
}

/// Fills the new file, and gives it the name.
fn fill_and_rename<F: Folder>(folder: &mut F, text: &[u8]) -> Result<(), FileError>
    requires { (first : List Event) × IsCreated first (F.calls folder.old) }
    ensures ok { OnOk result (IsPut text.now (F.calls folder.old) (F.calls folder.new)) }
    ensures err { OnErr result (Keeps (F.calls folder.old) (F.calls folder.new)) }
    ensures cause { IfErr result (HasCause (F.calls folder.new)) }
{
    fill(folder, text)?;
    take_name(folder)
}

/// Puts a new file with this text in the place of the old one. After a fault it is removed.
fn put<F: Folder>(folder: &mut F, text: &[u8]) -> Result<(), FileError>
    requires { (read : Option (List ℕ)) × IsBefore read 0 (F.calls folder.old) }
    ensures ok { OnOk result ((read : Option (List ℕ)) → IsBefore read 0 (F.calls folder.old) → IsRenamed read text.now (F.calls folder.new)) }
    ensures err { OnErr result ((read : Option (List ℕ)) → IsBefore read 0 (F.calls folder.old) → IsGivenUp read (F.calls folder.new)) }
    ensures cause { IfErr result (HasCause (F.calls folder.new)) }
{
    create(folder)?;
    let Err(error) = fill_and_rename(folder, text) else {
        return Ok(());
    };
    // What is told is why the edit was given up, whether or not the new file can be removed.
    let _ = folder.remove();
    Err(error)
}

/// What an edit did.
#[derive(Clone, Copy, Debug, PartialEq, Eq, Drop)]
pub enum Edited {
    /// Nothing changes, and nothing was written.
    Unchanged,
    /// The file has the new text.
    Replaced,
}

/// Changes the text of the file that the name of `folder` leads to.
///
/// A crash at any moment leaves the text from before the call or the new one at the name. After `Ok` the name has the
/// new text, and a crash leaves it; after an error the name has the text from before, and a crash leaves that; only
/// `NotDurable` says that the name has the new text, of which a crash may leave the old one.
pub fn replace<F: Folder, A: Allocator, C: Change<A>>(
    alloc: A,
    folder: &mut F,
    change: &mut C,
) -> Result<Edited, Fault<C::Error>>
    requires fresh { F.calls folder.old ≡ [] }

    // A crash at any moment of the call leaves the text from before it, or one that the change makes of that.
    ensures any_moment { (before c : List ℕ) → AgreesWithRead before (F.calls folder.new)
        → MayHaveLeft before (F.calls folder.new) c → (c ≡ before) ⊎ C.makes change.old before c }

    ensures done { (before : List ℕ) → AgreesWithRead before (F.calls folder.new)
        → OnOk result (HasMade (C.makes change.old) before (F.calls folder.new)) }
    // Where nothing changes, nothing is written.
    ensures unchanged { IfOk result (λ edited. edited ≡ Edited.Unchanged → MadeNoFile (F.calls folder.new)) }

    ensures fault { (before : List ℕ) → AgreesWithRead before (F.calls folder.new)
        → IfErr result (AfterFault (C.makes change.old) before (F.calls folder.new)) }
    ensures cause { (before : List ℕ) → AgreesWithRead before (F.calls folder.new)
        → IfErr result (CausesFault (C.refuses change.old) before (F.calls folder.new)) }
    ensures alone { NoneBeside (F.calls folder.new) }
{
    let old = match read_current(alloc, folder) {
        Ok(old) => old,
        Err(error) => return Err(Fault::File(error)),
    };
    let new = match change.new_text(&old) {
        Ok(Some(new)) => new,
        Ok(None) => return Ok(Edited::Unchanged),
        Err(error) => return Err(Fault::Refused(error)),
    };
    if let Err(error) = put(folder, &new) {
        return Err(Fault::File(error));
    }
    match folder.sync_folder() {
        Ok(()) => Ok(Edited::Replaced),
        Err(error) => Err(Fault::NotDurable(error)),
    }
}
