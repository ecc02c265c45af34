// A file, under its name in a folder, and the calls that replace it.
ghost use Rattle.std.specs.Prelude.{◌≡◌, ℕ, List, ◌∷◌};
ghost use Rattle.jsonc_files.specs.Calls.{Event, answered, opened_folder, opened, locked, found, was_read, created, wrote, found_mode, set_owner as was_given, set_mode as has_mode, synced, compared, renamed, removed, synced_folder};
ghost use Rattle.jsonc_files.specs.Order.{IsLocked, IsFree, IsReady};
ghost use Rattle.jsonc_files.specs.declared.record.Step.TheVariants as step;

use std::alloc::Allocator;
use std::io;

/// Whether the new file has the owner and the group of the old one.
#[derive(Clone, Copy, Debug, PartialEq, Eq, Drop)]
pub struct Owners {
    pub owner: bool,
    pub group: bool,
}

/// A name and its file. Each method is one step, which notes its answer; `specs/System.antt` says what the steps do to
/// the text at the name, and what a crash leaves there. That the system does so is trusted.
pub trait Folder {
    /// The calls so far, the last one first.
    ghost calls: { Self → List Event };

    /// Finds the file that the name leads to through symbolic links, and opens its folder.
    fn open_folder(&mut self) -> io::Result<()>
        ensures { calls self.new ≡ answered result (λ _. opened_folder) step.OpenFolder ∷ calls self.old };

    /// Opens the file for reading, if it is a regular one, and tells whether it is.
    fn open(&mut self) -> io::Result<bool>
        ensures { calls self.new ≡ answered result opened step.Open ∷ calls self.old };

    /// Waits until no other process has the file locked, and locks it until it is closed.
    fn lock(&mut self) -> io::Result<()>
        ensures { calls self.new ≡ answered result (λ _. locked) step.Lock ∷ calls self.old };

    /// Tells whether the name has the file that is open.
    fn find(&mut self) -> io::Result<bool>
        ensures { calls self.new ≡ answered result found step.Find ∷ calls self.old };

    /// Reads the file to its end.
    fn read<A: Allocator>(&mut self, alloc: A) -> io::Result<Vec<u8, A>>
        requires { IsLocked (calls self.old) }
        ensures { calls self.new ≡ answered result (λ bytes. was_read bytes.items) step.Read ∷ calls self.old };

    /// Makes a new file with this mode in the folder, under a name that no file has.
    fn create(&mut self, mode: u32) -> io::Result<()>
        requires { IsFree (calls self.old) }
        ensures { calls self.new ≡ answered result (λ _. created mode) step.Create ∷ calls self.old };

    /// Writes all of this at the end of the new file.
    fn write(&mut self, bytes: &[u8]) -> io::Result<()>
        ensures { calls self.new ≡ answered result (λ _. wrote bytes.now) step.Write ∷ calls self.old };

    /// The mode that the file had when it was read.
    fn mode(&mut self) -> io::Result<u32>
        ensures { calls self.new ≡ answered result found_mode step.FindMode ∷ calls self.old };

    /// Gives the new file the owner and the group of the old one, as far as this process may, and tells which it has.
    fn set_owner(&mut self) -> io::Result<Owners>
        ensures { calls self.new ≡ answered result (λ owners. was_given owners.owner owners.group) step.SetOwner ∷ calls self.old };

    /// Gives the new file this mode.
    fn set_mode(&mut self, mode: u32) -> io::Result<()>
        ensures { calls self.new ≡ answered result (λ _. has_mode mode) step.SetMode ∷ calls self.old };

    /// Puts the new file on the disk.
    fn sync(&mut self) -> io::Result<()>
        ensures { calls self.new ≡ answered result (λ _. synced) step.Sync ∷ calls self.old };

    /// Tells whether the name has the file that was read, with the length and the time of change that it had.
    fn compare(&mut self) -> io::Result<bool>
        ensures { calls self.new ≡ answered result compared step.Compare ∷ calls self.old };

    /// Gives the name to the new file.
    fn rename(&mut self) -> io::Result<()>
        requires { (text : List ℕ) × IsReady text (calls self.old) }
        ensures { calls self.new ≡ answered result (λ _. renamed) step.Rename ∷ calls self.old };

    /// Removes the new file.
    fn remove(&mut self) -> io::Result<()>
        ensures { calls self.new ≡ answered result (λ _. removed) step.Remove ∷ calls self.old };

    /// Puts the folder's names on the disk.
    fn sync_folder(&mut self) -> io::Result<()>
        ensures { calls self.new ≡ answered result (λ _. synced_folder) step.SyncFolder ∷ calls self.old };
}
