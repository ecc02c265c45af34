// Each method makes its calls of the system, and then notes the step with its answer. A body that notes what it has
// not done would be proved too, so these have to be read.
ghost use Rattle.std.specs.Prelude.{◌≡◌, []};

use jsonc_files::record::{Call, Record, Step};
use jsonc_files::{Folder, Owners};
use std::alloc::Allocator;
use std::fs::{self, File, Metadata, OpenOptions, Permissions};
use std::hash::{BuildHasher, RandomState};
use std::io::{self, ErrorKind, Read, Write};
use std::os::fd::AsRawFd;
use std::os::unix::fs::{MetadataExt, OpenOptionsExt, PermissionsExt, fchown};
use std::path::PathBuf;

/// The file that the name leads to, with no symbolic link in its path, and its folder.
#[derive(Drop)]
struct Place {
    path: PathBuf,
    folder: File,
}

/// A file with a name of its own.
#[derive(Drop)]
struct NewFile {
    path: PathBuf,
    file: File,
}

/// A file of the system under a name, as a program is given it.
#[derive(Drop)]
pub struct HostFolder<'a> {
    rt: &'a HostRuntime,
    name: &'a str,
    place: Option<Place>,
    file: Option<File>,
    /// What the system said of the file before it was read.
    seen: Option<Metadata>,
    new: Option<NewFile>,
    made: Record,
}

/// What a step before has not made.
fn missing() -> io::Error {
    ErrorKind::NotFound.into()
}

/// The file under a descriptor above those of the standard streams, so that nothing is written to it by mistake where
/// the program was started with one of them closed.
fn above_streams(file: File) -> io::Result<File> {
    if file.as_raw_fd() > 2 {
        Ok(file)
    } else {
        file.try_clone()
    }
}

fn is_same_file(a: &Metadata, b: &Metadata) -> bool {
    a.dev() == b.dev() && a.ino() == b.ino()
}

fn is_unchanged(a: &Metadata, b: &Metadata) -> bool {
    is_same_file(a, b)
        && a.len() == b.len()
        && a.ctime() == b.ctime()
        && a.ctime_nsec() == b.ctime_nsec()
}

/// Opens a file that is to be read. It is opened for writing too where that may be, since some file systems lock no
/// other file; nothing is written to it.
fn open_to_lock(rt: &HostRuntime, path: &str) -> io::Result<File> {
    match OpenOptions::new().read(true).write(true).open(rt, path) {
        Ok(file) => Ok(file),
        Err(_) => File::open(rt, path),
    }
}

/// The text of an open file, and what the system said of the file before it was read.
fn read_all<A: Allocator>(file: &mut File, alloc: A) -> io::Result<(Metadata, Vec<u8, A>)> {
    let seen = file.metadata()?;
    let mut bytes = Vec::new(alloc);
    file.read_to_end(&mut bytes)?;
    Ok((seen, bytes))
}

impl<'a> HostFolder<'a> {
    ghost use Rattle.jsonc_host.specs.Host.{calls_of};

    /// The file that `name` leads to, of which nothing has been asked yet.
    pub fn new(rt: &'a HostRuntime, name: &'a str) -> HostFolder<'a>
        ensures { calls_of result ≡ [] }
    {
        HostFolder {
            rt,
            name,
            place: None,
            file: None,
            seen: None,
            new: None,
            made: Record::new(),
        }
    }

    fn find_place(&self) -> io::Result<Place> {
        let path = fs::canonicalize(self.rt, self.name)?;
        let Some(parent) = path.parent() else {
            return Err(ErrorKind::InvalidInput.into());
        };
        let folder = above_streams(File::open(self.rt, parent)?)?;
        Ok(Place { path, folder })
    }

    /// The file, if it is a regular one. Nothing else is opened, since that might wait, or do something.
    fn open_regular(&self) -> io::Result<Option<File>> {
        let Some(place) = &self.place else {
            return Err(missing());
        };
        if !fs::symlink_metadata(self.rt, place.path.as_str())?.is_file() {
            return Ok(None);
        }
        let file = above_streams(open_to_lock(self.rt, place.path.as_str())?)?;
        if file.metadata()?.is_file() {
            Ok(Some(file))
        } else {
            Ok(None)
        }
    }

    /// What the system says of the file under the name.
    fn under_name(&self) -> io::Result<Metadata> {
        match &self.place {
            Some(place) => fs::symlink_metadata(self.rt, place.path.as_str()),
            None => Err(missing()),
        }
    }

    fn has_name(&self) -> io::Result<bool> {
        match &self.file {
            Some(file) => Ok(is_same_file(&file.metadata()?, &self.under_name()?)),
            None => Err(missing()),
        }
    }

    fn make(&self, mode: u32) -> io::Result<NewFile> {
        let Some(place) = &self.place else {
            return Err(missing());
        };
        let number = RandomState::new(self.rt)?.hash_one(&0u8);
        let name = format!(in self.rt.alloc(); ".jsonc-{number:016x}")?;
        let path = place.path.with_file_name(self.rt.alloc(), name.as_str())?;
        let file = OpenOptions::new()
            .write(true)
            .create_new(true)
            .mode(mode)
            .open(self.rt, path.as_str())?;
        match above_streams(file) {
            Ok(file) => Ok(NewFile { path, file }),
            Err(error) => {
                let _ = fs::remove_file(self.rt, path.as_str());
                Err(error)
            }
        }
    }

    /// An owner or a group that may not be set is passed over: the mode is chosen by what the new file has.
    fn give_owner(&self) -> io::Result<Owners> {
        let (Some(seen), Some(new)) = (&self.seen, &self.new) else {
            return Err(missing());
        };
        let _ = fchown(&new.file, None, Some(seen.gid()));
        let _ = fchown(&new.file, Some(seen.uid()), None);
        let given = new.file.metadata()?;
        Ok(Owners {
            owner: given.uid() == seen.uid(),
            group: given.gid() == seen.gid(),
        })
    }
}

impl Folder for HostFolder<'_> {
    ghost calls = { λ host. host.made.calls };

    fn open_folder(&mut self) -> io::Result<()> {
        match self.find_place() {
            Ok(place) => {
                self.place = Some(place);
                self.made.note(&Call::OpenedFolder);
                Ok(())
            }
            Err(error) => {
                self.made.note(&Call::Failed(Step::OpenFolder));
                Err(error)
            }
        }
    }

    fn open(&mut self) -> io::Result<bool> {
        match self.open_regular() {
            Ok(file) => {
                let is_regular = file.is_some();
                self.file = file;
                self.made.note(&Call::Opened(is_regular));
                Ok(is_regular)
            }
            Err(error) => {
                self.made.note(&Call::Failed(Step::Open));
                Err(error)
            }
        }
    }

    fn lock(&mut self) -> io::Result<()> {
        let answer = match &self.file {
            Some(file) => file.lock(),
            None => Err(missing()),
        };
        match answer {
            Ok(()) => self.made.note(&Call::Locked),
            Err(_) => self.made.note(&Call::Failed(Step::Lock)),
        }
        answer
    }

    fn find(&mut self) -> io::Result<bool> {
        let answer = self.has_name();
        match answer {
            Ok(same) => self.made.note(&Call::Found(same)),
            Err(_) => self.made.note(&Call::Failed(Step::Find)),
        }
        answer
    }

    fn read<A: Allocator>(&mut self, alloc: A) -> io::Result<Vec<u8, A>> {
        let answer = match &mut self.file {
            Some(file) => read_all(file, alloc),
            None => Err(missing()),
        };
        match answer {
            Ok((seen, bytes)) => {
                self.seen = Some(seen);
                self.made.note(&Call::Read(bytes.as_slice()));
                Ok(bytes)
            }
            Err(error) => {
                self.made.note(&Call::Failed(Step::Read));
                Err(error)
            }
        }
    }

    fn create(&mut self, mode: u32) -> io::Result<()> {
        match self.make(mode) {
            Ok(new) => {
                self.new = Some(new);
                self.made.note(&Call::Created(mode));
                Ok(())
            }
            Err(error) => {
                self.made.note(&Call::Failed(Step::Create));
                Err(error)
            }
        }
    }

    fn write(&mut self, bytes: &[u8]) -> io::Result<()> {
        let answer = match &mut self.new {
            Some(new) => new.file.write_all(bytes),
            None => Err(missing()),
        };
        match answer {
            Ok(()) => self.made.note(&Call::Wrote(bytes)),
            Err(_) => self.made.note(&Call::Failed(Step::Write)),
        }
        answer
    }

    fn mode(&mut self) -> io::Result<u32> {
        let answer = match &self.seen {
            Some(seen) => Ok(seen.mode()),
            None => Err(missing()),
        };
        match answer {
            Ok(mode) => self.made.note(&Call::FoundMode(mode)),
            Err(_) => self.made.note(&Call::Failed(Step::FindMode)),
        }
        answer
    }

    fn set_owner(&mut self) -> io::Result<Owners> {
        let answer = self.give_owner();
        match answer {
            Ok(owners) => self.made.note(&Call::SetOwner(owners.owner, owners.group)),
            Err(_) => self.made.note(&Call::Failed(Step::SetOwner)),
        }
        answer
    }

    fn set_mode(&mut self, mode: u32) -> io::Result<()> {
        let answer = match &self.new {
            Some(new) => new.file.set_permissions(Permissions::from_mode(mode)),
            None => Err(missing()),
        };
        match answer {
            Ok(()) => self.made.note(&Call::SetMode(mode)),
            Err(_) => self.made.note(&Call::Failed(Step::SetMode)),
        }
        answer
    }

    fn sync(&mut self) -> io::Result<()> {
        let answer = match &self.new {
            Some(new) => new.file.sync_all(),
            None => Err(missing()),
        };
        match answer {
            Ok(()) => self.made.note(&Call::Synced),
            Err(_) => self.made.note(&Call::Failed(Step::Sync)),
        }
        answer
    }

    fn compare(&mut self) -> io::Result<bool> {
        let answer = match (&self.seen, self.under_name()) {
            (Some(seen), Ok(found)) => Ok(is_unchanged(seen, &found)),
            (None, _) => Err(missing()),
            (_, Err(error)) => Err(error),
        };
        match answer {
            Ok(same) => self.made.note(&Call::Compared(same)),
            Err(_) => self.made.note(&Call::Failed(Step::Compare)),
        }
        answer
    }

    fn rename(&mut self) -> io::Result<()> {
        let answer = match (&self.new, &self.place) {
            (Some(new), Some(place)) => {
                fs::rename(self.rt, new.path.as_str(), place.path.as_str())
            }
            _ => Err(missing()),
        };
        match answer {
            Ok(()) => self.made.note(&Call::Renamed),
            Err(_) => self.made.note(&Call::Failed(Step::Rename)),
        }
        answer
    }

    fn remove(&mut self) -> io::Result<()> {
        let answer = match &self.new {
            Some(new) => fs::remove_file(self.rt, new.path.as_str()),
            None => Err(missing()),
        };
        match answer {
            Ok(()) => self.made.note(&Call::Removed),
            Err(_) => self.made.note(&Call::Failed(Step::Remove)),
        }
        answer
    }

    fn sync_folder(&mut self) -> io::Result<()> {
        let answer = match &self.place {
            Some(place) => place.folder.sync_all(),
            None => Err(missing()),
        };
        match answer {
            Ok(()) => self.made.note(&Call::SyncedFolder),
            Err(_) => self.made.note(&Call::Failed(Step::SyncFolder)),
        }
        answer
    }
}
