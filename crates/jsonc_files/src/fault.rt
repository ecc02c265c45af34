// Why a file was not edited.
use crate::record::Step;
use std::{fmt, io};

/// Why a call on a file was given up.
#[derive(Debug, Drop)]
pub enum FileError {
    /// The name has a folder, a device or the like.
    NotAFile,
    /// Each time that the file was opened, another file had taken the name.
    Replaced,
    /// After the file was read, it was changed or its name was given to another.
    Changed,
    /// The step failed.
    Failed(Step, io::Error),
}

/// Why an edit of a file was given up.
#[derive(Debug, Drop)]
pub enum Fault<E> {
    /// The change refuses the text.
    Refused(E),
    /// The file is as it was.
    File(FileError),
    /// The file has the new text, but the folder could not be synchronized, so a crash may leave the old one.
    NotDurable(io::Error),
}

/// What could not be done, as a line says it.
fn step_text(step: Step) -> &'static str {
    match step {
        Step::OpenFolder => "Cannot open the folder",
        Step::Open => "Cannot open the file",
        Step::Lock => "Cannot lock the file",
        Step::Find | Step::Compare => "Cannot look at the file",
        Step::Read => "Cannot read the file",
        Step::Create => "Cannot create a file beside it",
        Step::Write => "Cannot write the new text",
        Step::FindMode | Step::SetMode => "Cannot set the mode",
        Step::SetOwner => "Cannot set the owner",
        Step::Sync => "Cannot synchronize the new text",
        Step::Rename => "Cannot rename the new file",
        Step::Remove => "Cannot remove the new file",
        Step::SyncFolder => "Cannot synchronize the folder",
    }
}

impl fmt::Display for FileError {
    fn fmt<W: fmt::Write>(&self, f: &mut fmt::Formatter<W>) -> fmt::Result {
        match self {
            FileError::NotAFile => f.write_str("Not a regular file"),
            FileError::Replaced => f.write_str("The file was replaced each time it was opened"),
            FileError::Changed => f.write_str("The file was changed by another program"),
            FileError::Failed(step, error) => write!(f, "{}: {}", step_text(*step), error),
        }
    }
}
