// The mode that a new file is given.
ghost use Rattle.std.specs.Prelude.{◌≡◌};
ghost use Rattle.jsonc_files.specs.Mode.{fitting};

use crate::Owners;

/// The mode for a file that takes the place of one of this mode. Where the new file has another owner or group, nobody
/// may do what only the old ones could.
pub fn fitting_mode(mode: u32, owners: Owners) -> u32
    ensures { result ≡ fitting mode owners.owner owners.group }
{
    let shared = (mode & mode / 8) % 8;
    match owners {
        Owners {
            owner: true,
            group: true,
        } => mode & 0o7777,
        Owners {
            owner: false,
            group: true,
        } => mode & 0o777,
        Owners {
            owner: _,
            group: false,
        } => (mode & 0o700) + shared * 8 + shared,
    }
}
