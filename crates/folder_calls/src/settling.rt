// The owner and the permission bits that a new file gets.

ghost use Rattle.std.specs.Prelude.{◌≡◌};

use crate::begun::Begun;
use crate::folder::{Folder, Found};
use std::io::{self, ErrorKind};

/// Gives the new file the owner and the group of the one that it replaces, and the permission bits
/// that it is to have.
pub(crate) fn settle<F: Folder>(folder: &mut F, file: &Begun) -> io::Result<()>
    ensures { F.moments folder.new ≡ F.moments folder.old }
{
    if let Some(old) = &file.old {
        keep_owner(folder, file.number, old)?;
    }
    match file.bits {
        Some(bits) => require_bits(folder, file.number, bits),
        None => Ok(()),
    }
}

/// Gives the file the owner and the group of the old one, where the system lets this user.
fn keep_owner<F: Folder>(folder: &mut F, number: u64, old: &Found) -> io::Result<()>
    ensures { F.moments folder.new ≡ F.moments folder.old }
{
    let new = folder.look_open(number)?;
    if new.owner == old.owner && new.group == old.group {
        return Ok(());
    }
    match folder.give_owner(number, old.owner, old.group) {
        Err(error) if is_not_allowed(error.kind()) => Ok(()),
        result => result,
    }
}

/// Whether the user may not give files to that owner, or nobody can: the owner isn't one of this
/// namespace.
fn is_not_allowed(kind: ErrorKind) -> bool {
    matches!(kind, ErrorKind::PermissionDenied | ErrorKind::InvalidInput)
}

/// Sets the bits, of which the user's mask took some from the new file.
fn require_bits<F: Folder>(folder: &mut F, number: u64, bits: u32) -> io::Result<()>
    ensures { F.moments folder.new ≡ F.moments folder.old }
{
    if folder.look_open(number)?.bits == bits {
        return Ok(());
    }
    folder.set_bits(number, bits)
}
