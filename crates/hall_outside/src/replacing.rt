// What a new file may replace, and which files are read.
ghost use Rattle.std.specs.Prelude.{◌≡◌, OnOk};
ghost use Rattle.folder_calls.specs.World.{Now};
ghost use Rattle.hall_outside.specs.Beginning.{MayBegin};

use crate::refusals::{Refusal, Standing, reading_refusal, replacing_refusal};
use folder_calls::{Folder, Found, OWNER_WRITES};
use std::io::{self, ErrorKind};

/// The bits of a file that holds a secret, of which a replaced one keeps its owner's.
const SECRET_BITS: u32 = 0o600;

/// The permission bits of the owner.
const OWNER_BITS: u32 = 0o700;

/// The system's number for a folder where a file is wanted.
const IS_A_FOLDER: i32 = 21;

/// Whether the file holds a secret, which its name alone says.
pub(crate) fn is_secret(name: &str) -> bool {
    name.ends_with(".office")
}

/// Whether the file says which others belong to it: a roster of a set of logs, and an office that is
/// made with its key. An office that is replaced isn't one: its new number is in place before what
/// was signed with the old one.
pub(crate) fn is_mark(name: &str, old: &Option<Found>) -> bool {
    name.ends_with(".roster") || is_secret(name) && old.is_none()
}

/// The file that a new one of this name is to replace, if there is one. It fails where that may not
/// be replaced.
pub(crate) fn replaced<F: Folder>(folder: &mut F, name: &str) -> io::Result<Option<Found>>
    ensures same { F.moments folder.new ≡ F.moments folder.old }
    ensures allowed { OnOk result (Now (F.moments folder.old) (MayBegin name.now)) }
{
    let Some(found) = folder.look(name)? else {
        return Ok(None);
    };
    match replacing_refusal(&standing_of(name, &found)) {
        Some(refusal) => Err(error_of(refusal, &found)),
        None => Ok(Some(found)),
    }
}

fn standing_of(name: &str, found: &Found) -> Standing
    ensures { result.is_regular ≡ (found.now).is_regular }
{
    Standing {
        is_regular: found.is_regular,
        owner_writes: found.bits & OWNER_WRITES != 0,
        links: found.links,
        was_read: found.was_read,
        is_secret: is_secret(name),
    }
}

/// The refusal with what to do, for a line to the user.
fn error_of(refusal: Refusal, found: &Found) -> io::Error {
    match refusal {
        Refusal::NotRegular if found.is_folder => io::Error::from_raw_os_error(IS_A_FOLDER),
        Refusal::NotRegular if found.is_link => {
            refused("it is a symbolic link: name the file that it leads to")
        }
        Refusal::NotRegular => refused("it is no regular file"),
        Refusal::Protected => refused("it is write-protected: chmod u+w it, or name another file"),
        Refusal::WasRead => refused("this command has read it: name another file to be written"),
        Refusal::OtherName => {
            refused("it has another name too (a hard link): remove one of the two")
        }
    }
}

fn refused(why: &str) -> io::Error {
    io::Error::new(ErrorKind::PermissionDenied, why)
}

/// Fails where what was found may not be read.
pub(crate) fn require_readable(name: &str, found: &Found) -> io::Result<()> {
    match reading_refusal(&standing_of(name, found)) {
        Some(refusal) => Err(error_of(refusal, found)),
        None => Ok(()),
    }
}

/// The permission bits that the file is to have: those of the file that it replaces, the owner's
/// alone where it holds a secret, or `None` for the default.
pub(crate) fn kept_bits(name: &str, old: &Option<Found>) -> Option<u32> {
    let bits = match old {
        Some(old) => Some(old.bits),
        None => None,
    };
    if is_secret(name) {
        return Some(bits.unwrap_or(SECRET_BITS) & OWNER_BITS);
    }
    bits
}
