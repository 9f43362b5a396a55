// Calls of the system that are made again wherever a signal came first, and what they answer.
ghost use Rattle.std.specs.Prelude.{◌<◌, ◌≤◌, length, IfOk};
ghost use Rattle.folder_calls.specs.Writes.{IsCount};

use folder_calls::Found;
use std::fs::{self, File, Metadata};
use std::io::{self, ErrorKind, Read, Write};
use std::os::unix::fs::{MetadataExt, OpenOptionsExt};
use std::rt::Files;

/// The permission bits of a file, without those that change who runs it.
const BITS: u32 = 0o777;

/// Makes the call, and makes it again as long as a signal interrupts it.
pub(crate) fn again<T, F: FnMut() -> io::Result<T>>(mut call: F) -> io::Result<T>
    requires { F.IsAlwaysCallable call }
{
    for _ in 0..u64::MAX {
        match call() {
            Err(error) if error.kind() == ErrorKind::Interrupted => {}
            result => return result,
        }
    }
    Err(io::Error::from(ErrorKind::Interrupted))
}

/// What the call gave, and `None` where it failed for this reason.
pub(crate) fn none_where<T>(kind: ErrorKind, answer: io::Result<T>) -> io::Result<Option<T>> {
    match answer {
        Ok(given) => Ok(Some(given)),
        Err(error) if error.kind() == kind => Ok(None),
        Err(error) => Err(error),
    }
}

/// What stands under the name itself: a link, and not what it leads to. `None` where nothing has
/// the name.
pub(crate) fn look_for<R: Files>(rt: &R, name: &str) -> io::Result<Option<Metadata>> {
    none_where(
        ErrorKind::NotFound,
        again(|| fs::symlink_metadata(rt, name)),
    )
}

/// What the name leads to. `None` where nothing has the name.
pub(crate) fn stat_for<R: Files>(rt: &R, name: &str) -> io::Result<Option<Metadata>> {
    none_where(ErrorKind::NotFound, again(|| fs::metadata(rt, name)))
}

/// What the system says of a file.
pub(crate) fn found_of(file: &Metadata, was_read: bool) -> Found {
    Found {
        is_regular: file.is_file(),
        is_folder: file.is_dir(),
        is_link: file.is_symlink(),
        device: file.dev(),
        number: file.ino(),
        links: file.nlink(),
        bits: file.mode() & BITS,
        owner: file.uid(),
        group: file.gid(),
        written: (file.mtime(), file.mtime_nsec()),
        changed: (file.ctime(), file.ctime_nsec()),
        was_read,
    }
}

pub(crate) fn rename<R: Files>(rt: &R, from: &str, to: &str) -> io::Result<()> {
    again(|| fs::rename(rt, from, to))
}

pub(crate) fn remove<R: Files>(rt: &R, name: &str) -> io::Result<()> {
    again(|| fs::remove_file(rt, name))
}

/// Makes a file with these permission bits, which is appended to.
pub(crate) fn create_new<R: Files<File = File>>(rt: &R, name: &str, bits: u32) -> io::Result<File> {
    File::options()
        .append(true)
        .create_new(true)
        .mode(bits)
        .open(rt, name)
}

/// Opens a file to be appended to, which its lock may need.
pub(crate) fn open_to_append<R: Files<File = File>>(rt: &R, name: &str) -> io::Result<File> {
    File::options().append(true).open(rt, name)
}

/// As `read`, again wherever a signal came first.
pub(crate) fn read_through_signals<F: Read>(file: &mut F, into: &mut [u8]) -> io::Result<usize>
    ensures { IfOk result (λ n. n ≤ length into.new) }
{
    for _ in 0..u64::MAX {
        match file.read(into) {
            Err(error) if error.kind() == ErrorKind::Interrupted => {}
            result => return result,
        }
    }
    Err(io::Error::from(ErrorKind::Interrupted))
}

/// As `write`, again wherever a signal came first. A write that took nothing is a fault: it would
/// be tried for ever.
pub(crate) fn write_some<W: Write>(to: &mut W, piece: &[u8]) -> io::Result<usize>
    requires { 0 < length piece.now }
    ensures { IfOk result (IsCount piece.now) }
{
    for _ in 0..u64::MAX {
        match to.write(piece) {
            Ok(0) => return Err(io::Error::from(ErrorKind::WriteZero)),
            Err(error) if error.kind() == ErrorKind::Interrupted => {}
            result => return result,
        }
    }
    Err(io::Error::from(ErrorKind::Interrupted))
}
