// How files begin, so that none is replaced by one of another kind.

ghost use Rattle.std.specs.Prelude.{◌≡◌, ◌<◌, ◌≤◌, length, IfOk};

use crate::begun::Begun;
use crate::folder::Folder;
use std::io::{self, ErrorKind};

/// How many bytes at the front of a file say of which kind it is.
const FRONT: usize = 4;

/// How the files begin that commands write: rosters, logs, offices, proofs, and keys and
/// signatures.
const KINDS: [[u8; FRONT]; 5] = [*b"(6:r", *b"(3:l", *b"(6:o", *b"proo", [0, 0, 0, 1]];

/// Fails where the file that is to be replaced is of one of the kinds that commands write, and the
/// new one isn't of that kind: so no slip replaces a log by a proof.
pub(crate) fn require_same_kind<F: Folder>(folder: &mut F, file: &Begun) -> io::Result<()>
    ensures { F.moments folder.new ≡ F.moments folder.old }
{
    if file.old.is_none() {
        return Ok(());
    }
    let mut old = [0; FRONT];
    let count = front(folder, file.name.as_str(), &mut old)?;
    if count < FRONT || !KINDS.contains(&old) {
        return Ok(());
    }
    let mut new = [0; FRONT];
    let count = front(folder, file.other_name.as_str(), &mut new)?;
    if count >= FRONT && new == old {
        return Ok(());
    }
    Err(io::Error::new(
        ErrorKind::PermissionDenied,
        "it is a file of another kind: remove it, or name another file",
    ))
}

/// Reads the first bytes of the file, and answers how many there are.
fn front<F: Folder>(folder: &mut F, name: &str, into: &mut [u8]) -> io::Result<usize>
    requires { 0 < length into.old }
    ensures count { IfOk result (λ n. n ≤ length into.new) }
    ensures same { F.moments folder.new ≡ F.moments folder.old }
{
    folder.open_front(name)?;
    folder.read_front(name, into)
}
