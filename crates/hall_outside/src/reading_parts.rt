// Files that are read part by part, and what is looked at before.
ghost use Rattle.std.specs.Prelude.{◌≡◌, ◌<◌, true, false, None, length, List, ℕ, IfOk, IfSome, OnOk};
ghost use Rattle.folder_calls.specs.World.{Now, GivesPart};

use crate::replacing::{is_secret, require_readable};
use folder_calls::{Folder, Found, in_use};
use std::io::{self, ErrorKind};

/// Reads on where the last read of the file ended, so that a pipe is read too; elsewhere the file
/// is opened anew.
#[tactic(auto, using(crate::proofs::GivenParts::none_there, crate::proofs::GivenParts::given_since))]
pub(crate) fn read_part<F: Folder>(
    folder: &mut F,
    name: &str,
    at: u64,
    into: &mut [u8],
) -> io::Result<Option<usize>>
    requires { 0 < length into.old }
    ensures given { IfOk result
        (GivesPart (F.moments folder.old) name.now at into.old into.new) }
    ensures same { F.moments folder.new ≡ F.moments folder.old }
{
    if is_opened(folder, name, at)? {
        return Ok(Some(folder.read_on(name, at, into)?));
    }
    Ok(None)
}

/// Whether the file is open at this byte, and else whether there is one, which is opened.
fn is_opened<F: Folder>(folder: &mut F, name: &str, at: u64) -> io::Result<bool>
    ensures open { IfOk result (λ is. is ≡ true → F.is_open folder.new name.now at) }
    ensures none { IfOk result (λ is. is ≡ false
        → Now (F.moments folder.old) (λ w. w.at name.now ≡ None)) }
    ensures same { F.moments folder.new ≡ F.moments folder.old }
{
    if folder.is_open_at(name, at) {
        return Ok(true);
    }
    if is_secret(name) {
        return is_secret_opened(folder, name, at);
    }
    Ok(opened(folder, name, at)?.is_some())
}

/// Opens the file, or finds none, and notes which it is. It fails where a file that was read before
/// has changed.
fn opened<F: Folder>(folder: &mut F, name: &str, at: u64) -> io::Result<Option<Found>>
    ensures open { IfOk result (λ found. IfSome found (λ file. F.is_open folder.new name.now at)) }
    ensures seen { IfOk result (λ found. IfSome found (λ file. F.all_unchanged folder.new)) }
    ensures noted { IfOk result (λ found. F.is_noted folder.new name.now) }
    ensures none { IfOk result (λ found. found ≡ None
        → Now (F.moments folder.old) (λ w. w.at name.now ≡ None)) }
    ensures same { F.moments folder.new ≡ F.moments folder.old }
{
    if folder.open(name)? {
        let found = note_opened(folder, name)?;
        seek_to(folder, name, at)?;
        require_all_as_read(folder)?;
        return Ok(Some(found));
    }
    folder.note_read(name, &None)?;
    Ok(None)
}

/// Notes which file was opened.
fn note_opened<F: Folder>(folder: &mut F, name: &str) -> io::Result<Found>
    ensures noted { IfOk result (λ found. F.is_noted folder.new name.now) }
    ensures open { (at : ℕ) → F.is_open folder.old name.now at → F.is_open folder.new name.now at }
    ensures same { F.moments folder.new ≡ F.moments folder.old }
{
    let found = folder.look_read(name)?;
    folder.note_read(name, &Some(found))?;
    Ok(found)
}

/// Has the file that was opened read from the byte `at` on.
fn seek_to<F: Folder>(folder: &mut F, name: &str, at: u64) -> io::Result<()>
    requires { F.is_open folder.old name.now 0 }
    ensures open { OnOk result (F.is_open folder.new name.now at) }
    ensures noted { F.is_noted folder.old name.now → F.is_noted folder.new name.now }
    ensures same { F.moments folder.new ≡ F.moments folder.old }
{
    if at == 0 {
        return Ok(());
    }
    folder.seek(name, at)
}

/// Fails where a regular file that was read isn't what its name stands for now.
fn require_all_as_read<F: Folder>(folder: &mut F) -> io::Result<()>
    ensures seen { OnOk result (F.all_unchanged folder.new) }
    ensures noted { (name : List ℕ) → F.is_noted folder.old name → F.is_noted folder.new name }
    ensures open { (name : List ℕ) (at : ℕ) → F.is_open folder.old name at
        → F.is_open folder.new name at }
    ensures same { F.moments folder.new ≡ F.moments folder.old }
{
    if folder.are_all_as_read()? {
        return Ok(());
    }
    Err(io::Error::new(
        ErrorKind::ResourceBusy,
        "a file that was read before it has changed since: try again",
    ))
}

/// As `opened`, of a file that holds a secret. It looks before and after whether that may be read,
/// since a pipe would be waited for, and the name can change in between.
fn is_secret_opened<F: Folder>(folder: &mut F, name: &str, at: u64) -> io::Result<bool>
    ensures open { IfOk result (λ is. is ≡ true → F.is_open folder.new name.now at) }
    ensures none { IfOk result (λ is. is ≡ false
        → Now (F.moments folder.old) (λ w. w.at name.now ≡ None)) }
    ensures same { F.moments folder.new ≡ F.moments folder.old }
{
    if let Some(found) = folder.look(name)? {
        require_readable(name, &found)?;
    }
    match opened(folder, name, at)? {
        Some(open) => {
            require_still(folder, name, &open)?;
            Ok(true)
        }
        None => Ok(false),
    }
}

/// Fails where the name doesn't stand for the open file, or that may not be read.
fn require_still<F: Folder>(folder: &mut F, name: &str, open: &Found) -> io::Result<()>
    ensures open { (file : List ℕ) (at : ℕ) → F.is_open folder.old file at
        → F.is_open folder.new file at }
    ensures same { F.moments folder.new ≡ F.moments folder.old }
{
    let Some(found) = folder.look(name)? else {
        return Err(in_use());
    };
    require_readable(name, &found)?;
    if found.device == open.device && found.number == open.number {
        return Ok(());
    }
    Err(in_use())
}
