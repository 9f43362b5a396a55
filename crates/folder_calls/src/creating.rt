// New files beside those that they are to replace, each locked.
ghost use Rattle.std.specs.Prelude.{◌≡◌, ℕ, true, false, IfOk, OnOk, OnErr, IfSome};
ghost use Rattle.folder_calls.specs.World.{Goes, IsClear, Creates, Does, removed};
ghost use Rattle.folder_calls.specs.Creating.{IsTried, IsUnder};

use crate::folder::Folder;
use std::io::{self, ErrorKind};

/// How often a new file is tried for, while other programs remove and rename theirs.
const TRIES: u32 = 100;

/// The permission bits of a new file, of which the system takes those that the user's mask has.
const DEFAULT_BITS: u32 = 0o666;

/// The permission to write of the owner.
pub const OWNER_WRITES: u32 = 0o200;

/// The failure where another program writes the file.
pub fn in_use() -> io::Error {
    io::Error::new(ErrorKind::ResourceBusy, "another program is writing it")
}

/// Makes a new file under `other_name`, for one that is to have `name`, and gives its number. It is
/// locked, and has these bits or the default ones, but for those that the user's mask has; until it
/// is in place its owner may write it, since a lock may need that. What a program that was ended
/// left there is removed; a file that another program is writing is left alone, and the call fails.
/// It fails, too, where the name was read, and doesn't stand for that file any more.
pub fn create_locked<F: Folder>(
    folder: &mut F,
    name: &str,
    other_name: &str,
    bits: Option<u32>,
) -> io::Result<u64>
    ensures created { IfOk result
        (Creates other_name.now (F.moments folder.old) (F.moments folder.new)) }
    ensures locked { IfOk result (F.is_locked folder.new) }
    ensures as_read { OnOk result (F.unchanged folder.new name.now) }
    ensures err { OnErr result
        (Goes (IsClear other_name.now) (F.moments folder.old) (F.moments folder.new)) }
    ensures spared { F.spares folder.old → F.spares folder.new }
{
    let number = new_file(
        folder,
        other_name,
        bits.unwrap_or(DEFAULT_BITS) | OWNER_WRITES,
    )?;
    // Once it is locked no other program of this kind puts one in place, so what was read before
    // can be compared.
    match require_as_read(folder, name) {
        Ok(()) => Ok(number),
        Err(reason) => {
            give_back(folder, number, other_name);
            Err(reason)
        }
    }
}

/// Makes the file, as often as it is tried for.
fn new_file<F: Folder>(folder: &mut F, name: &str, bits: u32) -> io::Result<u64>
    ensures created { IfOk result
        (Creates name.now (F.moments folder.old) (F.moments folder.new)) }
    ensures own { IfOk result (F.is_made folder.new) }
    ensures locked { IfOk result (F.is_locked folder.new) }
    ensures err { OnErr result
        (Goes (IsClear name.now) (F.moments folder.old) (F.moments folder.new)) }
    ensures spared { F.spares folder.old → F.spares folder.new }
{
    for _ in 0..TRIES {
        if let Some(number) = try_new(folder, name, bits)? {
            return Ok(number);
        }
    }
    Err(in_use())
}

/// Makes the file where the name is free, and else removes what an ended program left there.
fn try_new<F: Folder>(folder: &mut F, name: &str, bits: u32) -> io::Result<Option<u64>>
    ensures tried { IfOk result
        (IsTried name.now (F.moments folder.old) (F.moments folder.new)) }
    ensures own { IfOk result (λ number. IfSome number (F.is_made folder.new)) }
    ensures locked { IfOk result (λ number. IfSome number (F.is_locked folder.new)) }
    ensures err { OnErr result
        (Goes (IsClear name.now) (F.moments folder.old) (F.moments folder.new)) }
    ensures spared { F.spares folder.old → F.spares folder.new }
{
    match folder.create(name, bits)? {
        Some(number) => {
            if is_claimed(folder, number, name)? {
                return Ok(Some(number));
            }
            Ok(None)
        }
        None => {
            remove_left(folder, name)?;
            Ok(None)
        }
    }
}

/// Locks the new file, unless another program removed it before. Where the system can't, the file
/// is removed.
fn is_claimed<F: Folder>(folder: &mut F, number: u64, name: &str) -> io::Result<bool>
    requires { F.is_made folder.old number }
    ensures same { IfOk result (λ is. is ≡ true → F.moments folder.new ≡ F.moments folder.old) }
    ensures own { IfOk result (λ is. is ≡ true → F.is_made folder.new number) }
    ensures locked { IfOk result (λ is. is ≡ true → F.is_locked folder.new number) }
    ensures clears { Goes (IsClear name.now) (F.moments folder.old) (F.moments folder.new) }
    ensures spared { F.spares folder.old → F.spares folder.new }
{
    match folder.lock(number, name) {
        Ok(true) => is_kept(folder, number, name),
        Ok(false) => {
            folder.release(number);
            Err(in_use())
        }
        Err(reason) => {
            give_back(folder, number, name);
            Err(reason)
        }
    }
}

/// Whether the locked file has its name still. Where it hasn't, or the system doesn't say, it is
/// given up.
#[tactic(auto, using(crate::proofs::Creations::clears_same, crate::proofs::Creations::clears_removed))]
fn is_kept<F: Folder>(folder: &mut F, number: u64, name: &str) -> io::Result<bool>
    requires own { F.is_made folder.old number }
    requires locked { F.is_locked folder.old number }
    ensures there { IfOk result (λ is. is ≡ true → IsUnder name.now number (F.moments folder.old)) }
    ensures same { IfOk result (λ is. F.moments folder.new ≡ F.moments folder.old) }
    ensures own { IfOk result (λ is. is ≡ true → F.is_made folder.new number) }
    ensures locked { IfOk result (λ is. is ≡ true → F.is_locked folder.new number) }
    ensures clears { Goes (IsClear name.now) (F.moments folder.old) (F.moments folder.new) }
    ensures spared { F.spares folder.old → F.spares folder.new }
{
    match is_under(folder, number, name) {
        Ok(true) => Ok(true),
        Ok(false) => {
            folder.release(number);
            Ok(false)
        }
        Err(reason) => {
            give_back(folder, number, name);
            Err(reason)
        }
    }
}

/// Whether the name itself stands for the open file.
fn is_under<F: Folder>(folder: &mut F, number: u64, name: &str) -> io::Result<bool>
    ensures there { IfOk result (λ is. is ≡ true → IsUnder name.now number (F.moments folder.old)) }
    ensures same { F.moments folder.new ≡ F.moments folder.old }
    ensures own { (i : ℕ) → F.is_made folder.old i → F.is_made folder.new i }
    ensures locked { (i : ℕ) → F.is_locked folder.old i → F.is_locked folder.new i }
    ensures spared { F.spares folder.old → F.spares folder.new }
{
    let open = folder.look_open(number)?;
    match folder.look(name)? {
        Some(found) => Ok(found.device == open.device && found.number == open.number),
        None => Ok(false),
    }
}

/// Removes a file that this program made, where it has the name still, and closes it.
#[tactic(auto, using(crate::proofs::Creations::clears_same))]
fn give_back<F: Folder>(folder: &mut F, number: u64, name: &str)
    requires { F.is_made folder.old number }
    ensures clears { Goes (IsClear name.now) (F.moments folder.old) (F.moments folder.new) }
    ensures spared { F.spares folder.old → F.spares folder.new }
{
    remove_made(folder, number, name);
    folder.release(number);
}

#[tactic(auto, using(crate::proofs::Creations::clears_same, crate::proofs::Creations::clears_removed))]
fn remove_made<F: Folder>(folder: &mut F, number: u64, name: &str)
    requires { F.is_made folder.old number }
    ensures clears { Goes (IsClear name.now) (F.moments folder.old) (F.moments folder.new) }
    ensures spared { F.spares folder.old → F.spares folder.new }
{
    if let Ok(true) = is_under(folder, number, name) {
        let _ = folder.remove(name);
    }
}

/// Fails where the name was read, and what it names now isn't what it named then.
fn require_as_read<F: Folder>(folder: &mut F, name: &str) -> io::Result<()>
    ensures seen { OnOk result (F.unchanged folder.new name.now) }
    ensures same { F.moments folder.new ≡ F.moments folder.old }
    ensures own { (i : ℕ) → F.is_made folder.old i → F.is_made folder.new i }
    ensures locked { (i : ℕ) → F.is_locked folder.old i → F.is_locked folder.new i }
    ensures spared { F.spares folder.old → F.spares folder.new }
{
    if folder.is_as_read(name)? {
        return Ok(());
    }
    Err(io::Error::new(
        ErrorKind::ResourceBusy,
        "another program has written it since it was read",
    ))
}

/// Removes the file that is there, unless a program has it locked. What is no file, as a link,
/// was left by no program.
#[tactic(auto, using(crate::proofs::Creations::clears_same, crate::proofs::Creations::clears_removed))]
fn remove_left<F: Folder>(folder: &mut F, name: &str) -> io::Result<()>
    ensures clears { Goes (IsClear name.now) (F.moments folder.old) (F.moments folder.new) }
    ensures spared { F.spares folder.old → F.spares folder.new }
{
    match folder.look(name)? {
        Some(found) if found.is_regular => remove_file(folder, name),
        Some(_) => Err(io::Error::from(ErrorKind::AlreadyExists)),
        None => Ok(()),
    }
}

#[tactic(auto, using(crate::proofs::Creations::clears_same, crate::proofs::Creations::clears_removed))]
fn remove_file<F: Folder>(folder: &mut F, name: &str) -> io::Result<()>
    ensures clears { Goes (IsClear name.now) (F.moments folder.old) (F.moments folder.new) }
    ensures spared { F.spares folder.old → F.spares folder.new }
{
    match folder.open_left(name)? {
        Some(number) => {
            let is_removed = remove_unlocked(folder, number, name);
            folder.release(number);
            is_removed
        }
        None => Ok(()),
    }
}

/// Removes the open file, unless another program has it locked.
fn remove_unlocked<F: Folder>(folder: &mut F, number: u64, name: &str) -> io::Result<()>
    ensures clears { Goes (IsClear name.now) (F.moments folder.old) (F.moments folder.new) }
    ensures spared { F.spares folder.old → F.spares folder.new }
{
    require_lock(folder, number, name)?;
    // Its program can have put it in place before it was locked here.
    if is_under(folder, number, name)? {
        return folder.remove(name);
    }
    Ok(())
}

/// Locks the open file, or fails where another program has.
fn require_lock<F: Folder>(folder: &mut F, number: u64, name: &str) -> io::Result<()>
    ensures locked { OnOk result (F.is_locked folder.new number) }
    ensures meanwhile { Does (removed name.now) false
        (F.moments folder.old) (F.moments folder.new) }
    ensures spared { F.spares folder.old → F.spares folder.new }
{
    if folder.lock(number, name)? {
        return Ok(());
    }
    Err(in_use())
}
