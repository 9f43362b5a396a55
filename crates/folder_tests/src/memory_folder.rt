// A folder in memory.
ghost use Rattle.std.specs.Prelude.{
  ◌≡◌,
  ◌<◌,
  ◌≤◌,
  ℕ,
  Some,
  true,
  false,
  is_ok,
  OnErr,
  IfOk,
  IfSome,
  length,
  take,
  drop,
};
ghost use Rattle.folder_calls.specs.World.{
  Makes,
  GivesPart,
  IsLookedUp,
  IsPieceFrom,
  Does,
  does,
  longer_by,
  name_flushed,
  removed,
};
ghost use Rattle.folder_tests.specs.Memory.{moments_of, now_of, has_number, HaveNumber};

use crate::disk::{
    Call, Disk, Ending, Fault, appending, creating, failed, flushing, fresh_number, has, next,
    perform, perform_as, removing, renaming, succeeds,
};
use crate::reading::{bytes_of, entry, found_of};
use folder_calls::{Folder, Found};
use std::alloc::Global;
use std::io::{self, ErrorKind};

/// A folder in memory, which exposes its moments, and of which some calls fail.
#[derive(Drop)]
pub struct MemoryFolder<'a> {
    alloc: Global,
    disk: &'a mut Disk,
    fault: Option<Fault>,
    removal_failed: bool,
    /// The files that this program has made, and those that it has locked, by their numbers.
    made: Vec<u64>,
    locked: Vec<u64>,
    /// It has removed no others.
    is_sparing: bool,
}

impl<'a> MemoryFolder<'a> {
    /// A folder on this disk. An append, and a call that takes all bytes from a file, fails having
    /// done nothing.
    pub fn make(alloc: Global, disk: &'a mut Disk, fault: Option<Fault>) -> MemoryFolder<'a> {
        MemoryFolder {
            alloc,
            disk,
            fault,
            removal_failed: false,
            made: Vec::new(alloc),
            locked: Vec::new(alloc),
            is_sparing: true,
        }
    }
}

#[tactic(auto, using(crate::proofs::Parts::gives, crate::proofs::Parts::gives_none))]
fn read(
    alloc: Global,
    calls: &[Call],
    name: &str,
    at: u64,
    into: &mut [u8],
) -> io::Result<Option<usize>>
    requires { 0 < length into.old }
    ensures { IfOk result (GivesPart (moments_of calls.now) name.now at into.old into.new) }
{
    let Some(number) = entry(calls, name) else {
        return Ok(None);
    };
    let bytes = bytes_of(alloc, calls, number)?;
    Ok(Some(read_from(bytes.as_slice(), at, into)))
}

/// As `read`, of a file that is there.
fn read_there(
    alloc: Global,
    calls: &[Call],
    name: &str,
    at: u64,
    into: &mut [u8],
) -> io::Result<usize>
    requires { 0 < length into.old }
    ensures { IfOk result (λ n.
        GivesPart (moments_of calls.now) name.now at into.old into.new (Some n)) }
{
    match read(alloc, calls, name, at, into)? {
        Some(count) => Ok(count),
        None => Err(io::Error::from(ErrorKind::NotFound)),
    }
}

#[tactic(auto, using(crate::proofs::Parts::none_past, crate::proofs::Parts::some_before))]
fn read_from(bytes: &[u8], at: u64, into: &mut [u8]) -> usize
    requires { 0 < length into.old }
    ensures count { result ≤ length into.old }
    ensures rest { drop result into.new ≡ drop result into.old }
    ensures part { IsPieceFrom at (take result into.new) bytes.now }
{
    if at >= bytes.len() as u64 {
        return 0;
    }
    let rest = &bytes[at as usize..];
    let count = rest.len().min(into.len());
    into[..count].copy_from_slice(&rest[..count]);
    count
}

/// What the system says of the file of this number, and the number.
fn found_as(calls: &[Call], number: u64) -> Found
    ensures regular { result.is_regular ≡ ((now_of calls.now).node number).regular }
    ensures number { result.number ≡ number }
{
    Found {
        number,
        ..found_of(calls, number)
    }
}

/// What stands under the name.
fn look(calls: &[Call], name: &str) -> Option<Found>
    ensures found { IsLookedUp name.now result (now_of calls.now) }
    ensures number { IfSome result (λ found. (now_of calls.now).at name.now ≡ Some found.number) }
{
    match entry(calls, name) {
        Some(number) => Some(found_as(calls, number)),
        None => None,
    }
}

/// Makes an empty file where the name is free.
#[tactic(auto, using(crate::proofs::Fresh::makes))]
fn create(
    alloc: Global,
    disk: &mut Disk,
    made: &mut Vec<u64>,
    name: &str,
) -> io::Result<Option<u64>>
    ensures made { IfOk result (Makes name.now
        (moments_of (disk.old).calls.items) (moments_of (disk.new).calls.items)) }
    ensures own { IfOk result (λ number. IfSome number (λ i. has_number made.new.items i ≡ true)) }
    ensures err { OnErr result ((disk.new).calls.items ≡ (disk.old).calls.items) }
{
    if entry(disk.calls.as_slice(), name).is_some() {
        return Ok(None);
    }
    let Some(number) = fresh_number(disk.calls.as_slice()) else {
        return Err(io::Error::from(ErrorKind::Other));
    };
    let call = creating(alloc, name, number)?;
    made.insert(0, number)?;
    perform(disk, call)?;
    Ok(Some(number))
}

/// Removes the file where another program does so, and locks it unless another one has.
#[tactic(auto, using(crate::proofs::Fresh::removed_meanwhile, crate::proofs::Fresh::not_removed))]
fn lock(
    alloc: Global,
    disk: &mut Disk,
    locked: &mut Vec<u64>,
    number: u64,
    name: &str,
) -> io::Result<bool>
    ensures locked { IfOk result (λ is. is ≡ true → has_number locked.new.items number ≡ true) }
    ensures meanwhile { Does (removed name.now) false
        (moments_of (disk.old).calls.items) (moments_of (disk.new).calls.items) }
{
    if has(disk.held.as_slice(), number) {
        return Ok(false);
    }
    locked.insert(0, number)?;
    if has(disk.fleeting.as_slice(), number) {
        let call = removing(alloc, name)?;
        perform(disk, call)?;
    }
    Ok(true)
}

/// Whether what has the name was made or locked by this program.
fn is_own(calls: &[Call], made: &[u64], locked: &[u64], name: &str) -> bool
    ensures { (i : ℕ) → HaveNumber made.now locked.now i → (now_of calls.now).at name.now ≡ Some i
        → result ≡ true }
{
    match entry(calls, name) {
        Some(number) => has(made, number) || has(locked, number),
        None => false,
    }
}

fn append(alloc: Global, disk: &mut Disk, number: u64, piece: &[u8]) -> io::Result<usize>
    ensures took { IfOk result (λ n. n ≡ length piece.now) }
    ensures ok { IfOk result (λ n. moments_of (disk.new).calls.items
        ≡ does (longer_by number piece.now) (moments_of (disk.old).calls.items)) }
    ensures err { OnErr result ((disk.new).calls.items ≡ (disk.old).calls.items) }
{
    let call = appending(alloc, number, piece)?;
    perform(disk, call)?;
    Ok(piece.len())
}

/// Removes what has the name, or fails having done it or not, as it is to end.
fn remove(alloc: Global, disk: &mut Disk, name: &str, ending: Ending) -> io::Result<()>
    ensures { Does (removed name.now) (is_ok result)
        (moments_of (disk.old).calls.items) (moments_of (disk.new).calls.items) }
{
    let call = removing(alloc, name)?;
    perform_as(disk, call, ending)
}

/// Flushes the name, or fails having done it or not, as it is to end.
fn flush(alloc: Global, disk: &mut Disk, name: &str, ending: Ending) -> io::Result<()>
    ensures { Does (name_flushed name.now) (is_ok result)
        (moments_of (disk.old).calls.items) (moments_of (disk.new).calls.items) }
{
    let call = flushing(alloc, name)?;
    perform_as(disk, call, ending)
}

impl<'a> Folder for MemoryFolder<'a> {
    ghost use Rattle.std.specs.Prelude.{◌≡◌, true, false, ⊤};
    ghost use Rattle.folder_tests.specs.Memory.{moments_of, has_number};

    ghost moments = { λ m. moments_of (m.disk.now).calls.items };

    ghost removal_failed = { λ m _. m.removal_failed ≡ true };

    ghost is_made = { λ m i. has_number m.made.items i ≡ true };

    ghost is_locked = { λ m i. has_number m.locked.items i ≡ true };

    ghost spares = { λ m. m.is_sparing ≡ true };

    ghost unchanged = { λ m _. m.disk.now.has_changed ≡ false };

    ghost all_unchanged = { λ m. m.disk.now.has_changed ≡ false };

    ghost is_open = { λ _ _ _. ⊤ };

    ghost is_noted = { λ _ _. ⊤ };

    ghost is_file = { λ _ number _ i. number ≡ i };

    fn look(&mut self, name: &str) -> io::Result<Option<Found>> {
        if !succeeds(self.disk, self.fault) {
            return Err(failed());
        }
        Ok(look(self.disk.calls.as_slice(), name))
    }

    fn is_open_at(&mut self, _name: &str, _at: u64) -> bool {
        false
    }

    fn open(&mut self, name: &str) -> io::Result<bool> {
        Ok(self.look(name)?.is_some())
    }

    fn look_read(&mut self, name: &str) -> io::Result<Found> {
        match self.look(name)? {
            Some(found) => Ok(found),
            None => Err(io::Error::from(ErrorKind::NotFound)),
        }
    }

    fn note_read(&mut self, _name: &str, _found: &Option<Found>) -> io::Result<()> {
        Ok(())
    }

    fn seek(&mut self, _name: &str, _at: u64) -> io::Result<()> {
        if !succeeds(self.disk, self.fault) {
            return Err(failed());
        }
        Ok(())
    }

    fn read_on(&mut self, name: &str, at: u64, into: &mut [u8]) -> io::Result<usize> {
        if !succeeds(self.disk, self.fault) {
            return Err(failed());
        }
        read_there(self.alloc, self.disk.calls.as_slice(), name, at, into)
    }

    fn are_all_as_read(&mut self) -> io::Result<bool> {
        if !succeeds(self.disk, self.fault) {
            return Err(failed());
        }
        Ok(!self.disk.has_changed)
    }

    fn open_front(&mut self, _name: &str) -> io::Result<()> {
        if !succeeds(self.disk, self.fault) {
            return Err(failed());
        }
        Ok(())
    }

    fn read_front(&mut self, name: &str, into: &mut [u8]) -> io::Result<usize> {
        self.read_on(name, 0, into)
    }

    fn create(&mut self, name: &str, _bits: u32) -> io::Result<Option<u64>> {
        if !succeeds(self.disk, self.fault) {
            return Err(failed());
        }
        create(self.alloc, self.disk, &mut self.made, name)
    }

    fn open_left(&mut self, name: &str) -> io::Result<Option<u64>> {
        if !succeeds(self.disk, self.fault) {
            return Err(failed());
        }
        Ok(entry(self.disk.calls.as_slice(), name))
    }

    fn lock(&mut self, number: u64, name: &str) -> io::Result<bool> {
        if !succeeds(self.disk, self.fault) {
            return Err(failed());
        }
        lock(self.alloc, self.disk, &mut self.locked, number, name)
    }

    fn look_open(&mut self, number: u64) -> io::Result<Found> {
        if !succeeds(self.disk, self.fault) {
            return Err(failed());
        }
        Ok(found_as(self.disk.calls.as_slice(), number))
    }

    fn is_as_read(&mut self, _name: &str) -> io::Result<bool> {
        if !succeeds(self.disk, self.fault) {
            return Err(failed());
        }
        Ok(!self.disk.has_changed)
    }

    fn release(&mut self, _number: u64) {}

    fn append(&mut self, number: u64, piece: &[u8]) -> io::Result<usize> {
        if !succeeds(self.disk, self.fault) {
            return Err(failed());
        }
        append(self.alloc, self.disk, number, piece)
    }

    fn empty(&mut self, number: u64) -> io::Result<()> {
        if !succeeds(self.disk, self.fault) {
            return Err(failed());
        }
        perform(self.disk, Call::Empty(number))
    }

    fn give_owner(&mut self, _number: u64, _owner: u32, _group: u32) -> io::Result<()> {
        if !succeeds(self.disk, self.fault) {
            return Err(failed());
        }
        Ok(())
    }

    fn set_bits(&mut self, _number: u64, _bits: u32) -> io::Result<()> {
        if !succeeds(self.disk, self.fault) {
            return Err(failed());
        }
        Ok(())
    }

    fn flush_file(&mut self, number: u64) -> io::Result<()> {
        let ending = next(self.disk, self.fault);
        perform_as(self.disk, Call::FlushFile(number), ending)
    }

    fn rename(&mut self, from: &str, to: &str) -> io::Result<()> {
        let ending = next(self.disk, self.fault);
        let call = renaming(self.alloc, from, to)?;
        perform_as(self.disk, call, ending)
    }

    fn remove(&mut self, name: &str) -> io::Result<()> {
        let ending = next(self.disk, self.fault);
        let calls = self.disk.calls.as_slice();
        let is_own = is_own(calls, self.made.as_slice(), self.locked.as_slice(), name);
        self.is_sparing = self.is_sparing && is_own;
        match remove(self.alloc, self.disk, name, ending) {
            Ok(()) => Ok(()),
            Err(reason) => {
                self.removal_failed = true;
                Err(reason)
            }
        }
    }

    fn open_folder(&mut self, _name: &str) -> io::Result<()> {
        if !succeeds(self.disk, self.fault) {
            return Err(failed());
        }
        if self.disk.is_unreadable {
            return Err(io::Error::from(ErrorKind::PermissionDenied));
        }
        Ok(())
    }

    fn flush_folder(&mut self, name: &str) -> io::Result<bool> {
        let ending = next(self.disk, self.fault);
        if self.disk.has_no_flush && matches!(ending, Ending::Succeeds) {
            return Ok(false);
        }
        match flush(self.alloc, self.disk, name, ending) {
            Ok(()) => Ok(true),
            Err(reason) => Err(reason),
        }
    }

    fn take_as_flushed(&mut self, name: &str) -> io::Result<()> {
        flush(self.alloc, self.disk, name, Ending::Succeeds)
    }

    fn close(&mut self) {}
}
