// A disk in memory.
ghost use Rattle.std.specs.Prelude.{◌≡◌, ◌∷◌, true, false, OnOk, OnErr, IfOk, IfSome, is_ok};
ghost use Rattle.folder_calls.specs.World.{
  Does,
  IsUnused,
  renamed,
  removed,
  name_flushed,
  longer_by,
  created,
};
ghost use Rattle.folder_tests.specs.Memory.{
  numbers,
  is_numbered,
  has_number,
  effect_of,
  moments_of,
  now_of,
};

use folder_calls::Found;
use std::alloc::{AllocError, Global};
use std::io::{self, ErrorKind};

/// What was done to a disk.
#[derive(Drop)]
pub enum Call {
    /// A file was there before, with all of its bytes on the disk itself.
    Put(String, u64, Vec<u8>, Found),
    Create(String, u64),
    Append(u64, Vec<u8>),
    Empty(u64),
    FlushFile(u64),
    Rename(String, String),
    Remove(String),
    FlushName(String),
}

/// A disk, as the calls that were made, the last one first: what it has, and what a crash may leave
/// of it, follows from them.
#[derive(Drop)]
pub struct Disk {
    pub calls: Vec<Call>,
    /// How many calls of a folder there were, failed ones and those that only read among them.
    pub asked: u64,
    /// How many of the calls were made before the first one of a folder that failed.
    pub before_fault: usize,
    /// The files that another program has locked, by their numbers.
    pub held: Vec<u64>,
    /// The files that another program removes before this one locks them, by their numbers.
    pub fleeting: Vec<u64>,
    /// Another program has written what this one read.
    pub has_changed: bool,
    /// This user may not open its folders.
    pub is_unreadable: bool,
    /// It can't flush folders.
    pub has_no_flush: bool,
}

/// How a call of a folder ends.
#[derive(Clone, Copy)]
pub enum Ending {
    Succeeds,
    FailsUndone,
    FailsDone,
}

/// The calls of a folder that are to fail, by their numbers from 1 on.
#[derive(Clone, Copy)]
pub struct Fault {
    pub first: u64,
    pub last: u64,
    /// They fail having done what they were to do.
    pub is_done: bool,
}

impl Disk {
    /// An empty disk.
    pub fn make(alloc: Global) -> Disk {
        Disk {
            calls: Vec::new(alloc),
            asked: 0,
            before_fault: 0,
            held: Vec::new(alloc),
            fleeting: Vec::new(alloc),
            has_changed: false,
            is_unreadable: false,
            has_no_flush: false,
        }
    }

    /// Puts a file there, with all of its bytes on the disk itself.
    pub fn put(
        &mut self,
        alloc: Global,
        name: &str,
        bytes: &[u8],
        found: Found,
    ) -> Result<(), AllocError> {
        let number = self.calls.len() as u64;
        let name = String::from_str(alloc, name)?;
        let bytes = Vec::from_slice(alloc, bytes)?;
        self.calls.insert(0, Call::Put(name, number, bytes, found))?;
        Ok(())
    }
}

pub(crate) fn failed() -> io::Error {
    io::Error::from(ErrorKind::Other)
}

/// How the next call of a folder ends.
pub(crate) fn next(disk: &mut Disk, fault: Option<Fault>) -> Ending
    ensures { disk.new.calls ≡ disk.old.calls }
{
    disk.asked = disk.asked.saturating_add(1);
    match fault {
        Some(fault) => ending_of(disk, fault),
        None => Ending::Succeeds,
    }
}

fn ending_of(disk: &mut Disk, fault: Fault) -> Ending
    ensures { disk.new.calls ≡ disk.old.calls }
{
    if disk.asked < fault.first || disk.asked > fault.last {
        return Ending::Succeeds;
    }
    if disk.asked == fault.first {
        disk.before_fault = disk.calls.len();
    }
    if fault.is_done {
        return Ending::FailsDone;
    }
    Ending::FailsUndone
}

/// Whether the next call of a folder succeeds.
pub(crate) fn succeeds(disk: &mut Disk, fault: Option<Fault>) -> bool
    ensures { disk.new.calls ≡ disk.old.calls }
{
    matches!(next(disk, fault), Ending::Succeeds)
}

/// Does the call.
pub(crate) fn perform(disk: &mut Disk, call: Call) -> io::Result<()>
    ensures ok { OnOk result (disk.new.calls.items ≡ call ∷ disk.old.calls.items) }
    ensures err { OnErr result (disk.new.calls.items ≡ disk.old.calls.items) }
{
    match disk.calls.insert(0, call) {
        Ok(()) => Ok(()),
        Err(_) => Err(io::Error::from(ErrorKind::OutOfMemory)),
    }
}

/// Does the call, or fails having done it or not, as it is to end.
#[tactic(auto, using(crate::proofs::Fresh::done_or_not))]
pub(crate) fn perform_as(disk: &mut Disk, call: Call, ending: Ending) -> io::Result<()>
    ensures { Does (effect_of call) (is_ok result)
        (moments_of (disk.old).calls.items) (moments_of (disk.new).calls.items) }
{
    match ending {
        Ending::Succeeds => succeed(disk, call),
        Ending::FailsUndone => Err(failed()),
        Ending::FailsDone => fail_after(disk, call),
    }
}

/// Does the call.
#[tactic(auto, using(crate::proofs::Fresh::done_or_not))]
fn succeed(disk: &mut Disk, call: Call) -> io::Result<()>
    ensures { Does (effect_of call) (is_ok result)
        (moments_of (disk.old).calls.items) (moments_of (disk.new).calls.items) }
{
    match perform(disk, call) {
        Ok(()) => Ok(()),
        Err(reason) => Err(reason),
    }
}

/// Does the call, and fails.
#[tactic(auto, using(crate::proofs::Fresh::done_or_not))]
fn fail_after(disk: &mut Disk, call: Call) -> io::Result<()>
    ensures did { Does (effect_of call) false
        (moments_of (disk.old).calls.items) (moments_of (disk.new).calls.items) }
    ensures err { is_ok result ≡ false }
{
    match perform(disk, call) {
        Ok(()) => Err(failed()),
        Err(reason) => Err(reason),
    }
}

pub(crate) fn renaming(alloc: Global, from: &str, to: &str) -> Result<Call, AllocError>
    ensures { IfOk result (λ call. effect_of call ≡ renamed from.now to.now) }
{
    let from = String::from_str(alloc, from)?;
    let to = String::from_str(alloc, to)?;
    Ok(Call::Rename(from, to))
}

pub(crate) fn removing(alloc: Global, name: &str) -> Result<Call, AllocError>
    ensures { IfOk result (λ call. effect_of call ≡ removed name.now) }
{
    Ok(Call::Remove(String::from_str(alloc, name)?))
}

pub(crate) fn flushing(alloc: Global, name: &str) -> Result<Call, AllocError>
    ensures { IfOk result (λ call. effect_of call ≡ name_flushed name.now) }
{
    Ok(Call::FlushName(String::from_str(alloc, name)?))
}

pub(crate) fn appending(alloc: Global, number: u64, piece: &[u8]) -> Result<Call, AllocError>
    ensures { IfOk result (λ call. effect_of call ≡ longer_by number piece.now) }
{
    Ok(Call::Append(number, Vec::from_slice(alloc, piece)?))
}

pub(crate) fn creating(alloc: Global, name: &str, number: u64) -> Result<Call, AllocError>
    ensures { IfOk result (λ call. effect_of call ≡ created name.now number) }
{
    Ok(Call::Create(String::from_str(alloc, name)?, number))
}

fn numbers(call: &Call, number: u64) -> bool
    ensures { result ≡ numbers call.now number }
{
    match call {
        Call::Put(_, given, _, _) => *given == number,
        Call::Create(_, given) => *given == number,
        _ => false,
    }
}

fn is_numbered(calls: &[Call], number: u64) -> bool
    ensures { result ≡ is_numbered calls.now number }
{
    for call in calls {
        if numbers(call, number) {
            return true;
        }
    }
    false
}

/// Whether the number is among these.
pub(crate) fn has(all: &[u64], number: u64) -> bool
    ensures { result ≡ has_number all.now number }
{
    for one in all {
        if *one == number {
            return true;
        }
    }
    false
}

/// A number that no file has had.
pub(crate) fn fresh_number(calls: &[Call]) -> Option<u64>
    ensures { IfSome result (λ number. IsUnused number (now_of calls.now)) }
{
    let number = calls.len() as u64;
    if is_numbered(calls, number) {
        return None;
    }
    Some(number)
}
