// What a crash leaves of a disk.
ghost use Rattle.std.specs.Prelude.{◌≡◌, [], ◌∷◌, Some, IfOk};
ghost use Rattle.folder_calls.specs.World.{MayHold};
ghost use Rattle.folder_tests.specs.Memory.{now_of};

use crate::disk::{Call, Disk};
use crate::reading::{PLAIN, bytes_of, entry};
use folder_calls::is_other;
use std::alloc::{AllocError, Global};

/// A name, and what a crash may leave under it: no file, or a file with these bytes.
#[derive(Drop)]
pub struct NameContents {
    name: String,
    contents: Vec<Option<Vec<u8>>>,
}

/// How many of the bytes are tried that a crash may leave of a file that wasn't flushed.
const WAYS: u32 = 3;

/// The name that the call gave to a file.
fn given(call: &Call) -> Option<&str> {
    match call {
        Call::Put(name, _, _, _) => Some(name.as_str()),
        Call::Create(name, _) => Some(name.as_str()),
        Call::Rename(_, name) => Some(name.as_str()),
        _ => None,
    }
}

/// Whether one of the calls gave this name to a file.
fn is_given(calls: &[Call], name: &str) -> bool {
    for call in calls {
        if given(call) == Some(name) {
            return true;
        }
    }
    false
}

/// Whether the bytes of the file of this number are on the disk itself.
fn is_flushed(calls: &[Call], number: u64) -> bool
    ensures { result ≡ ((now_of calls.now).node number).flushed }
{
    let [call, earlier @ ..] = calls else {
        return true;
    };
    match call {
        Call::Put(_, put, _, _) => number == *put || is_flushed(earlier, number),
        Call::FlushFile(flushed) => number == *flushed || is_flushed(earlier, number),
        Call::Create(_, made) => number != *made && is_flushed(earlier, number),
        Call::Empty(emptied) => number != *emptied && is_flushed(earlier, number),
        Call::Append(to, _) => number != *to && is_flushed(earlier, number),
        Call::Rename(_, _) => is_flushed(earlier, number),
        Call::Remove(_) => is_flushed(earlier, number),
        Call::FlushName(_) => is_flushed(earlier, number),
    }
}

/// What stands under the name and what stood there since it was flushed, the newest first.
fn entries(alloc: Global, calls: &[Call], name: &str) -> Result<Vec<Option<u64>>, AllocError>
    ensures { IfOk result (λ all.
        all.items ≡ (now_of calls.now).at name.now ∷ (now_of calls.now).before name.now) }
{
    let [call, earlier @ ..] = calls else {
        return alone(alloc, None);
    };
    match call {
        Call::Put(put, number, _, _) => {
            if name == put.as_str() {
                return alone(alloc, Some(*number));
            }
            entries(alloc, earlier, name)
        }
        Call::Create(made, number) => {
            if name == made.as_str() {
                return with_front(entries(alloc, earlier, made.as_str())?, Some(*number));
            }
            entries(alloc, earlier, name)
        }
        Call::Remove(gone) => {
            if name == gone.as_str() {
                return with_front(entries(alloc, earlier, gone.as_str())?, None);
            }
            entries(alloc, earlier, name)
        }
        Call::Rename(from, to) => {
            if name == to.as_str() {
                let new = entry(earlier, from.as_str());
                if to.as_str() == from.as_str() {
                    let stood = with_front(entries(alloc, earlier, from.as_str())?, None)?;
                    return with_front(stood, new);
                }
                return with_front(entries(alloc, earlier, to.as_str())?, new);
            }
            if name == from.as_str() {
                return with_front(entries(alloc, earlier, from.as_str())?, None);
            }
            entries(alloc, earlier, name)
        }
        Call::FlushName(flushed) => {
            if name == flushed.as_str() {
                return alone(alloc, entry(earlier, name));
            }
            entries(alloc, earlier, name)
        }
        Call::Append(_, _) => entries(alloc, earlier, name),
        Call::Empty(_) => entries(alloc, earlier, name),
        Call::FlushFile(_) => entries(alloc, earlier, name),
    }
}

fn alone(alloc: Global, entry: Option<u64>) -> Result<Vec<Option<u64>>, AllocError>
    ensures { IfOk result (λ all. all.items ≡ entry ∷ []) }
{
    let mut all = Vec::new(alloc);
    all.push(entry)?;
    Ok(all)
}

fn with_front(mut all: Vec<Option<u64>>, first: Option<u64>) -> Result<Vec<Option<u64>>, AllocError>
    ensures { IfOk result (λ new. new.items ≡ first ∷ all.items) }
{
    all.insert(0, first)?;
    Ok(all)
}

/// Bytes that a crash may leave of the file of this number: its own, or, where they weren't
/// flushed, the first half of them or question marks.
fn bytes_left(alloc: Global, calls: &[Call], number: u64, way: u32) -> Result<Vec<u8>, AllocError>
    ensures { IfOk result (λ bytes. MayHold (now_of calls.now) (Some number) (Some bytes.items)) }
{
    let mut bytes = bytes_of(alloc, calls, number)?;
    if is_flushed(calls, number) {
        return Ok(bytes);
    }
    match way {
        0 => {}
        1 => bytes.truncate(bytes.len() / 2),
        _ => bytes.fill(b'?'),
    }
    Ok(bytes)
}

fn add_new(all: &mut Vec<Option<Vec<u8>>>, content: Option<Vec<u8>>) -> Result<(), AllocError> {
    if !all.contains(&content) {
        all.push(content)?;
    }
    Ok(())
}

/// The contents that a crash may leave under the name, each once.
fn contents(alloc: Global, calls: &[Call], name: &str) -> Result<Vec<Option<Vec<u8>>>, AllocError> {
    let mut all = Vec::new(alloc);
    let entries = entries(alloc, calls, name)?;
    for entry in entries.as_slice() {
        match entry {
            Some(number) => {
                for way in 0..WAYS {
                    add_new(&mut all, Some(bytes_left(alloc, calls, *number, way)?))?;
                }
            }
            None => add_new(&mut all, None)?,
        }
    }
    Ok(all)
}

/// What a crash after these calls, the last one first, may leave under each name that they gave to
/// a file: what stands there or stood there since the name was flushed, with bytes of its own or,
/// where they weren't flushed, two other ones.
pub fn remains(alloc: Global, calls: &[Call]) -> Result<Vec<NameContents>, AllocError> {
    let mut all = Vec::new(alloc);
    for at in 0..calls.len() {
        if let Some(name) = given(&calls[at])
            && !is_given(&calls[at + 1..], name)
        {
            all.push(NameContents {
                name: String::from_str(alloc, name)?,
                contents: contents(alloc, calls, name)?,
            })?;
        }
    }
    Ok(all)
}

/// How many different disks a crash may leave, of which these may remain.
pub fn crash_count(remains: &[NameContents]) -> usize {
    let mut all = 1usize;
    for one in remains {
        all = all.saturating_mul(one.contents.len());
    }
    all
}

/// The disk that a crash leaves, by its number among those that it may leave.
pub fn crash(alloc: Global, remains: &[NameContents], number: usize) -> Result<Disk, AllocError> {
    let mut disk = Disk::make(alloc);
    let mut number = number;
    for one in remains {
        let ways = one.contents.len();
        if ways > 0 {
            if let Some(Some(bytes)) = one.contents.get(number % ways) {
                disk.put(alloc, one.name.as_str(), bytes.as_slice(), PLAIN)?;
            }
            number /= ways;
        }
    }
    Ok(disk)
}

/// Whether something has a name that is kept for files that aren't in place.
pub fn has_other_names(calls: &[Call]) -> bool {
    for call in calls {
        if let Some(name) = given(call)
            && is_other(name)
            && entry(calls, name).is_some()
        {
            return true;
        }
    }
    false
}
