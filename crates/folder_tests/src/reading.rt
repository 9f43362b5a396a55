// What a disk has now.
ghost use Rattle.std.specs.Prelude.{◌≡◌, Some, true, IfOk, option_map};
ghost use Rattle.folder_tests.specs.Memory.{now_of};

use crate::disk::Call;
use folder_calls::Found;
use std::alloc::{AllocError, Global};

/// What the system says of a plain file.
pub const PLAIN: Found = Found {
    is_regular: true,
    is_folder: false,
    is_link: false,
    device: 0,
    number: 0,
    links: 1,
    bits: 0o644,
    owner: 0,
    group: 0,
    written: (0, 0),
    changed: (0, 0),
    was_read: false,
};

/// The number of the file that has the name.
pub(crate) fn entry(calls: &[Call], name: &str) -> Option<u64>
    ensures { result ≡ (now_of calls.now).at name.now }
{
    let [call, earlier @ ..] = calls else {
        return None;
    };
    match call {
        Call::Put(put, number, _, _) => {
            if name == put.as_str() {
                return Some(*number);
            }
            entry(earlier, name)
        }
        Call::Create(made, number) => {
            if name == made.as_str() {
                return Some(*number);
            }
            entry(earlier, name)
        }
        Call::Remove(gone) => {
            if name == gone.as_str() {
                return None;
            }
            entry(earlier, name)
        }
        Call::Rename(from, to) => {
            if name == to.as_str() {
                entry(earlier, from.as_str())
            } else if name == from.as_str() {
                None
            } else {
                entry(earlier, name)
            }
        }
        Call::Append(_, _) => entry(earlier, name),
        Call::Empty(_) => entry(earlier, name),
        Call::FlushFile(_) => entry(earlier, name),
        Call::FlushName(_) => entry(earlier, name),
    }
}

/// The bytes of the file of this number.
#[tactic(auto, using(crate::proofs::Nodes::bytes_flushed))]
pub(crate) fn bytes_of(alloc: Global, calls: &[Call], number: u64) -> Result<Vec<u8>, AllocError>
    ensures { IfOk result (λ bytes. bytes.items ≡ ((now_of calls.now).node number).bytes) }
{
    let [call, earlier @ ..] = calls else {
        return Ok(Vec::new(alloc));
    };
    match call {
        Call::Put(_, put, bytes, _) => {
            if number == *put {
                return Ok(Vec::from_slice(alloc, bytes.as_slice())?);
            }
            bytes_of(alloc, earlier, number)
        }
        Call::Create(_, made) => {
            if number == *made {
                return Ok(Vec::new(alloc));
            }
            bytes_of(alloc, earlier, number)
        }
        Call::Empty(emptied) => {
            if number == *emptied {
                return Ok(Vec::new(alloc));
            }
            bytes_of(alloc, earlier, number)
        }
        Call::Append(to, piece) => {
            if number == *to {
                let mut bytes = bytes_of(alloc, earlier, *to)?;
                bytes.extend_from_slice(piece.as_slice())?;
                return Ok(bytes);
            }
            bytes_of(alloc, earlier, number)
        }
        Call::FlushFile(_) => bytes_of(alloc, earlier, number),
        Call::Rename(_, _) => bytes_of(alloc, earlier, number),
        Call::Remove(_) => bytes_of(alloc, earlier, number),
        Call::FlushName(_) => bytes_of(alloc, earlier, number),
    }
}

/// What the system says of the file of this number.
#[tactic(auto, using(crate::proofs::Nodes::regular_held, crate::proofs::Nodes::regular_flushed))]
pub(crate) fn found_of(calls: &[Call], number: u64) -> Found
    ensures { result.is_regular ≡ ((now_of calls.now).node number).regular }
{
    let [call, earlier @ ..] = calls else {
        return PLAIN;
    };
    match call {
        Call::Put(_, put, _, found) => {
            if number == *put {
                return *found;
            }
            found_of(earlier, number)
        }
        Call::Create(_, made) => {
            if number == *made {
                return PLAIN;
            }
            found_of(earlier, number)
        }
        Call::Append(_, _) => found_of(earlier, number),
        Call::Empty(_) => found_of(earlier, number),
        Call::FlushFile(_) => found_of(earlier, number),
        Call::Rename(_, _) => found_of(earlier, number),
        Call::Remove(_) => found_of(earlier, number),
        Call::FlushName(_) => found_of(earlier, number),
    }
}

/// The bytes of the file that has the name.
pub fn content(alloc: Global, calls: &[Call], name: &str) -> Result<Option<Vec<u8>>, AllocError>
    ensures { IfOk result (λ content. option_map (λ bytes. bytes.items) content
        ≡ option_map (λ i. ((now_of calls.now).node i).bytes) ((now_of calls.now).at name.now)) }
{
    match entry(calls, name) {
        Some(number) => Ok(Some(bytes_of(alloc, calls, number)?)),
        None => Ok(None),
    }
}
