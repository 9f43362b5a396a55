// The names of new files, beside those that they are to replace.

use std::alloc::AllocError;
use std::fmt::Write;

/// The 64-bit FNV-1a hash of no bytes.
const START: u64 = 0xcbf2_9ce4_8422_2325;

/// The front of the path up to its last slash; none where the file is in the current folder.
fn folder_of(name: &str) -> &str {
    match name.rfind('/') {
        Some(at) => &name[..at + 1],
        None => "",
    }
}

/// The same, by a path that can be opened.
pub(crate) fn path_of_folder(name: &str) -> &str {
    match folder_of(name) {
        "" => ".",
        path => path,
    }
}

/// What follows the last slash.
fn last_of(name: &str) -> &str {
    match name.rfind('/') {
        Some(at) => &name[at + 1..],
        None => name,
    }
}

/// Writes the name that the file has until it is put in place. It is beside the file, is always the
/// same one, and is short, so that a long name has one too.
pub(crate) fn write_other_name(to: &mut String, name: &str) -> Result<(), AllocError> {
    let folder = folder_of(name);
    let mark = mark_of(START, last_of(name).as_bytes());
    write!(to, "{folder}.auditorium-{mark:016x}")
}

/// Writes the name that a replaced file has while others are put in place. No file has the last
/// part that it is made of.
pub(crate) fn write_name_aside(to: &mut String, name: &str) -> Result<(), AllocError> {
    let folder = folder_of(name);
    let mark = mark_of(mark_of(START, last_of(name).as_bytes()), b"/");
    write!(to, "{folder}.auditorium-{mark:016x}")
}

/// The 64-bit FNV-1a hash: two files of a folder have one mark by a rare chance only, and then
/// exclude one another.
fn mark_of(start: u64, bytes: &[u8]) -> u64 {
    let mut mark = start;
    for byte in bytes {
        mark = (mark ^ u64::from(*byte)).wrapping_mul(0x100_0000_01b3);
    }
    mark
}
