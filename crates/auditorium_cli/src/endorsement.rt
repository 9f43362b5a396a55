//! Whether an endorsement fits the office's public key, and whether others can read its secret.

use auditorium_core::{Status, auditorium_still};
use hall_outside::{FolderStore, MemorySink};
use std::alloc::{AllocError, Global};
use std::fs::{self, File};
use std::io::Eprint;
use std::os::unix::fs::MetadataExt;
use std::rt::Files;

/// The permission bits of everybody but the owner.
const OTHERS: u32 = 0o077;

/// The name of the office's file with which the words ask to sign, where others than its owner
/// have access to it. A file that replaces it is its owner's alone.
pub(crate) fn office_of_others<R: Files<File = File> + AllocGlobal>(
    rt: &R,
    words: &[String],
) -> Option<String> {
    let [command, name, _] = words else {
        return None;
    };
    if command.as_str() != "endorse" {
        return None;
    }
    let Ok(office) = office_name(rt.alloc(), name.as_str()) else {
        return None;
    };
    match fs::metadata(rt, office.as_str()) {
        Ok(found) if found.is_file() && found.mode() & OTHERS != 0 => Some(office),
        _ => None,
    }
}

fn office_name(alloc: Global, name: &str) -> Result<String, AllocError> {
    Ok(format!(in alloc; "{name}.office")?)
}

/// Says on standard error that others could read the office's file.
pub(crate) fn warn_of_others<R: Eprint>(rt: &R, office: &Option<String>) {
    if let Some(office) = office {
        let _ = eprintln!(rt;
            "auditorium: {office} could be read by others than its owner: chmod 600 {office}, and \
             make a new office if one of them may have"
        );
    }
}

/// The words that ask whether the signature of the file is the office's, by the key beside it.
fn endorsed_words(alloc: Global, name: &str, file: &str) -> Result<Vec<String>, AllocError> {
    let mut words = Vec::new(alloc);
    words.push(String::from_str(alloc, "endorsed")?)?;
    words.push(format!(in alloc; "{name}.key")?)?;
    words.push(String::from_str(alloc, file)?)?;
    words.push(format!(in alloc; "{file}.sig")?)?;
    Ok(words)
}

/// Whether a file of this name can be read once more: a pipe or a terminal can't.
pub(crate) fn is_regular<R: Files<File = File>>(rt: &R, name: &str) -> bool {
    match fs::metadata(rt, name) {
        Ok(metadata) => metadata.is_file(),
        Err(_) => false,
    }
}

/// Whether both names are of one file.
fn is_one_file<R: Files<File = File>>(rt: &R, one: &str, other: &str) -> bool {
    match (fs::metadata(rt, one), fs::metadata(rt, other)) {
        (Ok(one), Ok(other)) => one.dev() == other.dev() && one.ino() == other.ino(),
        _ => false,
    }
}

/// Says on standard error why a new endorsement isn't good under the public key of that name.
fn say_why<R: Files<File = File> + Eprint + AllocGlobal>(rt: &R, name: &str, file: &str) {
    let Ok(office) = office_name(rt.alloc(), name) else {
        return;
    };
    let _ = if is_one_file(rt, office.as_str(), file) {
        eprintln!(rt;
            "auditorium: {file}.sig signs {file} as it was: since then it has its next number"
        )
    } else {
        eprintln!(rt;
            "auditorium: {file}.sig isn't good under {name}.key: give endorse the NAME that office \
             was given, folders included"
        )
    };
}

/// Says on standard error that a new endorsement isn't good under the public key of that name, if
/// there is one: then the office's name is another than `office` was given, or it signs the
/// office's own file. What can't be read or written is left out.
pub(crate) fn check_endorsement<R: Files<File = File> + Eprint + AllocGlobal>(
    rt: &R,
    status: Status,
    words: &[String],
) {
    let (Status::Done, [command, name, file]) = (status, words) else {
        return;
    };
    if command.as_str() != "endorse" {
        return;
    }
    let Ok(words) = endorsed_words(rt.alloc(), name.as_str(), file.as_str()) else {
        return;
    };
    if words
        .iter()
        .skip(1)
        .all(|name| is_regular(rt, name.as_str()))
        && is_bad(rt, &words)
    {
        say_why(rt, name.as_str(), file.as_str());
    }
}

/// Whether the program says that the signature isn't the office's.
fn is_bad<R: Files<File = File> + AllocGlobal>(rt: &R, words: &Vec<String>) -> bool {
    let Ok(mut store) = FolderStore::make(rt) else {
        return false;
    };
    let mut out = MemorySink::make(rt.alloc(), 64, Vec::new(rt.alloc()));
    let status = auditorium_still(rt.alloc(), words.as_slice(), &mut store, &mut out);
    matches!(status, Status::Findings)
}
