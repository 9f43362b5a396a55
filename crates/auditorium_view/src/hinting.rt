//! Lines on standard error: what failed, and hints for users whose command wasn't carried out.
use crate::words::PICTURE;
use command_hints::{Hint, hint_on};
use command_line::Status;
use evidence::InputFault;
use hall_outside::{Failure, FolderStore, read_file};
use std::alloc::{AllocError, Global};
use std::fs::{self, File};
use std::io::{self, Eprint};
use std::rt::Files;

/// The most bytes of a text of which a line is shown, which is the limit of rules.
const MOST: usize = 4_194_304;

/// Says on standard error what failed, where the status is that the system did, and nobody gave up
/// reading the output. A line that can't be written changes no status.
pub(crate) fn report<R: Eprint>(
    rt: &R,
    status: Status,
    store: Option<&Failure>,
    out: Option<&Failure>,
) {
    let _ = match (status, store.or(out)) {
        (Status::WriteFault, Some(failure)) if failure.is_broken_pipe() => Ok(()),
        (Status::ReadFault | Status::WriteFault, Some(failure)) => {
            eprintln!(rt; "auditorium_view: {failure}")
        }
        (Status::ReadFault, None) => eprintln!(rt; "auditorium_view: reading failed"),
        (Status::WriteFault, None) => eprintln!(rt; "auditorium_view: writing failed"),
        (Status::Memory, _) => eprintln!(rt; "auditorium_view: out of memory"),
        _ => Ok(()),
    };
}

/// The words with which `auditorium` would be asked for the report.
fn audit_words(alloc: Global, words: &[String]) -> Result<Vec<String>, AllocError> {
    let words = match words {
        [first, rest @ ..] if first.as_str() == PICTURE => rest,
        _ => words,
    };
    let mut all = Vec::new(alloc);
    all.push(String::from_str(alloc, "audit")?)?;
    for word in words {
        all.push(String::from_str(alloc, word.as_str())?)?;
    }
    Ok(all)
}

/// Writes the hint, if there is one, where the command line wasn't valid, or an input was refused
/// or isn't there. What can't be written is left out.
pub(crate) fn hint<R: Files<File = File> + Eprint + AllocGlobal>(
    rt: &R,
    status: Status,
    words: &[String],
    fault: Option<&InputFault>,
) {
    if matches!(status, Status::Usage) {
        let _ = eprintln!(rt;
            "usage: auditorium_view [picture] ROSTER RULES LOG..\n\
prints a page of what audit reports on, or its picture alone; RULES is a file or standard, \
LOG.. 1 to 16 logs"
        );
        return;
    }
    let (Some(fault), Status::Refused | Status::Absent) = (fault, status) else {
        return;
    };
    let Ok(words) = audit_words(rt.alloc(), words) else {
        return;
    };
    if let Some(hint) = hint_on("auditorium_view", words.as_slice(), fault) {
        let _ = write_hint(rt, &hint);
    }
}

/// Writes the hint, with what the text of a refused file shows.
fn write_hint<R: Files<File = File> + Eprint + AllocGlobal>(
    rt: &R,
    hint: &Hint<'_>,
) -> io::Result<()> {
    let Hint::Refused(refusal) = *hint else {
        return eprint!(rt; "{hint}");
    };
    let text = match refusal.text_file() {
        Some(name) => text_again(rt, name),
        None => None,
    };
    let text = text.as_ref().map(|text| text.as_slice());
    let explained = refusal.explained(rt.alloc(), text);
    eprint!(rt; "{explained}")
}

/// The text of the file, if it can be read once more: a pipe or a terminal can't.
fn text_again<R: Files<File = File> + AllocGlobal>(rt: &R, name: &str) -> Option<Vec<u8>> {
    let metadata = fs::metadata(rt, name).ok()?;
    if !metadata.is_file() {
        return None;
    }
    let mut store = FolderStore::make(rt).ok()?;
    read_file(rt.alloc(), &mut store, name, MOST).ok()
}
