//! Hints on standard error, for users whose command wasn't carried out.

use crate::survivors::survivors;
use auditorium_core::Status;
use command_hints::{Hint, hint_on, usage_hint};
use evidence::InputFault;
use hall_outside::{FolderStore, read_file};
use std::alloc::Global;
use std::fs::{self, File};
use std::io::{self, Eprint};
use std::rt::Files;
use std::thread::Threads;

/// The most bytes of a text of which a line is shown, which is the limit of scripts and of rules.
const MOST: usize = 4_194_304;

/// The most bytes of a proof.
const MOST_PROOF: usize = 67_108_864;

/// Writes the hint, if there is one, where the command line wasn't valid, or an input was refused
/// or isn't there. What can't be written is left out.
pub(crate) fn hint<R: Files<File = File> + Eprint + AllocGlobal + Threads + Sync>(
    rt: &R,
    status: Status,
    words: Option<&[String]>,
    fault: Option<&InputFault>,
) {
    let given = words.unwrap_or(&[]);
    let hint = match (status, fault) {
        (Status::Usage, _) => Some(usage_hint(rt.alloc(), words)),
        (Status::Refused | Status::Absent, Some(fault)) => hint_on("auditorium", given, fault),
        _ => None,
    };
    if let Some(hint) = hint {
        let _ = write_hint(rt, given, &hint);
    }
}

/// Writes the hint, with what the text of a refused file shows.
fn write_hint<R: Files<File = File> + Eprint + AllocGlobal + Threads + Sync>(
    rt: &R,
    words: &[String],
    hint: &Hint<'_>,
) -> io::Result<()> {
    let Hint::Refused(mut refusal) = *hint else {
        return eprint!(rt; "{hint}");
    };
    let mut most = MOST;
    if refusal.is_of_count() {
        most = MOST_PROOF;
        if let Some(count) = survivors(rt, words) {
            refusal = refusal.with_survivors(count);
        }
    }
    let text = match refusal.text_file() {
        Some(name) => text_again(rt, name, most),
        None => None,
    };
    let text = text.as_ref().map(|text| text.as_slice());
    let explained = refusal.explained(rt.alloc(), text);
    eprint!(rt; "{explained}")
}

/// The text of the file, if it can be read once more: a pipe or a terminal can't.
fn text_again<R: Files<File = File> + AllocGlobal>(
    rt: &R,
    name: &str,
    most: usize,
) -> Option<Vec<u8>> {
    let metadata = fs::metadata(rt, name).ok()?;
    if !metadata.is_file() {
        return None;
    }
    let mut store = FolderStore::make(rt).ok()?;
    read_file(rt.alloc(), &mut store, name, most).ok()
}
