//! The program `auditorium_view`: it prints a page of what the logs show, or the picture alone, and
//! ends with the status with which `auditorium audit` would. Where the system failed, a line on
//! standard error says at what and why; where the command line isn't valid, or an input was refused
//! or isn't there, a hint does.
#![tactic(auto)]

mod digests;
mod ending;
mod hinting;
mod viewing;
mod words;

use crate::digests::digests_of;
use crate::ending::show;
use crate::hinting::{hint, report};
use command_line::Status;
use hall_outside::{FolderStore, OutputSink};
use std::env;
use std::io::{self, Eprint, ErrorKind};
use std::process::ExitCode;
use std::rt::Env;

/// The words after the program's name, or `None` where one of them isn't text.
fn words_after_name<R: Env + AllocGlobal>(rt: &R) -> io::Result<Option<Vec<String>>> {
    let mut words = Vec::new(rt.alloc());
    match env::args(rt) {
        Ok(given) => {
            for word in given.skip(1) {
                words.push(word)?;
            }
            Ok(Some(words))
        }
        Err(error) if error.kind() == ErrorKind::InvalidData => Ok(None),
        Err(error) => Err(error),
    }
}

fn ended_without_memory<R: Eprint>(rt: &R) -> ExitCode {
    report(rt, Status::Memory, None, None);
    ExitCode::from(Status::Memory.exit_status())
}

fn main(rt: HostRuntime) -> ExitCode {
    let Ok(given) = words_after_name(&rt) else {
        return ended_without_memory(&rt);
    };
    let Ok(mut store) = FolderStore::make(&rt) else {
        return ended_without_memory(&rt);
    };
    // A word that isn't text counts as no words at all, which is a usage error.
    let words = given.as_ref().map(|words| words.as_slice()).unwrap_or(&[]);
    let mut out = OutputSink::make(&rt);
    let Ok(digests) = digests_of(&rt, words) else {
        return ended_without_memory(&rt);
    };
    let ended = show(rt.alloc(), words, &digests, &mut store, &mut out);
    report(&rt, ended.status, store.failure(), out.failure());
    hint(&rt, ended.status, words, ended.fault());
    ExitCode::from(ended.status.exit_status())
}
