//! The program `auditorium`: it answers the words after its name, and ends with the status. Where
//! the system failed, a line on standard error says at what and why; where the command line isn't
//! valid, or an input was refused or isn't there, a hint does.
#![tactic(auto)]

mod ending;
mod endorsement;
mod heard;
mod hinting;
mod survivors;

use crate::ending::{after_name, carry_out};
use crate::endorsement::{check_endorsement, office_of_others, warn_of_others};
use crate::heard::Heard;
use crate::hinting::hint;
use auditorium_core::Status;
use hall_outside::{Failure, FolderStore, OpenGate, OutputSink};
use std::env;
use std::io::{self, Eprint, ErrorKind};
use std::process::ExitCode;
use std::rt::Env;

/// The words of the command line, of which the first is the program's name, or `None` where one of
/// them isn't text.
fn words_of_line<R: Env + AllocGlobal>(rt: &R) -> io::Result<Option<Vec<String>>> {
    let mut words = Vec::new(rt.alloc());
    match env::args(rt) {
        Ok(given) => {
            for word in given {
                words.push(word)?;
            }
            Ok(Some(words))
        }
        Err(error) if error.kind() == ErrorKind::InvalidData => Ok(None),
        Err(error) => Err(error),
    }
}

/// Says on standard error what failed, where the status is that the system did, and nobody gave up
/// reading the output. A line that can't be written changes no status.
fn report<R: Eprint>(rt: &R, status: Status, store: Option<&Failure>, out: Option<&Failure>) {
    let _ = match (status, store.or(out)) {
        (Status::WriteFault, Some(failure)) if failure.is_broken_pipe() => Ok(()),
        (Status::ReadFault | Status::WriteFault, Some(failure)) => {
            eprintln!(rt; "auditorium: {failure}")
        }
        (Status::ReadFault, None) => eprintln!(rt; "auditorium: reading failed"),
        (Status::WriteFault, None) => eprintln!(rt; "auditorium: writing failed"),
        (Status::Memory, _) => eprintln!(rt; "auditorium: out of memory"),
        _ => Ok(()),
    };
}

fn ended_without_memory<R: Eprint>(rt: &R) -> ExitCode {
    report(rt, Status::Memory, None, None);
    ExitCode::from(Status::Memory.exit_status())
}

fn main(rt: HostRuntime) -> ExitCode {
    let Ok(given) = words_of_line(&rt) else {
        return ended_without_memory(&rt);
    };
    let Ok(mut store) = FolderStore::make(&rt) else {
        return ended_without_memory(&rt);
    };
    // A word that isn't text counts as no words at all, which is a usage error.
    let line = given.as_ref().map(|line| line.as_slice());
    let words = line.map(|line| after_name(line));
    let office = office_of_others(&rt, words.unwrap_or(&[]));
    let mut out = OutputSink::make(&rt);
    let mut heard = Heard { fault: None };
    let ended = carry_out(
        &rt,
        rt.alloc(),
        line.unwrap_or(&[]),
        &mut store,
        &mut out,
        &OpenGate,
        &mut heard,
    );
    report(&rt, ended.status, store.failure(), out.failure());
    hint(&rt, ended.status, words, heard.fault.as_ref());
    check_endorsement(&rt, ended.status, words.unwrap_or(&[]));
    warn_of_others(&rt, &office);
    ExitCode::from(ended.number)
}
