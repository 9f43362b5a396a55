//! The program as a function over stores and sinks.
ghost use Rattle.std.specs.Prelude.{◌≡◌, drop, map, string_bytes};
ghost use Rattle.command_line.specs.ExitStatus.{exit_status_of};
ghost use Rattle.auditorium_core.specs.Outcome.{HasDone, IsGivenBy};
ghost use Rattle.command_line.specs.Heard.{HasHeard, IsSaid};
ghost use Rattle.command_line.specs.Outside.{outside};
ghost use Rattle.auditorium_core.specs.Words.{IsAny};

use auditorium_core::{Listener, Status, auditorium_heard};
use hall_outside::{Gate, Sink, Store};
use std::alloc::Global;
use std::sync::Wait;
use std::thread::Threads;

/// How the program ended, and the exit status of its process.
#[derive(Clone, Copy)]
pub(crate) struct Ended {
    pub status: Status,
    pub number: u8,
}

/// The words of a command line after the program's name.
pub(crate) fn after_name(line: &[String]) -> &[String]
    ensures { result.now ≡ drop 1 line.now }
{
    match line {
        [_, words @ ..] => words,
        [] => line,
    }
}

/// Does what the command line asks for, by its words as they are given after the program's name.
/// The listener hears why an input was refused.
/// What `main` adds is trusted: `env::args` gives the words of the command line; what an
/// `OutputSink` counts as written went to the standard output, since it exposes nothing; and
/// `ExitCode` ends the process with the number.
pub(crate) fn carry_out<R: Threads + Wait + Sync, S: Store, K: Sink, G: Gate + Sync, N: Listener>(
    rt: &R,
    alloc: Global,
    line: &[String],
    store: &mut S,
    out: &mut K,
    gate: &G,
    listener: &mut N,
) -> Ended
    ensures done { HasDone IsAny (map string_bytes (drop 1 line.now))
        (IsGivenBy S.Store K.Sink store.old out.old store.new out.new)
        (outside S.Store K.Sink store.old out.old) result.status
        (outside S.Store K.Sink store.new out.new) }
    ensures number { result.number ≡ exit_status_of result.status }
    ensures heard { HasHeard N.hears
        (IsSaid (K.written out.old) result.status (K.written out.new)) listener.old listener.new }
{
    let status = auditorium_heard(rt, alloc, after_name(line), store, out, gate, listener);
    Ended {
        status,
        number: status.exit_status(),
    }
}
