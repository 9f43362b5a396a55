// The standard output.
ghost use Rattle.std.specs.Prelude.{◌≡◌, ◌<◌, length, IfOk};
ghost use Rattle.hall_outside.specs.Writing.{IsCountOf};

use crate::counts::raised;
use crate::failure::Failure;
use crate::sinks::Sink;
use crate::stores::Failed;
use std::io::{self, ErrorKind};
use std::marker::Model;

/// The standard output. It exposes nothing of what was written, and counts its faults.
#[derive(Drop)]
pub struct OutputSink<'a, R> {
    rt: &'a R,
    failure: Option<Failure>,
    faults: u64,
}

impl<'a, R> Model for OutputSink<'a, R> {
    ghost use Rattle.std.specs.Prelude.{ℕ};

    ghost Value = { ℕ };

    ghost view = { λ s. s.faults };
}

impl<'a, R> OutputSink<'a, R> {
    /// The sink, with its count of faults at 0.
    pub fn make(rt: &'a R) -> OutputSink<'a, R>
        ensures { result ≡ 0 }
    {
        OutputSink {
            rt,
            failure: None,
            faults: 0,
        }
    }

    /// The last write that failed, for a line to the user. It is `None` where none did, or where
    /// there was no memory to keep its name.
    pub fn failure(&self) -> Option<&Failure> {
        self.failure.as_ref()
    }
}

impl<'a, R: Print + AllocGlobal> Sink for OutputSink<'a, R> {
    ghost use Rattle.std.specs.Prelude.{None, is_ok};
    ghost use Rattle.hall_outside.specs.Counts.{CountsFailures};

    ghost written = { λ _. None };

    ghost faults = { λ faults. faults };

    ghost writes = { λ old _ result new. CountsFailures old (is_ok result) new };

    fn write(&mut self, piece: &[u8]) -> Result<usize, Failed> {
        match write_output(self.rt, piece) {
            Ok(count) => Ok(count),
            Err(reason) => {
                self.faults = raised(self.faults, 1);
                self.failure = Failure::new(
                    self.rt.alloc(),
                    "writing",
                    "the standard output",
                    reason,
                );
                Err(Failed)
            }
        }
    }
}

/// Writes a prefix, again wherever a signal came first. A write that took nothing is a fault: it
/// would be tried for ever.
fn write_output<R: Print>(rt: &R, piece: &[u8]) -> io::Result<usize>
    requires { 0 < length piece.now }
    ensures { IfOk result (IsCountOf piece.now) }
{
    for _ in 0..u64::MAX {
        match rt.write_some(piece) {
            Ok(0) => return Err(io::Error::from(ErrorKind::WriteZero)),
            Err(error) if error.kind() == ErrorKind::Interrupted => {}
            result => return result,
        }
    }
    Err(io::Error::from(ErrorKind::Interrupted))
}
