// A sink in memory.
ghost use Rattle.std.specs.Prelude.{◌≡◌, ◌<◌, []};

use crate::counts::raised;
use crate::sinks::Sink;
use crate::stores::Failed;
use std::alloc::Global;
use std::marker::Model;

/// Bytes in memory, and the numbers, counted from 1, of the writes that are to fail. A write
/// for which there isn't enough memory fails, too.
#[derive(Drop)]
pub struct MemorySink {
    written: Vec<u8>,
    greatest: usize,
    failing_writes: Vec<u64>,
    writes: u64,
    faults: u64,
}

impl Model for MemorySink {
    ghost use Rattle.std.specs.Prelude.{◌<◌};
    ghost use Rattle.hall_outside.specs.MemorySink.{SinkState};

    ghost Value = { SinkState };

    ghost view = { λ s. record {
      written = s.written.items;
      greatest = s.greatest;
      failing_writes = s.failing_writes.items;
      writes = s.writes;
      faults = s.faults;
    } };

    ghost invariant = { λ s. 0 < s.greatest };
}

impl MemorySink {
    /// A sink without bytes. A write takes at most `greatest` bytes, and those with these numbers
    /// are to fail. It keeps `alloc` for its bytes.
    pub fn make(alloc: Global, greatest: usize, writes: Vec<u64>) -> MemorySink
        requires { 0 < greatest }
        ensures { result ≡ record {
          written = [];
          greatest = greatest;
          failing_writes = writes.items;
          writes = 0;
          faults = 0;
        } }
    {
        MemorySink {
            written: Vec::new(alloc),
            greatest,
            failing_writes: writes,
            writes: 0,
            faults: 0,
        }
    }

    /// The bytes that were written.
    pub fn bytes(&self) -> &[u8]
        ensures { result.now ≡ self.now.written }
    {
        self.written.as_slice()
    }
}

impl Sink for MemorySink {
    ghost use Rattle.std.specs.Prelude.{Some};
    ghost use Rattle.hall_outside.specs.MemorySink.{IsMemorySinkWrite};

    ghost written = { λ s. Some s.written };

    ghost faults = { λ s. s.faults };

    ghost writes = { λ old piece result new. IsMemorySinkWrite old piece result new };

    fn write(&mut self, piece: &[u8]) -> Result<usize, Failed> {
        self.writes = raised(self.writes, 1);
        let number = self.writes;
        let count = piece.len().min(self.greatest);
        if self.failing_writes.contains(&number)
            || self.written.extend_from_slice(&piece[..count]).is_err()
        {
            self.faults = raised(self.faults, 1);
            return Err(Failed);
        }
        Ok(count)
    }
}
