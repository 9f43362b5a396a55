//! A store whose files change while they are read.
ghost use Rattle.std.specs.Prelude.{None, ⊤};
ghost use Rattle.hall_outside.specs.declared.stores.Failed.{Failed};
ghost use Rattle.hall_outside.specs.declared.stores.Taken.{Taken};

use hall_outside::{Failed, MemoryStore, Store, Taken};

/// Files that are those of one store for so many reads, and those of another from then on. It
/// exposes none, and is never written to.
#[derive(Drop)]
pub(super) struct ChangingStore {
    pub before: MemoryStore,
    pub after: MemoryStore,
    /// How many reads are still of the files before.
    pub reads_before: u64,
    pub read_faults: u64,
    pub absences: u64,
    pub bytes: u64,
}

impl Store for ChangingStore {
    ghost files = { λ _. None };

    ghost read_faults = { λ s. s.read_faults };

    ghost write_faults = { λ _. 0 };

    ghost answered = { λ s. record { absences = s.absences; bytes = s.bytes } };

    ghost reads = { λ _ _ _ _ _ _ _. ⊤ };

    ghost creates = { λ _ _ _ _. ⊤ };

    ghost appends = { λ _ _ _ _ _. ⊤ };

    ghost finishes = { λ _ _ _. ⊤ };

    fn read_at(&mut self, name: &str, at: u64, into: &mut [u8]) -> Result<Taken, Failed> {
        let read = if self.reads_before == 0 {
            self.after.read_at(name, at, into)
        } else {
            self.reads_before -= 1;
            self.before.read_at(name, at, into)
        };
        match read {
            Ok(Taken::Absent) => {
                self.absences = self.absences.saturating_add(1);
                Ok(Taken::Absent)
            }
            Ok(Taken::Bytes(count)) => {
                self.bytes = self.bytes.saturating_add(count as u64);
                Ok(Taken::Bytes(count))
            }
            Err(Failed) => {
                self.read_faults = self.read_faults.saturating_add(1);
                Err(Failed)
            }
        }
    }

    fn create(&mut self, _name: &str) -> Result<(), Failed> {
        Ok(())
    }

    fn append(&mut self, _name: &str, piece: &[u8]) -> Result<usize, Failed> {
        Ok(piece.len())
    }

    fn finish(&mut self) -> Result<(), Failed> {
        Ok(())
    }
}
