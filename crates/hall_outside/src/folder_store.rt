// The files of the system.
ghost use Rattle.std.specs.Prelude.{◌≡◌, IfOk};
ghost use Rattle.hall_outside.specs.Counts.{raised as raised_count};

use crate::begun_files::{BegunFiles, append_to, begin};
use crate::counts::raised;
use crate::failure::Failure;
use crate::placing::{discard, place};
use crate::reading_parts::read_part;
use crate::stores::{Failed, Memory, Store, Taken};
use crate::system_folder::SystemFolder;
use std::fs::File;
use std::io;
use std::marker::Model;
use std::rt::Files;

/// The files of the system, in the folder where the program runs. It exposes nothing of them, and
/// counts what it answered.
///
/// A file that is created is written under another name beside its own, and gets its own
/// from `finish` on: all are flushed to the disk, and then renamed in the order in which they were
/// created. Until then no file is changed, and a read finds the old one. Where a create, an append
/// or a flush fails, all are given up and removed; where a rename does, those before it stand. Only
/// a file that was created since the last `finish` is appended to.
///
/// Of several files, a first one that is a roster, or an office that wasn't there before, is
/// renamed last, and the roster that it replaces loses its name before all. So a set of files is
/// old, or new, or has no roster. Nor is a file read after another one that was changed since it
/// was read.
///
/// The other name of a file is always the same, and the system's lock is on it. So a second program
/// that writes the file fails, and what a program left there that was ended is removed by the next.
/// Nor is a file created that was read, if another program has written it meanwhile.
///
/// Only a regular file is replaced that its owner may write, that wasn't read, and that isn't of
/// another kind that commands write. What a `finish` put in place counts as not read. A replaced
/// file keeps its permission bits and, where the system allows that, its owner. A file whose name
/// ends with `.office` holds a secret: only its owner can read it, it is neither read nor replaced
/// where it is a link or has another name too, and it is replaced though it was read.
#[derive(Drop)]
pub struct FolderStore<'a, R> {
    rt: &'a R,
    folder: SystemFolder<'a, R>,
    files: BegunFiles,
    failure: Option<Failure>,
    read_faults: u64,
    write_faults: u64,
    absences: u64,
    bytes: u64,
}

impl<'a, R> Model for FolderStore<'a, R> {
    ghost use Rattle.hall_outside.specs.FolderStore.{FolderState};

    ghost Value = { FolderState };

    ghost view = { λ s. record {
      read_faults = s.read_faults;
      write_faults = s.write_faults;
      answered = record { absences = s.absences; bytes = s.bytes };
    } };
}

impl<'a, R: AllocGlobal> FolderStore<'a, R> {
    /// The store, with its counts at 0. It takes the memory for names now: reads and writes take
    /// none of names of up to 1,152 bytes, where at most 17 files are written between two calls of
    /// `finish`.
    pub fn make(rt: &'a R) -> Result<FolderStore<'a, R>, Memory>
        ensures { IfOk result (λ store. store ≡ record {
          read_faults = 0;
          write_faults = 0;
          answered = record { absences = 0; bytes = 0 };
        }) }
    {
        Ok(FolderStore {
            rt,
            folder: SystemFolder::make(rt)?,
            files: BegunFiles::make(rt.alloc())?,
            failure: None,
            read_faults: 0,
            write_faults: 0,
            absences: 0,
            bytes: 0,
        })
    }

    /// The last call that failed, for a line to the user. It is `None` where none did, or where
    /// there was no memory to keep the file's name.
    pub fn failure(&self) -> Option<&Failure> {
        self.failure.as_ref()
    }
}

impl<'a, R: Files<File = File> + AllocGlobal> FolderStore<'a, R> {
    fn read_failed(&mut self, name: &str, reason: io::Error) -> Failed
        ensures { self.new ≡ record self.old {
          read_faults = raised_count (self.old).read_faults 1;
        } }
    {
        self.read_faults = raised(self.read_faults, 1);
        self.failure = Failure::new(self.rt.alloc(), "reading", name, reason);
        Failed
    }

    /// Nothing more is done with the files that were begun.
    fn write_failed(&mut self, name: &str, reason: io::Error) -> Failed
        ensures { self.new ≡ record self.old {
          write_faults = raised_count (self.old).write_faults 1;
        } }
    {
        discard(&mut self.folder, &mut self.files);
        self.write_faults = raised(self.write_faults, 1);
        self.failure = Failure::new(self.rt.alloc(), "writing", name, reason);
        Failed
    }
}

impl<'a, R: Files<File = File> + AllocGlobal> Store for FolderStore<'a, R> {
    ghost use Rattle.std.specs.Prelude.{None, is_ok};
    ghost use Rattle.hall_outside.specs.Counts.{CountsFailures};

    ghost files = { λ _. None };

    ghost read_faults = { λ s. s.read_faults };

    ghost write_faults = { λ s. s.write_faults };

    ghost answered = { λ s. s.answered };

    ghost reads = { λ _ _ _ old result _ new.
        CountsFailures old.read_faults (is_ok result) new.read_faults };

    ghost creates = { λ _ old ok new. CountsFailures old.write_faults ok new.write_faults };

    ghost appends = { λ _ old _ result new.
        CountsFailures old.write_faults (is_ok result) new.write_faults };

    ghost finishes = { λ old ok new. CountsFailures old.write_faults ok new.write_faults };

    fn read_at(&mut self, name: &str, at: u64, into: &mut [u8]) -> Result<Taken, Failed> {
        match read_part(&mut self.folder, name, at, into) {
            Ok(None) => {
                self.absences = raised(self.absences, 1);
                Ok(Taken::Absent)
            }
            Ok(Some(count)) => {
                self.bytes = raised(self.bytes, count as u64);
                Ok(Taken::Bytes(count))
            }
            Err(reason) => Err(self.read_failed(name, reason)),
        }
    }

    fn create(&mut self, name: &str) -> Result<(), Failed> {
        match begin(&mut self.folder, &mut self.files, name) {
            Ok(()) => Ok(()),
            Err(reason) => Err(self.write_failed(name, reason)),
        }
    }

    fn append(&mut self, name: &str, piece: &[u8]) -> Result<usize, Failed> {
        match append_to(&mut self.folder, self.files.begun.as_slice(), name, piece) {
            Ok(count) => Ok(count),
            Err(reason) => Err(self.write_failed(name, reason)),
        }
    }

    fn finish(&mut self) -> Result<(), Failed> {
        match place(&mut self.folder, &mut self.files) {
            Ok(()) => Ok(()),
            Err(unplaced) => {
                self.write_faults = raised(self.write_faults, 1);
                self.failure = unplaced.failure(self.rt.alloc(), &self.files);
                self.files.clear();
                Err(Failed)
            }
        }
    }
}
