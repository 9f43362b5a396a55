// The system's files as a folder: each call is one of the system's, and what its answer means.

use crate::calls::{
    again, create_new, found_of, look_for, none_where, open_to_append, read_through_signals,
    remove, rename, write_some,
};
use crate::new_files::path_of_folder;
use crate::read_files::{ReadFiles, SystemNames};
use crate::system_files::{LastRead, OpenFiles, read_next, taken};
use folder_calls::{Folder, Found};
use std::alloc::AllocError;
use std::fs::{self, File, Metadata, Permissions, TryLockError};
use std::io::{self, ErrorKind};
use std::os::unix::fs::{PermissionsExt, fchown};
use std::rt::Files;

/// How many files there is room for from the beginning: a roster and 16 logs.
pub(crate) const FILES: usize = 17;

/// The files of the system, in the folder where the program runs. It exposes nothing.
#[derive(Drop)]
pub(crate) struct SystemFolder<'a, R> {
    rt: &'a R,
    last_read: LastRead,
    read: ReadFiles,
    opened: OpenFiles,
    /// The file of which the front is to be read.
    front: Option<File>,
    /// The folder that is to be flushed.
    folder: Option<File>,
}

impl<'a, R: AllocGlobal> SystemFolder<'a, R> {
    /// The folder, with room for the files of a command.
    pub fn make(rt: &'a R) -> Result<SystemFolder<'a, R>, AllocError> {
        Ok(SystemFolder {
            rt,
            last_read: LastRead::make(rt.alloc())?,
            read: ReadFiles::make(rt.alloc())?,
            opened: OpenFiles::make(rt.alloc(), FILES)?,
            front: None,
            folder: None,
        })
    }
}

impl<'a, R> SystemFolder<'a, R> {
    /// What the system says of a file, and whether it was read.
    fn found(&self, file: &Metadata) -> Found {
        found_of(file, self.read.has(file))
    }
}

impl<'a, R: Files<File = File>> Folder for SystemFolder<'a, R> {
    ghost use Rattle.std.specs.Prelude.{⊤, []};

    ghost moments = { λ _. [] };

    ghost removal_failed = { λ _ _. ⊤ };

    ghost is_made = { λ _ _. ⊤ };

    ghost is_locked = { λ _ _. ⊤ };

    ghost spares = { λ _. ⊤ };

    ghost unchanged = { λ _ _. ⊤ };

    ghost all_unchanged = { λ _. ⊤ };

    ghost is_open = { λ _ _ _. ⊤ };

    ghost is_noted = { λ _ _. ⊤ };

    ghost is_file = { λ _ _ _ _. ⊤ };

    fn look(&mut self, name: &str) -> io::Result<Option<Found>> {
        match look_for(self.rt, name)? {
            Some(file) => Ok(Some(self.found(&file))),
            None => Ok(None),
        }
    }

    fn is_open_at(&mut self, name: &str, at: u64) -> bool {
        self.last_read.is_at(name, at)
    }

    fn open(&mut self, name: &str) -> io::Result<bool> {
        self.last_read.begin(name)?;
        let file = none_where(ErrorKind::NotFound, fs::open(self.rt, name))?;
        Ok(self.last_read.keep(file))
    }

    fn look_read(&mut self, _name: &str) -> io::Result<Found> {
        Ok(self.found(&self.last_read.metadata()?))
    }

    fn note_read(&mut self, name: &str, found: &Option<Found>) -> io::Result<()> {
        Ok(self.read.note(name, found)?)
    }

    fn seek(&mut self, _name: &str, at: u64) -> io::Result<()> {
        self.last_read.seek(at)
    }

    fn read_on(&mut self, _name: &str, _at: u64, into: &mut [u8]) -> io::Result<usize> {
        read_next(&mut self.last_read, into)
    }

    fn are_all_as_read(&mut self) -> io::Result<bool> {
        self.read.are_all_as_read(&SystemNames { rt: self.rt })
    }

    fn open_front(&mut self, name: &str) -> io::Result<()> {
        self.front = Some(fs::open(self.rt, name)?);
        Ok(())
    }

    fn read_front(&mut self, _name: &str, into: &mut [u8]) -> io::Result<usize> {
        read_through_signals(&mut taken(&mut self.front)?, into)
    }

    fn create(&mut self, name: &str, bits: u32) -> io::Result<Option<u64>> {
        self.opened.reserve()?;
        let made = create_new(self.rt, name, bits);
        self.opened
            .keep(none_where(ErrorKind::AlreadyExists, made)?)
    }

    fn open_left(&mut self, name: &str) -> io::Result<Option<u64>> {
        self.opened.reserve()?;
        let left = open_to_append(self.rt, name);
        self.opened.keep(none_where(ErrorKind::NotFound, left)?)
    }

    fn lock(&mut self, number: u64, _name: &str) -> io::Result<bool> {
        match self.opened.get(number)?.try_lock() {
            Ok(()) => Ok(true),
            Err(TryLockError::WouldBlock) => Ok(false),
            Err(TryLockError::Error(error)) => Err(error),
        }
    }

    fn look_open(&mut self, number: u64) -> io::Result<Found> {
        let file = self.opened.get(number)?;
        Ok(self.found(&again(|| file.metadata())?))
    }

    fn is_as_read(&mut self, name: &str) -> io::Result<bool> {
        self.read.is_unchanged(self.rt, name)
    }

    fn release(&mut self, number: u64) {
        self.opened.close(number);
    }

    fn append(&mut self, number: u64, piece: &[u8]) -> io::Result<usize> {
        write_some(self.opened.get_mut(number)?, piece)
    }

    fn empty(&mut self, number: u64) -> io::Result<()> {
        self.opened.get(number)?.set_len(0)
    }

    fn give_owner(&mut self, number: u64, owner: u32, group: u32) -> io::Result<()> {
        let file = self.opened.get(number)?;
        again(|| fchown(file, Some(owner), Some(group)))
    }

    fn set_bits(&mut self, number: u64, bits: u32) -> io::Result<()> {
        let file = self.opened.get(number)?;
        file.set_permissions(Permissions::from_mode(bits))
    }

    fn flush_file(&mut self, number: u64) -> io::Result<()> {
        self.opened.get(number)?.sync_all()
    }

    fn rename(&mut self, from: &str, to: &str) -> io::Result<()> {
        rename(self.rt, from, to)?;
        // What was read under this name doesn't have it any more.
        self.read.forget(to);
        Ok(())
    }

    fn remove(&mut self, name: &str) -> io::Result<()> {
        remove(self.rt, name)
    }

    fn open_folder(&mut self, name: &str) -> io::Result<()> {
        self.folder = Some(fs::open(self.rt, path_of_folder(name))?);
        Ok(())
    }

    fn flush_folder(&mut self, _name: &str) -> io::Result<bool> {
        let flushed = taken(&mut self.folder)?.sync_all();
        Ok(none_where(ErrorKind::InvalidInput, flushed)?.is_some())
    }

    fn take_as_flushed(&mut self, _name: &str) -> io::Result<()> {
        Ok(())
    }

    fn close(&mut self) {
        self.opened.close_all();
    }
}
