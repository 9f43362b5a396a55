// Files that were read, so that none is replaced that another program has written since.
ghost use Rattle.std.specs.Prelude.{◌≡◌, true, ℕ, List, IfOk};
ghost use Rattle.hall_outside.specs.LookingBack.{IsAsRead, AreUnchanged, AreAllAsRead};

use crate::calls::{found_of, stat_for};
use folder_calls::Found;
use std::alloc::{AllocError, Global};
use std::fs::Metadata;
use std::io;
use std::os::unix::fs::MetadataExt;
use std::rt::Files;

/// How many files there is room for from the beginning: a roster, rules, a proof and 16 logs.
const FILES: usize = 19;

/// How many bytes of a name there is room for from the beginning. A word has 1,024 at most, and no
/// command adds more than 21.
pub(crate) const ROOM: usize = 1_152;

/// What distinguishes a file from those that had its name before and from itself before it was
/// written to: its device and its number there, whether it is a regular file, and when its bytes
/// and its entry were last changed, in seconds and nanoseconds.
#[derive(Clone, Copy, PartialEq, Eq)]
pub(crate) struct Identity {
    device: u64,
    number: u64,
    is_regular: bool,
    written: (i64, i64),
    changed: (i64, i64),
}

impl Identity {
    fn of(file: &Found) -> Identity {
        Identity {
            device: file.device,
            number: file.number,
            is_regular: file.is_regular,
            written: file.written,
            changed: file.changed,
        }
    }
}

/// What says whether names still stand for the files that they stood for.
pub(crate) trait LookBack {
    ghost use Rattle.hall_outside.specs.declared.read_files.Identity.{Identity};

    /// The system has said that the name still stands for this file.
    ghost still: { Self → List ℕ → Identity → Type 0 };

    fn is_still(&self, name: &str, found: &Identity) -> io::Result<bool>
        ensures { IfOk result (λ is. is ≡ true → still self.now name.now found.now) };
}

/// The names of the system.
#[derive(Drop)]
pub(crate) struct SystemNames<'a, R> {
    pub rt: &'a R,
}

impl<'a, R: Files> LookBack for SystemNames<'a, R> {
    ghost use Rattle.std.specs.Prelude.{⊤};

    ghost still = { λ _ _ _. ⊤ };

    fn is_still(&self, name: &str, found: &Identity) -> io::Result<bool> {
        Ok(identity_at(self.rt, name)? == Some(*found))
    }
}

/// A name, and the file that had it when it was read first, if one did.
#[derive(Drop)]
struct ReadFile {
    name: String,
    found: Option<Identity>,
}

impl ReadFile {
    fn make(alloc: Global) -> Result<ReadFile, AllocError> {
        Ok(ReadFile {
            name: String::with_capacity(alloc, ROOM)?,
            found: None,
        })
    }
}

/// The files that were read, in the first `count` places.
#[derive(Drop)]
pub(crate) struct ReadFiles {
    alloc: Global,
    places: Vec<ReadFile>,
    count: usize,
}

impl ReadFiles {
    /// No files, with room for those of a command.
    pub fn make(alloc: Global) -> Result<ReadFiles, AllocError> {
        let mut places = Vec::with_capacity(alloc, FILES)?;
        for _ in 0..FILES {
            places.push(ReadFile::make(alloc)?)?;
        }
        Ok(ReadFiles {
            alloc,
            places,
            count: 0,
        })
    }

    /// Forgets what had the name.
    pub fn forget(&mut self, name: &str) {
        for file in self.places.iter_mut().take(self.count) {
            if file.name.as_str() == name {
                file.found = None;
                file.name.clear();
            }
        }
    }

    /// Keeps what had the name, unless it was read before.
    pub fn note(&mut self, name: &str, found: &Option<Found>) -> Result<(), AllocError> {
        for file in self.places.iter().take(self.count) {
            if file.name.as_str() == name {
                return Ok(());
            }
        }
        if self.count >= self.places.len() {
            self.places.push(ReadFile::make(self.alloc)?)?;
        }
        if let Some(place) = self.places.get_mut(self.count) {
            place.name.clear();
            place.name.push_str(name)?;
            place.found = identity_of(found);
            self.count = self.count.saturating_add(1);
        }
        Ok(())
    }

    /// Whether the file was read, under whatever name.
    pub fn has(&self, found: &Metadata) -> bool {
        for file in self.places.iter().take(self.count) {
            if let Some(read) = &file.found {
                if read.device == found.dev() && read.number == found.ino() {
                    return true;
                }
            }
        }
        false
    }

    /// Whether the name stands for what it stood for when it was read, if it was.
    pub fn is_unchanged<R: Files>(&self, rt: &R, name: &str) -> io::Result<bool> {
        for file in self.places.iter().take(self.count) {
            if file.name.as_str() == name && file.found != identity_at(rt, name)? {
                return Ok(false);
            }
        }
        Ok(true)
    }

    /// Whether each regular file that was read is what its name stands for now. So files that are
    /// replaced together are read together: all old, or all new.
    pub fn are_all_as_read<L: LookBack>(&self, names: &L) -> io::Result<bool>
        ensures { IfOk result (λ are. are ≡ true → AreAllAsRead (L.still names.now) self.now) }
    {
        are_as_read(names, &self.places[..self.count.min(self.places.len())])
    }
}

/// Whether each of these is as it was read.
fn are_as_read<L: LookBack>(names: &L, files: &[ReadFile]) -> io::Result<bool>
    ensures { IfOk result (λ are. are ≡ true → AreUnchanged (L.still names.now) files.now) }
{
    for file in files {
        if !is_as_read(names, file)? {
            return Ok(false);
        }
    }
    Ok(true)
}

/// Whether the file is as it was read. What isn't a regular file, as a pipe, can't be said to be.
fn is_as_read<L: LookBack>(names: &L, file: &ReadFile) -> io::Result<bool>
    ensures { IfOk result (λ is. is ≡ true → IsAsRead (L.still names.now) file.now) }
{
    match &file.found {
        Some(found) if found.is_regular => names.is_still(file.name.as_str(), found),
        _ => Ok(true),
    }
}

fn identity_of(found: &Option<Found>) -> Option<Identity> {
    match found {
        Some(found) => Some(Identity::of(found)),
        None => None,
    }
}

/// The file of this name, if there is one.
fn identity_at<R: Files>(rt: &R, name: &str) -> io::Result<Option<Identity>> {
    match stat_for(rt, name)? {
        Some(found) => Ok(Some(Identity::of(&found_of(&found, true)))),
        None => Ok(None),
    }
}
