// A store in memory.
ghost use Rattle.std.specs.Prelude.{
  ◌≡◌,
  ◌<◌,
  ◌≤◌,
  [],
  length,
  IfSome,
  IfNone,
  OnOk,
  OnErr,
  IsSome,
  Some,
  None,
  option_copied,
};
ghost use Rattle.hall_outside.specs.Files.{file_set};
ghost use Rattle.hall_outside.specs.Reading.{IsTaken};
ghost use Rattle.hall_outside.specs.Writing.{file_appended};
ghost use Rattle.hall_outside.specs.MemoryStore.{content_of, room_within, TakesAll};
ghost use Rattle.hall_outside.specs.StoreView.{stored, IsPlaceOf};

use crate::counts::raised;
use crate::stores::{Failed, Memory, Store, Taken};
use std::alloc::Global;
use std::marker::Model;

/// Files in memory, and the numbers of the calls that are to fail. Reads are counted from 1, and so
/// are the creates, appends and finishes together. A create or an append that gets no memory fails
/// too. A read gives all that there is room for, unless `greatest_read` was called.
#[derive(Drop)]
pub struct MemoryStore {
    files: Vec<File>,
    failing_reads: Vec<u64>,
    failing_writes: Vec<u64>,
    /// The most bytes that a read gives, where there is such a bound. It is at least 1.
    greatest: Option<usize>,
    reads: u64,
    writes: u64,
    read_faults: u64,
    write_faults: u64,
    absences: u64,
    bytes: u64,
    alloc: Global,
}

#[derive(Drop)]
struct File {
    name: String,
    bytes: Vec<u8>,
}

impl Model for MemoryStore {
    ghost use Rattle.hall_outside.specs.MemoryStore.{StoreState};

    ghost Value = { StoreState };

    ghost use Rattle.std.specs.Prelude.{◌<◌, IfSome};
    ghost use Rattle.hall_outside.specs.StoreView.{stored};

    ghost view = { λ s. record {
      files = stored s.files.items;
      failing_reads = s.failing_reads.items;
      failing_writes = s.failing_writes.items;
      greatest = s.greatest;
      reads = s.reads;
      writes = s.writes;
      read_faults = s.read_faults;
      write_faults = s.write_faults;
      answered = record { absences = s.absences; bytes = s.bytes };
    } };

    ghost invariant = { λ s. IfSome s.greatest (λ n. 0 < n) };
}

impl MemoryStore {
    /// A store without files, whose reads, and whose creates, appends and finishes, with these
    /// numbers are to fail. It keeps `alloc` for its files.
    pub fn make(alloc: Global, reads: Vec<u64>, writes: Vec<u64>) -> MemoryStore
        ensures { result ≡ record {
          files = [];
          failing_reads = reads.items;
          failing_writes = writes.items;
          greatest = None;
          reads = 0;
          writes = 0;
          read_faults = 0;
          write_faults = 0;
          answered = record { absences = 0; bytes = 0 };
        } }
    {
        MemoryStore {
            files: Vec::new(alloc),
            failing_reads: reads,
            failing_writes: writes,
            greatest: None,
            reads: 0,
            writes: 0,
            read_faults: 0,
            write_faults: 0,
            absences: 0,
            bytes: 0,
            alloc,
        }
    }

    /// Sets one file. It counts as no call. When memory runs out, the store is as it was.
    pub fn place(&mut self, alloc: Global, name: &str, bytes: &[u8]) -> Result<(), Memory>
        ensures ok { OnOk result
            (content_of self.new.files ≡ file_set (content_of self.old.files) name.now bytes.now) }
        ensures err { OnErr result (self.new ≡ self.old) }
        ensures rest { self.new ≡ record self.old { files = self.new.files } }
    {
        let bytes = Vec::from_slice(alloc, bytes)?;
        set_file(alloc, &mut self.files, name, bytes)
    }

    /// Lets each read from now on give at most `n` bytes.
    pub fn greatest_read(&mut self, n: usize)
        requires { 0 < n }
        ensures { self.new ≡ record self.old { greatest = Some n } }
    {
        self.greatest = Some(n);
    }

    /// The bytes of a file.
    pub fn file(&self, name: &str) -> Option<&[u8]>
        ensures { option_copied result ≡ content_of self.now.files name.now }
    {
        let place = find(self.files.as_slice(), name)?;
        Some(self.files[place].bytes.as_slice())
    }
}

impl Store for MemoryStore {
    ghost use Rattle.std.specs.Prelude.{Some};
    ghost use Rattle.hall_outside.specs.MemoryStore.{content_of};
    ghost use Rattle.hall_outside.specs.MemoryStore.{IsMemoryRead, IsMemoryWrite, IsMemoryAppend};

    ghost files = { λ s. Some (content_of s.files) };

    ghost read_faults = { λ s. s.read_faults };

    ghost write_faults = { λ s. s.write_faults };

    ghost answered = { λ s. s.answered };

    ghost reads = { λ name at room old result _ new.
        IsMemoryRead name at room old result new };

    ghost creates = { λ _ old ok new. IsMemoryWrite old ok new };

    ghost appends = { λ _ old piece result new. IsMemoryAppend old piece result new };

    ghost finishes = { λ old ok new. IsMemoryWrite old ok new };

    fn read_at(&mut self, name: &str, at: u64, into: &mut [u8]) -> Result<Taken, Failed> {
        self.reads = raised(self.reads, 1);
        let number = self.reads;
        if self.failing_reads.contains(&number) {
            self.read_faults = raised(self.read_faults, 1);
            return Err(Failed);
        }
        let room = most_of(self.greatest, into.len());
        let taken = read_from(self.files.as_slice(), name, at, room, into);
        match taken {
            Taken::Absent => self.absences = raised(self.absences, 1),
            Taken::Bytes(count) => self.bytes = raised(self.bytes, count as u64),
        }
        Ok(taken)
    }

    fn create(&mut self, name: &str) -> Result<(), Failed> {
        self.writes = raised(self.writes, 1);
        let number = self.writes;
        let alloc = self.alloc;
        if self.failing_writes.contains(&number)
            || set_file(alloc, &mut self.files, name, Vec::new(alloc)).is_err()
        {
            self.write_faults = raised(self.write_faults, 1);
            return Err(Failed);
        }
        Ok(())
    }

    fn append(&mut self, name: &str, piece: &[u8]) -> Result<usize, Failed> {
        self.writes = raised(self.writes, 1);
        let number = self.writes;
        if self.failing_writes.contains(&number)
            || append_to(&mut self.files, name, piece).is_err()
        {
            self.write_faults = raised(self.write_faults, 1);
            return Err(Failed);
        }
        Ok(piece.len())
    }

    fn finish(&mut self) -> Result<(), Failed> {
        self.writes = raised(self.writes, 1);
        let number = self.writes;
        if self.failing_writes.contains(&number) {
            self.write_faults = raised(self.write_faults, 1);
            return Err(Failed);
        }
        Ok(())
    }
}

/// The place of the file with this name.
fn find(files: &[File], name: &str) -> Option<usize>
    ensures within { IfSome result (λ i. i < length files.now) }
    ensures found { IfSome result (IsPlaceOf (stored files.now) name.now) }
    ensures none { IfNone result (content_of (stored files.now) name.now ≡ None) }
{
    for (i, file) in files.iter().enumerate() {
        if file.name.as_str() == name {
            return Some(i);
        }
    }
    None
}

/// How many bytes a read of `room` bytes gives at most.
fn most_of(greatest: Option<usize>, room: usize) -> usize
    requires some { 0 < room }
    requires bound { IfSome greatest (λ n. 0 < n) }
    ensures value { result ≡ room_within greatest room }
    ensures some { 0 < result }
    ensures fits { result ≤ room }
{
    match greatest {
        Some(n) => n.min(room),
        None => room,
    }
}

/// Reads into the front of `into` as much of the file from `at` on as `room` bytes have room for.
fn read_from(files: &[File], name: &str, at: u64, room: usize, into: &mut [u8]) -> Taken
    requires some { 0 < room }
    requires fits { room ≤ length into.old }
    ensures taken { IsTaken (Some (content_of (stored files.now))) name.now at
        into.old into.new result }
    ensures most { TakesAll (content_of (stored files.now) name.now) at room result }
{
    let Some(place) = find(files, name) else {
        return Taken::Absent;
    };
    let bytes = files[place].bytes.as_slice();
    if at >= bytes.len() as u64 {
        return Taken::Bytes(0);
    }
    let rest = &bytes[at as usize..];
    let count = rest.len().min(room);
    into[..count].copy_from_slice(&rest[..count]);
    Taken::Bytes(count)
}

/// Makes these the bytes of the file.
fn set_file(alloc: Global, files: &mut Vec<File>, name: &str, bytes: Vec<u8>) -> Result<(), Memory>
    ensures ok { OnOk result (content_of (stored files.new.items)
        ≡ file_set (content_of (stored files.old.items)) name.now bytes.items) }
    ensures err { OnErr result (stored files.new.items ≡ stored files.old.items) }
{
    match find(files.as_slice(), name) {
        Some(place) => {
            let file = &mut files[place];
            file.bytes = bytes;
        }
        None => {
            let name = String::from_str(alloc, name)?;
            files.push(File { name, bytes })?;
        }
    }
    Ok(())
}

/// Appends to a file that is there.
fn append_to(files: &mut Vec<File>, name: &str, piece: &[u8]) -> Result<(), Memory>
    requires { IsSome (content_of (stored files.old.items) name.now) }
    ensures ok { OnOk result (content_of (stored files.new.items)
        ≡ file_appended (content_of (stored files.old.items)) name.now piece.now) }
    ensures err { OnErr result (stored files.new.items ≡ stored files.old.items) }
{
    if let Some(place) = find(files.as_slice(), name) {
        let file = &mut files[place];
        file.bytes.extend_from_slice(piece)?;
    }
    Ok(())
}
