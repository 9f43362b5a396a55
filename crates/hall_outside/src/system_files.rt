// Files of the system that are open.
ghost use Rattle.std.specs.Prelude.{[], IfOk, Some};
ghost use Rattle.folder_calls.specs.World.{GivesPart};

use crate::calls::{again, read_through_signals};
use crate::read_files::ROOM;
use std::alloc::{AllocError, Global};
use std::fs::{File, Metadata};
use std::io::{self, ErrorKind, Read, Seek, SeekFrom};

/// How many bytes a read takes at most.
const PART: usize = 65_536;

/// A file that is being read, from which byte on it is read next, and whether it was read since it
/// was opened.
#[derive(Drop)]
struct Reading<F> {
    file: F,
    at: u64,
    is_begun: bool,
}

/// The file that was read last, if it can be read on, and its name.
#[derive(Drop)]
pub(crate) struct LastRead {
    name: String,
    open: Option<Reading<File>>,
}

impl LastRead {
    /// No file, with room for a name.
    pub fn make(alloc: Global) -> Result<LastRead, AllocError> {
        Ok(LastRead {
            name: String::with_capacity(alloc, ROOM)?,
            open: None,
        })
    }

    /// Whether this file is open, and was read up to this byte.
    pub fn is_at(&self, name: &str, at: u64) -> bool {
        match &self.open {
            Some(reading) => {
                at > 0 && reading.is_begun && reading.at == at && self.name.as_str() == name
            }
            None => false,
        }
    }

    /// Closes the file that is open, and keeps the name of the next.
    pub fn begin(&mut self, name: &str) -> Result<(), AllocError> {
        self.open = None;
        self.name.clear();
        self.name.push_str(name)
    }

    /// Keeps the file with what is read next, if there is one.
    pub fn keep(&mut self, file: Option<File>) -> bool {
        let Some(file) = file else {
            return false;
        };
        self.open = Some(Reading {
            file,
            at: 0,
            is_begun: false,
        });
        true
    }

    /// What the open file is.
    pub fn metadata(&self) -> io::Result<Metadata> {
        match &self.open {
            Some(reading) => again(|| reading.file.metadata()),
            None => Err(not_open()),
        }
    }

    /// Has the open file read from this byte on.
    pub fn seek(&mut self, at: u64) -> io::Result<()> {
        let mut reading = taken(&mut self.open)?;
        reading.file.seek(SeekFrom::Start(at))?;
        reading.at = at;
        self.open = Some(reading);
        Ok(())
    }
}

fn not_open() -> io::Error {
    io::Error::from(ErrorKind::NotFound)
}

/// What is there, which is not any more.
pub(crate) fn taken<T: Drop>(place: &mut Option<T>) -> io::Result<T> {
    match place.take() {
        Some(thing) => Ok(thing),
        None => Err(not_open()),
    }
}

/// Reads the next bytes of the open file.
pub(crate) fn read_next(last: &mut LastRead, into: &mut [u8]) -> io::Result<usize>
    ensures { IfOk result (λ n. GivesPart [] [] 0 into.old into.new (Some n)) }
{
    let reading = taken(&mut last.open)?;
    read_on(&mut last.open, reading, into)
}

/// Reads the next bytes, and keeps the file open.
fn read_on<F: Read + Drop>(
    open: &mut Option<Reading<F>>,
    mut reading: Reading<F>,
    into: &mut [u8],
) -> io::Result<usize>
    ensures { IfOk result (λ n. GivesPart [] [] 0 into.old into.new (Some n)) }
{
    let count = read_some(&mut reading.file, into)?;
    reading.at = reading.at.saturating_add(count as u64);
    reading.is_begun = true;
    *open = Some(reading);
    Ok(count)
}

fn part() -> [u8; PART] {
    [0; PART]
}

// std's `read` promises nothing of the bytes after its count, so the part is read into an array.
fn read_some<F: Read>(file: &mut F, into: &mut [u8]) -> io::Result<usize>
    ensures { IfOk result (λ n. GivesPart [] [] 0 into.old into.new (Some n)) }
{
    let mut buffer = part();
    let room = into.len().min(PART);
    let count = read_through_signals(file, &mut buffer[..room])?;
    into[..count].copy_from_slice(&buffer[..count]);
    Ok(count)
}

/// An open file, and its number.
#[derive(Drop)]
struct Opened {
    number: u64,
    file: File,
}

/// The files that were created or opened to be locked, by their numbers.
#[derive(Drop)]
pub(crate) struct OpenFiles {
    all: Vec<Opened>,
    next: u64,
}

impl OpenFiles {
    /// No files, with room for so many.
    pub fn make(alloc: Global, room: usize) -> Result<OpenFiles, AllocError> {
        Ok(OpenFiles {
            all: Vec::with_capacity(alloc, room)?,
            next: 0,
        })
    }

    /// Takes the memory for one more, before it is there.
    pub fn reserve(&mut self) -> Result<(), AllocError> {
        self.all.reserve(1)
    }

    /// Gives the file a number, if there is one.
    pub fn keep(&mut self, file: Option<File>) -> io::Result<Option<u64>> {
        let Some(file) = file else {
            return Ok(None);
        };
        let number = self.next;
        self.next = number.saturating_add(1);
        self.all.push(Opened { number, file })?;
        Ok(Some(number))
    }

    pub fn get(&self, number: u64) -> io::Result<&File> {
        for opened in self.all.iter() {
            if opened.number == number {
                return Ok(&opened.file);
            }
        }
        Err(not_open())
    }

    pub fn get_mut(&mut self, number: u64) -> io::Result<&mut File> {
        for opened in self.all.iter_mut() {
            if opened.number == number {
                return Ok(&mut opened.file);
            }
        }
        Err(not_open())
    }

    pub fn close(&mut self, number: u64) {
        self.all.retain(|opened| opened.number != number);
    }

    pub fn close_all(&mut self) {
        self.all.clear();
    }
}
