// Files that are begun under other names.
ghost use Rattle.std.specs.Prelude.{
  ◌≡◌,
  ◌<◌,
  ◌++◌,
  ◌∷◌,
  true,
  false,
  None,
  [],
  length,
  take,
  string_bytes,
  IfOk,
  OnOk,
  OnErr,
};
ghost use Rattle.hall_outside.specs.Files.{with_file};
ghost use Rattle.hall_outside.specs.Writing.{IsCountOf, with_appended};
ghost use Rattle.folder_calls.specs.World.{Now};
ghost use Rattle.hall_outside.specs.Beginning.{MayBegin};
ghost use Rattle.folder_calls.specs.Asides.{AreElsewhere};
ghost use Rattle.folder_calls.specs.Placing.{
  StandsInOrder,
  is_other as is_other_name,
  number_of as number_in,
  shown_files,
};

use crate::new_files::{write_name_aside, write_other_name};
use crate::read_files::ROOM;
use crate::replacing::{is_mark, kept_bits, replaced};
use crate::system_folder::FILES;
use folder_calls::{Begun, Folder, Found, create_locked, in_use, is_other};
use std::alloc::{AllocError, Global};
use std::io::{self, ErrorKind};

/// The files that are being written, in the order in which they were created, and room for more.
#[derive(Drop)]
pub(crate) struct BegunFiles {
    pub begun: Vec<Begun>,
    pub aside: String,
    spare: Vec<Begun>,
    alloc: Global,
}

fn room_for_one(alloc: Global) -> Result<Begun, AllocError> {
    Ok(Begun {
        name: String::with_capacity(alloc, ROOM)?,
        other_name: String::with_capacity(alloc, ROOM)?,
        number: 0,
        old: None,
        bits: None,
        is_mark: false,
    })
}

impl BegunFiles {
    /// No files, with room for those of a command.
    pub fn make(alloc: Global) -> Result<BegunFiles, AllocError>
        ensures { IfOk result (λ files. files.begun.items ≡ []) }
    {
        let mut spare = Vec::with_capacity(alloc, FILES)?;
        for _ in 0..FILES {
            spare.push(room_for_one(alloc)?)?;
        }
        let aside = String::with_capacity(alloc, ROOM)?;
        Ok(BegunFiles {
            begun: Vec::with_capacity(alloc, FILES)?,
            aside,
            spare,
            alloc,
        })
    }

    /// Room for a file.
    fn room(&mut self) -> Result<Begun, AllocError>
        ensures { self.new.begun ≡ self.old.begun }
    {
        match self.spare.pop() {
            Some(room) => Ok(room),
            None => room_for_one(self.alloc),
        }
    }

    /// Forgets the files that were begun.
    pub fn clear(&mut self)
        ensures { self.new.begun.items ≡ [] }
    {
        for _ in 0..self.begun.len() {
            if let Some(room) = self.begun.pop() {
                let _ = self.spare.push(room);
            }
        }
        self.begun.clear();
    }

    /// Writes the name that the mark of a set has while the others are put in place.
    pub fn name_aside(&mut self) -> Result<(), AllocError>
        ensures { self.new.begun ≡ self.old.begun }
    {
        self.aside.clear();
        match self.begun.first() {
            Some(mark) => write_name_aside(&mut self.aside, mark.name.as_str()),
            None => Ok(()),
        }
    }
}

/// The number of the file that was begun under this name.
pub(crate) fn number_of(begun: &[Begun], name: &str) -> Option<u64>
    ensures { result ≡ number_in begun.now name.now }
{
    for file in begun {
        if file.name.as_str() == name {
            return Some(file.number);
        }
    }
    None
}

/// Whether no file is written under this other name.
fn is_elsewhere(begun: &[Begun], other_name: &str) -> bool
    ensures { result ≡ true → AreElsewhere other_name.now begun.now }
{
    for file in begun {
        if file.other_name.as_str() == other_name {
            return false;
        }
    }
    true
}

/// The file of this name, which is to be created.
fn named(mut file: Begun, name: &str, old: Option<Found>) -> Result<Begun, AllocError>
    ensures { IfOk result (λ file. string_bytes file.name ≡ name.now) }
{
    file.name.clear();
    file.name.push_str(name)?;
    file.other_name.clear();
    write_other_name(&mut file.other_name, name)?;
    file.bits = kept_bits(name, &old);
    file.is_mark = is_mark(name, &old);
    file.old = old;
    Ok(file)
}

/// Begins the file, empty, under its other name, or empties it where it was begun before. It fails
/// where the file that has the name may not be replaced.
pub(crate) fn begin<F: Folder>(folder: &mut F, files: &mut BegunFiles, name: &str) -> io::Result<()>
    requires { Now (F.moments folder.old) (StandsInOrder files.old.begun.items) }
    ensures ready { OnOk result (Now (F.moments folder.new) (StandsInOrder files.new.begun.items)) }
    ensures ok { OnOk result (shown_files files.new.begun.items (F.moments folder.new)
        ≡ with_file (shown_files files.old.begun.items (F.moments folder.old)) name.now []) }
    ensures err { OnErr result (shown_files files.new.begun.items (F.moments folder.new)
        ≡ shown_files files.old.begun.items (F.moments folder.old)) }
{
    match number_of(files.begun.as_slice(), name) {
        Some(number) => folder.empty(number),
        None => begin_new(folder, files, name),
    }
}

/// Begins a file that wasn't begun before.
fn begin_new<F: Folder>(folder: &mut F, files: &mut BegunFiles, name: &str) -> io::Result<()>
    requires ready { Now (F.moments folder.old) (StandsInOrder files.old.begun.items) }
    requires new { number_in files.old.begun.items name.now ≡ None }
    ensures ready { OnOk result (Now (F.moments folder.new) (StandsInOrder files.new.begun.items)) }
    ensures ok { OnOk result (shown_files files.new.begun.items (F.moments folder.new)
        ≡ with_file (shown_files files.old.begun.items (F.moments folder.old)) name.now []) }
    ensures err { OnErr result (shown_files files.new.begun.items (F.moments folder.new)
        ≡ shown_files files.old.begun.items (F.moments folder.old)) }
    ensures allowed { OnOk result (Now (F.moments folder.old) (MayBegin name.now)) }
{
    if is_other(name) {
        return Err(io::Error::new(
            ErrorKind::InvalidInput,
            "the name is kept for files that are being written",
        ));
    }
    let old = replaced(folder, name)?;
    let room = files.room()?;
    let file = named(room, name, old)?;
    create_begun(folder, &mut files.begun, name, file)
}

/// Creates the file, and adds it to those that were begun, unless one of them is written under its
/// other name.
fn create_begun<F: Folder>(
    folder: &mut F,
    begun: &mut Vec<Begun>,
    name: &str,
    file: Begun,
) -> io::Result<()>
    requires ready { Now (F.moments folder.old) (StandsInOrder begun.old.items) }
    requires new { number_in begun.old.items name.now ≡ None }
    requires own { is_other_name name.now ≡ false }
    requires named { string_bytes file.name ≡ name.now }
    ensures ready { OnOk result (Now (F.moments folder.new) (StandsInOrder begun.new.items)) }
    ensures ok { OnOk result (shown_files begun.new.items (F.moments folder.new)
        ≡ with_file (shown_files begun.old.items (F.moments folder.old)) name.now []) }
    ensures err { OnErr result (shown_files begun.new.items (F.moments folder.new)
        ≡ shown_files begun.old.items (F.moments folder.old)) }
{
    if is_free(begun.as_slice(), file.other_name.as_str()) {
        return create_free(folder, begun, name, file);
    }
    Err(in_use())
}

/// Whether the name is one that is kept for files that aren't in place, and none of these has it.
fn is_free(begun: &[Begun], other_name: &str) -> bool
    ensures other { result ≡ true → is_other_name other_name.now ≡ true }
    ensures elsewhere { result ≡ true → AreElsewhere other_name.now begun.now }
{
    is_other(other_name) && is_elsewhere(begun, other_name)
}

/// As `create_begun`, where no other file is written under its other name.
fn create_free<F: Folder>(
    folder: &mut F,
    begun: &mut Vec<Begun>,
    name: &str,
    file: Begun,
) -> io::Result<()>
    requires ready { Now (F.moments folder.old) (StandsInOrder begun.old.items) }
    requires new { number_in begun.old.items name.now ≡ None }
    requires own { is_other_name name.now ≡ false }
    requires named { string_bytes file.name ≡ name.now }
    requires other { is_other_name (string_bytes file.other_name) ≡ true }
    requires elsewhere { AreElsewhere (string_bytes file.other_name) begun.old.items }
    ensures ready { OnOk result (Now (F.moments folder.new) (StandsInOrder begun.new.items)) }
    ensures ok { OnOk result (shown_files begun.new.items (F.moments folder.new)
        ≡ with_file (shown_files begun.old.items (F.moments folder.old)) name.now []) }
    ensures err { OnErr result (shown_files begun.new.items (F.moments folder.new)
        ≡ shown_files begun.old.items (F.moments folder.old)) }
{
    begun.reserve(1)?;
    match create_locked(folder, name, file.other_name.as_str(), file.bits) {
        Ok(number) => add(begun, file, number),
        Err(reason) => Err(reason),
    }
}

/// Adds the file to those that were begun.
fn add(begun: &mut Vec<Begun>, file: Begun, number: u64) -> io::Result<()>
    ensures ok { OnOk result
        (begun.new.items ≡ begun.old.items ++ record file { number = number } ∷ []) }
    ensures err { OnErr result (begun.new.items ≡ begun.old.items) }
{
    let file = Begun {
        name: file.name,
        other_name: file.other_name,
        number,
        old: file.old,
        bits: file.bits,
        is_mark: file.is_mark,
    };
    match begun.push(file) {
        Ok(()) => Ok(()),
        Err(_) => Err(io::Error::from(ErrorKind::OutOfMemory)),
    }
}

/// Appends a prefix to a file that was begun.
pub(crate) fn append_to<F: Folder>(
    folder: &mut F,
    begun: &[Begun],
    name: &str,
    piece: &[u8],
) -> io::Result<usize>
    requires ready { Now (F.moments folder.old) (StandsInOrder begun.now) }
    requires some { 0 < length piece.now }
    ensures took { IfOk result (IsCountOf piece.now) }
    ensures ok { IfOk result (λ n. shown_files begun.now (F.moments folder.new)
        ≡ with_appended (shown_files begun.now (F.moments folder.old)) name.now (take n piece.now)) }
    ensures err { OnErr result (F.moments folder.new ≡ F.moments folder.old) }
    ensures ready { IfOk result (λ n. Now (F.moments folder.new) (StandsInOrder begun.now)) }
{
    match number_of(begun, name) {
        Some(number) => folder.append(number, piece),
        None => Err(io::Error::from(ErrorKind::NotFound)),
    }
}
