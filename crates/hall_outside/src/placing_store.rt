// A store over a folder.
ghost use Rattle.std.specs.Prelude.{◌≡◌, ◌<◌, false, length, IfOk};
ghost use Rattle.hall_outside.specs.Beginning.{taken_of};
ghost use Rattle.hall_outside.specs.Reading.{IsTaken};
ghost use Rattle.folder_calls.specs.World.{Now};
ghost use Rattle.folder_calls.specs.Ready.{one_ready};
ghost use Rattle.folder_calls.specs.Placing.{StandsInOrder, shown_files};
ghost use Rattle.std.proofs.Props.{props};

use crate::begun_files::{BegunFiles, append_to, begin, number_of};
use crate::counts::raised;
use crate::placing::place;
use crate::reading_parts::read_part;
use crate::stores::{Failed, Memory, Store, Taken};
use folder_calls::{Begun, Folder, is_other};
use std::alloc::{AllocError, Global};
use std::io::{self, ErrorKind};

/// A store whose files are put in place together, over any folder. It exposes its files where the
/// folder exposes its moments. Once a create, an append or a finish failed each further one fails.
#[derive(Drop)]
pub struct PlacingStore<F: Folder> {
    folder: F,
    files: BegunFiles,
    has_failed: bool,
    read_faults: u64,
    write_faults: u64,
    absences: u64,
    bytes: u64,
    ghost ready: { has_failed ≡ false → Now (F.moments folder) (StandsInOrder files.begun.items) } by { Prim.hlevel (props, one_ready) },
}

/// Reads what the store shows. A file that was begun isn't read before it is in place.
fn read_shown<F: Folder>(
    folder: &mut F,
    begun: &[Begun],
    name: &str,
    at: u64,
    into: &mut [u8],
) -> io::Result<Taken>
    requires { 0 < length into.old }
    ensures taken { IfOk result
        (IsTaken (shown_files begun.now (F.moments folder.old)) name.now at into.old into.new) }
    ensures same { F.moments folder.new ≡ F.moments folder.old }
{
    if is_other(name) || number_of(begun, name).is_some() {
        return Err(io::Error::from(ErrorKind::ResourceBusy));
    }
    let given = read_part(folder, name, at, into)?;
    Ok(taken(given))
}

/// What a read took, by what it gave.
fn taken(given: Option<usize>) -> Taken
    ensures { result ≡ taken_of given }
{
    match given {
        Some(count) => Taken::Bytes(count),
        None => Taken::Absent,
    }
}

/// No files, with room for those of a command.
fn no_files<F: Folder>(alloc: Global, folder: &F) -> Result<BegunFiles, AllocError>
    ensures { IfOk result (λ files.
        Now (F.moments folder.now) (StandsInOrder files.begun.items)) }
{
    BegunFiles::make(alloc)
}

impl<F: Folder + Drop> PlacingStore<F> {
    /// The store, with its counts at 0.
    pub fn make(alloc: Global, folder: F) -> Result<PlacingStore<F>, Memory> {
        let files = no_files(alloc, &folder)?;
        Ok(PlacingStore {
            folder,
            files,
            has_failed: false,
            read_faults: 0,
            write_faults: 0,
            absences: 0,
            bytes: 0,
        })
    }
}

impl<F: Folder> Store for PlacingStore<F> {
    ghost use Rattle.std.specs.Prelude.{⊤, is_ok};
    ghost use Rattle.hall_outside.specs.Counts.{CountsFailures};
    ghost use Rattle.folder_calls.specs.World.{Goes};
    ghost use Rattle.folder_calls.specs.Placing.{shown_files};
    ghost use Rattle.folder_calls.specs.Sets.{IsPlacing};

    ghost files = { λ s. shown_files s.files.begun.items (F.moments s.folder) };

    ghost read_faults = { λ s. s.read_faults };

    ghost write_faults = { λ s. s.write_faults };

    ghost answered = { λ s. record { absences = s.absences; bytes = s.bytes } };

    ghost reads = { λ _ _ _ old result _ new.
        CountsFailures old.read_faults (is_ok result) new.read_faults };

    ghost creates = { λ _ old ok new. CountsFailures old.write_faults ok new.write_faults };

    ghost appends = { λ _ old _ result new.
        CountsFailures old.write_faults (is_ok result) new.write_faults };

    /// At each moment of a finish a crash leaves old files or new ones, and sets whole.
    ghost finishes = { λ old ok new. (CountsFailures old.write_faults ok new.write_faults)
        × (old.has_failed ≡ false
        → Goes (IsPlacing old.files.begun.items) (F.moments old.folder) (F.moments new.folder)) };

    fn read_at(&mut self, name: &str, at: u64, into: &mut [u8]) -> Result<Taken, Failed> {
        match read_shown(
            &mut self.folder,
            self.files.begun.as_slice(),
            name,
            at,
            into,
        ) {
            Ok(Taken::Absent) => {
                self.absences = raised(self.absences, 1);
                Ok(Taken::Absent)
            }
            Ok(Taken::Bytes(count)) => {
                self.bytes = raised(self.bytes, count as u64);
                Ok(Taken::Bytes(count))
            }
            Err(_) => {
                self.read_faults = raised(self.read_faults, 1);
                Err(Failed)
            }
        }
    }

    fn create(&mut self, name: &str) -> Result<(), Failed> {
        if !self.has_failed {
            if begin(&mut self.folder, &mut self.files, name).is_ok() {
                return Ok(());
            }
            self.has_failed = true;
        }
        self.write_faults = raised(self.write_faults, 1);
        Err(Failed)
    }

    fn append(&mut self, name: &str, piece: &[u8]) -> Result<usize, Failed> {
        if !self.has_failed {
            if let Ok(count) = append_to(
                &mut self.folder,
                self.files.begun.as_slice(),
                name,
                piece,
            ) {
                return Ok(count);
            }
            self.has_failed = true;
        }
        self.write_faults = raised(self.write_faults, 1);
        Err(Failed)
    }

    fn finish(&mut self) -> Result<(), Failed> {
        if !self.has_failed {
            if place(&mut self.folder, &mut self.files).is_ok() {
                return Ok(());
            }
            self.has_failed = true;
        }
        self.write_faults = raised(self.write_faults, 1);
        Err(Failed)
    }
}
