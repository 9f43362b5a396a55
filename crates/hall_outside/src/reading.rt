// Reading a whole file.
ghost use Rattle.std.specs.Prelude.{◌≡◌, ◌≢◌, ◌+◌, ◌≤◌, ◌++◌, ℕ, List, [], length, Ok, Err};
ghost use Rattle.std.specs.Prelude.{IfOk, IfErr, OnOk, IsErrOf, vec_len};
ghost use Rattle.hall_outside.specs.Counts.{HasCause, ComesExactly};
ghost use Rattle.hall_outside.specs.ReadFile.{IsRead};

use crate::stores::{Failed, Store, Taken};
use std::alloc::{AllocError, Global};
use thiserror::Error;

/// Why a file isn't read.
#[derive(Clone, Copy, Debug, PartialEq, Eq, Error)]
pub enum FileFault {
    #[error("there is no such file")]
    Absent,
    #[error("the file is longer than the limit")]
    TooLong,
    #[error("a read failed")]
    ReadFault,
    #[error("out of memory")]
    Memory,
}

impl From<AllocError> for FileFault {
    ghost use Rattle.std.specs.Prelude.{◌≡◌};
    ghost use Rattle.hall_outside.specs.declared.reading.FileFault.TheVariants.{Memory};

    ghost from_gives = { λ _ e. e ≡ Memory };

    fn from(_: AllocError) -> FileFault {
        FileFault::Memory
    }
}

/// How many bytes a read asks for.
const PIECE: usize = 65_536;

fn buffer(alloc: Global, len: usize) -> Result<Vec<u8>, AllocError>
    ensures { IfOk result (λ bytes. vec_len bytes ≡ len) }
{
    vec![in alloc; 0u8; len]
}

/// What takes the bytes of a file as they are read, a piece at a time.
pub trait TakePieces {
    /// What comes of taking bytes: the value before, the bytes, and the value then.
    ghost takes: { Self → List ℕ → Self → Type 0 };

    /// The most bytes that it takes in all.
    ghost most: { Self → ℕ };

    /// Takes the next bytes.
    fn take_piece(&mut self, piece: &[u8]) -> Result<(), AllocError>
        requires { (start : Self) × (bytes : List ℕ) × takes start bytes self.old
            × (length bytes + length piece.now ≤ most start) }
        ensures { OnOk result ((start : Self) (bytes : List ℕ) → takes start bytes self.old →
            takes start (bytes ++ piece.now) self.new) };
}

/// A vector keeps them after what it has.
impl TakePieces for Vec<u8> {
    ghost use Rattle.std.specs.Prelude.{◌≡◌, ◌++◌, ◌^◌};

    ghost takes = { λ old bytes new. new.items ≡ old.items ++ bytes };

    ghost most = { λ _. 2 ^ 64 };

    fn take_piece(&mut self, piece: &[u8]) -> Result<(), AllocError> {
        self.extend_from_slice(piece)
    }
}

/// Reads a file of at most `limit` bytes in pieces of 65,536 bytes, and hands each on to `into` as
/// it comes. No file changes, whatever it answers.
pub fn read_pieces<S: Store, T: TakePieces>(
    alloc: Global,
    store: &mut S,
    name: &str,
    limit: usize,
    into: &mut T,
) -> Result<(), FileFault>
    requires nothing { T.takes into.old [] into.old }
    requires room { limit ≤ T.most into.old }
    // It reads to the end, or to the first byte past the limit, in pieces of 65,536 bytes.
    ensures ok { OnOk result ((bytes : List ℕ) × (length bytes ≤ limit)
        × IsRead S.Store name.now limit store.old (Ok bytes) store.new
        × T.takes into.old bytes into.new) }
    ensures err { IfErr result (λ fault. fault ≢ FileFault.Memory →
        IsRead S.Store name.now limit store.old (Err fault) store.new) }

    // Each refusal except out of memory comes only where the store said so in this call.
    ensures absent { ComesExactly (S.answered store.old).absences (S.answered store.new).absences
        (IsErrOf result FileFault.Absent) }
    ensures absences { (S.answered store.old).absences ≤ (S.answered store.new).absences }
    ensures too_long { ComesExactly ((S.answered store.old).bytes + limit)
        (S.answered store.new).bytes (IsErrOf result FileFault.TooLong) }
    ensures read_fault { HasCause (S.read_faults store.old) (S.read_faults store.new)
        (IsErrOf result FileFault.ReadFault) }

    ensures unchanged { (S.files store.new ≡ S.files store.old)
        × (S.write_faults store.new ≡ S.write_faults store.old) }
{
    let mut piece = buffer(alloc, PIECE)?;
    let mut done = 0;
    loop {
        match store.read_at(name, done as u64, piece.as_mut_slice()) {
            Ok(Taken::Absent) => return Err(FileFault::Absent),
            Ok(Taken::Bytes(0)) => return Ok(()),
            Ok(Taken::Bytes(count)) => {
                if count > limit - done {
                    return Err(FileFault::TooLong);
                }
                into.take_piece(&piece[..count])?;
                done += count;
            }
            Err(Failed) => return Err(FileFault::ReadFault),
        }
    }
}

/// Reads a file of at most `limit` bytes whole, in pieces of 65,536 bytes. No file changes,
/// whatever it answers; after a refusal nothing of what was read is kept.
pub fn read_file<S: Store>(
    alloc: Global,
    store: &mut S,
    name: &str,
    limit: usize,
) -> Result<Vec<u8>, FileFault>
    // It reads to the end, or to the first byte past the limit, in pieces of 65,536 bytes.
    ensures ok { IfOk result (λ bytes. (length bytes.items ≤ limit)
        × IsRead S.Store name.now limit store.old (Ok bytes.items) store.new) }
    ensures err { IfErr result (λ fault. fault ≢ FileFault.Memory →
        IsRead S.Store name.now limit store.old (Err fault) store.new) }

    // Each refusal except out of memory comes only where the store said so in this call.
    ensures absent { ComesExactly (S.answered store.old).absences (S.answered store.new).absences
        (IsErrOf result FileFault.Absent) }
    ensures absences { (S.answered store.old).absences ≤ (S.answered store.new).absences }
    ensures too_long { ComesExactly ((S.answered store.old).bytes + limit)
        (S.answered store.new).bytes (IsErrOf result FileFault.TooLong) }
    ensures read_fault { HasCause (S.read_faults store.old) (S.read_faults store.new)
        (IsErrOf result FileFault.ReadFault) }

    ensures unchanged { (S.files store.new ≡ S.files store.old)
        × (S.write_faults store.new ≡ S.write_faults store.old) }
{
    let mut bytes = Vec::new(alloc);
    match read_pieces(alloc, store, name, limit, &mut bytes) {
        Ok(()) => Ok(bytes),
        Err(fault) => Err(fault),
    }
}
