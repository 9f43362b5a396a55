// Files whose bytes are read, whatever they are.
ghost use Rattle.evidence.specs.Reading.{IsReadFromFile};
ghost use Rattle.office_commands.specs.NamedBytes.{GivesBytes};

use evidence::{InputFault, file_fault};
use hall_outside::{Store, read_file};
use std::alloc::Global;

/// The most bytes of a file that is signed.
pub(crate) const MAX_SIGNED: usize = 67_108_864;

/// The most bytes of an office's file, of a public key and of a signature.
pub(crate) const MAX_SMALL: usize = 65_536;

/// Reads a file of at most `limit` bytes. No file changes.
pub fn read_bytes<S: Store>(
    alloc: Global,
    store: &mut S,
    name: &str,
    limit: usize,
) -> Result<Vec<u8>, InputFault>
    ensures { IsReadFromFile S.Store (λ bytes. bytes.items) name.now (GivesBytes limit name.now)
        store.old result store.new }
{
    match read_file(alloc, store, name, limit) {
        Ok(bytes) => Ok(bytes),
        Err(fault) => Err(file_fault(alloc, name, fault)),
    }
}
