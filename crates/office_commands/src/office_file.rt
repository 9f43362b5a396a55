// An office's file.
ghost use Rattle.std.specs.Prelude.{◌≡◌, ◌≢◌, ◌≤◌, Err, IfErr, IfOk, IfSome, Ok, Some};
ghost use Rattle.std.specs.Prelude.{length, string_bytes};
ghost use Rattle.evidence.specs.Reading.{IsReadFromFile};
ghost use Rattle.evidence.specs.Refusal.{IsAbsent, refusal_of};
ghost use Rattle.office_commands.specs.NamedBytes.{max_small};
ghost use Rattle.office_commands.specs.OfficeFile.{GivesOffice, office_file};

use crate::named_bytes::MAX_SMALL;
use evidence::{InputFault, file_fault};
use hall_outside::{Store, read_file};
use input_causes::Cause;
use office_key::{Office, read_office};
use std::alloc::{AllocError, Global};

/// The name of the file of the office with this name.
pub fn office_file(alloc: Global, name: &str) -> Result<String, AllocError>
    ensures { IfOk result (λ file. string_bytes file ≡ office_file name.now) }
{
    format!(in alloc; "{name}.office")
}

/// Reads the file of an office that is to sign. No file changes.
pub fn read_office_file<S: Store>(
    alloc: Global,
    store: &mut S,
    file: &str,
) -> Result<Office, InputFault>
    ensures { IsReadFromFile S.Store (λ office. office) file.now (GivesOffice file.now)
        store.old result store.new }
{
    match read_file(alloc, store, file, MAX_SMALL) {
        Ok(bytes) => office_of(alloc, file, bytes.as_slice()),
        Err(fault) => Err(file_fault(alloc, file, fault)),
    }
}

/// The office whose text these bytes of the named file are, if its key isn't spent.
fn office_of(alloc: Global, file: &str, bytes: &[u8]) -> Result<Office, InputFault>
    requires { length bytes.now ≤ max_small }
    ensures ok { IfOk result (λ office. GivesOffice file.now (Some bytes.now) (Ok office)) }
    ensures err { IfErr result (λ fault. IfSome (refusal_of fault)
        (λ refusal. GivesOffice file.now (Some bytes.now) (Err refusal))) }
    ensures only { IfErr result (λ fault. (fault ≢ InputFault.ReadFault) × (¬ IsAbsent fault)) }
{
    match read_office(bytes) {
        Some(office) => {
            if office.is_spent() {
                return Err(InputFault::refused(alloc, file, 0, Cause::Spent));
            }
            Ok(office)
        }
        None => Err(InputFault::refused(alloc, file, 0, Cause::Office)),
    }
}
