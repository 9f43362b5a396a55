// The command `office`: makes the files of an election office.
ghost use Rattle.std.specs.Prelude.{◌≡◌, ◌≢◌, ℕ, List, Ok, IfNone, IfOk, IfSome, IsErrOf};
ghost use Rattle.std.specs.Prelude.{false, string_bytes};
ghost use Rattle.hex.specs.Hex.{encode_lower};
ghost use Rattle.hall_outside.specs.Counts.{ComesExactly, HasCause};
ghost use Rattle.hall_outside.specs.ReadFile.{OnReadFile};
ghost use Rattle.office_key.specs.Endorsements.{office_public};
ghost use Rattle.office_commands.specs.Office.{IsOfficeSeed, made_office, office_parts};
ghost use Rattle.office_commands.specs.OfficeFile.{office_file};
ghost use Rattle.command_line.specs.Promise.{IsAnsweredBy};
ghost use Rattle.office_commands.specs.inside.Presence.{IsThere};

use crate::office_file::office_file;
use command_line::{Answer, Fault, OutputFile};
use hall_outside::{FileFault, Store, read_file};
use hall_text::digest_hex;
use input_causes::Cause;
use lms_sign::LeafWork;
use office_key::{Office, public_key_by, write_office};
use std::alloc::{AllocError, Global};

/// The seed that the word says: 64 lower-case hexadecimal digits. Of any other word `None`.
pub fn seed_of(word: &str) -> Option<[u8; 32]>
    ensures found { IfSome result (λ seed. IsOfficeSeed seed × (word.now ≡ encode_lower seed)) }
    ensures none { IfNone result
        ((seed : List ℕ) → IsOfficeSeed seed → word.now ≢ encode_lower seed) }
{
    digest_hex(word.as_bytes())
}

/// Whether the file is there, whatever it has: a file that isn't empty is over the limit. No file
/// changes.
fn is_there<S: Store>(alloc: Global, store: &mut S, name: &str) -> Result<bool, Fault>
    ensures there { IfOk result (λ there.
        OnReadFile S.Store name.now 0 (IsThere there) store.old store.new) }
    ensures absent { ComesExactly (S.answered store.old).absences (S.answered store.new).absences
        (result ≡ Ok false) }
    ensures read_fault { HasCause (S.read_faults store.old) (S.read_faults store.new)
        (IsErrOf result Fault.ReadFault) }
    ensures files { S.files store.new ≡ S.files store.old }
    ensures write_faults { S.write_faults store.new ≡ S.write_faults store.old }
{
    match read_file(alloc, store, name, 0) {
        Ok(_) => Ok(true),
        Err(FileFault::TooLong) => Ok(true),
        Err(FileFault::Absent) => Ok(false),
        Err(FileFault::ReadFault) => Err(Fault::ReadFault),
        Err(FileFault::Memory) => Err(Fault::Memory),
    }
}

/// The answer where the office's files are made, of which the first has this name.
fn made_of(
    alloc: Global,
    file: String,
    name: &str,
    seed: [u8; 32],
    key: &[u8; 60],
) -> Result<Answer, AllocError>
    requires file { string_bytes file ≡ office_file name.now }
    requires key { key.now ≡ office_public name.now seed }
    ensures { IfOk result (λ answer. answer ≡ made_office name.now seed) }
{
    let text = write_office(alloc, Office { seed, next: 0 })?;
    let key_file = format!(in alloc; "{name}.key")?;
    let mut files = Vec::new(alloc);
    files.push(OutputFile::new(file, text))?;
    files.push(OutputFile::new(key_file, Vec::from_slice(alloc, key)?))?;
    Ok(Answer::of_files(files, format!(in alloc; "office {name}\n")?))
}

/// The answer of `office` for an office of this name with this seed.
pub fn office<W: LeafWork, S: Store>(
    work: &W,
    alloc: Global,
    store: &mut S,
    name: &str,
    seed: [u8; 32],
) -> Result<Answer, Fault>
    requires { W.may_share work.now }
    ensures { IsAnsweredBy S.Store (office_parts name.now seed)
        store.old result store.new }
{
    let file = office_file(alloc, name)?;
    match is_there(alloc, store, file.as_str()) {
        Ok(true) => Ok(Answer::refused(alloc, file.as_str(), 0, Cause::Exists)?),
        Ok(false) => {
            let key = public_key_by(work, alloc, name.as_bytes(), &seed)?;
            Ok(made_of(alloc, file, name, seed, &key)?)
        }
        Err(fault) => Err(fault),
    }
}
