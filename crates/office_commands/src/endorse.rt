// The command `endorse`: signs a file with an office's key.
ghost use Rattle.std.specs.Prelude.{◌≡◌, ◌<◌, [], ◌∷◌, IfOk, string_bytes};
ghost use Rattle.office_key.specs.Endorsements.{endorsement};
ghost use Rattle.office_key.specs.Offices.{max_signatures};
ghost use Rattle.evidence.specs.Reading.{IsReadFrom};
ghost use Rattle.auditor.specs.Audits.{FileThen};
ghost use Rattle.office_commands.specs.Endorse.{
  GivesUnsigned,
  IsEndorsement,
  endorsed_line,
  endorse_parts,
};
ghost use Rattle.office_commands.specs.NamedBytes.{AtLast, GivesBytes, max_signed};
ghost use Rattle.office_commands.specs.OfficeFile.{office_file};
ghost use Rattle.office_commands.specs.inside.Endorsing.{unsigned_of};
ghost use Rattle.command_line.specs.Promise.{IsAnsweredBy};

use crate::named_bytes::{MAX_SIGNED, read_bytes};
use crate::office_file::{office_file, read_office_file};
use command_line::{Answer, Fault, OutputFile};
use evidence::InputFault;
use hall_outside::Store;
use lms_sign::LeafWork;
use office_key::{Office, endorsements_are_good, write_office};
use std::alloc::{AllocError, Global};

/// What is read for a signature.
#[derive(Drop)]
pub(crate) struct ToSign {
    office: Office,
    bytes: Vec<u8>,
}

/// Reads the bytes that the office is to sign.
fn read_for<S: Store>(
    alloc: Global,
    store: &mut S,
    office: Office,
    file: &str,
) -> Result<ToSign, InputFault>
    ensures { IsReadFrom S.Store unsigned_of (file.now ∷ [])
        (FileThen (GivesBytes max_signed file.now)
        (λ bytes. AtLast (record { office = office; bytes = bytes })))
        store.old result store.new }
{
    match read_bytes(alloc, store, file, MAX_SIGNED) {
        Ok(bytes) => Ok(ToSign { office, bytes }),
        Err(fault) => Err(fault),
    }
}

/// Reads the office's file, of which this is the name, and then the file that it is to sign.
fn read_to_sign<S: Store>(
    alloc: Global,
    store: &mut S,
    office: &str,
    name: &str,
    file: &str,
) -> Result<ToSign, InputFault>
    requires { office.now ≡ office_file name.now }
    ensures { IsReadFrom S.Store unsigned_of (office_file name.now ∷ file.now ∷ [])
        (GivesUnsigned name.now file.now)
        store.old result store.new }
{
    match read_office_file(alloc, store, office) {
        Ok(found) => read_for(alloc, store, found, file),
        Err(fault) => Err(fault),
    }
}

/// The line of a signature of the file under this number.
fn line_of(alloc: Global, file: &str, number: u32) -> Result<String, AllocError>
    ensures { IfOk result (λ line. string_bytes line ≡ endorsed_line file.now number) }
{
    Ok(format!(in alloc; "endorsed {file} {number}\n")?)
}

/// The answer where the office's file, of this name, gets its next number, and then the file gets
/// this signature.
fn signed(
    alloc: Global,
    office: String,
    name: &str,
    file: &str,
    read: &ToSign,
    signature: Vec<u8>,
) -> Result<Answer, AllocError>
    requires office { string_bytes office ≡ office_file name.now }
    requires left { read.now.office.next < max_signatures }
    requires signature { signature.items
        ≡ endorsement name.now read.now.office read.now.bytes.items }
    ensures { IfOk result (IsEndorsement name.now file.now (unsigned_of read.now)) }
{
    endorsements_are_good();
    let number = read.office.next;
    let text = write_office(alloc, read.office.used())?;
    let signature_file = format!(in alloc; "{file}.sig")?;
    let mut files = Vec::new(alloc);
    files.push(OutputFile::new(office, text))?;
    files.push(OutputFile::new(signature_file, signature))?;
    // The number is used up on the disk before a signature with it can be there.
    Ok(Answer::of_files_in_turn(files, 1, line_of(alloc, file, number)?))
}

/// The answer of `endorse` for the office of this name and this file.
pub fn endorse<W: LeafWork, S: Store>(
    work: &W,
    alloc: Global,
    store: &mut S,
    name: &str,
    file: &str,
) -> Result<Answer, Fault>
    requires { W.may_share work.now }
    ensures { IsAnsweredBy S.Store (endorse_parts name.now file.now)
        store.old result store.new }
{
    let office = office_file(alloc, name)?;
    match read_to_sign(alloc, store, office.as_str(), name, file) {
        Ok(read) => {
            let bytes = read.bytes.as_slice();
            let key = name.as_bytes();
            let signature = office_key::endorse_by(work, alloc, key, &read.office, bytes)?;
            Ok(signed(alloc, office, name, file, &read, signature)?)
        }
        Err(fault) => Answer::of_fault(alloc, &fault),
    }
}
