// The command `endorsed`: whether a signature is an office's.
ghost use Rattle.std.specs.Prelude.{◌≡◌, ◌≢◌, [], ◌∷◌, IfOk};
ghost use Rattle.evidence.specs.Reading.{IsReadFrom};
ghost use Rattle.auditor.specs.Audits.{FileThen};
ghost use Rattle.office_commands.specs.Endorsed.{GivesSigned, IsEndorsedVerdict, endorsed_parts};
ghost use Rattle.office_commands.specs.NamedBytes.{AtLast, GivesBytes};
ghost use Rattle.office_commands.specs.NamedBytes.{max_signed, max_small};
ghost use Rattle.office_commands.specs.inside.Endorsing.{signed_of};
ghost use Rattle.command_line.specs.Promise.{IsAnsweredBy};

use crate::named_bytes::{MAX_SIGNED, MAX_SMALL, read_bytes};
use command_line::{Answer, Fault, Status};
use evidence::InputFault;
use hall_outside::Store;
use hss_sign::hss_verify;
use std::alloc::{AllocError, Global};

/// What is read for a verification.
#[derive(Drop)]
pub(crate) struct ToVerify {
    key: Vec<u8>,
    bytes: Vec<u8>,
    signature: Vec<u8>,
}

/// Reads the signature.
fn read_signature<S: Store>(
    alloc: Global,
    store: &mut S,
    key: Vec<u8>,
    bytes: Vec<u8>,
    signature: &str,
) -> Result<ToVerify, InputFault>
    ensures { IsReadFrom S.Store signed_of (signature.now ∷ [])
        (FileThen (GivesBytes max_small signature.now)
        (λ s. AtLast (record { key = key.items; bytes = bytes.items; signature = s })))
        store.old result store.new }
{
    match read_bytes(alloc, store, signature, MAX_SMALL) {
        Ok(signature) => Ok(ToVerify {
            key,
            bytes,
            signature,
        }),
        Err(fault) => Err(fault),
    }
}

/// Reads the bytes that were signed, and then the signature.
fn read_signed<S: Store>(
    alloc: Global,
    store: &mut S,
    key: Vec<u8>,
    file: &str,
    signature: &str,
) -> Result<ToVerify, InputFault>
    ensures { IsReadFrom S.Store signed_of (file.now ∷ signature.now ∷ [])
        (FileThen (GivesBytes max_signed file.now)
        (λ m. FileThen (GivesBytes max_small signature.now)
        (λ s. AtLast (record { key = key.items; bytes = m; signature = s }))))
        store.old result store.new }
{
    match read_bytes(alloc, store, file, MAX_SIGNED) {
        Ok(bytes) => read_signature(alloc, store, key, bytes, signature),
        Err(fault) => Err(fault),
    }
}

/// Reads the key, the bytes that were signed, and the signature.
fn read_to_verify<S: Store>(
    alloc: Global,
    store: &mut S,
    key: &str,
    file: &str,
    signature: &str,
) -> Result<ToVerify, InputFault>
    ensures { IsReadFrom S.Store signed_of (key.now ∷ file.now ∷ signature.now ∷ [])
        (GivesSigned key.now file.now signature.now)
        store.old result store.new }
{
    match read_bytes(alloc, store, key, MAX_SMALL) {
        Ok(key) => read_signed(alloc, store, key, file, signature),
        Err(fault) => Err(fault),
    }
}

/// The answer of a verification.
fn verdict_of(alloc: Global, read: &ToVerify) -> Result<Answer, AllocError>
    ensures told { IfOk result (IsEndorsedVerdict (signed_of read.now)) }
    ensures status { IfOk result (λ answer. answer.status ≢ Status.Absent) }
{
    let key = read.key.as_slice();
    if hss_verify(key, read.bytes.as_slice(), read.signature.as_slice()) {
        Answer::line(alloc, "good")
    } else {
        let bad = format!(in alloc; "bad\n")?;
        Ok(Answer::of_text(alloc, Status::Findings, bad.into_bytes()))
    }
}

/// The answer of `endorsed` for the key, the file and the signature in these files.
pub fn endorsed<S: Store>(
    alloc: Global,
    store: &mut S,
    key: &str,
    file: &str,
    signature: &str,
) -> Result<Answer, Fault>
    ensures { IsAnsweredBy S.Store (endorsed_parts key.now file.now signature.now)
        store.old result store.new }
{
    match read_to_verify(alloc, store, key, file, signature) {
        Ok(read) => Ok(verdict_of(alloc, &read)?),
        Err(fault) => Answer::of_fault(alloc, &fault),
    }
}
