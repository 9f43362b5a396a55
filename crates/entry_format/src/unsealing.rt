//! From a text to the sealed entry that it is of.
ghost use Rattle.std.specs.Prelude.{◌≡◌, ◌≢◌, ◌↔◌, ℕ, Err, IfOk, IfErr, IsTrue, List, Ok};
ghost use Rattle.canonical_sexp.specs.Text.{text_of, Fits};
ghost use Rattle.lms_sign.specs.Signs.{Signs};
ghost use Rattle.entry_format.specs.EntryText.{body_tree};
ghost use Rattle.entry_format.specs.Sealing.{HasIndex};
ghost use Rattle.roster.specs.declared.post.Post.{Post};
ghost use Rattle.entry_format.specs.Unsealing.{IsEntryFault, IsFault, IsValid, Unseals};
ghost use Rattle.entry_format.specs.inside.Parts.{IsUnder, IsVerified};

use crate::entry::Entry;
use crate::form::read_form;
use crate::plain::EntryFault;
use crate::sealed::Sealed;
use canonical_sexp::{Text, whole_text};
use lms_sign::{LmsPublic, verify};
use roster::{Post, Roster};
use std::alloc::Global;

/// Whether the signature's first four bytes are the number.
fn has_index(signature: &[u8], number: u32) -> bool
    ensures { IsTrue result ↔ HasIndex signature.now number }
{
    if signature.len() < 4 {
        return false;
    }
    let mut index = [0; 4];
    index.copy_from_slice(&signature[..4]);
    u32::from_be_bytes(index) == number
}

/// Whether the signature is one of the message under the key, whatever the key's type.
fn is_signed(key: &[u8; 56], message: &[u8], signature: &[u8]) -> bool
    ensures { IsTrue result ↔ Signs key.now message.now signature.now }
{
    match LmsPublic::from_bytes(key) {
        Ok(public) => verify(&public, message, signature),
        Err(_) => false,
    }
}

/// The key under which the entry is valid, the message being its body's text, or its first fault.
fn valid_key(
    machines: &[Post],
    election: &[u8; 32],
    entry: &Entry,
    message: &[u8],
    signature: &[u8],
) -> Result<[u8; 56], EntryFault>
    requires { message.now ≡ text_of (body_tree entry.now) }
    ensures ok { IfOk result (IsUnder machines.now election.now entry.now signature.now) }
    ensures err { IfErr result (IsEntryFault machines.now election.now entry.now signature.now) }
{
    if entry.election != *election {
        return Err(EntryFault::OtherElection);
    }
    let maker = entry.maker as usize;
    if maker >= machines.len() {
        return Err(EntryFault::UnknownMaker);
    }
    if !has_index(signature, entry.number) {
        return Err(EntryFault::WrongIndex);
    }
    let key = machines[maker].key;
    if !is_signed(&key, message, signature) {
        return Err(EntryFault::BadSignature);
    }
    Ok(key)
}

/// What a text is unsealed to, without the text.
#[derive(Drop)]
pub(crate) struct Verified {
    pub(crate) entry: Entry,
    /// How many bytes of the text are its signature.
    pub(crate) signature_len: usize,
    pub(crate) key: [u8; 56],
}

/// Reads the text of an entry, and verifies its signature under its maker's key in the roster.
fn verify_text(
    alloc: Global,
    roster: &Roster,
    election: &[u8; 32],
    text: &Text<'_>,
) -> Result<Verified, EntryFault>
    requires { Fits text.now }
    ensures ok { IfOk result (IsVerified roster.now.machines election.now (text_of text.now)) }
    ensures err { IfErr result (λ fault. fault ≢ EntryFault.Memory →
        IsFault roster.now.machines election.now (text_of text.now) fault) }
{
    let form = match read_form(alloc, text) {
        Ok(form) => form,
        Err(fault) => return Err(fault),
    };
    let machines = roster.machines.as_slice();
    match valid_key(
        machines,
        election,
        &form.entry,
        form.body.bytes(),
        form.signature,
    ) {
        Ok(key) => Ok(Verified {
            entry: form.entry,
            signature_len: form.signature.len(),
            key,
        }),
        Err(fault) => Err(fault),
    }
}

/// The same of bytes that may be no canonical text.
fn verify_bytes(
    alloc: Global,
    roster: &Roster,
    election: &[u8; 32],
    bytes: &[u8],
) -> Result<Verified, EntryFault>
    ensures ok { IfOk result (IsVerified roster.now.machines election.now bytes.now) }
    ensures err { IfErr result (λ fault. fault ≢ EntryFault.Memory →
        IsFault roster.now.machines election.now bytes.now fault) }
{
    match whole_text(bytes) {
        Ok(tree) => verify_text(alloc, roster, election, &tree),
        Err(_at) => Err(EntryFault::NotCanonical),
    }
}

/// The sealed entry of a text that was verified, which it takes. Where there is no memory, the text
/// comes back.
fn sealed_with(alloc: Global, verified: Verified, text: Vec<u8>) -> Result<Sealed, Vec<u8>>
    requires { (machines : List Post) × (election : List ℕ)
        × IsVerified machines election text.items verified }
    ensures ok { IfOk result (λ sealed. (machines : List Post) (election : List ℕ) →
        IsVerified machines election text.items verified →
        IsValid machines election text.items sealed) }
    ensures text { IfErr result (λ back. back.items ≡ text.items) }
{
    let Verified {
        entry,
        signature_len,
        key,
    } = verified;
    Sealed::new(alloc, entry, text, signature_len, key)
}

/// Reads an entry's signed text, and verifies its signature under its maker's key in the roster.
///
/// # Errors
///
/// The first cause that applies, in the order of `EntryFault`.
pub fn unseal(
    alloc: Global,
    roster: &Roster,
    election: &[u8; 32],
    text: &[u8],
) -> Result<Sealed, EntryFault>
    ensures { result ≢ Err EntryFault.Memory →
        Unseals roster.now.machines election.now text.now result }
{
    match whole_text(text) {
        Ok(tree) => unseal_text(alloc, roster, election, &tree),
        Err(_at) => Err(EntryFault::NotCanonical),
    }
}

/// Unseals the text of an entry within another text, as within a record in a log.
///
/// # Errors
///
/// The first cause that applies after `NotCanonical`.
pub fn unseal_text(
    alloc: Global,
    roster: &Roster,
    election: &[u8; 32],
    text: &Text<'_>,
) -> Result<Sealed, EntryFault>
    ensures { result ≢ Err EntryFault.Memory →
        Unseals roster.now.machines election.now (text_of text.now) result }
{
    let bytes = text.bytes();
    match verify_text(alloc, roster, election, text) {
        Ok(verified) => {
            let copy = Vec::from_slice(alloc, bytes)?;
            match sealed_with(alloc, verified, copy) {
                Ok(sealed) => Ok(sealed),
                Err(_copy) => Err(EntryFault::Memory),
            }
        }
        Err(fault) => Err(fault),
    }
}

/// A text that isn't unsealed, and why.
#[derive(Drop)]
pub struct NotUnsealed {
    pub fault: EntryFault,
    pub text: Vec<u8>,
}

/// Unseals an entry's signed text as `unseal` does. The sealed entry takes the text, which isn't
/// copied; otherwise it comes back.
///
/// # Errors
///
/// The first cause that applies, in the order of `EntryFault`, and the text.
pub fn unseal_vec(
    alloc: Global,
    roster: &Roster,
    election: &[u8; 32],
    text: Vec<u8>,
) -> Result<Sealed, NotUnsealed>
    ensures ok { IfOk result (λ sealed.
        Unseals roster.now.machines election.now text.items (Ok sealed)) }
    ensures err { IfErr result (λ refused. refused.fault ≢ EntryFault.Memory →
        Unseals roster.now.machines election.now text.items (Err refused.fault)) }
    ensures text { IfErr result (λ refused. refused.text.items ≡ text.items) }
{
    match verify_bytes(alloc, roster, election, &text) {
        Ok(verified) => match sealed_with(alloc, verified, text) {
            Ok(sealed) => Ok(sealed),
            Err(text) => Err(NotUnsealed {
                fault: EntryFault::Memory,
                text,
            }),
        },
        Err(fault) => Err(NotUnsealed { fault, text }),
    }
}
