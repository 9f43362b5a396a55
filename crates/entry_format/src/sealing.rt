//! From an entry to its sealed form.
ghost use Rattle.std.specs.Prelude.{◌≡◌, ◌↔◌, ◌<◌, ◌≤◌, ◌^◌, length, IfOk, OnOk, IsErrOf};
ghost use Rattle.sha2.specs.Sha256.{sha256};
ghost use Rattle.canonical_sexp.specs.Text.{text_of, Fits};
ghost use Rattle.entry_order.specs.Ascending.{IsAscending};
ghost use Rattle.lms_sign.specs.Secret.{public_of, signed_by};
ghost use Rattle.lms_sign.specs.Signs.{Signs, index_in};
ghost use Rattle.roster.specs.Machines.{HaveText};
ghost use Rattle.roster.specs.RosterText.{roster_tree};
ghost use Rattle.entry_format.specs.EntryText.{body_tree, IsDeedIn, IsVersion};
ghost use Rattle.entry_format.specs.inside.Parts.{signed_list};
ghost use Rattle.entry_format.specs.Unsealing.{key_at, IsValid};

use crate::entry::Entry;
use crate::sealed::Sealed;
use crate::writing::{signed_tree_of, tree_of};
use canonical_sexp::{Memory, Sexp, write};
use lms_sign::{LmsSecret, SignFault};
use roster::Roster;
use std::alloc::{AllocError, Global};
use thiserror::Error;

/// Why an entry isn't sealed.
#[derive(Clone, Copy, Debug, PartialEq, Eq, Error)]
pub enum SealFault {
    #[error("each index of the key has signed")]
    Spent,
    #[error("out of memory")]
    Memory,
}

impl From<AllocError> for SealFault {
    ghost use Rattle.std.specs.Prelude.{◌≡◌};
    ghost use Rattle.entry_format.specs.declared.sealing.SealFault.TheVariants.{Memory};

    ghost from_gives = { λ _ e. e ≡ Memory };

    fn from(_refused: AllocError) -> SealFault {
        SealFault::Memory
    }
}

/// The text of a tree.
fn text_of_tree(alloc: Global, tree: &Sexp) -> Result<Vec<u8>, Memory>
    requires { Fits tree.now }
    ensures { IfOk result (λ text. text.items ≡ text_of tree.now) }
{
    let mut text = Vec::new(alloc);
    write(alloc, tree, &mut text)?;
    Ok(text)
}

/// The signature of a body's text with the key's next index.
fn body_signature(alloc: Global, secret: &LmsSecret, body: &Sexp) -> Result<Vec<u8>, SealFault>
    requires { Fits body.now }
    ensures ok { IfOk result (λ signature.
        signature.items ≡ signed_by secret.now (text_of body.now)) }
    ensures signs { IfOk result (λ signature.
        Signs (public_of secret.now) (text_of body.now) signature.items) }
    ensures index { IfOk result (λ signature. index_in signature.items ≡ secret.now.next) }
    ensures left { OnOk result (secret.now.next < 2 ^ secret.now.height) }
    ensures spent { IsErrOf result SealFault.Spent → secret.now.next ≡ 2 ^ secret.now.height }
{
    let message = text_of_tree(alloc, body)?;
    match secret.signature(alloc, &message) {
        Ok(signature) => Ok(signature),
        Err(SignFault::Spent) => Err(SealFault::Spent),
        Err(SignFault::Memory) => Err(SealFault::Memory),
    }
}

/// The text of a signed entry, from the tree of its body.
fn signed_text(alloc: Global, body: Sexp, signature: &[u8]) -> Result<Vec<u8>, Memory>
    requires { Fits (signed_list body signature.now) }
    ensures { IfOk result (λ text. text.items ≡ text_of (signed_list body signature.now)) }
{
    let tree = signed_tree_of(alloc, body, signature)?;
    text_of_tree(alloc, &tree)
}

/// Signs an entry with its maker's secret key, at the key's next index. The key stays as it is:
/// whoever keeps the sealed entry calls `advance`.
///
/// # Errors
///
/// `Spent`, where each index has signed, and else `Memory`. The entry is dropped.
pub fn seal(
    alloc: Global,
    roster: &Roster,
    secret: &LmsSecret,
    entry: Entry,
) -> Result<Sealed, SealFault>
    requires roster { HaveText roster.now.machines }
    requires election { entry.election ≡ sha256 (text_of (roster_tree roster.now.machines)) }
    requires maker { entry.maker < length roster.now.machines }
    requires key { public_of secret.now ≡ key_at roster.now.machines entry.maker }
    requires number { entry.number ≡ secret.now.next }
    requires rising { IsAscending entry.names }
    requires few { length entry.names ≤ 16384 }
    requires version { IsVersion entry.version }
    requires deed { IsDeedIn entry.version entry.deed }
    ensures entry { IfOk result (λ sealed. sealed.entry ≡ entry) }
    ensures signature { IfOk result (λ sealed.
        sealed.signature ≡ signed_by secret.now (text_of (body_tree entry))) }
    ensures valid { IfOk result (λ sealed.
        IsValid roster.now.machines entry.election sealed.text sealed) }

    ensures spent { IsErrOf result SealFault.Spent
        ↔ (secret.now.next ≡ 2 ^ secret.now.height) }
    ensures left { OnOk result (secret.now.next < 2 ^ secret.now.height) }
{
    if secret.is_spent() {
        return Err(SealFault::Spent);
    }
    let body = tree_of(alloc, &entry)?;
    let signature = body_signature(alloc, secret, &body)?;
    let text = signed_text(alloc, body, &signature)?;
    let machines = roster.machines.as_slice();
    let key = machines[entry.maker as usize].key;
    match Sealed::new(alloc, entry, text, signature.len(), key) {
        Ok(sealed) => Ok(sealed),
        Err(_text) => Err(SealFault::Memory),
    }
}
