//! Keys, signatures and candidates.
ghost use Rattle.std.specs.Prelude.{◌≡◌, ◌≢◌, ◌↔◌, ◌*◌, ◌≤◌, ◌++◌, length, take, vec_len};
ghost use Rattle.std.specs.Prelude.{IfOk, OnOk, IsErrOf};
ghost use Rattle.std.specs.List.{flat_map, range_with_len};
ghost use Rattle.lms_ots.specs.Parameters.{parameters, signature_len};
ghost use Rattle.lms_ots.specs.Checkpoints.{AreCheckpoints, checkpoint_count};
ghost use Rattle.lms_ots.specs.Digits.{cksm};
ghost use Rattle.lms_ots.specs.Ots.{candidate_of, message_hash, public_key, randomizer};
ghost use Rattle.lms_ots.specs.Ots.{signature_of, u16str, u32str};
ghost use Rattle.lms_ots.specs.inside.Elements.{signed_element};

use crate::chain::chain;
use crate::checkpoints::{chain_to, end_of_chain};
use crate::digits::{checksum, digit};
use crate::kind::OtsKind;
use crate::octets::{hasher, u16_bytes, u32_bytes, write_at};
use sha2::{Digest, Sha256};
use std::alloc::{AllocError, Global};

/// Out of memory.
pub type Memory = AllocError;

/// Why a signature has no candidate.
#[derive(Clone, Copy)]
pub enum OtsFault {
    /// The signature doesn't have the length of its kind.
    WrongLength,
    /// The signature has another typecode.
    WrongType,
}

// The domain separation of public keys and of messages (RFC 8554, 4.3 and 4.5).
const D_PBLC: u16 = 0x8080;

const D_MESG: u16 = 0x8181;

/// The public key of the one-time key `q` of `id`: RFC 8554, 4.3, of the elements that `seed` gives
/// by the RFC's Appendix A.
pub fn ots_public(kind: OtsKind, id: &[u8; 16], q: u32, seed: &[u8; 32]) -> [u8; 32]
    ensures { result ≡ public_key kind id.now q seed.now }
{
    ots_public_into(&mut [], kind, id, q, seed)
}

/// The public key, as `ots_public` gives it. Fills `checkpoints` with the key's first checkpoints,
/// with which `ots_sign_into` needs fewer hashes; W1 and W2 have none.
pub fn ots_public_into(
    checkpoints: &mut [[u8; 32]],
    kind: OtsKind,
    id: &[u8; 16],
    q: u32,
    seed: &[u8; 32],
) -> [u8; 32]
    requires { length checkpoints.old ≤ checkpoint_count kind }
    ensures value { result ≡ public_key kind id.now q seed.now }
    ensures checkpoints { AreCheckpoints kind id.now q seed.now checkpoints.new }
    ensures len { length checkpoints.new ≡ length checkpoints.old }
{
    let parameters = kind.parameters();
    let mut key = hasher(id, q, D_PBLC);
    'public_elements: for i in 0..parameters.p {
        key.update(end_of_chain(kind, id, q, seed, i, checkpoints));
    }
    key.finalize()
}

/// The signature of `message` under the one-time key `q` of `id`: RFC 8554, 4.5. The randomizer is
/// a function of key and seed, so signing is a function.
pub fn ots_sign(
    alloc: Global,
    kind: OtsKind,
    id: &[u8; 16],
    q: u32,
    seed: &[u8; 32],
    message: &[u8],
) -> Result<Vec<u8>, Memory>
    ensures value { IfOk result (λ s.
        s.items ≡ signature_of kind id.now q seed.now message.now) }
    ensures len { IfOk result (λ s. vec_len s ≡ signature_len kind) }
{
    let mut signature = vec![in alloc; 0; kind.signature_len()]?;
    ots_sign_into(&mut signature, kind, id, q, seed, message, &[]);
    Ok(signature)
}

/// Fills `signature` with the signature of `message` under the one-time key `q` of `id`, as
/// `ots_sign` makes it. `checkpoints` are the key's first, as `ots_public_into` gives them, and may
/// be empty. It takes no memory.
pub fn ots_sign_into(
    signature: &mut [u8],
    kind: OtsKind,
    id: &[u8; 16],
    q: u32,
    seed: &[u8; 32],
    message: &[u8],
    checkpoints: &[[u8; 32]],
)
    requires room { length signature.old ≡ signature_len kind }
    requires checkpoints { AreCheckpoints kind id.now q seed.now checkpoints.now }
    ensures { signature.new ≡ signature_of kind id.now q seed.now message.now }
{
    let c = randomizer(id, q, seed);
    let digits = digits_of(kind, id, q, &c, message);
    write_at(signature, 0, &u32_bytes(kind.typecode()));
    write_at(signature, 4, &c);
    write_elements(
        &mut signature[36..],
        kind,
        id,
        q,
        seed,
        &digits,
        checkpoints,
    );
}

// Fills `elements` with those of the signature of these digits.
fn write_elements(
    elements: &mut [u8],
    kind: OtsKind,
    id: &[u8; 16],
    q: u32,
    seed: &[u8; 32],
    digits: &[u8; 34],
    checkpoints: &[[u8; 32]],
)
    requires room { length elements.old ≡ 32 * (parameters kind).p }
    requires checkpoints { AreCheckpoints kind id.now q seed.now checkpoints.now }
    ensures { elements.new
        ≡ flat_map (signed_element id.now q seed.now digits.now (parameters kind).w)
        (range_with_len 0 (parameters kind).p) }
{
    let parameters = kind.parameters();
    'signed_elements: for i in 0..parameters.p {
        let place = digit(digits, usize::from(i), parameters.w);
        write_at(
            elements,
            32 * usize::from(i),
            &chain_to(kind, id, q, seed, i, place, checkpoints),
        );
    }
}

/// The public key under which `signature` would be one of `message`: RFC 8554, 4.6. It takes no
/// memory.
pub fn ots_candidate(
    kind: OtsKind,
    id: &[u8; 16],
    q: u32,
    message: &[u8],
    signature: &[u8],
) -> Result<[u8; 32], OtsFault>
    ensures value { IfOk result (λ key.
        key ≡ candidate_of kind id.now q message.now signature.now) }
    ensures form { OnOk result ((length signature.now ≡ signature_len kind)
        × (take 4 signature.now ≡ u32str (parameters kind).typecode)) }

    // The first that applies is reported.
    ensures length { IsErrOf result OtsFault.WrongLength
        ↔ (length signature.now ≢ signature_len kind) }
    ensures typecode { IsErrOf result OtsFault.WrongType
        ↔ ((length signature.now ≡ signature_len kind)
        × (take 4 signature.now ≢ u32str (parameters kind).typecode)) }
{
    let parameters = kind.parameters();
    if signature.len() != kind.signature_len() {
        return Err(OtsFault::WrongLength);
    }
    if !signature.starts_with(&u32_bytes(parameters.typecode)) {
        return Err(OtsFault::WrongType);
    }
    Ok(candidate(kind, id, q, message, signature))
}

fn candidate(kind: OtsKind, id: &[u8; 16], q: u32, message: &[u8], signature: &[u8]) -> [u8; 32]
    requires { length signature.now ≡ signature_len kind }
    ensures { result ≡ candidate_of kind id.now q message.now signature.now }
{
    let parameters = kind.parameters();
    let last = parameters.largest();
    let digits = digits_of(kind, id, q, &array_of(&signature[4..36]), message);
    let mut key = hasher(id, q, D_PBLC);
    'candidate_elements: for i in 0..parameters.p {
        let at = 36 + 32 * usize::from(i);
        let element = array_of(&signature[at..at + 32]);
        let place = digit(&digits, usize::from(i), parameters.w);
        key.update(chain(id, q, i, place, last, element));
    }
    key.finalize()
}

// The hash of the message with its checksum, whose digits are signed.
fn digits_of(kind: OtsKind, id: &[u8; 16], q: u32, c: &[u8; 32], message: &[u8]) -> [u8; 34]
    ensures { let hash = message_hash id.now q c.now message.now in
        result ≡ hash ++ u16str (cksm kind hash) }
{
    let mut hasher = hasher(id, q, D_MESG);
    hasher.update(c);
    hasher.update(message);
    let hash = hasher.finalize();
    let mut digits = [0; 34];
    write_at(&mut digits, 0, &hash);
    write_at(&mut digits, 32, &u16_bytes(checksum(&hash, kind)));
    digits
}

// The randomizer C.
fn randomizer(id: &[u8; 16], q: u32, seed: &[u8; 32]) -> [u8; 32]
    ensures { result ≡ randomizer id.now q seed.now }
{
    let mut hasher = Sha256::new();
    hasher.update("auditorium C");
    hasher.update(id);
    hasher.update(u32_bytes(q));
    hasher.update(seed);
    hasher.finalize()
}

fn array_of(bytes: &[u8]) -> [u8; 32]
    requires { length bytes.now ≡ 32 }
    ensures { result ≡ bytes.now }
{
    let mut array = [0; 32];
    array.copy_from_slice(bytes);
    array
}
