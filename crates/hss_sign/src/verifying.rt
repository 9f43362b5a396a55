//! Verification.
ghost use Rattle.std.specs.Prelude.{◌↔◌, ◌≡◌, ◌+◌, ◌≤◌, IsTrue, length, take};
ghost use Rattle.lms_ots.specs.Ots.{u32str};
ghost use Rattle.hss_sign.specs.Signs.{HssSigns};
ghost use Rattle.hss_sign.specs.inside.Below.{SignsBelow};

use lms_ots::u32_bytes;
use lms_sign::{LmsPublic, verify};

/// Whether `signature` is one of `message` under `key`: RFC 8554, 6.3, with two levels. It takes no
/// memory.
pub fn hss_verify(key: &[u8], message: &[u8], signature: &[u8]) -> bool
    ensures { IsTrue result ↔ HssSigns key.now message.now signature.now }
{
    if !begins_with(key, 2) || !begins_with(signature, 1) {
        return false;
    }
    match LmsPublic::from_bytes(&key[4..]) {
        Ok(top) => signs_below(&top, message, &signature[4..]),
        Err(_) => false,
    }
}

// Whether `parts` are a signature by the top tree, the public key of a low tree that it signs, and
// a signature of `message` under that key.
fn signs_below(top: &LmsPublic, message: &[u8], parts: &[u8]) -> bool
    ensures { IsTrue result ↔ SignsBelow top.now message.now parts.now }
{
    let Some(len) = top.signature_len() else {
        return false;
    };
    if parts.len() < len + 56 {
        return false;
    }
    let (signed, rest) = parts.split_at(len);
    let (low, signature) = rest.split_at(56);
    match LmsPublic::from_bytes(low) {
        Ok(key) => verify(top, low, signed) && verify(&key, message, signature),
        Err(_) => false,
    }
}

// Whether `bytes` begin with the number.
fn begins_with(bytes: &[u8], number: u32) -> bool
    ensures value { IsTrue result ↔ (take 4 bytes.now ≡ u32str number) }
    ensures long { IsTrue result → 4 ≤ length bytes.now }
{
    bytes.starts_with(&u32_bytes(number))
}
