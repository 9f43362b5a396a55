//! Sealed entries: signed by their maker, with the signature verified.
ghost use Rattle.std.specs.Prelude.{◌≡◌, IfErr, IfOk};
ghost use Rattle.entry_format.specs.Sealing.{IsSealed, sealed_in};

use crate::entry::Entry;
use entry_order::Knot;
use sha2::{Digest, Sha256};
use std::alloc::{AllocError, Global};
use std::marker::Model;
use std::sync::Arc;

/// An allocation failed.
pub type Memory = AllocError;

/// The parts of a sealed entry. Its signature stands at the end of its text.
#[derive(Debug, Drop)]
struct Parts {
    entry: Entry,
    text: Vec<u8>,
    /// How many bytes of the text are its signature.
    signature_len: usize,
    digest: [u8; 32],
    key: [u8; 56],
}

/// An entry with its signature, its signed text, the text's digest and its maker's key, which
/// belong together: each value was signed with a secret key, or its signature was verified. A copy
/// shares them.
#[derive(Debug, Drop)]
pub struct Sealed {
    parts: Arc<Parts>,
}

impl Model for Sealed {
    ghost use Rattle.std.specs.Arc.{arc_value};
    ghost use Rattle.entry_format.specs.SealedEntry.{SealedEntry};
    ghost use Rattle.entry_format.specs.Sealing.{IsSealed, sealed_of};

    ghost Value = { SealedEntry };

    ghost view = { λ s. sealed_of (arc_value s.parts).entry (arc_value s.parts).text.items
        (arc_value s.parts).signature_len (arc_value s.parts).digest (arc_value s.parts).key };

    ghost invariant = { λ s. IsSealed (sealed_of (arc_value s.parts).entry
        (arc_value s.parts).text.items (arc_value s.parts).signature_len
        (arc_value s.parts).digest (arc_value s.parts).key) };
}

impl Sealed {
    /// The sealed entry of these parts, which belong together. Where there is no memory, the text
    /// comes back.
    pub(crate) fn new(
        alloc: Global,
        entry: Entry,
        text: Vec<u8>,
        signature_len: usize,
        key: [u8; 56],
    ) -> Result<Sealed, Vec<u8>>
        requires { IsSealed (sealed_in entry text.items signature_len key) }
        ensures value { IfOk result (λ sealed.
            sealed ≡ sealed_in entry text.items signature_len key) }
        ensures kept { IfOk result (λ sealed. IsSealed sealed) }
        ensures text { IfErr result (λ back. back.items ≡ text.items) }
    {
        let digest = Sha256::digest(&text);
        let parts = Parts {
            entry,
            text,
            signature_len,
            digest,
            key,
        };
        match Arc::new(alloc, parts) {
            Ok(parts) => Ok(Sealed { parts }),
            Err(refused) => {
                let Parts { text, .. } = refused.value;
                Err(text)
            }
        }
    }

    /// What the maker says.
    pub fn entry(&self) -> &Entry
        ensures value { result.now ≡ self.now.entry }
        ensures kept { IsSealed self.now }
    {
        &self.parts.entry
    }

    /// The signed text.
    pub fn text(&self) -> &[u8]
        ensures value { result.now ≡ self.now.text }
        ensures kept { IsSealed self.now }
    {
        self.parts.text.as_slice()
    }

    /// SHA-256 of the signed text.
    pub fn digest(&self) -> &[u8; 32]
        ensures value { result.now ≡ self.now.digest }
        ensures kept { IsSealed self.now }
    {
        &self.parts.digest
    }

    /// The maker's public key, 56 bytes (RFC 8554, 5.3).
    pub fn key(&self) -> &[u8; 56]
        ensures value { result.now ≡ self.now.key }
        ensures kept { IsSealed self.now }
    {
        &self.parts.key
    }

    /// An equal sealed entry, which shares what this one has. It takes no memory.
    pub fn copy(&self, _alloc: Global) -> Result<Sealed, Memory>
        ensures { IfOk result (λ sealed. sealed ≡ self.now) }
    {
        Ok(Sealed {
            parts: Arc::try_clone(&self.parts)?,
        })
    }
}

impl Knot for Sealed {
    ghost use Rattle.entry_format.specs.Nodes.{node_of_sealed};

    ghost node = { node_of_sealed };

    fn digest(&self) -> &[u8; 32] {
        &self.parts.digest
    }

    fn names(&self) -> &[[u8; 32]] {
        self.parts.entry.names.as_slice()
    }

    fn maker(&self) -> u32 {
        self.parts.entry.maker
    }

    fn number(&self) -> u32 {
        self.parts.entry.number
    }

    fn stamp(&self) -> u32 {
        self.parts.entry.stamp
    }
}
