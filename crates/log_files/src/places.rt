//! Where the texts of entries stand that may come again.
use canonical_sexp::Memory;
use sha2::{Digest, Sha256};
use std::alloc::Global;
use std::collections::HashMap;

/// Where an entry is: in which of the logs, and where among its records.
pub(crate) type Place = (usize, usize);

/// Where entries are, so that a text that comes again is found. Of those with one maker and number
/// the first is found by these, and the others by the digests of their texts, so that none is
/// computed where no machine signed two entries of one number.
#[derive(Drop)]
pub(crate) struct Places {
    firsts: HashMap<(u32, u32), Place>,
    others: HashMap<[u8; 32], Place>,
}

impl Places {
    /// No entry.
    pub(crate) fn new(alloc: Global) -> Places {
        Places {
            firsts: HashMap::new(alloc),
            others: HashMap::new(alloc),
        }
    }

    /// Where the first entry with this maker and number is.
    pub(crate) fn first(&self, key: (u32, u32)) -> Option<Place> {
        self.firsts.get(&key).copied()
    }

    /// Where another one is whose text has this digest.
    pub(crate) fn other(&self, digest: &[u8; 32]) -> Option<Place> {
        self.others.get(digest).copied()
    }

    /// Where another one is with this text, by its digest.
    pub(crate) fn other_of(&self, text: &[u8]) -> Option<Place> {
        if self.others.is_empty() {
            return None;
        }
        self.other(&digest_of(text))
    }

    /// Notes the first entry with this maker and number.
    pub(crate) fn note_first(&mut self, key: (u32, u32), place: Place) -> Result<(), Memory> {
        self.firsts.insert(key, place)?;
        Ok(())
    }

    /// Notes another one, whose text has this digest.
    pub(crate) fn note_other(&mut self, digest: [u8; 32], place: Place) -> Result<(), Memory> {
        self.others.insert(digest, place)?;
        Ok(())
    }
}

/// SHA-256 of a text.
pub(crate) fn digest_of(text: &[u8]) -> [u8; 32] {
    Sha256::digest(text)
}
