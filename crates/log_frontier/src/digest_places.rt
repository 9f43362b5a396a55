//! The places of entries by their digests, in room that is reserved.

ghost use Rattle.std.specs.Prelude.{◌≡◌, ◌+◌, ◌<◌, ◌≤◌, ℕ, List, [], Some, IfOk, if◌then◌else◌};
ghost use Rattle.std.specs.Str.{bytes_eq};
ghost use Rattle.log_frontier.specs.Digests.{bears, place_by};

use std::alloc::{AllocError, Global};
use std::collections::HashMap;
use std::marker::Model;

/// A place for each of some digests, in room that was reserved.
#[derive(Drop)]
pub struct DigestPlaces {
    map: HashMap<[u8; 32], usize>,
}

impl Model for DigestPlaces {
    ghost use Rattle.std.specs.HashMap.{spare};
    ghost use Rattle.log_frontier.specs.Digests.{DigestPlaces};

    ghost Value = { DigestPlaces };

    ghost view = { λ p. record { list = p.map.entries; spare = spare p.map } };
}

impl DigestPlaces {
    /// No digest, with room for `count`.
    pub fn make(alloc: Global, count: usize) -> Result<DigestPlaces, AllocError>
        ensures empty { IfOk result (λ places. places.list ≡ []) }
        ensures room { IfOk result (λ places. count ≤ places.spare) }
    {
        Ok(DigestPlaces {
            map: HashMap::with_capacity(alloc, count)?,
        })
    }

    /// The place of the digest.
    pub fn get(&self, digest: &[u8; 32]) -> Option<usize>
        ensures { result ≡ place_by self.now.list digest.now }
    {
        self.map.get(digest).copied()
    }

    /// Whether the digest has a place.
    pub fn has(&self, digest: &[u8; 32]) -> bool
        ensures { result ≡ bears self.now.list digest.now }
    {
        self.map.contains_key(digest)
    }

    /// Puts the digest at the place. It takes no memory.
    pub fn insert(&mut self, digest: &[u8; 32], place: usize)
        requires { 0 < self.old.spare }
        ensures places { (d : List ℕ) → place_by self.new.list d
            ≡ (if bytes_eq digest.now d then Some place else place_by self.old.list d) }
        ensures room { self.old.spare ≤ self.new.spare + 1 }
    {
        // There is room, so this doesn't fail.
        let _inserted = self.map.insert(*digest, place);
    }
}
