//! A set of digests with room that is reserved.

ghost use Rattle.std.specs.Prelude.{◌≡◌, ◌+◌, ◌<◌, ◌≤◌, ◌↔◌, ◌&&◌, ◌||◌, ℕ, List, [], not};
ghost use Rattle.std.specs.Prelude.{IfOk, IsTrue};
ghost use Rattle.std.specs.Str.{bytes_eq};
ghost use Rattle.log_frontier.specs.Digests.{has};

use std::alloc::{AllocError, Global};
use std::collections::HashSet;
use std::marker::Model;

/// Digests, each once, in room that was reserved.
#[derive(Drop)]
pub struct Digests {
    set: HashSet<[u8; 32]>,
}

impl Model for Digests {
    ghost use Rattle.std.specs.HashSet.{spare};
    ghost use Rattle.log_frontier.specs.Digests.{Digests};

    ghost Value = { Digests };

    ghost view = { λ d. record { list = d.set.keys; spare = spare d.set } };
}

impl Digests {
    /// No digest, with room for `count`.
    pub fn make(alloc: Global, count: usize) -> Result<Digests, AllocError>
        ensures empty { IfOk result (λ digests. digests.list ≡ []) }
        ensures room { IfOk result (λ digests. count ≤ digests.spare) }
    {
        Ok(Digests {
            set: HashSet::with_capacity(alloc, count)?,
        })
    }

    /// Whether it has the digest.
    pub fn has(&self, digest: &[u8; 32]) -> bool
        ensures { result ≡ has self.now.list digest.now }
    {
        self.set.contains(digest)
    }

    /// Whether there is room for one more.
    pub fn has_room(&self) -> bool
        ensures { IsTrue result ↔ (0 < self.now.spare) }
    {
        self.set.len() < self.set.capacity()
    }

    /// Whether there is none.
    pub fn is_empty(&self) -> bool
        ensures { IsTrue result ↔ (self.now.list ≡ []) }
    {
        self.set.is_empty()
    }

    /// The digests, in some order.
    pub fn list(&self, alloc: Global) -> Result<Vec<[u8; 32]>, AllocError>
        ensures { IfOk result (λ list. list.items ≡ self.now.list) }
    {
        self.set.iter().copied().collect(alloc)
    }

    /// Puts the digest in. It takes no memory.
    pub fn insert(&mut self, digest: &[u8; 32])
        requires { 0 < self.old.spare }
        ensures has { (d : List ℕ) →
            has self.new.list d ≡ (bytes_eq digest.now d || has self.old.list d) }
        ensures room { self.old.spare ≤ self.new.spare + 1 }
    {
        // There is room, so this doesn't fail.
        let _inserted = self.set.insert(*digest);
    }

    /// Takes the digest out.
    pub fn remove(&mut self, digest: &[u8; 32])
        ensures has { (d : List ℕ) →
            has self.new.list d ≡ (not (bytes_eq digest.now d) && has self.old.list d) }
        ensures room { self.old.spare ≤ self.new.spare }
    {
        self.set.remove(digest);
    }
}
