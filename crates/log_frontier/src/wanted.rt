//! The digests that are named and that none has.

ghost use Rattle.std.specs.Prelude.{◌≡◌, ◌↔◌, ◌&&◌, ◌||◌, ℕ, List, [], not, true, false};
ghost use Rattle.std.specs.Prelude.{IfOk, IsTrue};
ghost use Rattle.std.specs.List.{list_any};
ghost use Rattle.std.specs.Str.{bytes_eq};
ghost use Rattle.log_frontier.specs.Digests.{bears, has};

use crate::digest_places::DigestPlaces;
use crate::digests::Digests;
use std::alloc::{AllocError, Global};
use std::marker::Model;

/// The digests that are looked for. Once there was no room for one of them a scan has to find what
/// is looked for.
#[derive(Drop)]
pub struct Wanted {
    digests: Digests,
    scans: bool,
}

impl Model for Wanted {
    ghost use Rattle.log_frontier.specs.Digests.{Wanted};

    ghost Value = { Wanted };

    ghost view = { λ w. record { list = w.digests.list; scans = w.scans } };
}

impl Wanted {
    /// Nothing is looked for; there is room for `count`.
    pub fn make(alloc: Global, count: usize) -> Result<Wanted, AllocError>
        ensures { IfOk result (λ wanted. wanted ≡ record { list = []; scans = false }) }
    {
        Ok(Wanted {
            digests: Digests::make(alloc, count)?,
            scans: false,
        })
    }

    /// Whether a scan has to find what is looked for.
    pub fn scans(&self) -> bool
        ensures { result ≡ self.now.scans }
    {
        self.scans
    }

    /// Whether the digest is among them.
    pub fn has(&self, digest: &[u8; 32]) -> bool
        ensures { result ≡ has self.now.list digest.now }
    {
        self.digests.has(digest)
    }

    /// Whether there is none.
    pub fn is_empty(&self) -> bool
        ensures { IsTrue result ↔ (self.now.list ≡ []) }
    {
        self.digests.is_empty()
    }

    /// Those that are looked for, in some order.
    pub fn list(&self, alloc: Global) -> Result<Vec<[u8; 32]>, AllocError>
        ensures { IfOk result (λ list. list.items ≡ self.now.list) }
    {
        self.digests.list(alloc)
    }

    /// Takes out the digest, which was found.
    pub fn forget(&mut self, digest: &[u8; 32])
        ensures has { (d : List ℕ) →
            has self.new.list d ≡ (not (bytes_eq digest.now d) && has self.old.list d) }
        ensures scans { self.new.scans ≡ self.old.scans }
    {
        self.digests.remove(digest);
    }

    // Puts in the digest. It takes no memory.
    fn want(&mut self, digest: &[u8; 32])
        ensures has { self.new.scans ≡ false → (d : List ℕ) →
            has self.new.list d ≡ (bytes_eq digest.now d || has self.old.list d) }
        ensures scans { self.new.scans ≡ false → self.old.scans ≡ false }
    {
        if self.digests.has(digest) {
            return;
        }
        if self.digests.has_room() {
            self.digests.insert(digest);
        } else {
            self.scans = true;
        }
    }

    // Puts in the digest, unless it was found. It takes no memory.
    fn want_unless_found(&mut self, digest: &[u8; 32], found: &DigestPlaces)
        ensures has { self.new.scans ≡ false → (d : List ℕ) →
            has self.new.list d
            ≡ (has self.old.list d || (bytes_eq digest.now d && not (bears found.now.list d))) }
        ensures scans { self.new.scans ≡ false → self.old.scans ≡ false }
    {
        if found.has(digest) {
            return;
        }
        self.want(digest);
    }

    /// Puts in those of the digests that weren't found. It takes no memory.
    pub fn want_all(&mut self, digests: &[[u8; 32]], found: &DigestPlaces)
        ensures has { self.new.scans ≡ false → (d : List ℕ) →
            has self.new.list d
            ≡ (has self.old.list d
            || (list_any (λ c. bytes_eq c d) digests.now && not (bears found.now.list d))) }
        ensures scans { self.new.scans ≡ false → self.old.scans ≡ false }
    {
        for digest in digests {
            self.want_unless_found(digest, found);
        }
    }
}
