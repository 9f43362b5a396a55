//! Numbers by digest.
ghost use Rattle.std.specs.Prelude.{◌≡◌, ℕ, List, None, Some, OnOk, if◌then◌else◌};
ghost use Rattle.std.specs.Str.{bytes_eq};
ghost use Rattle.entry_graph.specs.inside.Tables.{number_at};

use std::alloc::{AllocError, Global};
use std::collections::HashMap;
use std::marker::Model;

/// A number for each of some digests. A contract sees what is found at a digest by `number_at`.
#[derive(Drop)]
pub struct DigestTable {
    map: HashMap<[u8; 32], usize>,
}

impl Model for DigestTable {
    ghost use Rattle.std.specs.Prelude.{ℕ, List};

    ghost Value = { List (List ℕ × ℕ) };

    ghost view = { λ table. table.map.entries };
}

impl DigestTable {
    /// No digest.
    pub fn new(alloc: Global) -> DigestTable
        ensures { (d : List ℕ) → number_at result d ≡ None }
    {
        DigestTable {
            map: HashMap::new(alloc),
        }
    }

    /// The number at the digest.
    pub fn get(&self, digest: &[u8; 32]) -> Option<usize>
        ensures { result ≡ number_at self.now digest.now }
    {
        self.map.get(digest).copied()
    }

    /// Sets the number at the digest.
    pub fn set(&mut self, digest: &[u8; 32], number: usize) -> Result<(), AllocError>
        ensures { OnOk result ((d : List ℕ) →
            number_at self.new d
            ≡ (if bytes_eq digest.now d then Some number else number_at self.old d)) }
    {
        self.map.insert(*digest, number)?;
        Ok(())
    }
}
