//! Which digests the logs have, found without going through their records again.
ghost use Rattle.std.specs.Prelude.{◌≡◌, ◌||◌, ℕ, List, IfOk, OnOk, false, map};
ghost use Rattle.std.specs.Str.{bytes_eq};
ghost use Rattle.report_page.specs.Entries.{is_in_log};
ghost use Rattle.report_page.specs.inside.Held.{has};

use log_files::LogRead;
use std::alloc::{AllocError, Global};
use std::collections::HashSet;
use std::marker::Model;

/// The digests of a log's records.
#[derive(Drop)]
pub(crate) struct Held {
    digests: HashSet<[u8; 32]>,
}

impl Model for Held {
    ghost use Rattle.std.specs.Prelude.{ℕ, List};

    ghost Value = { List (List ℕ) };

    ghost view = { λ held. held.digests.keys };
}

impl Held {
    /// No digest.
    fn new(alloc: Global) -> Held
        ensures { (d : List ℕ) → has result d ≡ false }
    {
        Held {
            digests: HashSet::new(alloc),
        }
    }

    /// Adds the digest.
    fn add(&mut self, digest: &[u8; 32]) -> Result<(), AllocError>
        ensures { OnOk result ((d : List ℕ) →
            has self.new d ≡ (bytes_eq digest.now d || has self.old d)) }
    {
        self.digests.insert(*digest)?;
        Ok(())
    }

    /// Whether the digest is there.
    pub fn has(&self, digest: &[u8; 32]) -> bool
        ensures { result ≡ has self.now digest.now }
    {
        self.digests.contains(digest)
    }
}

/// The digests of the log's records.
fn held_in(alloc: Global, log: &LogRead) -> Result<Held, AllocError>
    ensures { IfOk result (λ held. (d : List ℕ) → has held d ≡ is_in_log d log.now) }
{
    let mut held = Held::new(alloc);
    for kept in log.kept.as_slice() {
        held.add(kept.entry.digest())?;
    }
    Ok(held)
}

/// The digests of each log's records.
pub(crate) fn all_held(alloc: Global, logs: &[LogRead]) -> Result<Vec<Held>, AllocError>
    ensures { IfOk result (λ all. (d : List ℕ) →
        map (λ held. has held d) all.items ≡ map (is_in_log d) logs.now) }
{
    let mut all = Vec::new(alloc);
    for log in logs {
        all.push(held_in(alloc, log)?)?;
    }
    Ok(all)
}
