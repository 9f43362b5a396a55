//! Strays, which are set aside.
ghost use Rattle.std.specs.Prelude.{◌≡◌, IfOk, List, Option};
ghost use Rattle.std.specs.List.{list_any};
ghost use Rattle.entry_order.specs.Survivors.{is_stray, survivors};
ghost use Rattle.entry_graph.specs.inside.Tables.{AreStamps, is_from, number_at};
ghost use Rattle.entry_graph.specs.inside.Distinct.{HasNoDigestTwice};
ghost use Rattle.entry_graph.specs.EntryGraph.{AreStrays};

use crate::digest_table::DigestTable;
use crate::set_list::list_of;
use entry_order::Knot;
use std::alloc::{AllocError, Global};
use std::collections::BTreeSet;

/// Entries of which no two have one digest, without strays, and the digests of the strays.
#[derive(Drop)]
pub struct Sifted<T> {
    pub survivors: Vec<T>,
    pub strays: Vec<[u8; 32]>,
}

/// Sets the strays aside, judged over all of the entries.
pub fn sift<T: Knot + Drop>(alloc: Global, given: Vec<T>) -> Result<Sifted<T>, AllocError>
    requires { HasNoDigestTwice T.node given.items }
    ensures survivors { IfOk result (λ sifted.
        sifted.survivors.items ≡ survivors T.node given.items) }
    ensures strays { IfOk result (λ sifted. AreStrays T.node given.items sifted.strays.items) }
{
    let stamps = stamps_of(alloc, &given)?;
    let mut survivors = Vec::new(alloc);
    let mut strays = BTreeSet::new(alloc);
    for entry in given {
        if is_stray(&entry, &stamps) {
            strays.insert(*entry.digest())?;
        } else {
            survivors.push(entry)?;
        }
    }
    let strays = list_of(alloc, strays)?;
    Ok(Sifted { survivors, strays })
}

/// The stamp of each entry at its digest.
fn stamps_of<T: Knot>(alloc: Global, given: &[T]) -> Result<DigestTable, AllocError>
    ensures { IfOk result (AreStamps T.node given.now) }
{
    let mut stamps = DigestTable::new(alloc);
    for entry in given {
        stamps.set(entry.digest(), entry.stamp() as usize)?;
    }
    Ok(stamps)
}

/// Whether the entry is a stray, by the stamps of those given.
fn is_stray<T: Knot>(entry: &T, stamps: &DigestTable) -> bool
    ensures { (given : List T) → HasNoDigestTwice T.node given → AreStamps T.node given stamps.now →
        result ≡ is_stray T.node given entry.now }
{
    names_from(entry, stamps)
}

/// Whether a digest that it names has a stamp that isn't lower than its own.
fn names_from<T: Knot>(entry: &T, stamps: &DigestTable) -> bool
    ensures { result ≡ list_any (λ d. is_from (T.node entry.now).stamp (number_at stamps.now d))
        (T.node entry.now).names }
{
    let stamp = entry.stamp();
    entry.names().iter().any(|d| is_from(stamp, stamps.get(d)))
}

/// Whether there is a number and it is at least this one.
fn is_from(least: u32, found: Option<usize>) -> bool
    ensures { result ≡ is_from least found }
{
    match found {
        Some(stamp) => least as usize <= stamp,
        None => false,
    }
}
