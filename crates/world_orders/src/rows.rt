//! The orders of the survivors by rows of their ancestors.

use crate::entry::Entry;
use entry_order::{Knot, names_digest};
use listed_graphs::{Listed, ListedGraph};
use precedence::{Arrows, Rows, Three};
use small_worlds::{gaps, survivors};
use std::alloc::{AllocError, Global};
use std::io;

// The most survivors that rows are made for.
const MOST_NODES: usize = 16384;

// The places of the survivors that one names. They are in the order of their stamps, so that each
// names only those before it.
fn places_named(alloc: Global, entries: &[Entry], entry: &Entry) -> Result<Listed, AllocError> {
    let mut parents = Vec::new(alloc);
    for (place, other) in entries.iter().enumerate() {
        if let Ok(place) = u32::try_from(place) {
            if names_digest(entry, other.digest()) {
                parents.push(place)?;
            }
        }
    }
    Ok(Listed { parents })
}

fn graph_of(alloc: Global, entries: &[Entry]) -> Result<ListedGraph, AllocError> {
    let gaps = gaps(alloc, entries)?;
    let mut nodes = Vec::new(alloc);
    let mut ragged = Vec::new(alloc);
    for entry in entries {
        nodes.push(places_named(alloc, entries, entry)?)?;
        ragged.push(gaps.iter().any(|gap| names_digest(entry, gap)))?;
    }
    Ok(ListedGraph { nodes, ragged })
}

fn print_pair(rt: &impl Print, word: &str, first: &Entry, second: &Entry) -> io::Result<()> {
    println!(rt;
        "{word} {} {} {} {}",
        first.maker, first.number, second.maker, second.number
    )
}

fn print_order(rt: &impl Print, entries: &[Entry], rows: &Rows) -> io::Result<()> {
    for x in 0..rows.count().min(entries.len()) {
        for (y, first) in entries.iter().enumerate() {
            match rows.before(y, x) {
                Three::True => print_pair(rt, "precedes", first, &entries[x])?,
                Three::Unknown => print_pair(rt, "unknown", first, &entries[x])?,
                Three::False => {}
            }
        }
    }
    Ok(())
}

/// Prints of the survivors of those given which precede which, and of which it is unknown.
pub fn print_rows(rt: &impl Print, alloc: Global, given: &[Entry]) -> io::Result<()> {
    let mut survivors = survivors(alloc, given)?;
    survivors.sort_by_key(|entry| entry.stamp)?;
    let graph = graph_of(alloc, &survivors)?;
    if graph.count() > MOST_NODES {
        return Ok(());
    }
    let rows = Rows::make(alloc, &graph)?;
    print_order(rt, &survivors, &rows)
}
