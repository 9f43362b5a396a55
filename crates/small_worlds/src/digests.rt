//! Ascending digests, and the frontier and the gaps of some entries.

ghost use Rattle.std.specs.Prelude.{◌≡◌, ◌≤◌, not, length, map, OnOk, IfOk, IfSome};
ghost use Rattle.std.specs.List.{filter, flat_map};
ghost use Rattle.entry_order.specs.Ascending.{ascending, insert_digest};
ghost use Rattle.entry_order.specs.Frontier.{frontier};
ghost use Rattle.entry_order.specs.Naming.{is_named, has_digest};
ghost use Rattle.entry_order.specs.Survivors.{gaps, is_stray, names_later, survivors};
ghost use Rattle.small_worlds.specs.inside.Digests.{put_at};

use crate::machine::Sender;
use entry_order::{Knot, has_digest, is_named, names_digest};
use std::alloc::{AllocError, Global};
use std::cmp::Ordering;

// Where the digest goes among ascending ones, and `None` where it is one of them.
fn place_for(digests: &[[u8; 32]], digest: &[u8; 32]) -> Option<usize>
    ensures place { put_at result digest.now digests.now ≡ insert_digest digest.now digests.now }
    ensures within { IfSome result (λ at. at ≤ length digests.now) }
{
    for (at, other) in digests.iter().enumerate() {
        match digest.cmp(other) {
            Ordering::Less => return Some(at),
            Ordering::Equal => return None,
            Ordering::Greater => {}
        }
    }
    Some(digests.len())
}

// Puts the digest in its place among ascending ones, if it isn't there.
fn insert_digest(digests: &mut Vec<[u8; 32]>, digest: &[u8; 32]) -> Result<(), AllocError>
    ensures { OnOk result (digests.new.items ≡ insert_digest digest.now digests.old.items) }
{
    if let Some(at) = place_for(digests, digest) {
        digests.insert(at, *digest)?;
    }
    Ok(())
}

/// The digests in ascending order, each once.
pub fn ascending(alloc: Global, digests: &[[u8; 32]]) -> Result<Vec<[u8; 32]>, AllocError>
    ensures { IfOk result (λ sorted. sorted.items ≡ ascending digests.now) }
{
    let mut sorted = Vec::new(alloc);
    let mut left = digests.len();
    while left > 0 {
        left -= 1;
        insert_digest(&mut sorted, &digests[left])?;
    }
    Ok(sorted)
}

// The digests of those entries that none of them names, in their order.
fn unnamed<T: Knot>(alloc: Global, entries: &[T]) -> Result<Vec<[u8; 32]>, AllocError>
    ensures { IfOk result (λ digests. digests.items
        ≡ filter (λ d. not (is_named T.node entries.now d))
        (map (λ e. (T.node e).digest) entries.now)) }
{
    let mut digests = Vec::new(alloc);
    for entry in entries {
        let digest = entry.digest();
        if !is_named(entries, digest) {
            digests.push(*digest)?;
        }
    }
    Ok(digests)
}

/// The frontier of the entries.
pub fn frontier<T: Knot>(alloc: Global, entries: &[T]) -> Result<Vec<[u8; 32]>, AllocError>
    ensures { IfOk result (λ digests. digests.items ≡ frontier T.node entries.now) }
{
    let digests = unnamed(alloc, entries)?;
    ascending(alloc, &digests)
}

// All that the entries name, in their order.
fn named<T: Knot>(alloc: Global, entries: &[T]) -> Result<Vec<[u8; 32]>, AllocError>
    ensures { IfOk result (λ digests. digests.items
        ≡ flat_map (λ e. (T.node e).names) entries.now) }
{
    let mut digests = Vec::new(alloc);
    for entry in entries {
        digests.extend_from_slice(entry.names())?;
    }
    Ok(digests)
}

// Those digests that no entry has, in their order.
fn unborne<T: Knot>(
    alloc: Global,
    entries: &[T],
    digests: &[[u8; 32]],
) -> Result<Vec<[u8; 32]>, AllocError>
    ensures { IfOk result (λ lost. lost.items
        ≡ filter (λ d. not (has_digest T.node entries.now d)) digests.now) }
{
    let mut lost = Vec::new(alloc);
    for digest in digests {
        if !has_digest(entries, digest) {
            lost.push(*digest)?;
        }
    }
    Ok(lost)
}

/// The gaps of the entries.
pub fn gaps<T: Knot>(alloc: Global, entries: &[T]) -> Result<Vec<[u8; 32]>, AllocError>
    ensures { IfOk result (λ digests. digests.items ≡ gaps T.node entries.now) }
{
    let digests = named(alloc, entries)?;
    let lost = unborne(alloc, entries, &digests)?;
    ascending(alloc, &lost)
}

/// Whether the entry is a stray among those given.
pub fn is_stray<T: Knot>(given: &[T], entry: &T) -> bool
    ensures { result ≡ is_stray T.node given.now entry.now }
{
    given.iter().any(|other| names_later(entry, other))
}

// Whether the entry names the other, whose stamp isn't lower.
fn names_later<T: Knot>(entry: &T, other: &T) -> bool
    ensures { result ≡ names_later T.node entry.now other.now }
{
    let names = names_digest(entry, other.digest());
    names && entry.stamp() <= other.stamp()
}

/// Copies of the survivors of those given.
pub fn survivors<T: Sender>(alloc: Global, given: &[T]) -> Result<Vec<T>, AllocError>
    ensures { IfOk result (λ kept. kept.items ≡ survivors T.node given.now) }
{
    let mut kept = Vec::new(alloc);
    for entry in given {
        if !is_stray(given, entry) {
            kept.push(entry.copy(alloc)?)?;
        }
    }
    Ok(kept)
}
