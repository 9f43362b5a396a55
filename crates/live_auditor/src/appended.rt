//! Whether nothing needs to be said anew of the survivors where an entry comes after them.
ghost use Rattle.std.specs.Prelude.{◌≡◌, ◌≤◌, ◌&&◌, ◌==◌, length, slice_get};
ghost use Rattle.std.specs.Prelude.{IfNone, IfOk, IfSome, Some};
ghost use Rattle.std.specs.List.{Contains, list_any};
ghost use Rattle.std.specs.Str.{bytes_eq};
ghost use Rattle.live_auditor.specs.inside.Found.{FindsNames, HasOnePlaceEach, IsApartBy};

use crate::digests::same_digest;
use crate::survivors::Survivors;
use entry_format::Sealed;
use entry_order::Knot;
use rule_language::Row;
use std::alloc::{AllocError, Global};

/// The most survivors of a graph.
const MOST_SURVIVORS: usize = 16_384;

/// Whether the digest is one of these.
fn is_among(digests: &[[u8; 32]], digest: &[u8; 32]) -> bool
    ensures { result ≡ list_any (λ d. bytes_eq d digest.now) digests.now }
{
    digests.iter().any(|d| same_digest(d, digest))
}

/// Whether one of the rows has this maker and number.
fn is_numbered(rows: &[Row], maker: u32, number: u32) -> bool
    ensures { result ≡ list_any (λ row. (row.maker == maker) && (row.number == number)) rows.now }
{
    rows.iter()
        .any(|row| row.maker == maker && row.number == number)
}

/// Where the digest is in the list, the last place of several.
fn place_of(digests: &[[u8; 32]], digest: &[u8; 32]) -> Option<usize>
    ensures some { IfSome result (λ place. slice_get digests.now place ≡ Some digest.now) }
    ensures none { IfNone result (Contains digests.now digest.now → ⊥) }
{
    for place in (0..digests.len()).rev() {
        if same_digest(&digests[place], digest) {
            return Some(place);
        }
    }
    None
}

/// Where the names of an entry are in the list, and those of them that aren't there.
#[derive(Drop)]
pub(crate) struct Named {
    pub(crate) parents: Vec<u32>,
    pub(crate) missing: Vec<[u8; 32]>,
}

/// Where these names are among the digests, and those that aren't there.
fn named_in(alloc: Global, digests: &[[u8; 32]], names: &[[u8; 32]]) -> Result<Named, AllocError>
    requires { length digests.now ≤ 16384 }
    ensures { IfOk result (λ named. HasOnePlaceEach digests.now
        → FindsNames digests.now names.now named.parents.items named.missing.items) }
{
    let mut parents = Vec::with_capacity(alloc, names.len())?;
    let mut missing = Vec::new(alloc);
    for name in names {
        match place_of(digests, name) {
            Some(place) => parents.push(place as u32)?,
            None => missing.push(*name)?,
        }
    }
    Ok(Named { parents, missing })
}

/// What the entry names among the survivors, if none of them and no gap is changed by it where it
/// comes after all of them: it closes no gap, is no fork and doesn't name itself.
pub(crate) fn apart_names(
    alloc: Global,
    gaps: &[[u8; 32]],
    survivors: &Survivors,
    entry: &Sealed,
) -> Result<Option<Named>, AllocError>
    ensures { IfOk result (λ found. IfSome found (λ named. IsApartBy gaps.now
        survivors.now.digests.items survivors.now.rows.items entry.now
        named.parents.items named.missing.items)) }
{
    if survivors.digests.len() >= MOST_SURVIVORS
        || is_among(gaps, entry.digest())
        || is_among(entry.names(), entry.digest())
        || is_numbered(survivors.rows.as_slice(), entry.maker(), entry.number())
    {
        return Ok(None);
    }
    let named = named_in(alloc, survivors.digests.as_slice(), entry.names())?;
    Ok(Some(named))
}
