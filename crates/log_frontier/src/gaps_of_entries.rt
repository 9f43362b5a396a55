//! The gaps of entries, found in sorted digests.
ghost use Rattle.std.specs.Prelude.{◌≡◌, map, IfOk, IsSorted};
ghost use Rattle.std.specs.List.{flat_map};
ghost use Rattle.std.specs.Ordering.{nat_cmp};
ghost use Rattle.std.specs.Cmp.Lexicographic.{slice_cmp};
ghost use Rattle.entry_order.specs.Ascending.{ascending as ascending_of};
ghost use Rattle.entry_order.specs.Survivors.{gaps as gaps_of};
ghost use Rattle.log_frontier.specs.inside.Without.{IsWithout};

use entry_order::{Knot, ascending_is_unique, gaps_are_unique};
use item_list::Items;
use std::alloc::{AllocError, Global};

/// Digests of 32 bytes each. A contract sees them as a list.
pub type DigestList = Items<[u8; 32]>;

/// The digests that one of the entries names and none of them has, each once, ascending in the
/// order of their bytes. It takes time for n entries and names as sorting them, n log n.
pub fn gaps<T: Knot>(alloc: Global, entries: &[T]) -> Result<DigestList, AllocError>
    ensures { IfOk result (λ digests. digests ≡ gaps_of T.node entries.now) }
{
    gaps_are_unique::<T>();
    let mut borne = digests_of(alloc, entries)?;
    borne.sort_unstable();
    let mut named = names_of(alloc, entries)?;
    named.sort_unstable();
    let digests = without(alloc, named.as_slice(), borne.as_slice())?;
    Ok(Items::from_vec(digests))
}

/// The digests in ascending order of their bytes, each once.
pub fn ascending(alloc: Global, digests: Vec<[u8; 32]>) -> Result<DigestList, AllocError>
    ensures { IfOk result (λ found. found ≡ ascending_of digests.items) }
{
    ascending_is_unique();
    let mut sorted = digests;
    sorted.sort_unstable();
    let found = without(alloc, sorted.as_slice(), &[])?;
    Ok(Items::from_vec(found))
}

/// The digests that the entries have, in their order.
fn digests_of<T: Knot>(alloc: Global, entries: &[T]) -> Result<Vec<[u8; 32]>, AllocError>
    ensures { IfOk result (λ digests.
        digests.items ≡ map (λ entry. (T.node entry).digest) entries.now) }
{
    let mut digests = Vec::with_capacity(alloc, entries.len())?;
    for entry in entries {
        digests.push(*entry.digest())?;
    }
    Ok(digests)
}

/// The digests that the entries name, in their order.
fn names_of<T: Knot>(alloc: Global, entries: &[T]) -> Result<Vec<[u8; 32]>, AllocError>
    ensures { IfOk result (λ names.
        names.items ≡ flat_map (λ entry. (T.node entry).names) entries.now) }
{
    let mut names = Vec::new(alloc);
    for entry in entries {
        names.extend_from_slice(entry.names())?;
    }
    Ok(names)
}

/// Those of the named digests that no entry has, each once. Both lists are sorted.
fn without(
    alloc: Global,
    named: &[[u8; 32]],
    borne: &[[u8; 32]],
) -> Result<Vec<[u8; 32]>, AllocError>
    requires named { IsSorted (slice_cmp nat_cmp) named.now }
    requires borne { IsSorted (slice_cmp nat_cmp) borne.now }
    ensures { IfOk result (λ found. IsWithout named.now borne.now found.items) }
{
    let mut found = Vec::new(alloc);
    for i in 0..named.len() {
        let is_again = i > 0 && named[i - 1] == named[i];
        if !is_again && borne.binary_search(&named[i]).is_err() {
            found.push(named[i])?;
        }
    }
    Ok(found)
}
