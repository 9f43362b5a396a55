//! Whether a path of names leads from one survivor to another.

ghost use Rattle.std.specs.Prelude.{◌≡◌, ◌<◌, ◌↔◌, IsTrue, Some, length, slice_get};
ghost use Rattle.entry_order.specs.Precedes.{Precedes};
ghost use Rattle.entry_order.specs.Survivors.{survivors};
ghost use Rattle.small_worlds.specs.inside.Paths.{is_before, is_next, leads, names_entry};

use crate::digests::is_stray;
use entry_order::{Knot, names_digest};

// Whether the entry names the other.
fn names_entry<T: Knot>(entry: &T, other: &T) -> bool
    ensures { result ≡ names_entry T.node entry.now other.now }
{
    names_digest(entry, other.digest())
}

// Whether the other is a survivor that names the entry.
fn is_next<T: Knot>(given: &[T], entry: &T, other: &T) -> bool
    ensures { result ≡ is_next T.node given.now entry.now other.now }
{
    !is_stray(given, other) && names_entry(other, entry)
}

// Whether a path leads from the first to the second with at most this many survivors between them.
fn leads<T: Knot>(given: &[T], between: u32, first: &T, second: &T) -> bool
    ensures { result ≡ leads T.node given.now between first.now second.now }
{
    if names_entry(second, first) {
        return true;
    }
    if between == 0 {
        return false;
    }
    for middle in given {
        if is_next(given, first, middle) && leads(given, between - 1, middle, second) {
            return true;
        }
    }
    false
}

// Whether both are survivors and a path leads from the first to the second.
fn is_before<T: Knot>(given: &[T], first: &T, second: &T) -> bool
    ensures { result ≡ is_before T.node given.now first.now second.now }
{
    !is_stray(given, first)
        && (!is_stray(given, second) && leads(given, second.stamp(), first, second))
}

/// Whether the first entry precedes the second among the survivors of those given. Both are named
/// by their places. It takes time exponential in how many entries are given.
pub fn precedes<T: Knot>(given: &[T], first: usize, second: usize) -> bool
    requires first_in { first < length given.now }
    requires second_in { second < length given.now }
    ensures { (f e : T) → slice_get given.now first ≡ Some f → slice_get given.now second ≡ Some e →
        IsTrue result ↔ Precedes T.node (survivors T.node given.now) f e }
{
    is_before(given, &given[first], &given[second])
}
