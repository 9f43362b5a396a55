//! A set as a list.
ghost use Rattle.std.specs.Prelude.{◌≡◌, IfOk};
ghost use Rattle.std.specs.List.Sorted.{IsStrictlySortedBy};

use std::alloc::{AllocError, Global};
use std::collections::BTreeSet;

/// The members of a set, in ascending order.
pub fn list_of<K: Ord + Copy>(alloc: Global, set: BTreeSet<K>) -> Result<Vec<K>, AllocError>
    ensures keys { IfOk result (λ list. list.items ≡ set.keys) }
    ensures rises { IfOk result (λ list. IsStrictlySortedBy K.cmp list.items) }
{
    set.into_iter().collect(alloc)
}
