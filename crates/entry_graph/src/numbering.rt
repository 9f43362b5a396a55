//! The numbers of survivors.
ghost use Rattle.std.specs.List.{AllPairs};
ghost use Rattle.std.specs.List.Sorted.{IsPermutation};
ghost use Rattle.entry_graph.specs.EntryGraph.{IsLower};
ghost use Rattle.entry_graph.specs.inside.Distinct.{HasNoDigestTwice};

use entry_order::Knot;

/// Sorts entries of which no two have one digest by stamp and then digest. It takes no memory.
pub fn number<T: Knot>(entries: &mut Vec<T>)
    requires { HasNoDigestTwice T.node entries.old.items }
    ensures same { IsPermutation entries.old.items entries.new.items }
    ensures rises { AllPairs (IsLower T.node) entries.new.items }
{
    entries.sort_unstable_by_key(|entry| (entry.stamp(), *entry.digest()));
}
