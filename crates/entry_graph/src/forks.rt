//! Forks: two entries of one maker with one number.
ghost use Rattle.std.specs.Prelude.{◌≡◌, ◌&&◌, ◌||◌, ℕ, IfOk, OnOk};
ghost use Rattle.std.specs.BTreeMap.{is_at};
ghost use Rattle.std.specs.BTreeSet.{contains};
ghost use Rattle.entry_graph.specs.EntryGraph.{AreForks, pair_cmp};
ghost use Rattle.entry_graph.specs.inside.Distinct.{HasNoDigestTwice};

use crate::set_list::list_of;
use entry_order::Knot;
use std::alloc::{AllocError, Global};
use std::collections::BTreeSet;

/// The maker and the number of two or more of these entries, of which no two have one digest: each
/// pair once, ascending.
pub fn forks_of<T: Knot>(alloc: Global, entries: &[T]) -> Result<Vec<(u32, u32)>, AllocError>
    requires { HasNoDigestTwice T.node entries.now }
    ensures { IfOk result (λ forks. AreForks T.node entries.now forks.items) }
{
    let mut seen = BTreeSet::new(alloc);
    let mut forked = BTreeSet::new(alloc);
    for entry in entries {
        note_pair(&mut seen, &mut forked, (entry.maker(), entry.number()))?;
    }
    list_of(alloc, forked)
}

/// Puts the pair among those seen, and among the forked if it was seen before.
fn note_pair(
    seen: &mut BTreeSet<(u32, u32)>,
    forked: &mut BTreeSet<(u32, u32)>,
    pair: (u32, u32),
) -> Result<(), AllocError>
    ensures seen { OnOk result ((q : ℕ × ℕ) → contains pair_cmp seen.new q
        ≡ (is_at (pair_cmp pair) q || contains pair_cmp seen.old q)) }
    ensures forked { OnOk result ((q : ℕ × ℕ) → contains pair_cmp forked.new q
        ≡ ((contains pair_cmp seen.old pair && is_at (pair_cmp pair) q)
        || contains pair_cmp forked.old q)) }
{
    if !seen.insert(pair)? {
        forked.insert(pair)?;
    }
    Ok(())
}
