//! Where the survivors are drawn.
ghost use Rattle.std.specs.Prelude.{◌≡◌, ◌<◌, ◌≤◌, ◌+◌, [], IfOk, length};
ghost use Rattle.std.specs.List.{zip};
ghost use Rattle.entangled_picture.specs.Places.{
  begins_column,
  level_under,
  next_column,
  next_stamp,
  placed_after,
  placed_as,
  spot_of,
};

use crate::seen::Seen;
use crate::shape::Spot;
use std::alloc::{AllocError, Global};

/// A survivor, and where it is drawn, if it is.
#[derive(Clone, Copy)]
pub(crate) struct Placed {
    pub seen: Seen,
    pub at: Option<Spot>,
}

/// How many of these entries have the same maker and stamp.
fn level_under(before: &[Seen], entry: &Seen) -> usize
    ensures { result ≡ level_under before.now entry.now }
{
    before
        .iter()
        .filter(|other| other.maker == entry.maker && other.stamp == entry.stamp)
        .count()
}

/// The spot of an entry in a column.
fn spot_of(before: &[Seen], entry: &Seen, column: u32) -> Spot
    ensures { result ≡ spot_of before.now entry.now column }
{
    Spot {
        column,
        lane: entry.maker as usize,
        level: level_under(before, entry),
    }
}

/// The entry with its spot in the column, if it is drawn.
fn placed_as(before: &[Seen], entry: &Seen, column: u32, is_drawn: bool) -> Placed
    ensures { result ≡ placed_as before.now entry.now column is_drawn }
{
    Placed {
        seen: *entry,
        at: if is_drawn {
            Some(spot_of(before, entry, column))
        } else {
            None
        },
    }
}

/// Whether an entry begins a column after one with this stamp.
fn begins_column(stamp: u32, entry: &Seen, is_drawn: bool) -> bool
    ensures { result ≡ begins_column stamp (entry.now, is_drawn) }
{
    is_drawn && stamp < entry.stamp
}

/// The column of an entry after this one with this stamp.
fn next_column(column: u32, stamp: u32, entry: &Seen, is_drawn: bool) -> u32
    requires { column < 16384 }
    ensures value { result ≡ next_column column stamp (entry.now, is_drawn) }
    ensures at_most { result ≤ column + 1 }
{
    if begins_column(stamp, entry, is_drawn) {
        column + 1
    } else {
        column
    }
}

/// The stamp of this column.
fn next_stamp(stamp: u32, entry: &Seen, is_drawn: bool) -> u32
    ensures { result ≡ next_stamp stamp (entry.now, is_drawn) }
{
    if begins_column(stamp, entry, is_drawn) {
        entry.stamp
    } else {
        stamp
    }
}

/// The entries with their spots, if they are drawn. The next one that is drawn is one column
/// further right if its stamp is greater.
#[tactic(auto, using(crate::proofs::Grown::growing))]
pub(crate) fn all_placed(
    alloc: Global,
    seen: &[Seen],
    drawn: &[bool],
) -> Result<Vec<Placed>, AllocError>
    requires one_each { length seen.now ≡ length drawn.now }
    requires few { length seen.now ≤ 16384 }
    ensures { IfOk result (λ placed.
        placed.items ≡ placed_after [] 0 0 (zip seen.now drawn.now)) }
{
    let mut placed = Vec::new(alloc);
    let mut column = 0;
    let mut stamp = 0;
    for i in 0..seen.len() {
        let entry = seen[i];
        let is_drawn = drawn[i];
        column = next_column(column, stamp, &entry, is_drawn);
        stamp = next_stamp(stamp, &entry, is_drawn);
        placed.push(placed_as(&seen[..i], &entry, column, is_drawn))?;
    }
    Ok(placed)
}
