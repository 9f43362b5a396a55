//! The gaps of survivors, by their places.
ghost use Rattle.std.specs.Prelude.{◌≡◌, ◌++◌, is_none, IfOk, OnOk};
ghost use Rattle.std.specs.List.{filter, flat_map};
ghost use Rattle.entry_graph.specs.inside.Tables.{ArePlaces, number_at};
ghost use Rattle.entry_order.specs.Survivors.{gaps as gaps_of};

use crate::digest_table::DigestTable;
use entry_order::Knot;
use log_frontier::{DigestList, ascending};
use std::alloc::{AllocError, Global};

/// The digests that one of the survivors names and none of them has, ascending. They are at these
/// places, so only what is at none has to be sorted.
pub fn gaps_by<T: Knot>(
    alloc: Global,
    survivors: &[T],
    places: &DigestTable,
) -> Result<DigestList, AllocError>
    requires { ArePlaces T.node survivors.now places.now }
    ensures { IfOk result (λ digests. digests ≡ gaps_of T.node survivors.now) }
{
    let missing = missing_in(alloc, survivors, places)?;
    ascending(alloc, missing)
}

/// The names that are at no place, in the order of the survivors and of their names.
fn missing_in<T: Knot>(
    alloc: Global,
    survivors: &[T],
    places: &DigestTable,
) -> Result<Vec<[u8; 32]>, AllocError>
    ensures { IfOk result (λ missing. missing.items
        ≡ filter (λ d. is_none (number_at places.now d))
        (flat_map (λ e. (T.node e).names) survivors.now)) }
{
    let mut missing = Vec::new(alloc);
    for survivor in survivors {
        push_missing(&mut missing, survivor.names(), places)?;
    }
    Ok(missing)
}

/// Appends those of the names that are at no place.
fn push_missing(
    missing: &mut Vec<[u8; 32]>,
    names: &[[u8; 32]],
    places: &DigestTable,
) -> Result<(), AllocError>
    ensures { OnOk result (missing.new.items
        ≡ missing.old.items ++ filter (λ d. is_none (number_at places.now d)) names.now) }
{
    for name in names {
        if places.get(name).is_none() {
            missing.push(*name)?;
        }
    }
    Ok(())
}
