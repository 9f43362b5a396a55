//! What each survivor names.
ghost use Rattle.std.specs.Prelude.{◌≡◌, ◌<◌, ◌≤◌, ◌^◌, ℕ, IfOk, List, Some, length};
ghost use Rattle.std.specs.List.{AllPairs};
ghost use Rattle.entry_graph.specs.EntryGraph.{AreLinks, IsLower, links_by};
ghost use Rattle.entry_graph.specs.inside.Tables.{ArePlaces, number_at};
ghost use Rattle.entry_graph.specs.inside.Distinct.{HasNoDigestTwice, NamesLower};

use crate::digest_table::DigestTable;
use entry_order::Knot;
use std::alloc::{AllocError, Global};
use std::marker::Model;

/// What a survivor names: which survivors, by their numbers, and whether a gap too.
#[derive(Drop)]
pub struct Links {
    parents: Vec<u32>,
    ragged: bool,
}

impl Model for Links {
    ghost use Rattle.entry_graph.specs.EntryGraph.{Links};

    ghost Value = { Links };

    ghost view = { λ links. record { parents = links.parents.items; ragged = links.ragged } };
}

impl Links {
    /// The numbers of the survivors that it names.
    pub fn parents(&self) -> &[u32]
        ensures { result.now ≡ self.now.parents }
    {
        &self.parents
    }

    /// Whether it names a gap.
    pub fn ragged(&self) -> bool
        ensures { result ≡ self.now.ragged }
    {
        self.ragged
    }
}

/// What each of these survivors names, which are at these places.
pub fn links_of<T: Knot>(
    alloc: Global,
    survivors: &[T],
    places: &DigestTable,
) -> Result<Vec<Links>, AllocError>
    requires places { ArePlaces T.node survivors.now places.now }
    requires distinct { HasNoDigestTwice T.node survivors.now }
    requires few { length survivors.now ≤ 16384 }
    requires numbered { AllPairs (IsLower T.node) survivors.now }
    requires falling { NamesLower T.node survivors.now }
    ensures { IfOk result (λ links. AreLinks T.node survivors.now links.items) }
{
    let mut links = Vec::with_capacity(alloc, survivors.len())?;
    for survivor in survivors {
        links.push(links_at(alloc, survivor.names(), places)?)?;
    }
    Ok(links)
}

/// The place of each survivor at its digest.
pub fn places_of<T: Knot>(alloc: Global, survivors: &[T]) -> Result<DigestTable, AllocError>
    ensures { IfOk result (ArePlaces T.node survivors.now) }
{
    let mut places = DigestTable::new(alloc);
    for (place, survivor) in survivors.iter().enumerate() {
        places.set(survivor.digest(), place)?;
    }
    Ok(places)
}

/// What these names link to.
fn links_at(alloc: Global, names: &[[u8; 32]], places: &DigestTable) -> Result<Links, AllocError>
    requires { (d : List ℕ) (p : ℕ) → number_at places.now d ≡ Some p → p < 2 ^ 32 }
    ensures { IfOk result (λ links. links ≡ links_by (number_at places.now) names.now) }
{
    let mut parents = Vec::new(alloc);
    let mut ragged = false;
    for name in names {
        match places.get(name) {
            Some(place) => parents.push(place as u32)?,
            None => ragged = true,
        }
    }
    Ok(Links { parents, ragged })
}
