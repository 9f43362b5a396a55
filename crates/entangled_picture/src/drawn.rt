//! Which survivors are drawn one by one.
ghost use Rattle.std.specs.Prelude.{◌≡◌, ◌==◌, ◌<◌, IfOk, Some, length, slice_get, take};
ghost use Rattle.std.specs.List.{list_any};
ghost use Rattle.entangled_picture.specs.Places.{
  drawn_of,
  has_maker,
  is_drawn,
  is_forked,
  is_lit,
  matters_at,
  places_in,
};

use crate::seen::Seen;
use entry_graph::Graph;
use precedence::Arrows;
use rule_engine::Verdict;
use std::alloc::{AllocError, Global};

/// Up to this many survivors each is drawn, and of gaps, forks and strays the first ones up to this
/// number.
pub(crate) const MOST_DRAWN: usize = 300;

/// The first ones, up to this number.
#[tactic(auto, using(crate::proofs::Grown::growing))]
pub(crate) fn first_ones<T>(items: &[T], most: usize) -> &[T]
    ensures { result.now ≡ take most items.now }
{
    if items.len() <= most {
        items
    } else {
        &items[..most]
    }
}

/// Whether one of the entries has this maker.
fn has_maker(entries: &[Seen], maker: u32) -> bool
    ensures { result ≡ has_maker entries.now maker }
{
    entries.iter().any(|entry| entry.maker == maker)
}

/// Whether an entry of this maker and number is one of a fork.
fn is_forked(forks: &[(u32, u32)], maker: u32, number: u32) -> bool
    ensures { result ≡ is_forked forks.now maker number }
{
    forks.iter().any(|fork| fork.0 == maker && fork.1 == number)
}

/// The places of the survivors that a verdict names.
pub(crate) fn places_in(verdict: &Verdict) -> &[u32]
    ensures { result.now ≡ places_in (Some verdict.now) }
{
    match verdict {
        Verdict::Broken(places) => places.as_slice(),
        _ => &[],
    }
}

/// Whether this is one of the places.
fn has_place(places: &[u32], place: usize) -> bool
    ensures { result ≡ list_any (λ other. other == place) places.now }
{
    places.iter().any(|other| *other as usize == place)
}

/// Whether a broken rule names the survivor at this place.
fn is_lit(verdicts: &[Verdict], place: usize) -> bool
    ensures { result ≡ is_lit verdicts.now place }
{
    verdicts
        .iter()
        .any(|verdict| has_place(places_in(verdict), place))
}

/// Whether the survivor at this place is drawn whatever their number: the first or the last of its
/// maker, one that names a gap, one of a fork, or one that a broken rule names.
fn matters(graph: &Graph, verdicts: &[Verdict], seen: &[Seen], place: usize) -> bool
    requires within { place < length seen.now }
    requires one_each { length seen.now ≡ length graph.now.survivors }
    ensures { result ≡ matters_at graph.now verdicts.now seen.now place (slice_get seen.now place) }
{
    let entry = seen[place];
    !has_maker(&seen[..place], entry.maker)
        || !has_maker(&seen[place + 1..], entry.maker)
        || graph.ragged(place)
        || is_forked(
            first_ones(graph.forks(), MOST_DRAWN),
            entry.maker,
            entry.number,
        )
        || is_lit(verdicts, place)
}

/// Whether the survivor at this place is drawn.
fn is_drawn(graph: &Graph, verdicts: &[Verdict], seen: &[Seen], place: usize) -> bool
    requires within { place < length seen.now }
    requires one_each { length seen.now ≡ length graph.now.survivors }
    ensures { result ≡ is_drawn graph.now verdicts.now seen.now place }
{
    seen.len() <= MOST_DRAWN || matters(graph, verdicts, seen, place)
}

/// For each survivor, whether it is drawn.
#[tactic(auto, using(crate::proofs::Grown::growing))]
pub(crate) fn drawn_of(
    alloc: Global,
    graph: &Graph,
    verdicts: &[Verdict],
    seen: &[Seen],
) -> Result<Vec<bool>, AllocError>
    requires { length seen.now ≡ length graph.now.survivors }
    ensures { IfOk result (λ drawn. drawn.items ≡ drawn_of graph.now verdicts.now seen.now) }
{
    let mut drawn = Vec::new(alloc);
    for i in 0..seen.len() {
        drawn.push(is_drawn(graph, verdicts, seen, i))?;
    }
    Ok(drawn)
}
