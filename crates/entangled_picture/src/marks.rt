//! The marks of a graph: entries, arrows, forks, strays, and the lights of broken rules.
ghost use Rattle.std.specs.Prelude.{◌≡◌, ◌++◌, ◌<◌, IfOk, OnOk, find, length, slice_get};
ghost use Rattle.entangled_picture.specs.Marks.{
  arrow_at,
  arrow_between,
  arrows_from,
  arrows_of,
  entry_at,
  entry_in,
  entry_marks,
  fork_between,
  forks_of,
  is_of_fork,
  last_of_fork,
  later_spot,
  light_in,
  lights_by,
  lights_of,
  number_at,
  spot_at,
  spot_in,
  strays_of,
};

use crate::drawn::places_in;
use crate::placed::Placed;
use crate::seen::Seen;
use crate::shape::{Shape, Spot};
use crate::shape_list::push_some;
use entry_graph::Graph;
use precedence::Arrows;
use rule_engine::Verdict;
use std::alloc::{AllocError, Global};

/// The spot of the survivor at this place, if it is drawn.
pub(crate) fn spot_at(placed: &[Placed], place: usize) -> Option<Spot>
    ensures { result ≡ spot_at placed.now place }
{
    match placed.get(place) {
        Some(entry) => entry.at,
        None => None,
    }
}

/// Its number.
pub(crate) fn number_at(placed: &[Placed], place: usize) -> u32
    ensures { result ≡ number_at placed.now place }
{
    match placed.get(place) {
        Some(entry) => entry.seen.number,
        None => 0,
    }
}

/// The mark of the survivor at this place, if it is drawn.
fn entry_in(place: usize, at: Option<Spot>, seen: &Seen) -> Option<Shape>
    ensures { result ≡ entry_in place at seen.now }
{
    match at {
        Some(at) => Some(Shape::Entry {
            at,
            place,
            number: seen.number,
            deed: seen.deed,
            digest: seen.digest,
        }),
        None => None,
    }
}

/// The mark of the survivor at a place, if it is drawn.
fn entry_at(placed: &[Placed], place: usize) -> Option<Shape>
    ensures { result ≡ entry_at place (slice_get placed.now place) }
{
    match placed.get(place) {
        Some(entry) => entry_in(place, entry.at, &entry.seen),
        None => None,
    }
}

/// Adds a mark for each survivor that is drawn.
#[tactic(auto, using(crate::proofs::Grown::growing))]
pub(crate) fn add_entries(shapes: &mut Vec<Shape>, placed: &[Placed]) -> Result<(), AllocError>
    ensures { OnOk result (shapes.new.items ≡ shapes.old.items ++ entry_marks placed.now) }
{
    for place in 0..placed.len() {
        push_some(shapes, entry_at(placed, place))?;
    }
    Ok(())
}

/// The arrow between two spots.
fn arrow_between(from: Option<Spot>, number: u32, to: Option<Spot>, named: u32) -> Option<Shape>
    ensures { result ≡ arrow_between from number to named }
{
    match (from, to) {
        (Some(from), Some(to)) => Some(Shape::Arrow {
            from,
            number,
            to,
            named,
        }),
        _ => None,
    }
}

/// The arrow from the survivor at a place to the one at another, if both are drawn.
fn arrow_at(placed: &[Placed], place: usize, parent: usize) -> Option<Shape>
    ensures { result ≡ arrow_at placed.now place parent }
{
    arrow_between(
        spot_at(placed, place),
        number_at(placed, place),
        spot_at(placed, parent),
        number_at(placed, parent),
    )
}

/// Adds an arrow from the survivor at this place to each other one that it names.
fn add_arrows_from(
    shapes: &mut Vec<Shape>,
    graph: &Graph,
    placed: &[Placed],
    place: usize,
) -> Result<(), AllocError>
    requires { place < length graph.now.survivors }
    ensures { OnOk result
        (shapes.new.items ≡ shapes.old.items ++ arrows_from graph.now placed.now place) }
{
    let parents = graph.parents(place);
    for parent in parents {
        push_some(shapes, arrow_at(placed, place, *parent as usize))?;
    }
    Ok(())
}

/// An arrow for each pair of a survivor and another one that it names.
#[tactic(auto, using(crate::proofs::Grown::growing))]
pub(crate) fn arrows_of(
    alloc: Global,
    graph: &Graph,
    placed: &[Placed],
) -> Result<Vec<Shape>, AllocError>
    ensures { IfOk result (λ arrows. arrows.items ≡ arrows_of graph.now placed.now) }
{
    let mut arrows = Vec::new(alloc);
    for i in 0..graph.count() {
        add_arrows_from(&mut arrows, graph, placed, i)?;
    }
    Ok(arrows)
}

/// The light of a rule at a spot.
fn light_in(at: Option<Spot>, rule: usize) -> Option<Shape>
    ensures { result ≡ light_in at rule }
{
    match at {
        Some(at) => Some(Shape::Light { at, rule }),
        None => None,
    }
}

/// Adds a light for each survivor that the verdict on the rule names.
fn add_lights_by(
    shapes: &mut Vec<Shape>,
    placed: &[Placed],
    verdicts: &[Verdict],
    rule: usize,
) -> Result<(), AllocError>
    requires { rule < length verdicts.now }
    ensures { OnOk result
        (shapes.new.items ≡ shapes.old.items ++ lights_by placed.now verdicts.now rule) }
{
    let places = places_in(&verdicts[rule]);
    for place in places {
        push_some(shapes, light_in(spot_at(placed, *place as usize), rule))?;
    }
    Ok(())
}

/// Adds a light for each broken rule at each survivor that it names.
#[tactic(auto, using(crate::proofs::Grown::growing))]
pub(crate) fn add_lights(
    shapes: &mut Vec<Shape>,
    placed: &[Placed],
    verdicts: &[Verdict],
) -> Result<(), AllocError>
    ensures { OnOk result
        (shapes.new.items ≡ shapes.old.items ++ lights_of placed.now verdicts.now) }
{
    for rule in 0..verdicts.len() {
        add_lights_by(shapes, placed, verdicts, rule)?;
    }
    Ok(())
}

/// Whether the survivor is one of the fork.
fn is_of_fork(fork: (u32, u32), placed: &Placed) -> bool
    ensures { result ≡ is_of_fork fork placed.now }
{
    placed.seen.maker == fork.0 && placed.seen.number == fork.1
}

/// The spot of the survivor, if it is one of the fork, or else the one before.
fn later_spot(fork: (u32, u32), before: Option<Spot>, placed: &Placed) -> Option<Spot>
    ensures { result ≡ later_spot fork before placed.now }
{
    if is_of_fork(fork, placed) {
        placed.at
    } else {
        before
    }
}

/// The spot of the first entry of the fork.
#[tactic(auto, using(crate::proofs::Grown::growing))]
fn first_of_fork(placed: &[Placed], fork: (u32, u32)) -> Option<Spot>
    ensures { result ≡ spot_in (find (is_of_fork fork) placed.now) }
{
    for entry in placed {
        if is_of_fork(fork, entry) {
            return entry.at;
        }
    }
    None
}

/// The spot of the last one.
fn last_of_fork(placed: &[Placed], fork: (u32, u32)) -> Option<Spot>
    ensures { result ≡ last_of_fork fork placed.now }
{
    let mut last = None;
    for entry in placed {
        last = later_spot(fork, last, entry);
    }
    last
}

/// The mark of a fork from one spot to another.
fn fork_between(from: Option<Spot>, to: Option<Spot>, number: u32) -> Option<Shape>
    ensures { result ≡ fork_between from to number }
{
    match (from, to) {
        (Some(from), Some(to)) => Some(Shape::Fork { from, to, number }),
        _ => None,
    }
}

/// Adds a mark for each fork, from the first of its entries to the last.
pub(crate) fn add_forks(
    shapes: &mut Vec<Shape>,
    placed: &[Placed],
    forks: &[(u32, u32)],
) -> Result<(), AllocError>
    ensures { OnOk result (shapes.new.items ≡ shapes.old.items ++ forks_of placed.now forks.now) }
{
    for fork in forks {
        let first = first_of_fork(placed, *fork);
        let last = last_of_fork(placed, *fork);
        push_some(shapes, fork_between(first, last, fork.1))?;
    }
    Ok(())
}

/// Adds a mark for each stray, side by side.
#[tactic(auto, using(crate::proofs::Grown::growing))]
pub(crate) fn add_strays(
    shapes: &mut Vec<Shape>,
    strays: &[[u8; 32]],
    lane: usize,
) -> Result<(), AllocError>
    ensures { OnOk result (shapes.new.items ≡ shapes.old.items ++ strays_of strays.now lane) }
{
    let at = Spot {
        column: 0,
        lane,
        level: 0,
    };
    for order in 0..strays.len() {
        let digest = strays[order];
        shapes.push(Shape::Stray { at, order, digest })?;
    }
    Ok(())
}
