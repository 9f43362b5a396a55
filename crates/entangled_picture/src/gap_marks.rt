//! The marks of gaps, and the arrows to them.
ghost use Rattle.std.specs.Prelude.{◌≡◌, ◌++◌, ◌<◌, IfOk, OnOk, Some, length};
ghost use Rattle.entangled_picture.specs.Marks.{
  first_namer,
  gap_column,
  gap_of,
  gap_spot,
  gaps_of,
  loss_at,
  loss_in,
  losses_of,
};

use crate::drawn::first_ones;
use crate::marks::{number_at, spot_at};
use crate::placed::Placed;
use crate::shape::{Shape, Spot};
use crate::shape_list::push_some;
use entry_graph::Graph;
use entry_order::names_digest;
use precedence::Arrows;
use std::alloc::{AllocError, Global};

/// Of the arrows to a gap the first ones up to this number are drawn. An honest entry is named by
/// at most one other of each machine, until all have it.
const MOST_LOSSES: usize = 16;

/// The place of the first survivor that names the digest.
#[tactic(auto, using(crate::proofs::Grown::growing))]
fn first_namer(graph: &Graph, digest: &[u8; 32]) -> Option<usize>
    ensures { result ≡ first_namer graph.now.survivors digest.now }
{
    for i in 0..graph.count() {
        if names_digest(graph.node(i), digest) {
            return Some(i);
        }
    }
    None
}

/// The column of a gap: that of the first survivor that names it.
fn gap_column(placed: &[Placed], namer: Option<usize>) -> u32
    ensures { result ≡ gap_column placed.now namer }
{
    match namer {
        Some(place) => match spot_at(placed, place) {
            Some(at) => at.column,
            None => 0,
        },
        None => 0,
    }
}

/// The arrow from a spot to a gap.
fn loss_in(from: Option<Spot>, number: u32, to: Spot) -> Option<Shape>
    ensures { result ≡ loss_in from number to }
{
    match from {
        Some(from) => Some(Shape::Loss { from, number, to }),
        None => None,
    }
}

/// The arrow from the survivor at this place to the gap, if it names the gap.
fn loss_at(
    graph: &Graph,
    placed: &[Placed],
    digest: &[u8; 32],
    to: Spot,
    place: usize,
) -> Option<Shape>
    requires { place < length graph.now.survivors }
    ensures { result ≡ loss_at graph.now placed.now digest.now to place }
{
    if names_digest(graph.node(place), digest) {
        loss_in(spot_at(placed, place), number_at(placed, place), to)
    } else {
        None
    }
}

/// An arrow to the gap from each survivor that names it.
#[tactic(auto, using(crate::proofs::Grown::growing))]
fn losses_of(
    alloc: Global,
    graph: &Graph,
    placed: &[Placed],
    digest: &[u8; 32],
    to: Spot,
) -> Result<Vec<Shape>, AllocError>
    ensures { IfOk result (λ losses.
        losses.items ≡ losses_of graph.now placed.now digest.now to) }
{
    let mut losses = Vec::new(alloc);
    for i in 0..graph.count() {
        push_some(&mut losses, loss_at(graph, placed, digest, to, i))?;
    }
    Ok(losses)
}

/// The spot of a gap.
fn gap_spot(graph: &Graph, placed: &[Placed], lane: usize, level: usize, digest: &[u8; 32]) -> Spot
    ensures { result ≡ gap_spot graph.now placed.now lane level digest.now }
{
    Spot {
        column: gap_column(placed, first_namer(graph, digest)),
        lane,
        level,
    }
}

/// Adds the first arrows to a gap, and its mark.
fn add_gap(
    alloc: Global,
    shapes: &mut Vec<Shape>,
    graph: &Graph,
    placed: &[Placed],
    lane: usize,
    level: usize,
    digest: &[u8; 32],
) -> Result<(), AllocError>
    ensures { OnOk result (shapes.new.items
        ≡ shapes.old.items ++ gap_of graph.now placed.now lane level digest.now) }
{
    let at = gap_spot(graph, placed, lane, level, digest);
    let losses = losses_of(alloc, graph, placed, digest, at)?;
    shapes.extend_from_slice(first_ones(losses.as_slice(), MOST_LOSSES))?;
    shapes.push(Shape::Gap {
        at,
        digest: *digest,
    })?;
    Ok(())
}

/// Adds these gaps, in a lane of their own, one below another.
#[tactic(auto, using(crate::proofs::Grown::growing))]
pub(crate) fn add_gaps(
    alloc: Global,
    shapes: &mut Vec<Shape>,
    graph: &Graph,
    gaps: &[[u8; 32]],
    placed: &[Placed],
    lane: usize,
) -> Result<(), AllocError>
    ensures { OnOk result
        (shapes.new.items ≡ shapes.old.items ++ gaps_of graph.now gaps.now placed.now lane) }
{
    for level in 0..gaps.len() {
        add_gap(alloc, shapes, graph, placed, lane, level, &gaps[level])?;
    }
    Ok(())
}
