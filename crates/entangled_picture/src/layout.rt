//! Where columns, lanes and levels are in a picture, in its units.
ghost use Rattle.std.specs.Prelude.{◌≡◌, ◌+◌, ◌<◌, ◌^◌, IfOk};
ghost use Rattle.entangled_picture.specs.Layout.{
  foot_of,
  grown_height,
  lane_height,
  right_of,
  top_of,
  tops_of,
  width_of,
  x_after,
  x_of,
  x_of_gap,
  y_of,
};

use crate::shape::{Shape, Spot};
use std::alloc::{AllocError, Global};

/// How far right a spot is.
pub(crate) fn x_of(at: Spot) -> u128
    ensures value { result ≡ x_of at }
    ensures fits { result < 2 ^ 100 }
{
    220 + 36 * u128::from(at.column)
}

/// How far right a mark is after a spot, with this number of marks between.
pub(crate) fn x_after(at: Spot, order: usize) -> u128
    ensures value { result ≡ x_after at order }
    ensures fits { result < 2 ^ 100 }
{
    x_of(at) + 24 * (order as u128 + 1)
}

/// How far right a gap is: half a column before the entries of its column.
pub(crate) fn x_of_gap(at: Spot) -> u128
    ensures value { result ≡ x_of_gap at }
    ensures fits { result < 2 ^ 100 }
{
    x_of(at) - 18
}

/// The right end of a shape.
fn right_of(shape: &Shape) -> u128
    ensures value { result ≡ right_of shape.now }
    ensures fits { result < 2 ^ 100 }
{
    match *shape {
        Shape::Lane { end, .. } => x_of(end),
        Shape::Log { end, .. } => x_of(end),
        Shape::Arrow { from, .. } => x_of(from),
        Shape::Bar { to, .. } => x_of(to),
        Shape::Light { at, .. } => x_of(at),
        Shape::Entry { at, .. } => x_of(at),
        Shape::Gap { at, .. } => x_of(at),
        Shape::Loss { from, .. } => x_of(from),
        Shape::Fork { to, .. } => x_of(to),
        Shape::Stray { at, order, .. } => x_after(at, order),
        Shape::Refused { at, order, .. } => x_after(at, order),
        Shape::Ending { at, order, .. } => x_after(at, order),
        Shape::Break { at, order, .. } => x_after(at, order),
    }
}

/// The spot of a shape that is furthest down.
fn foot_of(shape: &Shape) -> Spot
    ensures { result ≡ foot_of shape.now }
{
    match *shape {
        Shape::Lane { end, .. } => end,
        Shape::Log { end, .. } => end,
        Shape::Arrow { from, .. } => from,
        Shape::Bar { to, .. } => to,
        Shape::Light { at, .. } => at,
        Shape::Entry { at, .. } => at,
        Shape::Gap { at, .. } => at,
        Shape::Loss { to, .. } => to,
        Shape::Fork { from, .. } => from,
        Shape::Stray { at, .. } => at,
        Shape::Refused { at, .. } => at,
        Shape::Ending { at, .. } => at,
        Shape::Break { at, .. } => at,
    }
}

/// The height of a lane with this height and a shape more.
fn grown_height(lane: usize, height: u128, shape: &Shape) -> u128
    requires { height < 2 ^ 100 }
    ensures value { result ≡ grown_height lane height shape.now }
    ensures fits { result < 2 ^ 100 }
{
    let foot = foot_of(shape);
    if foot.lane == lane {
        u128::max(height, 32 + 64 * (foot.level as u128 + 1))
    } else {
        height
    }
}

/// The height of a lane: there is room for each level that a shape of it has.
fn lane_height(shapes: &[Shape], lane: usize) -> u128
    ensures value { result ≡ lane_height shapes.now lane }
    ensures fits { result < 2 ^ 100 }
{
    let mut height = 0;
    for shape in shapes {
        height = grown_height(lane, height, shape);
    }
    height
}

/// What is below a lane with this top and this height. More than a `u64` holds is more shapes than
/// memory has.
fn below(top: u64, height: u128) -> Result<u64, AllocError>
    requires { height < 2 ^ 100 }
    ensures { IfOk result (λ next. next ≡ top + height) }
{
    let next = u128::from(top) + height;
    match u64::try_from(next) {
        Ok(next) => Ok(next),
        Err(_) => Err(AllocError),
    }
}

/// How far down the line of each lane is, and how high a picture with these lanes is.
#[tactic(auto, using(crate::proofs::Grown::growing))]
pub(crate) fn tops_of(
    alloc: Global,
    shapes: &[Shape],
    lanes: usize,
) -> Result<(Vec<u64>, u64), AllocError>
    ensures tops { IfOk result (λ made. made.0.items ≡ tops_of shapes.now lanes) }
    ensures end { IfOk result (λ made. made.1 ≡ top_of shapes.now lanes) }
{
    let mut tops = Vec::new(alloc);
    let mut top = 268;
    for lane in 0..lanes {
        tops.push(top)?;
        top = below(top, lane_height(shapes, lane))?;
    }
    Ok((tops, top))
}

/// How far down a spot is.
pub(crate) fn y_of(tops: &[u64], at: Spot) -> u128
    ensures value { result ≡ y_of tops.now at }
    ensures fits { result < 2 ^ 100 }
{
    let top = match tops.get(at.lane) {
        Some(top) => *top,
        None => 0,
    };
    u128::from(top) + 64 * at.level as u128
}

/// How wide a picture is: there is room for the legend, and for the words at the last shape.
pub(crate) fn width_of(shapes: &[Shape]) -> u128
    ensures { result ≡ width_of shapes.now }
{
    let mut width = 400;
    for shape in shapes {
        width = u128::max(width, right_of(shape));
    }
    width + 130
}
