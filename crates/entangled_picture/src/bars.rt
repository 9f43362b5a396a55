//! Bars: the entries of a lane that aren't drawn one by one.
ghost use Rattle.std.specs.Prelude.{◌≡◌, ◌++◌, ◌≤◌, ◌<◌, OnOk, Some, length, slice_get};
ghost use Rattle.entangled_picture.specs.Marks.{bar_of, bar_to, bars_of, met, passed_at};
ghost use Rattle.entangled_picture.specs.Marks.{run_before};

use crate::placed::Placed;
use crate::shape::{Shape, Spot};
use crate::shape_list::push_some;
use std::alloc::AllocError;

/// The spot of the entry, if it is of this maker and is drawn.
fn met(maker: u32, placed: &Placed) -> Option<Spot>
    ensures { result ≡ met maker (Some placed.now) }
{
    if placed.seen.maker == maker {
        placed.at
    } else {
        None
    }
}

/// 1 for an entry of this maker that isn't drawn, or else 0.
fn passed_at(maker: u32, placed: &Placed) -> usize
    ensures value { result ≡ passed_at maker (Some placed.now) }
    ensures at_most { result ≤ 1 }
{
    if placed.seen.maker == maker && !placed.at.is_some() {
        1
    } else {
        0
    }
}

/// Going back from this place: the spot of the next entry of the maker that is drawn, and how many
/// that aren't are passed on the way.
#[tactic(auto, using(crate::proofs::Grown::growing))]
fn run_before(placed: &[Placed], place: usize, maker: u32) -> Option<(Spot, usize)>
    requires { place ≤ length placed.now }
    ensures { result ≡ run_before placed.now maker place 0 }
{
    let mut passed = 0;
    let mut at = place;
    'back: while at > 0 {
        at -= 1;
        let other = placed[at];
        if let Some(spot) = met(maker, &other) {
            return Some((spot, passed));
        }
        passed += passed_at(maker, &other);
    }
    None
}

/// The bar from a spot to the next one, if there are entries between them.
fn bar_of(run: Option<(Spot, usize)>, to: Spot) -> Option<Shape>
    ensures { result ≡ bar_of run to }
{
    match run {
        Some((from, entries)) if entries > 0 => Some(Shape::Bar { from, to, entries }),
        _ => None,
    }
}

/// The bar that ends at this place, if there is one.
fn bar_to(placed: &[Placed], place: usize) -> Option<Shape>
    requires { place < length placed.now }
    ensures { result ≡ bar_to placed.now place (slice_get placed.now place) }
{
    match placed[place].at {
        Some(to) => bar_of(run_before(placed, place, placed[place].seen.maker), to),
        None => None,
    }
}

/// Adds all bars.
#[tactic(auto, using(crate::proofs::Grown::growing))]
pub(crate) fn add_bars(shapes: &mut Vec<Shape>, placed: &[Placed]) -> Result<(), AllocError>
    ensures { OnOk result (shapes.new.items ≡ shapes.old.items ++ bars_of placed.now) }
{
    for i in 0..placed.len() {
        push_some(shapes, bar_to(placed, i))?;
    }
    Ok(())
}
