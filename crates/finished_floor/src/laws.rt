//! The law of losses, the contract of a function with an empty body.
ghost use Rattle.finished_floor.specs.Laws.{EachIsHeardOrLost};

use entry_order::Knot;

/// Where nothing waits, each entry was heard by each other machine or is lost on its way there,
/// and not both.
pub fn each_is_heard_or_lost<T: Knot>()
    ensures { EachIsHeardOrLost T.node }
{}
