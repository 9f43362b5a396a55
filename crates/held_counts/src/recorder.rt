//! Machines with histories.

ghost use Rattle.std.specs.Prelude.{◌≡◌};
ghost use Rattle.entry_order.specs.World.{Machine};

use entry_order::{Event, Knot};

/// A machine that records what it sends and gets.
pub trait Recorder {
    /// What is sent and got.
    type Entry: Knot;

    /// The machine's history, and whether it has stopped.
    ghost machine: { Self → Machine Self.Entry };

    /// The events so far.
    fn events(&self) -> &[Event<Self::Entry>]
        ensures { result.now ≡ (machine self.now).history };
}
