//! Lamport's logical clock.

ghost use Rattle.std.specs.Prelude.{◌≡◌};
ghost use Rattle.entry_order.specs.History.{greatest_stamp, held};

use entry_order::{Event, Knot};

// The greatest stamp, or 0 where there is no entry.
fn greatest_stamp<T: Knot>(entries: &[T]) -> u32
    ensures { result ≡ greatest_stamp T.node entries.now }
{
    entries.iter().fold(0, |top: u32, e| top.max(e.stamp()))
}

/// The logical clock of a machine with this history: the greatest stamp that it holds, or 0.
pub fn clock<T: Knot>(history: &[Event<T>]) -> u32
    ensures { result ≡ greatest_stamp T.node (held history.now) }
{
    greatest_stamp(history)
}
