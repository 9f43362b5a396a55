//! Whether an entry was held before another was sent.

ghost use Rattle.std.specs.Prelude.{◌<◌, ◌↔◌, IfOk, IsTrue, length};
ghost use Rattle.held_counts.specs.Places.{IsSentAt};
ghost use Rattle.entry_order.specs.HeldBefore.{HeldBefore};
ghost use Rattle.entry_order.specs.Receipt.{IsOrderly};

use crate::machine::{Process, Sender};
use std::alloc::{AllocError, Global};

/// Whether the second's maker held the first or a descendant of it when it sent the second. Each is
/// named by its machine and its number, both counted from 0.
pub fn held_before<T: Sender>(
    alloc: Global,
    machines: &[Process<T>],
    first: (usize, usize),
    second: (usize, usize),
) -> Result<bool, AllocError>
    requires first_in { first.0 < length machines.now }
    requires second_in { second.0 < length machines.now }
    requires orderly { IsOrderly T.node machines.now }
    ensures { IfOk result (λ yes. (f e : T) →
        IsSentAt machines.now first.0 first.1 f → IsSentAt machines.now second.0 second.1 e →
        IsTrue yes ↔ HeldBefore machines.now f e) }
{
    held_counts::held_before(alloc, machines, first, second)
}
