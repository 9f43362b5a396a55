//! What a machine with a history holds and has sent.

ghost use Rattle.std.specs.Prelude.{◌≡◌, ◌≤◌, length, IfOk};
ghost use Rattle.entry_order.specs.Frontier.{frontier};
ghost use Rattle.entry_order.specs.History.{held, sent};
ghost use Rattle.entry_order.specs.Naming.{has_digest};

use crate::digests::frontier;
use entry_order::{Event, Knot, has_digest};
use std::alloc::{AllocError, Global};

/// Whether an entry with the digest is held.
pub fn holds<T: Knot>(history: &[Event<T>], digest: &[u8; 32]) -> bool
    ensures { result ≡ has_digest T.node (held history.now) digest.now }
{
    has_digest(history, digest)
}

/// The frontier of what is held.
pub fn held_frontier<T: Knot>(
    alloc: Global,
    history: &[Event<T>],
) -> Result<Vec<[u8; 32]>, AllocError>
    ensures { IfOk result (λ digests. digests.items ≡ frontier T.node (held history.now)) }
{
    frontier(alloc, history)
}

/// How many entries were sent.
pub fn sent_count<T>(history: &[Event<T>]) -> usize
    ensures count { result ≡ length (sent history.now) }
    ensures within { result ≤ length history.now }
{
    let mut count = 0;
    for event in history {
        if let Event::Sent(_) = event {
            count += 1;
        }
    }
    count
}
