//! What an entry shows of the other entries.

ghost use Rattle.std.specs.Prelude.{◌≡◌};
ghost use Rattle.entry_order.specs.Node.{Node};

use crate::Event;

/// An entry that a log can hold: it has a digest and names the digests of others.
pub trait Knot {
    /// What the entry shows.
    ghost node: { Self → Node };

    /// The 32 bytes by which others name it.
    fn digest(&self) -> &[u8; 32]
        ensures { result.now ≡ (node self.now).digest };

    /// The digests that it names.
    fn names(&self) -> &[[u8; 32]]
        ensures { result.now ≡ (node self.now).names };

    /// The machine that made it.
    fn maker(&self) -> u32
        ensures { result ≡ (node self.now).maker };

    /// How many entries its maker had sent before.
    fn number(&self) -> u32
        ensures { result ≡ (node self.now).number };

    /// One more than the greatest stamp that its maker held.
    fn stamp(&self) -> u32
        ensures { result ≡ (node self.now).stamp };
}

impl<T: Knot> Knot for Event<T> {
    ghost use Rattle.entry_order.specs.History.{entry_of};

    ghost node = { λ x. T.node (entry_of x) };

    fn digest(&self) -> &[u8; 32] {
        match self {
            Event::Sent(entry) => entry.digest(),
            Event::Got(entry) => entry.digest(),
        }
    }

    fn names(&self) -> &[[u8; 32]] {
        match self {
            Event::Sent(entry) => entry.names(),
            Event::Got(entry) => entry.names(),
        }
    }

    fn maker(&self) -> u32 {
        match self {
            Event::Sent(entry) => entry.maker(),
            Event::Got(entry) => entry.maker(),
        }
    }

    fn number(&self) -> u32 {
        match self {
            Event::Sent(entry) => entry.number(),
            Event::Got(entry) => entry.number(),
        }
    }

    fn stamp(&self) -> u32 {
        match self {
            Event::Sent(entry) => entry.stamp(),
            Event::Got(entry) => entry.stamp(),
        }
    }
}
