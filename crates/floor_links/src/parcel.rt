//! What the links carry.
ghost use Rattle.std.specs.Prelude.{◌≡◌, ◌<◌};
ghost use Rattle.election_script.specs.Lawful.{max_actions};

use broadcast_queues::Parcel;
use entry_format::Sealed;
use entry_order::Knot;
use std::marker::Model;

/// An entry on its way to a machine. Contracts see the entry. Its type keeps that the entry's
/// number is below 4,096, so that few entries go over a link.
#[derive(Drop)]
pub struct Broadcast {
    sealed: Sealed,
}

impl Model for Broadcast {
    ghost use Rattle.std.specs.Prelude.{◌<◌};
    ghost use Rattle.entry_format.specs.SealedEntry.{SealedEntry};
    ghost use Rattle.election_script.specs.Lawful.{max_actions};

    ghost Value = { SealedEntry };

    ghost view = { λ b. b.sealed };

    ghost invariant = { λ b. b.sealed.entry.number < max_actions };
}

impl Broadcast {
    /// The entry, to be sent.
    pub fn new(sealed: Sealed) -> Broadcast
        requires { sealed.entry.number < max_actions }
        ensures { result ≡ sealed }
    {
        Broadcast { sealed }
    }

    /// The entry that was sent.
    pub fn open(self) -> Sealed
        ensures value { result ≡ self }
        ensures small { self.entry.number < max_actions }
    {
        let Broadcast { sealed } = self;
        sealed
    }
}

impl Parcel for Broadcast {
    ghost from = { λ b. b.entry.maker };

    ghost number = { λ b. b.entry.number };

    fn from(&self) -> u32 {
        self.sealed.maker()
    }

    fn number(&self) -> u32 {
        self.sealed.number()
    }
}
