//! The entries of a small world.

ghost use Rattle.std.specs.Prelude.{◌≡◌, ◌<◌};
ghost use Rattle.world_orders.specs.Numbered.{numbered_digest, may_send};

use entry_order::{Event, Knot};
use small_worlds::{Sender, clock, held_frontier, holds, sent_count};
use std::alloc::{AllocError, Global};
use std::marker::Model;

/// How many events a log has at most.
pub const LOG: usize = 64;

/// An entry that has its maker and its number as its digest.
#[derive(Drop)]
pub struct Entry {
    pub digest: [u8; 32],
    pub names: Vec<[u8; 32]>,
    pub maker: u32,
    pub number: u32,
    pub stamp: u32,
}

impl Model for Entry {
    ghost use Rattle.entry_order.specs.Node.{Node};

    ghost Value = { Node };

    ghost view = { λ e. record {
      digest = e.digest;
      names = e.names.items;
      maker = e.maker;
      number = e.number;
      stamp = e.stamp;
    } };
}

impl Knot for Entry {
    ghost use Rattle.world_orders.specs.Numbered.{shown_itself};

    ghost node = { shown_itself };

    fn digest(&self) -> &[u8; 32] {
        &self.digest
    }

    fn names(&self) -> &[[u8; 32]] {
        &self.names
    }

    fn maker(&self) -> u32 {
        self.maker
    }

    fn number(&self) -> u32 {
        self.number
    }

    fn stamp(&self) -> u32 {
        self.stamp
    }
}

/// The digest of a machine's entry with this number.
pub fn digest_of(maker: u8, number: u8) -> [u8; 32]
    ensures { result ≡ numbered_digest maker number }
{
    let mut digest = [0; 32];
    digest[0] = maker;
    digest[1] = number;
    digest
}

// Whether the machine may send after the history.
fn may_send(machine: usize, history: &[Event<Entry>]) -> bool
    ensures { result ≡ may_send machine history.now }
{
    let fits = machine < 256 && sent_count(history) < 256;
    fits && clock(history) < 1000 && history.len() < LOG
}

impl Sender for Entry {
    ghost use Rattle.world_orders.specs.Numbered.{next_numbered, next_is_lawful};

    ghost next = { next_numbered };

    ghost lawful = { next_is_lawful };

    fn copy(&self, alloc: Global) -> Result<Self, AllocError> {
        let names = Vec::from_slice(alloc, &self.names)?;
        Ok(Entry {
            digest: self.digest,
            names,
            maker: self.maker,
            number: self.number,
            stamp: self.stamp,
        })
    }

    fn make_next(
        alloc: Global,
        machine: usize,
        history: &[Event<Self>],
    ) -> Result<Option<Self>, AllocError> {
        if !may_send(machine, history) {
            return Ok(None);
        }
        let number = sent_count(history);
        let digest = digest_of(machine as u8, number as u8);
        if holds(history, &digest) {
            return Ok(None);
        }
        let names = held_frontier(alloc, history)?;
        Ok(Some(Entry {
            digest,
            names,
            maker: machine as u32,
            number: number as u32,
            stamp: clock(history) + 1,
        }))
    }
}
