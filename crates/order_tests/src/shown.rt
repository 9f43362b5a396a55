//! Entries that are what they show of others.
use entry_order::Knot;
use std::alloc::{AllocError, Global};

/// An entry with what it shows of others.
#[derive(Drop)]
pub(crate) struct Shown {
    pub digest: [u8; 32],
    pub names: Vec<[u8; 32]>,
    pub maker: u32,
    pub number: u32,
    pub stamp: u32,
}

impl Knot for Shown {
    ghost use Rattle.entry_order.specs.Node.{Node};

    ghost node = { λ e. record {
      digest = e.digest;
      names = e.names.items;
      maker = e.maker;
      number = e.number;
      stamp = e.stamp;
    } };

    fn digest(&self) -> &[u8; 32] {
        &self.digest
    }

    fn names(&self) -> &[[u8; 32]] {
        &self.names
    }

    fn maker(&self) -> u32 {
        self.maker
    }

    fn number(&self) -> u32 {
        self.number
    }

    fn stamp(&self) -> u32 {
        self.stamp
    }
}

/// An entry with this digest that names others, the first of a machine.
pub(crate) fn naming(
    alloc: Global,
    digest: [u8; 32],
    names: &[[u8; 32]],
) -> Result<Shown, AllocError> {
    Ok(Shown {
        digest,
        names: Vec::from_slice(alloc, names)?,
        maker: 0,
        number: 0,
        stamp: 1,
    })
}
