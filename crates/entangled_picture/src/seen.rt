//! What a picture shows of survivors.
ghost use Rattle.std.specs.Prelude.{◌≡◌, IfOk, map};
ghost use Rattle.entangled_picture.specs.Places.{seen_of};

use entry_format::{Deed, Sealed};
use entry_graph::Graph;
use precedence::Arrows;
use std::alloc::{AllocError, Global};

/// What a picture shows of a survivor.
#[derive(Clone, Copy)]
pub(crate) struct Seen {
    pub maker: u32,
    pub number: u32,
    pub stamp: u32,
    pub deed: Deed,
    pub digest: [u8; 32],
}

/// What a picture shows of an entry.
fn seen_of(sealed: &Sealed) -> Seen
    ensures { result ≡ seen_of sealed.now }
{
    let entry = sealed.entry();
    Seen {
        maker: entry.maker,
        number: entry.number,
        stamp: entry.stamp,
        deed: entry.deed,
        digest: *sealed.digest(),
    }
}

/// What it shows of all survivors.
#[tactic(auto, using(crate::proofs::Grown::growing))]
pub(crate) fn all_seen(alloc: Global, graph: &Graph) -> Result<Vec<Seen>, AllocError>
    ensures { IfOk result (λ seen. seen.items ≡ map seen_of graph.now.survivors) }
{
    let mut seen = Vec::new(alloc);
    for i in 0..graph.count() {
        seen.push(seen_of(graph.node(i)))?;
    }
    Ok(seen)
}
