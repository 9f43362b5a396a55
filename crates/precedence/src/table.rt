//! The answers for every two nodes.

ghost use Rattle.std.specs.Prelude.{◌≡◌, ◌<◌, ◌≤◌, ◌&&◌, not, length, slice_index_or, false, IfOk};
ghost use Rattle.std.specs.List.{All, list_all};
ghost use Rattle.precedence.specs.Known.{IsKnownOf, known_before, known_count, known_whole};

use crate::arrows::Arrows;
use crate::bits::has_bit;
use crate::building::{Row, row_of};
use entry_order::Three;
use std::alloc::{AllocError, Global};
use std::marker::Model;

/// An allocation failed.
pub type Memory = AllocError;

/// For each two nodes of a graph, whether one is before the other, as far as it is known. A node
/// takes one bit for each node below it, and a flag that says whether it is whole.
#[derive(Drop)]
pub struct Rows {
    rows: Vec<Row>,
    whole: Vec<bool>,
}

impl Model for Rows {
    ghost use Rattle.std.specs.Prelude.{◌≡◌, ◌≤◌, vec_len};
    ghost use Rattle.precedence.specs.Known.{Known};

    ghost Value = { Known };

    ghost view = { λ r. record { rows = r.rows.items; whole = r.whole.items } };

    ghost invariant = { λ r. (vec_len r.whole ≡ vec_len r.rows) × (vec_len r.rows ≤ 16384) };
}

impl Rows {
    /// The answers for the nodes of this graph, in one pass over it. For 16,384 nodes they take
    /// about 17 megabytes.
    pub fn make<A: Arrows>(alloc: Global, arrows: &A) -> Result<Rows, Memory>
        requires { (A.graph arrows.now).count ≤ 16384 }
        ensures { IfOk result (IsKnownOf (A.graph arrows.now)) }
    {
        let count = arrows.count();
        let mut rows = Vec::with_capacity(alloc, count)?;
        let mut whole = Vec::with_capacity(alloc, count)?;
        for node in 0..count {
            let parents = arrows.parents(node);
            let is_whole = is_whole(&whole, arrows.ragged(node), parents);
            let row = row_of(alloc, &rows, parents)?;
            rows.push_reserved(row);
            whole.push_reserved(is_whole);
        }
        Ok(Rows { rows, whole })
    }

    /// How many nodes there are.
    pub fn count(&self) -> usize
        ensures count { result ≡ known_count self.now }
        ensures few { result ≤ 16384 }
    {
        self.rows.len()
    }

    /// Whether the node `y` is before the node `x`: true where arrows lead from `x` to `y`, else
    /// false where `x` is whole, and else unknown.
    pub fn before(&self, y: usize, x: usize) -> Three
        requires { x < known_count self.now }
        ensures { result ≡ known_before self.now y x }
    {
        if has_bit(self.rows[x].words(), y) {
            Three::True
        } else if self.whole[x] {
            Three::False
        } else {
            Three::Unknown
        }
    }

    /// Whether neither the node nor an ancestor of it is ragged.
    pub fn whole(&self, x: usize) -> bool
        requires { x < known_count self.now }
        ensures { result ≡ known_whole self.now x }
    {
        self.whole[x]
    }
}

// Whether a node is whole, by whether it is ragged and by those before it.
fn is_whole(whole: &[bool], ragged: bool, parents: &[u32]) -> bool
    requires { All (λ parent. parent < length whole.now) parents.now }
    ensures { result ≡ (not ragged
        && list_all (λ parent. slice_index_or whole.now parent false) parents.now) }
{
    !ragged && are_whole(whole, parents)
}

// Whether each of these nodes is whole.
fn are_whole(whole: &[bool], nodes: &[u32]) -> bool
    requires { All (λ node. node < length whole.now) nodes.now }
    ensures { result ≡ list_all (λ node. slice_index_or whole.now node false) nodes.now }
{
    for node in nodes {
        if !whole[*node as usize] {
            return false;
        }
    }
    true
}
