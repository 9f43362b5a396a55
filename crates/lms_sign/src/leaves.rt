//! Leaves of trees, made one after another or in threads.
ghost use Rattle.std.specs.Prelude.{◌≡◌, ◌+◌, ◌^◌, ◌<◌, ◌≤◌, IfOk, length, vec_len};
ghost use Rattle.lms_ots.specs.Checkpoints.{checkpoint_count};
ghost use Rattle.lms_sign.specs.Height.{IsHeight};
ghost use Rattle.lms_sign.specs.inside.Leaves.{AreBlank, AreLeaves, IsLeaf};

use crate::nodes::{leaf, leaf_count};
use lms_ots::{OtsKind, ots_public_into};
use std::alloc::{AllocError, Global};
use std::thread::Threads;
use ways_of_work::{Alone, InThreads, Work, each_in_threads, each_in_turn};

/// A leaf of a tree: its value, and the checkpoints of its one-time key.
#[derive(Drop)]
pub struct Leaf {
    pub(crate) value: [u8; 32],
    pub(crate) checkpoints: Vec<[u8; 32]>,
}

// Room for the leaves of a tree.
pub(crate) fn blank_leaves(
    alloc: Global,
    kind: OtsKind,
    height: u32,
) -> Result<Vec<Leaf>, AllocError>
    requires { IsHeight height }
    ensures count { IfOk result (λ leaves. vec_len leaves ≡ 2 ^ height) }
    ensures room { IfOk result (λ leaves. AreBlank kind leaves.items) }
{
    let mut leaves = Vec::new(alloc);
    'leaves: for _ in 0..leaf_count(height) {
        let checkpoints = vec![in alloc; [0; 32]; kind.checkpoint_count()]?;
        leaves.push(Leaf {
            value: [0; 32],
            checkpoints,
        })?;
    }
    Ok(leaves)
}

/// A way to work by which trees get their leaves.
pub trait LeafWork: Work {
    /// Makes all leaves of a tree.
    fn make_leaves(
        &self,
        alloc: Global,
        kind: OtsKind,
        height: u32,
        id: &[u8; 16],
        seed: &[u8; 32],
        leaves: &mut [Leaf],
    )
        requires shared { Self.may_share self.now }
        requires height { IsHeight height }
        requires count { length leaves.old ≡ 2 ^ height }
        requires room { AreBlank kind leaves.old }
        ensures { AreLeaves kind height id.now seed.now leaves.new };
}

impl LeafWork for Alone {
    fn make_leaves(
        &self,
        _alloc: Global,
        kind: OtsKind,
        height: u32,
        id: &[u8; 16],
        seed: &[u8; 32],
        leaves: &mut [Leaf],
    ) {
        each_in_turn(
            leaves,
            &|q: usize, leaf: &mut Leaf|
                requires { IsHeight height × (q < 2 ^ height)
                    × (vec_len leaf.now.checkpoints ≤ checkpoint_count kind) }
                ensures { IsLeaf kind height id.entry.now seed.entry.now q leaf.exit.now }
            { make_leaf(kind, height, id, seed, q, leaf) },
        );
    }
}

impl<R: Threads + Sync> LeafWork for InThreads<'_, R> {
    fn make_leaves(
        &self,
        alloc: Global,
        kind: OtsKind,
        height: u32,
        id: &[u8; 16],
        seed: &[u8; 32],
        leaves: &mut [Leaf],
    ) {
        each_in_threads(
            self.rt,
            alloc,
            leaves,
            &|q: usize, leaf: &mut Leaf|
                requires { IsHeight height × (q < 2 ^ height)
                    × (vec_len leaf.now.checkpoints ≤ checkpoint_count kind) }
                ensures { IsLeaf kind height id.entry.now seed.entry.now q leaf.exit.now }
            { make_leaf(kind, height, id, seed, q, leaf) },
        );
    }
}

// Makes leaf `q`.
fn make_leaf(kind: OtsKind, height: u32, id: &[u8; 16], seed: &[u8; 32], q: usize, room: &mut Leaf)
    requires height { IsHeight height }
    requires index { q < 2 ^ height }
    requires room { vec_len room.old.checkpoints ≤ checkpoint_count kind }
    ensures { IsLeaf kind height id.now seed.now q room.new }
{
    let count = leaf_count(height);
    let q = q as u32;
    let key = ots_public_into(room.checkpoints.as_mut_slice(), kind, id, q, seed);
    room.value = leaf(id, count + q, &key);
}
