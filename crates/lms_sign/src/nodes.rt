//! Nodes of trees.
ghost use Rattle.std.specs.Prelude.{◌≡◌, ◌+◌, ◌*◌, ◌/◌, ◌^◌, ◌<◌, ◌≤◌, [], IfOk, length};
ghost use Rattle.std.specs.Prelude.{slice_index_or};
ghost use Rattle.std.specs.List.{flat_map, range_with_len};
ghost use Rattle.lms_sign.specs.Height.{IsHeight};
ghost use Rattle.lms_sign.specs.Tree.{interior, leaf, sibling};
ghost use Rattle.lms_sign.specs.Signs.{parent};
ghost use Rattle.lms_sign.specs.inside.Leaves.{AreLeaves};
ghost use Rattle.lms_sign.specs.inside.Nodes.{HoldsFrom, HoldsTree};

use crate::leaves::Leaf;
use lms_ots::{OtsKind, hasher, write_at};
use sha2::Digest;
use std::alloc::{AllocError, Global};

// The domain separation of leaves and of interior nodes (RFC 8554, 5.3).
const D_LEAF: u16 = 0x8282;

const D_INTR: u16 = 0x8383;

// All nodes of a tree, by their numbers. Node 0 is none.
pub(crate) fn nodes_of(
    alloc: Global,
    kind: OtsKind,
    height: u32,
    id: &[u8; 16],
    seed: &[u8; 32],
    leaves: &[Leaf],
) -> Result<Vec<[u8; 32]>, AllocError>
    requires height { IsHeight height }
    requires leaves { AreLeaves kind height id.now seed.now leaves.now }
    ensures { IfOk result (λ nodes. HoldsTree kind height id.now seed.now nodes.items) }
{
    let count = leaf_count(height) as usize;
    let mut nodes = vec![in alloc; [0; 32]; 2 * count]?;
    fill_leaves(kind, height, id, seed, leaves, nodes.as_mut_slice());
    fill_parents(kind, height, id, seed, nodes.as_mut_slice());
    Ok(nodes)
}

// The number of leaves, which is that of the first leaf too.
pub(crate) fn leaf_count(height: u32) -> u32
    requires { IsHeight height }
    ensures value { result ≡ 2 ^ height }
    ensures most { result ≤ 1024 }
{
    1 << height
}

// The leaves. Only the contract needs kind, identifier and seed.
fn fill_leaves(
    kind: OtsKind,
    height: u32,
    id: &[u8; 16],
    seed: &[u8; 32],
    leaves: &[Leaf],
    nodes: &mut [[u8; 32]],
)
    requires height { IsHeight height }
    requires leaves { AreLeaves kind height id.now seed.now leaves.now }
    requires count { length nodes.old ≡ 2 * 2 ^ height }
    ensures { HoldsFrom kind height id.now seed.now (2 ^ height) nodes.new }
{
    let count = leaf_count(height);
    'leaves: for q in 0..count {
        nodes[(count + q) as usize] = leaves[q as usize].value;
    }
}

// The interior nodes, from the last to the root. Only the contract needs kind and seed.
fn fill_parents(kind: OtsKind, height: u32, id: &[u8; 16], seed: &[u8; 32], nodes: &mut [[u8; 32]])
    requires height { IsHeight height }
    requires count { length nodes.old ≡ 2 * 2 ^ height }
    requires leaves { HoldsFrom kind height id.now seed.now (2 ^ height) nodes.old }
    ensures { HoldsFrom kind height id.now seed.now 1 nodes.new }
{
    let count = leaf_count(height);
    'parents: for done in 1..count {
        let r = count - done;
        let left = nodes[2 * r as usize];
        let right = nodes[2 * r as usize + 1];
        nodes[r as usize] = interior(id, r, &left, &right);
    }
}

// Fills `path` with the siblings of the nodes above leaf `q`.
pub(crate) fn write_path(path: &mut [u8], nodes: &[[u8; 32]], height: u32, q: u32)
    requires height { IsHeight height }
    requires count { length nodes.now ≡ 2 * 2 ^ height }
    requires index { q < 2 ^ height }
    requires room { length path.old ≡ 32 * height }
    ensures { path.new ≡ flat_map (λ i. slice_index_or nodes.now (sibling height q i) [])
        (range_with_len 0 height) }
{
    let mut node = (leaf_count(height) + q) as usize;
    'levels: for level in 0..height as usize {
        write_at(path, 32 * level, &nodes[node ^ 1]);
        node /= 2;
    }
}

#[tactic(auto, unfolding(crate::specs::Tree::leaf))]
pub(crate) fn leaf(id: &[u8; 16], r: u32, key: &[u8; 32]) -> [u8; 32]
    ensures { result ≡ leaf id.now r key.now }
{
    let mut hasher = hasher(id, r, D_LEAF);
    hasher.update(key);
    hasher.finalize()
}

#[tactic(auto, unfolding(crate::specs::Tree::interior))]
fn interior(id: &[u8; 16], r: u32, left: &[u8; 32], right: &[u8; 32]) -> [u8; 32]
    ensures { result ≡ interior id.now r left.now right.now }
{
    let mut hasher = hasher(id, r, D_INTR);
    hasher.update(left);
    hasher.update(right);
    hasher.finalize()
}

// The value of the parent of node `r`.
pub(crate) fn parent(id: &[u8; 16], r: u32, beside: &[u8; 32], here: &[u8; 32]) -> [u8; 32]
    ensures { result ≡ parent id.now r beside.now here.now }
{
    if r % 2 == 0 {
        interior(id, r / 2, here, beside)
    } else {
        interior(id, r / 2, beside, here)
    }
}
