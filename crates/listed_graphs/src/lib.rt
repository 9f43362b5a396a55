//! Graphs whose nodes list their parents: for tests, comparisons and measurements of orders.
#![tactic(auto)]

ghost use Rattle.std.specs.Prelude.{◌≡◌, ◌<◌, [], if◌then◌else◌, nat_lt};
ghost use Rattle.std.specs.List.{All, list_all};

use precedence::Arrows;
use std::marker::Model;

/// What a node lists as its parents.
#[derive(Drop)]
pub struct Listed {
    pub parents: Vec<u32>,
}

impl Model for Listed {
    ghost use Rattle.std.specs.Prelude.{ℕ, List};

    ghost Value = { List ℕ };

    ghost view = { λ node. node.parents.items };
}

/// A graph as a list of nodes, and for each whether it is ragged; by default it isn't.
/// A node that lists one that isn't below it has no parents.
#[derive(Drop)]
pub struct ListedGraph {
    pub nodes: Vec<Listed>,
    pub ragged: Vec<bool>,
}

impl Arrows for ListedGraph {
    ghost use Rattle.std.specs.Prelude.{[], false, vec_len, slice_index_or};
    ghost use Rattle.std.specs.Prelude.{nat_lt, if◌then◌else◌};
    ghost use Rattle.std.specs.List.{list_all};

    ghost graph = { λ g. record {
      count = vec_len g.nodes;
      parents = λ i.
          if list_all (λ p. nat_lt p i) (slice_index_or g.nodes.items i [])
          then slice_index_or g.nodes.items i [] else [];
      ragged = λ i. slice_index_or g.ragged.items i false;
    } };

    fn count(&self) -> usize {
        self.nodes.len()
    }

    fn parents(&self, node: usize) -> &[u32] {
        those_below(&self.nodes[node].parents, node)
    }

    fn ragged(&self, node: usize) -> bool {
        match self.ragged.get(node) {
            Some(is_ragged) => *is_ragged,
            None => false,
        }
    }
}

/// The parents, where each is below the node.
pub fn those_below(parents: &[u32], node: usize) -> &[u32]
    ensures are { result.now
        ≡ (if list_all (λ p. nat_lt p node) parents.now then parents.now else []) }
    ensures below { All (λ p. p < node) result.now }
{
    if are_below(parents, node) {
        parents
    } else {
        &[]
    }
}

fn are_below(parents: &[u32], node: usize) -> bool
    ensures { result ≡ list_all (λ p. nat_lt p node) parents.now }
{
    parents.iter().all(|parent| (*parent as usize) < node)
}
