//! The graph of the entries that are given.
ghost use Rattle.std.specs.Prelude.{◌≡◌, ◌<◌, Some, length, slice_get};
ghost use Rattle.entry_graph.specs.Answers.{IsGraphAnswer};
ghost use Rattle.entry_graph.specs.EntryGraph.{IsEntryGraph};

use crate::distinct::distinct_of;
use crate::fault::GraphFault;
use crate::forks::forks_of;
use crate::gaps::gaps_by;
use crate::links::{Links, links_of, places_of};
use crate::numbering::number;
use crate::signed_text::SignedText;
use crate::strays::sift;
use entry_format::Sealed;
use log_frontier::DigestList;
use precedence::Arrows;
use std::alloc::Global;
use std::marker::Model;

/// The greatest number of distinct entries.
const MOST_ENTRIES: usize = 16_384;

/// The survivors of the entries that were given, numbered by stamp and then digest from 0, with
/// what each names, the gaps, the strays that were set aside, and the forks.
#[derive(Drop)]
pub struct Graph<T: SignedText = Sealed> {
    survivors: Vec<T>,
    links: Vec<Links>,
    gaps: DigestList,
    strays: Vec<[u8; 32]>,
    forks: Vec<(u32, u32)>,
}

impl<T: SignedText> Model for Graph<T> {
    ghost use Rattle.entry_graph.specs.EntryGraph.{EntryGraph, IsEntryGraph};

    ghost Value = { EntryGraph T };

    ghost view = { λ g. record {
      survivors = g.survivors.items;
      links = g.links.items;
      gaps = g.gaps;
      strays = g.strays.items;
      forks = g.forks.items;
    } };

    ghost invariant = { λ g. IsEntryGraph T.node (record {
      survivors = g.survivors.items;
      links = g.links.items;
      gaps = g.gaps;
      strays = g.strays.items;
      forks = g.forks.items;
    }) };
}

impl<T: SignedText + Drop> Graph<T> {
    /// The graph of the entries. Equal entries count once, strays are judged over all of them, and
    /// none is copied. It takes time for n entries and names as sorting them, n log n.
    ///
    /// # Errors
    ///
    /// `Collision`, then `TooMany`, or `Memory`.
    pub fn make(alloc: Global, entries: Vec<T>) -> Result<Graph<T>, GraphFault<T>>
        ensures { IsGraphAnswer T.node T.text entries.items result }
    {
        let distinct = distinct_of(alloc, entries)?;
        if distinct.len() > MOST_ENTRIES {
            return Err(GraphFault::TooMany);
        }
        let sifted = sift(alloc, distinct)?;
        let strays = sifted.strays;
        let mut survivors = sifted.survivors;
        number(&mut survivors);
        let places = places_of(alloc, &survivors)?;
        let links = links_of(alloc, &survivors, &places)?;
        let gaps = gaps_by(alloc, &survivors, &places)?;
        let forks = forks_of(alloc, &survivors)?;
        Ok(Graph {
            survivors,
            links,
            gaps,
            strays,
            forks,
        })
    }

    /// The digests that a survivor names and none has, ascending.
    pub fn gaps(&self) -> &[[u8; 32]]
        ensures value { result.now ≡ self.now.gaps }
        ensures kept { IsEntryGraph T.node self.now }
    {
        self.gaps.as_slice()
    }

    /// The digests of the entries that were set aside, ascending.
    pub fn strays(&self) -> &[[u8; 32]]
        ensures value { result.now ≡ self.now.strays }
        ensures kept { IsEntryGraph T.node self.now }
    {
        &self.strays
    }

    /// Each maker and number of two or more survivors, ascending.
    pub fn forks(&self) -> &[(u32, u32)]
        ensures value { result.now ≡ self.now.forks }
        ensures kept { IsEntryGraph T.node self.now }
    {
        &self.forks
    }

    /// The survivor with this number.
    pub fn node(&self, i: usize) -> &T
        requires { i < length self.now.survivors }
        ensures value { slice_get self.now.survivors i ≡ Some result.now }
        ensures kept { IsEntryGraph T.node self.now }
    {
        &self.survivors[i]
    }
}

impl<T: SignedText> Arrows for Graph<T> {
    ghost use Rattle.std.specs.Prelude.{length};
    ghost use Rattle.entry_graph.specs.EntryGraph.{parents_of, ragged_of};

    ghost graph = { λ g. record {
      count = length g.survivors;
      parents = parents_of g.links;
      ragged = ragged_of g.links;
    } };

    fn count(&self) -> usize {
        self.survivors.len()
    }

    fn parents(&self, node: usize) -> &[u32] {
        self.links[node].parents()
    }

    fn ragged(&self, node: usize) -> bool {
        self.links[node].ragged()
    }
}
