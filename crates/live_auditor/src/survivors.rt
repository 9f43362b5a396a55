//! What is kept of the survivors, beside what is said of them.
ghost use Rattle.std.specs.Prelude.{◌≡◌, ◌<◌, ◌≤◌, ◌++◌, ◌∷◌, [], length, map, slice_get};
ghost use Rattle.std.specs.Prelude.{IfOk, OnOk, Some};
ghost use Rattle.entry_format.specs.SealedEntry.{SealedEntry};
ghost use Rattle.entry_graph.specs.EntryGraph.{parents_of};
ghost use Rattle.entry_order.specs.Ancestors.{Descends};
ghost use Rattle.live_auditor.specs.inside.Grown.{kept_with};
ghost use Rattle.live_auditor.specs.inside.Kept.{link_to};
ghost use Rattle.live_auditor.specs.inside.KeptOf.{kept_of};

use crate::borrowed::Borrowed;
use entry_graph::Graph;
use entry_order::Knot;
use precedence::Arrows;
use rule_language::Row;
use std::alloc::{AllocError, Global};
use std::marker::Model;
use std::rc::Rc;

/// Which survivors one names, by their numbers, and whether it names a gap too.
#[derive(Drop)]
struct Named {
    parents: Vec<u32>,
    ragged: bool,
}

/// What a survivor names. Others may share it, so that its copies take no memory.
#[derive(Drop)]
pub(crate) struct Link {
    named: Rc<Named>,
}

impl Model for Link {
    ghost use Rattle.entry_graph.specs.EntryGraph.{Links};

    ghost Value = { Links };

    ghost view = { λ link. record {
      parents = link.named.value.parents.items;
      ragged = link.named.value.ragged;
    } };
}

impl Link {
    /// The link to these parents.
    fn new(alloc: Global, parents: Vec<u32>, ragged: bool) -> Result<Link, AllocError>
        ensures { IfOk result (λ link. link ≡ record { parents = parents.items; ragged = ragged }) }
    {
        let named = Rc::new(alloc, Named { parents, ragged })?;
        Ok(Link { named })
    }

    /// The same link.
    fn again(&self) -> Result<Link, AllocError>
        ensures { IfOk result (λ link. link ≡ self.now) }
    {
        let named = self.named.clone()?;
        Ok(Link { named })
    }

    /// The survivors that it leads to.
    fn parents(&self) -> &[u32]
        ensures { result.now ≡ self.now.parents }
    {
        &self.named.parents
    }

    /// Whether it leads to a gap too.
    fn ragged(&self) -> bool
        ensures { result ≡ self.now.ragged }
    {
        self.named.ragged
    }

    /// The link of what names these survivors, and these digests that none of them has.
    pub(crate) fn to(
        alloc: Global,
        parents: Vec<u32>,
        missing: &[[u8; 32]],
    ) -> Result<Link, AllocError>
        ensures { IfOk result (λ link. link ≡ link_to parents.items missing.now) }
    {
        Link::new(alloc, parents, !missing.is_empty())
    }
}

/// The survivors in order: the digest, the row and the links of each.
#[derive(Drop)]
pub(crate) struct Survivors {
    pub(crate) digests: Vec<[u8; 32]>,
    pub(crate) rows: Vec<Row>,
    pub(crate) links: Vec<Link>,
}

impl Survivors {
    /// The survivors of the graph, which have these rows.
    pub(crate) fn of_graph(
        alloc: Global,
        graph: &Graph<Borrowed<'_>>,
        rows: Vec<Row>,
    ) -> Result<Survivors, AllocError>
        requires { length graph.now.links ≡ length graph.now.survivors }
        ensures digests { IfOk result (λ kept.
            kept.digests.items ≡ map (λ (e : SealedEntry). e.digest) graph.now.survivors) }
        ensures rows { IfOk result (λ kept. kept.rows.items ≡ rows.items) }
        ensures links { IfOk result (λ kept. kept.links.items ≡ graph.now.links) }
    {
        Ok(Survivors {
            digests: digests_of(alloc, graph)?,
            rows,
            links: links_of(alloc, graph)?,
        })
    }

    /// The same survivors.
    pub(crate) fn copy(&self, alloc: Global) -> Result<Survivors, AllocError>
        ensures { IfOk result (λ copy. kept_of copy ≡ kept_of self.now) }
    {
        Ok(Survivors {
            digests: Vec::from_slice(alloc, &self.digests)?,
            rows: Vec::from_slice(alloc, &self.rows)?,
            links: copies_of(alloc, &self.links)?,
        })
    }

    /// Puts one with this digest, row and link after the others.
    pub(crate) fn add(&mut self, digest: [u8; 32], row: Row, link: Link) -> Result<(), AllocError>
        ensures { OnOk result (kept_of self.new
            ≡ kept_with (kept_of self.old) digest (self.old.rows.items ++ row ∷ []) link) }
    {
        self.digests.push(digest)?;
        self.rows.push(row)?;
        self.links.push(link)?;
        Ok(())
    }
}

/// The digests of the survivors.
fn digests_of(alloc: Global, graph: &Graph<Borrowed<'_>>) -> Result<Vec<[u8; 32]>, AllocError>
    ensures { IfOk result (λ digests.
        digests.items ≡ map (λ (e : SealedEntry). e.digest) graph.now.survivors) }
{
    let mut digests = Vec::with_capacity(alloc, graph.count())?;
    for i in 0..graph.count() {
        digests.push(*graph.node(i).digest())?;
    }
    Ok(digests)
}

/// The links of the survivors.
fn links_of(alloc: Global, graph: &Graph<Borrowed<'_>>) -> Result<Vec<Link>, AllocError>
    requires { length graph.now.links ≡ length graph.now.survivors }
    ensures { IfOk result (λ links. links.items ≡ graph.now.links) }
{
    let mut links = Vec::with_capacity(alloc, graph.count())?;
    for i in 0..graph.count() {
        let parents = Vec::from_slice(alloc, graph.parents(i))?;
        links.push(Link::new(alloc, parents, graph.ragged(i))?)?;
    }
    Ok(links)
}

/// Copies of the links.
fn copies_of(alloc: Global, links: &[Link]) -> Result<Vec<Link>, AllocError>
    ensures { IfOk result (λ copies. copies.items ≡ links.now) }
{
    let mut copies = Vec::with_capacity(alloc, links.len())?;
    for link in links {
        copies.push(link.again()?)?;
    }
    Ok(copies)
}

/// The graph of survivors with these links.
#[derive(Drop)]
pub(crate) struct Grown<'a> {
    links: &'a [Link],
}

impl<'a> Model for Grown<'a> {
    ghost use Rattle.std.specs.Prelude.{◌≤◌, List, length};
    ghost use Rattle.entry_graph.specs.EntryGraph.{Links, parents_of};
    ghost use Rattle.entry_order.specs.Ancestors.{Descends};

    ghost Value = { List Links };

    ghost view = { λ g. g.links.now };

    ghost invariant = { λ g. Descends (parents_of g.links.now) × (length g.links.now ≤ 16384) };
}

impl<'a> Grown<'a> {
    /// The graph of survivors with these links.
    pub(crate) fn over(links: &'a [Link]) -> Grown<'a>
        requires falls { Descends (parents_of links.now) }
        requires few { length links.now ≤ 16384 }
        ensures { result ≡ links.now }
    {
        Grown { links }
    }

    /// The link of a survivor.
    fn link(&self, node: usize) -> &Link
        requires { node < length self.now }
        ensures value { slice_get self.now node ≡ Some result.now }
        ensures falls { Descends (parents_of self.now) }
    {
        link_at(self.links, node)
    }
}

/// The link at a place.
fn link_at(links: &[Link], place: usize) -> &Link
    requires { place < length links.now }
    ensures { slice_get links.now place ≡ Some result.now }
{
    &links[place]
}

impl<'a> Arrows for Grown<'a> {
    ghost use Rattle.live_auditor.specs.inside.Kept.{nodes_by};

    ghost graph = { nodes_by };

    fn count(&self) -> usize {
        self.links.len()
    }

    fn parents(&self, node: usize) -> &[u32] {
        self.link(node).parents()
    }

    fn ragged(&self, node: usize) -> bool {
        self.link(node).ragged()
    }
}
