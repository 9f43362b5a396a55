//! The links of a place, made row by row.
ghost use Rattle.std.specs.Prelude.{◌≡◌, ◌<◌, ◌≤◌, ◌++◌, [], ◌∷◌, map, IfOk, slice_set, vec_len};
ghost use Rattle.std.specs.Prelude.{slice_index_or};
ghost use Rattle.election_script.specs.Lawful.{max_link};
ghost use Rattle.roster.specs.Machines.{max_machines};
ghost use Rattle.floor_links.specs.Fresh.{AreNewLinks};
ghost use Rattle.floor_links.specs.inside.Growing.{IsRowBelow};

use crate::links::Links;
use crate::parcel::Broadcast;
use broadcast_queues::{Link, LinkIn, LinkOut};
use std::alloc::{AllocError, Global};

/// The links of a place, and their ends: those that put by senders, those that take by receivers.
pub struct NewLinks {
    pub links: Links,
    pub outs: Vec<Vec<LinkOut<Broadcast>>>,
    pub inns: Vec<Vec<LinkIn<Broadcast>>>,
}

/// Links from each of `count` machines to each, which hold at most `capacity` entries. All memory
/// that they need is taken here.
pub fn make_links(alloc: Global, count: usize, capacity: usize) -> Result<NewLinks, AllocError>
    requires few { count ≤ max_machines }
    requires capacity { (0 < capacity) × (capacity ≤ max_link) }
    ensures { IfOk result (λ new. AreNewLinks count capacity new.links
        (map (λ row. row.items) new.outs.items) (map (λ row. row.items) new.inns.items)) }
{
    let mut rows = Vec::new(alloc);
    let mut outs = Vec::new(alloc);
    let mut inns = Vec::new(alloc);
    for _to in 0..count {
        inns.push(Vec::new(alloc))?;
    }
    for from in 0..count {
        let (row, ends) = make_row(alloc, from as u32, capacity, &mut inns)?;
        rows.push(row)?;
        outs.push(ends)?;
    }
    Ok(NewLinks {
        links: Links::new(rows),
        outs,
        inns,
    })
}

// The links of one sender and their ends that put; those that take are added to `inns`.
fn make_row(
    alloc: Global,
    from: u32,
    capacity: usize,
    inns: &mut Vec<Vec<LinkIn<Broadcast>>>,
) -> Result<(Vec<Link<Broadcast>>, Vec<LinkOut<Broadcast>>), AllocError>
    requires capacity { (0 < capacity) × (capacity ≤ max_link) }
    ensures { IfOk result (λ r. IsRowBelow from capacity (vec_len inns.old) r.0.items r.1.items
        (map (λ row. row.items) inns.old.items) (map (λ row. row.items) inns.new.items)) }
{
    let count = inns.len();
    let mut row = Vec::new(alloc);
    let mut outs = Vec::new(alloc);
    for to in 0..count {
        let (link, out, inn) = Link::<Broadcast>::make(alloc, from, capacity)?;
        row.push(link)?;
        outs.push(out)?;
        push_at(inns, to, inn)?;
    }
    Ok((row, outs))
}

// Adds an end to one of the lists.
fn push_at(
    inns: &mut Vec<Vec<LinkIn<Broadcast>>>,
    to: usize,
    inn: LinkIn<Broadcast>,
) -> Result<(), AllocError>
    requires { to < vec_len inns.old }
    ensures { IfOk result (λ _. map (λ row. row.items) inns.new.items
        ≡ slice_set (map (λ row. row.items) inns.old.items) to
        (slice_index_or (map (λ row. row.items) inns.old.items) to [] ++ inn ∷ [])) }
{
    inns[to].push(inn)?;
    Ok(())
}
