//! Links are finished, and what nobody took waits.
ghost use Rattle.std.specs.Prelude.{◌≡◌, ◌≢◌, ◌<◌, ◌≤◌, ◌++◌, [], IfOk, length, map};
ghost use Rattle.std.specs.Prelude.{slice_index_or, vec_len};
ghost use Rattle.roster.specs.Machines.{max_machines};
ghost use Rattle.broadcast_queues.specs.Ends.{IsInOf, IsOutOf};
ghost use Rattle.machine_floor.specs.inside.Gathering.{AreEndsOf, AreMadeBy, ArePopped, AreRests};
ghost use Rattle.machine_floor.specs.inside.Gathering.{IsRest, IsRowFinished, IsRowOfEnds, waiting};

use broadcast_queues::{Finished, Link, LinkIn, LinkOut};
use finished_floor::Waiting;
use floor_links::{Broadcast, Links};
use polling_world::Memory;
use std::alloc::Global;
use std::sync::Wait;

/// Finishes all links, and gives what nobody took. The ends that put are by senders, and those
/// that take by receivers. It may wait.
pub(crate) fn finish_links<R: Wait>(
    rt: &R,
    alloc: Global,
    links: Links,
    mut outs: Vec<Vec<LinkOut<Broadcast>>>,
    mut inns: Vec<Vec<LinkIn<Broadcast>>>,
) -> Result<Vec<Waiting>, Memory>
    requires { AreEndsOf links (map (λ row. row.items) outs.items)
        (map (λ row. row.items) inns.items) }
    ensures { IfOk result (λ waits. AreRests (length links)
        (map (λ row. row.items) outs.items) (map (λ row. row.items) inns.items) waits.items) }
{
    let mut rows = links.into_rows();
    let mut waits = Vec::new(alloc);
    while let Some(row) = rows.pop() {
        let Some(ends) = outs.pop() else {
            unreachable!();
        };
        finish_row(rt, rows.len(), row, ends, &mut inns, &mut waits)?;
    }
    Ok(waits)
}

// Finishes the links of machine `from`, the last whose ends that take are left.
fn finish_row<R: Wait>(
    rt: &R,
    from: usize,
    row: Vec<Link<Broadcast>>,
    outs: Vec<LinkOut<Broadcast>>,
    inns: &mut Vec<Vec<LinkIn<Broadcast>>>,
    waits: &mut Vec<Waiting>,
) -> Result<(), Memory>
    requires few { vec_len inns.old ≤ max_machines }
    requires ends { IsRowOfEnds from row.items outs.items (map (λ row. row.items) inns.old.items) }
    ensures { IfOk result (λ _. IsRowFinished from outs.items
        (map (λ row. row.items) inns.old.items) (map (λ row. row.items) inns.new.items)
        waits.old.items waits.new.items) }
{
    let count = inns.len();
    let mut row = row.into_iter();
    let mut outs = outs.into_iter();
    for to in 0..count {
        let Some(link) = row.next() else {
            unreachable!();
        };
        let Some(out) = outs.next() else {
            unreachable!();
        };
        let inn = pop_at(inns, to);
        finish_one(rt, from, to, link, out, inn, waits)?;
    }
    Ok(())
}

// Takes the last end of one of the lists.
fn pop_at(inns: &mut Vec<Vec<LinkIn<Broadcast>>>, at: usize) -> LinkIn<Broadcast>
    requires at { at < vec_len inns.old }
    requires some { 0 < length (slice_index_or (map (λ row. row.items) inns.old.items) at []) }
    ensures { ArePopped at result (map (λ row. row.items) inns.old.items)
        (map (λ row. row.items) inns.new.items) }
{
    let Some(inn) = inns[at].pop() else {
        unreachable!();
    };
    inn
}

// Finishes the link from machine `from` to machine `to`, and adds what nobody took to what waits.
// The one from a machine to itself carries nothing.
fn finish_one<R: Wait>(
    rt: &R,
    from: usize,
    to: usize,
    link: Link<Broadcast>,
    out: LinkOut<Broadcast>,
    inn: LinkIn<Broadcast>,
    waits: &mut Vec<Waiting>,
) -> Result<(), Memory>
    requires small { to ≤ max_machines }
    requires out { IsOutOf link out }
    requires inn { IsInOf link inn }
    requires makers { from ≢ to → AreMadeBy from out.put }
    ensures { IfOk result (λ _. IsRest from to out.put inn.taken waits.old.items waits.new.items) }
{
    if from != to {
        add_rest(link.finish(rt, out, inn), to as u32, waits)?;
    }
    Ok(())
}

// Adds the rest of a finished link to what waits.
fn add_rest(mut rest: Finished<Broadcast>, to: u32, waits: &mut Vec<Waiting>) -> Result<(), Memory>
    ensures { IfOk result (λ _. waits.new.items ≡ waits.old.items ++ map (waiting to) rest) }
{
    while let Some(parcel) = rest.next() {
        let entry = parcel.open();
        waits.push(Waiting { to, entry })?;
    }
    Ok(())
}
