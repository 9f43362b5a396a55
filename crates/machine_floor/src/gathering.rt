//! What threads leave: the stations are taken apart and the links finished.
ghost use Rattle.std.specs.Prelude.{◌≡◌, ◌++◌, IfOk, map};
ghost use Rattle.election_script.specs.declared.script.Script.{Script};
ghost use Rattle.finished_floor.specs.Floors.{AreGathered};
ghost use Rattle.machine_floor.specs.Fresh.{AreNewStations};
ghost use Rattle.machine_floor.specs.Stations.{made_of};
ghost use Rattle.machine_floor.specs.inside.Gathering.{AreParts, by_of};
ghost use Rattle.polling_world.specs.Keys.{roster_of};

use crate::finishing::finish_links;
use crate::station::Station;
use broadcast_queues::{LinkIn, LinkOut};
use finished_floor::{Gathered, Loss};
use floor_links::{Broadcast, Links};
use log_lock::Tick;
use polling_world::{Machine, Memory};
use roster::Roster;
use std::alloc::Global;
use std::sync::Wait;

/// The stations in parts, each list in their order.
struct AllParts {
    machines: Vec<Machine>,
    outs: Vec<Vec<LinkOut<Broadcast>>>,
    inns: Vec<Vec<LinkIn<Broadcast>>>,
    losses: Vec<Loss>,
    by: Vec<Vec<Option<u32>>>,
}

/// Takes the stations apart and finishes the links between them: the machines in their order, what
/// nobody took, all losses, and who did each event. It may wait.
pub(crate) fn gather<R: Wait>(
    rt: &R,
    alloc: Global,
    roster: Roster,
    links: Links,
    stations: Vec<Station>,
) -> Result<Gathered, Memory>
    requires { (script : Script) × AreNewStations script links (map made_of stations.items) }
    ensures { IfOk result (λ g. (script : Script) → roster.machines ≡ roster_of script →
        AreNewStations script links (map made_of stations.items) →
        AreGathered script g.roster.machines g.machines.items g.waits.items g.losses.items
        (map (λ row. row.items) g.by.items)) }
{
    let AllParts {
        machines,
        outs,
        inns,
        losses,
        by,
    } = take_apart(alloc, stations)?;
    let waits = finish_links(rt, alloc, links, outs, inns)?;
    Ok(Gathered {
        roster,
        machines,
        waits,
        losses,
        by,
    })
}

// Takes the stations apart.
fn take_apart(alloc: Global, stations: Vec<Station>) -> Result<AllParts, Memory>
    ensures { IfOk result (λ all. AreParts stations.items all.machines.items
        (map (λ row. row.items) all.outs.items) (map (λ row. row.items) all.inns.items)
        all.losses.items (map (λ row. row.items) all.by.items)) }
{
    let mut machines = Vec::new(alloc);
    let mut outs = Vec::new(alloc);
    let mut inns = Vec::new(alloc);
    let mut losses = Vec::new(alloc);
    let mut by = Vec::new(alloc);
    for station in stations {
        let parts = station.into_parts();
        machines.push(parts.machine)?;
        outs.push(parts.outs)?;
        inns.push(parts.inns)?;
        add_all(&mut losses, parts.losses)?;
        by.push(passes_of(alloc, parts.ticks)?)?;
    }
    Ok(AllParts {
        machines,
        outs,
        inns,
        losses,
        by,
    })
}

// Adds a station's losses to those of others.
fn add_all(losses: &mut Vec<Loss>, more: Vec<Loss>) -> Result<(), Memory>
    ensures { IfOk result (λ _. losses.new.items ≡ losses.old.items ++ more.items) }
{
    for loss in more {
        losses.push(loss)?;
    }
    Ok(())
}

// The pass that did each event.
fn passes_of(alloc: Global, ticks: Vec<Tick>) -> Result<Vec<Option<u32>>, Memory>
    ensures { IfOk result (λ by. by.items ≡ by_of ticks.items) }
{
    let mut by = Vec::new(alloc);
    for tick in ticks {
        by.push(Some(tick.pass))?;
    }
    Ok(by)
}
