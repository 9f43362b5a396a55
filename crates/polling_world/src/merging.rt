//! The events of all machines in one order.
ghost use Rattle.std.specs.Prelude.{◌≡◌, ◌≤◌, ◌<◌, ◌^◌, [], ◌++◌, length, map, IfOk};
ghost use Rattle.entry_format.specs.Nodes.{node_of_sealed};
ghost use Rattle.entry_order.specs.Merged.{kind, step_of};
ghost use Rattle.polling_world.specs.Merging.{IsMerged};
ghost use Rattle.polling_world.specs.Worlds.{world_of};
ghost use Rattle.polling_world.specs.inside.Ranked.{AreRanked, ranked_steps};

use crate::machine::{Machine, Memory};
use entangled_log::Event;
use entry_format::Sealed;
use entry_order::{Knot, Step};
use std::alloc::Global;

// The step that makes an event, with what events are sorted by, in this order: the machine's
// logical clock after it, 0 where it was sent and 1 where it was got, the machine, and its place in
// the machine's history.
#[derive(Drop)]
pub(crate) struct RankedStep {
    pub(crate) rank: [usize; 4],
    pub(crate) step: Step,
}

/// All events of the machines in one order, as the steps that make them. They are sorted by
/// Lamport's total order (1978): by the greatest stamp that the machine held after the event, then
/// sent before got, then machine, then place in the machine's history.
pub fn merge(alloc: Global, machines: &[Machine]) -> Result<Vec<Step>, Memory>
    requires { length machines.now ≤ 2 ^ 32 }
    ensures { IfOk result (λ steps. IsMerged machines.now steps.items) }
{
    let mut ranked = rank_all(alloc, machines)?;
    ranked.sort_unstable_by_key(
        |one|
            ensures { result ≡ one.now.rank }
        { one.rank },
    );
    steps_of(alloc, &ranked)
}

// The steps of all machines' events, with their ranks.
fn rank_all(alloc: Global, machines: &[Machine]) -> Result<Vec<RankedStep>, Memory>
    requires { length machines.now ≤ 2 ^ 32 }
    ensures { IfOk result (λ ranked.
        AreRanked node_of_sealed (world_of machines.now) ranked.items) }
{
    let mut ranked = Vec::new(alloc);
    for (at, machine) in machines.iter().enumerate() {
        rank_events(&mut ranked, at, machine.log().events())?;
    }
    Ok(ranked)
}

// Puts the steps of one machine's events after the others.
fn rank_events(
    ranked: &mut Vec<RankedStep>,
    machine: usize,
    events: &[Event<Sealed>],
) -> Result<(), Memory>
    requires { machine < 2 ^ 32 }
    ensures { IfOk result (λ _. ranked.new.items
        ≡ ranked.old.items ++ ranked_steps node_of_sealed machine [] events.now) }
{
    let mut clock = 0;
    for (place, event) in events.iter().enumerate() {
        clock = clock.max(event.stamp());
        ranked.push(RankedStep {
            rank: [clock as usize, kind_of(event), machine, place],
            step: step_of(machine as u32, event),
        })?;
    }
    Ok(())
}

// 0 where the entry was sent, and 1 where it was got.
fn kind_of(event: &Event<Sealed>) -> usize
    ensures { result ≡ kind event.now }
{
    match event {
        Event::Sent(_) => 0,
        Event::Got(_) => 1,
    }
}

// The step that makes the event at the machine.
fn step_of(machine: u32, event: &Event<Sealed>) -> Step
    ensures { result ≡ step_of node_of_sealed machine event.now }
{
    match event {
        Event::Sent(_) => Step::Act(machine),
        Event::Got(entry) => Step::Hear {
            at: machine,
            from: entry.maker(),
            number: entry.number(),
        },
    }
}

// The steps without their ranks.
fn steps_of(alloc: Global, ranked: &[RankedStep]) -> Result<Vec<Step>, Memory>
    ensures { IfOk result (λ steps. steps.items ≡ map (λ r. r.step) ranked.now) }
{
    let mut steps = Vec::with_capacity(alloc, ranked.len())?;
    for one in ranked {
        steps.push(one.step)?;
    }
    Ok(steps)
}
