//! A run of a script in threads.
ghost use Rattle.std.specs.Prelude.{◌≡◌, ◌*◌, ◌+◌, IfOk, length, map};
ghost use Rattle.std.specs.List.{flat_map};
ghost use Rattle.election_script.specs.Lawful.{IsLawful};
ghost use Rattle.finished_floor.specs.Floors.{AreBy, ArePlayedAgain, IsFloorOf};

use crate::gathering::gather;
use crate::making::{Prepared, prepare};
use crate::work::work_all;
use election_script::Script;
use finished_floor::{Floor, finish_floor};
use hall_outside::Gate;
use polling_world::{Memory, keys_by};
use std::alloc::Global;
use std::sync::Wait;
use std::thread::Threads;
use ways_of_work::InThreads;

/// Plays the script on its machines in threads, a hand and an ear for each, each turn of which
/// passes the gate. What they leave is then done on this thread, until nothing more can be done. It
/// may wait.
pub fn run_floor<R: Threads + Wait + Sync, G: Gate + Sync>(
    rt: &R,
    alloc: Global,
    script: &Script,
    gate: &G,
) -> Result<Floor, Memory>
    requires { IsLawful script.now }
    ensures floor { IfOk result (λ floor. IsFloorOf script.now floor.roster.machines
        floor.machines.items floor.losses.items) }
    ensures played { IfOk result (λ floor. ArePlayedAgain script.now floor.machines.items) }
    ensures by { IfOk result (λ floor. AreBy floor.machines.items
        (map (λ row. row.items) floor.by.items)) }
{
    let Prepared {
        roster,
        stations,
        links,
    } = prepare(alloc, script, keys_by(&InThreads { rt }, alloc, script)?)?;
    let stations = work_all(rt, alloc, gate, &links, turns_of(script), stations)?;
    let gathered = gather(rt, alloc, roster, links, stations)?;
    finish_floor(alloc, script, gathered)
}

// How many turns each worker has at most: 64 for each action of the script, and 64 more.
fn turns_of(script: &Script) -> u32
    requires { IsLawful script.now }
    ensures { result ≡ 64 * (length (flat_map (λ cast. cast.actions) script.now.machines) + 1) }
{
    let mut actions = 0;
    for cast in script.machines.as_slice() {
        actions += cast.actions.as_slice().len() as u32;
    }
    64 * (actions + 1)
}
