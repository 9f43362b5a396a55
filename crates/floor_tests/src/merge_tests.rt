//! The merged order of small plays, as another program computed it.
use crate::polling_world_tests::{played, script_of};
use entry_order::Step;
use polling_world::{World, merge};
use std::alloc::Global;
use std::test::Fail;

/// The machines of a script with their actions, the steps that they take, and the steps of the
/// merged order.
const MERGED: &[(&str, &str, &str)] = &[
    // A whole session at one booth.
    (
        "machine sv supervisor\nmachine b1 booth\n\
            do sv open\ndo sv authorise b1 1\ndo sv close\ndo b1 activate 1\n\
            do b1 commit 1 0707070707070707070707070707070707070707070707070707070707070707\n\
            do b1 cast 1 0707070707070707070707070707070707070707070707070707070707070707\n",
        "step act sv\nstep act sv\nstep hear b1 sv 0\nstep hear b1 sv 1\n\
            step act b1\nstep act b1\nstep act b1\n\
            step hear sv b1 0\nstep hear sv b1 1\nstep hear sv b1 2\n\
            step act sv\nstep hear b1 sv 2\n",
        "step act sv\nstep hear b1 sv 0\nstep act sv\nstep hear b1 sv 1\n\
            step act b1\nstep hear sv b1 0\nstep act b1\nstep hear sv b1 1\n\
            step act b1\nstep hear sv b1 2\nstep act sv\nstep hear b1 sv 2\n",
    ),
    // Entries with lower stamps are heard after others.
    (
        "machine sv supervisor\nmachine b1 booth\nmachine b2 booth\n\
            do sv open\ndo sv authorise b1 1\ndo sv authorise b2 2\ndo b1 activate 1\n\
            do b1 commit 1 0707070707070707070707070707070707070707070707070707070707070707\n\
            do b2 activate 2\n",
        "step act sv\nstep act sv\nstep act sv\n\
            step hear b2 sv 0\nstep hear b2 sv 1\nstep hear b2 sv 2\n\
            step hear b1 sv 0\nstep hear b1 sv 1\nstep hear b1 sv 2\n\
            step act b1\nstep act b1\nstep hear b2 b1 1\nstep hear b2 b1 0\nstep act b2\n\
            step hear sv b2 0\nstep hear sv b1 1\nstep hear sv b1 0\nstep hear b1 b2 0\n",
        "step act sv\nstep hear b1 sv 0\nstep hear b2 sv 0\n\
            step act sv\nstep hear b1 sv 1\nstep hear b2 sv 1\n\
            step act sv\nstep hear b1 sv 2\nstep hear b2 sv 2\n\
            step act b1\nstep act b1\nstep hear b2 b1 1\nstep hear b2 b1 0\nstep act b2\n\
            step hear sv b2 0\nstep hear sv b1 1\nstep hear sv b1 0\nstep hear b1 b2 0\n",
    ),
];

/// The machines with their logs once they have taken these steps.
fn stepped(alloc: Global, machines: &str, steps: &str) -> Result<World, Fail> {
    let lines = format!(in alloc; "{machines}{steps}")?;
    played(alloc, 1, lines.as_str())
}

/// The merged order of the world's machines.
fn merged(alloc: Global, world: &World) -> Result<Vec<Step>, Fail> {
    if world.machines.len() > 16 {
        return Err(Fail::from("the machines are few"));
    }
    Ok(merge(alloc, &world.machines)?)
}

/// Whether the script of these machines has these steps.
pub(crate) fn are_steps(
    alloc: Global,
    machines: &str,
    lines: &str,
    steps: &[Step],
) -> Result<bool, Fail> {
    let lines = format!(in alloc; "{machines}{lines}")?;
    let script = script_of(alloc, 1, 64, lines.as_str())?;
    Ok(script.steps.as_slice() == steps)
}

/// Whether the merged order is this, once these machines have taken these steps.
fn is_merged(alloc: Global, machines: &str, steps: &str, want: &str) -> Result<bool, Fail> {
    let world = stepped(alloc, machines, steps)?;
    let steps = merged(alloc, &world)?;
    are_steps(alloc, machines, want, steps.as_slice())
}

#[test]
fn plays_are_merged(rt: HostRuntime) -> Result<(), Fail> {
    for &(machines, steps, want) in MERGED {
        assert!(rt; is_merged(rt.alloc(), machines, steps, want)?, "{steps}");
    }
    Ok(())
}
