//! A world of a supervisor and two booths.
ghost use Rattle.std.specs.Prelude.{◌↔◌, ◌<◌, length, IsTrue};
ghost use Rattle.entry_order.specs.History.{sent};
ghost use Rattle.entry_order.specs.World.{history};
ghost use Rattle.polling_world.specs.Worlds.{world_of};

use crate::polling_world_tests::played;
use entry_order::Step;
use polling_world::{Stepped, World};
use std::alloc::{AllocError, Global};
use std::test::Fail;

/// A session at each booth. The second booth hears the first one's commitment, and not its
/// activation.
const SESSIONS: &str = "machine sv supervisor\nmachine b1 booth\nmachine b2 booth\n\
    do sv open\ndo sv authorise b1 1\ndo sv authorise b2 2\ndo b1 activate 1\n\
    do b1 commit 1 0707070707070707070707070707070707070707070707070707070707070707\n\
    do b2 activate 2\n\
    step act sv\nstep act sv\nstep act sv\n\
    step hear b1 sv 0\nstep hear b1 sv 1\nstep hear b1 sv 2\n\
    step hear b2 sv 0\nstep hear b2 sv 1\nstep hear b2 sv 2\n\
    step act b1\nstep act b1\nstep hear b2 b1 1\nstep act b2\n";

/// Whether the world has sent the entry.
fn has_sent(world: &World, entry: (u32, u32)) -> bool
    ensures { IsTrue result
        ↔ (entry.1 < length (sent (history (world_of world.now.machines) entry.0))) }
{
    let at = entry.0 as usize;
    if at >= world.machines.len() {
        return false;
    }
    entry.1 < world.machines[at].sent_count()
}

/// What the world answers of two entries, `None` where one of them wasn't sent.
fn answer(
    alloc: Global,
    world: &World,
    f: (u32, u32),
    e: (u32, u32),
) -> Result<Option<bool>, AllocError> {
    if has_sent(world, f) && has_sent(world, e) {
        let held = world.held_before(alloc, f, e)?;
        return Ok(Some(held));
    }
    Ok(None)
}

/// What becomes of the step, `None` where one of its machines isn't in the world.
fn taken(alloc: Global, world: &mut World, step: &Step) -> Result<Option<Stepped>, AllocError> {
    let count = world.machines.len();
    let is_there = match step {
        Step::Act(machine) => (*machine as usize) < count,
        Step::Hear { at, from, .. } => (*at as usize) < count && (*from as usize) < count,
        Step::Stop(machine) => (*machine as usize) < count,
    };
    if !is_there {
        return Ok(None);
    }
    Ok(Some(world.step(alloc, step)?))
}

/// Two entries, each by its machine and number, and whether the first was held before the second.
const HELD: &[((u32, u32), (u32, u32), bool)] = &[
    ((0, 0), (2, 0), true),
    ((1, 0), (2, 0), true),
    ((2, 0), (1, 0), false),
    ((2, 0), (2, 0), false),
];

/// Whether that is what the world answers.
fn is_answer(
    alloc: Global,
    world: &World,
    f: (u32, u32),
    e: (u32, u32),
    held: bool,
) -> Result<bool, AllocError> {
    Ok(answer(alloc, world, f, e)? == Some(held))
}

#[test]
fn what_was_held_before_is_told(rt: HostRuntime) -> Result<(), Fail> {
    let world = played(rt.alloc(), 1, SESSIONS)?;
    for &(f, e, held) in HELD {
        assert!(rt;
            is_answer(rt.alloc(), &world, f, e, held)?,
            "{f:?} and {e:?}"
        );
    }
    Ok(())
}

/// Steps, and what becomes of each.
const STEPS: &[(Step, Stepped)] = &[
    // No action is left.
    (Step::Act(0), Stepped::Nothing),
    // It holds that entry.
    (
        Step::Hear {
            at: 2,
            from: 1,
            number: 1,
        },
        Stepped::Nothing,
    ),
    // No such entry was sent.
    (
        Step::Hear {
            at: 1,
            from: 2,
            number: 1,
        },
        Stepped::Nothing,
    ),
    // It is its own.
    (
        Step::Hear {
            at: 1,
            from: 1,
            number: 0,
        },
        Stepped::Nothing,
    ),
    (Step::Stop(2), Stepped::Did),
    (Step::Stop(2), Stepped::Nothing),
    // The machine has stopped.
    (
        Step::Hear {
            at: 2,
            from: 1,
            number: 0,
        },
        Stepped::Nothing,
    ),
];

/// Whether this becomes of the step.
fn is_taken(
    alloc: Global,
    world: &mut World,
    step: &Step,
    stepped: Stepped,
) -> Result<bool, AllocError> {
    Ok(taken(alloc, world, step)? == Some(stepped))
}

#[test]
fn steps_that_change_nothing_are_told(rt: HostRuntime) -> Result<(), Fail> {
    let mut world = played(rt.alloc(), 1, SESSIONS)?;
    for &(step, stepped) in STEPS {
        assert!(rt;
            is_taken(rt.alloc(), &mut world, &step, stepped)?,
            "{step:?}"
        );
    }
    Ok(())
}
