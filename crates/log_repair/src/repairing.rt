//! Machines ask for what they miss, in rounds.
ghost use Rattle.std.specs.Prelude.{◌≡◌, ◌↔◌, ◌<◌, false, length};
ghost use Rattle.std.specs.Prelude.{IfOk, OnErr, OnOk};
ghost use Rattle.entry_format.specs.Nodes.{node_of_sealed};
ghost use Rattle.log_repair.specs.Mending.{Asks, Repairs, TakesRound, TakesTurn};
ghost use Rattle.log_repair.specs.Outcomes.{AreMended, BreaksOff, LeadsTo};
ghost use Rattle.log_repair.specs.Sequences.{InOrder};
ghost use Rattle.log_repair.specs.inside.Adding.{Adds, Fails};
ghost use Rattle.polling_world.specs.Worlds.{configs_of, stops_of};

use crate::bearer::bearer;
use crate::taking::take;
use entry_order::Step;
use polling_world::{Memory, World};
use std::alloc::Global;

/// Mends the logs of the machines that haven't stopped, and answers the steps that were taken. In
/// rounds each such machine asks for the digests that it misses when its turn begins, until a round
/// changes nothing.
pub fn repair(alloc: Global, world: &mut World) -> Result<Vec<Step>, Memory>
    ensures ok { IfOk result (λ steps.
        LeadsTo (Repairs node_of_sealed) world.old.machines steps.items world.new.machines) }
    ensures mended { OnOk result (AreMended world.new.machines) }
    ensures err { OnErr result
        (BreaksOff (Repairs node_of_sealed) world.old.machines world.new.machines) }

    // What the machines are made of stays.
    ensures roster { world.new.roster ≡ world.old.roster }
    ensures configs { configs_of world.new.machines ≡ configs_of world.old.machines }
    ensures stops { stops_of world.new.machines ≡ stops_of world.old.machines }
{
    let mut steps = Vec::new(alloc);
    let mut is_moving = true;
    while is_moving {
        is_moving = mend_once(alloc, world, &mut steps)?;
    }
    world.order_is_receipt();
    Ok(steps)
}

// One round, and whether it changed something.
fn mend_once(alloc: Global, world: &mut World, steps: &mut Vec<Step>) -> Result<bool, Memory>
    ensures adds { OnOk result (Adds (TakesRound node_of_sealed)
        world.old steps.old.items steps.new.items world.new) }
    ensures still { IfOk result (λ moves.
        (moves ≡ false) ↔ (steps.new.items ≡ steps.old.items)) }
    ensures err { OnErr result (Fails (TakesRound node_of_sealed) world.old world.new) }
{
    let before = steps.len();
    take_round(alloc, world, steps)?;
    Ok(steps.len() != before)
}

// A turn of each machine.
fn take_round(alloc: Global, world: &mut World, steps: &mut Vec<Step>) -> Result<(), Memory>
    ensures ok { OnOk result (Adds (TakesRound node_of_sealed)
        world.old steps.old.items steps.new.items world.new) }
    ensures err { OnErr result (Fails (TakesRound node_of_sealed) world.old world.new) }
{
    for m in 0..world.machines.len() {
        take_turn(alloc, world, m as u32, steps)?;
    }
    Ok(())
}

// The turn of machine m.
fn take_turn(alloc: Global, world: &mut World, m: u32, steps: &mut Vec<Step>) -> Result<(), Memory>
    requires { m < length world.old.machines }
    ensures ok { OnOk result (Adds (λ after. TakesTurn node_of_sealed after m)
        world.old steps.old.items steps.new.items world.new) }
    ensures err { OnErr result
        (Fails (λ after. TakesTurn node_of_sealed after m) world.old world.new) }
{
    let machine = &world.machines[m as usize];
    if machine.stopped() {
        return Ok(());
    }
    let missing = machine.log().missing(alloc)?;
    ask_all(alloc, world, m, missing.as_slice(), steps)
}

// Machine m asks for each of these digests.
fn ask_all(
    alloc: Global,
    world: &mut World,
    m: u32,
    digests: &[[u8; 32]],
    steps: &mut Vec<Step>,
) -> Result<(), Memory>
    requires { m < length world.old.machines }
    ensures ok { OnOk result (Adds (λ after. InOrder (Asks node_of_sealed after m) digests.now)
        world.old steps.old.items steps.new.items world.new) }
    ensures err { OnErr result
        (Fails (λ after. InOrder (Asks node_of_sealed after m) digests.now) world.old world.new) }
{
    for digest in digests {
        ask(alloc, world, m, digest, steps)?;
    }
    Ok(())
}

// Machine m asks for the digest.
fn ask(
    alloc: Global,
    world: &mut World,
    m: u32,
    digest: &[u8; 32],
    steps: &mut Vec<Step>,
) -> Result<(), Memory>
    requires { m < length world.old.machines }
    ensures ok { OnOk result (Adds (λ after. Asks node_of_sealed after m digest.now)
        world.old steps.old.items steps.new.items world.new) }
    ensures err { OnErr result
        (Fails (λ after. Asks node_of_sealed after m digest.now) world.old world.new) }
{
    match bearer(world.machines.as_slice(), digest) {
        None => Ok(()),
        Some((from, number)) => {
            let step = Step::Hear {
                at: m,
                from,
                number,
            };
            take(alloc, world, step, steps)
        }
    }
}
