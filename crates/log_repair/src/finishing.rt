//! Machines act as long as something is left that they may do.
ghost use Rattle.std.specs.Prelude.{◌≡◌, ◌↔◌, ◌<◌, false, length};
ghost use Rattle.std.specs.Prelude.{IfOk, OnErr, OnOk};
ghost use Rattle.entry_format.specs.Nodes.{node_of_sealed};
ghost use Rattle.entry_order.specs.declared.step.Step.TheVariants.{Act};
ghost use Rattle.log_repair.specs.Mending.{ActsOn, Finishes};
ghost use Rattle.log_repair.specs.Outcomes.{BreaksOff, LeadsTo};
ghost use Rattle.log_repair.specs.Sequences.{TakesStep};
ghost use Rattle.log_repair.specs.inside.Adding.{Adds, Fails};
ghost use Rattle.polling_world.specs.Worlds.{configs_of, stops_of};

use crate::taking::take;
use entry_order::Step;
use polling_world::{Memory, World};
use std::alloc::Global;

/// Lets each machine in turn act as long as that changes something, and answers the steps that were
/// taken.
pub fn finish(alloc: Global, world: &mut World) -> Result<Vec<Step>, Memory>
    ensures ok { IfOk result (λ steps.
        LeadsTo (Finishes node_of_sealed) world.old.machines steps.items world.new.machines) }
    ensures err { OnErr result
        (BreaksOff (Finishes node_of_sealed) world.old.machines world.new.machines) }

    // What the machines are made of stays.
    ensures roster { world.new.roster ≡ world.old.roster }
    ensures configs { configs_of world.new.machines ≡ configs_of world.old.machines }
    ensures stops { stops_of world.new.machines ≡ stops_of world.old.machines }
{
    let mut steps = Vec::new(alloc);
    for m in 0..world.machines.len() {
        act_on(alloc, world, m as u32, &mut steps)?;
    }
    Ok(steps)
}

// Machine m acts as long as that changes something.
fn act_on(alloc: Global, world: &mut World, m: u32, steps: &mut Vec<Step>) -> Result<(), Memory>
    requires { m < length world.old.machines }
    ensures ok { OnOk result (Adds (λ after. ActsOn node_of_sealed after m)
        world.old steps.old.items steps.new.items world.new) }
    ensures err { OnErr result
        (Fails (λ after. ActsOn node_of_sealed after m) world.old world.new) }
{
    let mut is_moving = true;
    while is_moving {
        is_moving = act_once(alloc, world, m, steps)?;
    }
    Ok(())
}

// Machine m acts once, and whether that changed something.
fn act_once(alloc: Global, world: &mut World, m: u32, steps: &mut Vec<Step>) -> Result<bool, Memory>
    requires { m < length world.old.machines }
    ensures adds { OnOk result (Adds (λ after. TakesStep after (Act m))
        world.old steps.old.items steps.new.items world.new) }
    ensures still { IfOk result (λ moves.
        (moves ≡ false) ↔ (steps.new.items ≡ steps.old.items)) }
    ensures err { OnErr result (Fails (λ after. TakesStep after (Act m)) world.old world.new) }
{
    let before = steps.len();
    take(alloc, world, Step::Act(m), steps)?;
    Ok(steps.len() != before)
}
