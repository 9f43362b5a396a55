//! Steps that are taken where they change something.
ghost use Rattle.std.specs.Prelude.{length, OnErr, OnOk};
ghost use Rattle.log_repair.specs.Sequences.{TakesStep};
ghost use Rattle.log_repair.specs.inside.Adding.{Adds, AddsEvent, Fails};
ghost use Rattle.polling_world.specs.Steps.{IsStepOf};

use entry_order::Step;
use polling_world::{Memory, Stepped, World};
use std::alloc::Global;

/// Takes the step, which isn't a stop, and adds it to the list if it changes something. The room for
/// it is taken first, so that each step that is taken is added.
pub fn take(
    alloc: Global,
    world: &mut World,
    step: Step,
    steps: &mut Vec<Step>,
) -> Result<(), Memory>
    requires machines { IsStepOf (length world.old.machines) step }
    requires adds { AddsEvent step }
    ensures ok { OnOk result (Adds (λ after. TakesStep after step)
        world.old steps.old.items steps.new.items world.new) }
    ensures err { OnErr result (Fails (λ after. TakesStep after step) world.old world.new) }
{
    world.order_is_receipt();
    steps.reserve(1)?;
    match world.step(alloc, &step)? {
        Stepped::Did => steps.push_reserved(step),
        Stepped::Nothing => {}
    }
    Ok(())
}
