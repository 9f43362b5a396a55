//! The sweep over machines and what waits for them.
ghost use Rattle.std.specs.Prelude.{◌≡◌, ◌≤◌, ◌++◌, ℕ, List, [], Some, All, IfOk, length};
ghost use Rattle.std.specs.Prelude.{slice_get};
ghost use Rattle.roster.specs.Machines.{max_machines};
ghost use Rattle.entry_format.specs.Nodes.{node_of_sealed};
ghost use Rattle.entry_order.specs.World.{history};
ghost use Rattle.polling_world.specs.Machines.{MachineState};
ghost use Rattle.polling_world.specs.Worlds.{world_of};
ghost use Rattle.finished_floor.specs.declared.loss.Loss.{Loss};
ghost use Rattle.finished_floor.specs.Balance.{IsBalanced};
ghost use Rattle.finished_floor.specs.Arrivals.{AreOnce};
ghost use Rattle.finished_floor.specs.Placed.{AreMadeByThese, AreOfSent, ArePlaced, HaveGrown};
ghost use Rattle.finished_floor.specs.Swept.{AreScripted, IsLicensed};
ghost use Rattle.finished_floor.specs.Waits.{AreOnWay, waits_of};
ghost use Rattle.finished_floor.specs.Wholes.{IsWholeRun};

use crate::handing::SweptFloor;
use crate::loss::Loss;
use election_script::Lose;
use entry_format::Sealed;
use polling_world::Machine;
use std::alloc::{AllocError, Global};
use std::mem;

/// An entry that waits for a machine.
#[derive(Drop)]
pub struct Waiting {
    /// The receiver's place among the machines, counted from 0.
    pub to: u32,
    /// The entry, of another machine.
    pub entry: Sealed,
}

/// Each waiting entry is handed to the machine that it waits for, in the order of the list. Then,
/// in rounds, each machine acts while it can, and each new entry is handed to each other machine at
/// once, in ascending order, until a round does nothing. `waits` has those of each way in the order
/// of their numbers.
/// After running out of memory, which may come between any two steps, neither list is of use.
pub fn sweep(
    alloc: Global,
    machines: &mut Vec<Machine>,
    waits: Vec<Waiting>,
    loses: &[Lose],
    losses: &mut Vec<Loss>,
) -> Result<(), AllocError>
    requires few { length machines.old.items ≤ max_machines }
    requires placed { ArePlaced machines.old.items }

    // Each entry that was sent is heard, lost or waiting.
    requires waits { AreOnWay (length machines.old.items) waits.items }
    requires balanced { IsBalanced node_of_sealed (length machines.old.items)
        (history (world_of machines.old.items)) losses.old.items (waits_of waits.items) }
    requires once { AreOnce losses.old.items }
    requires sent { AreOfSent machines.old.items losses.old.items }

    // Nothing waits any more.
    ensures balanced { IfOk result (λ _. IsBalanced node_of_sealed (length machines.new.items)
        (history (world_of machines.new.items)) losses.new.items (λ a b. [])) }
    ensures grown { IfOk result (λ _. HaveGrown machines.old.items machines.new.items) }
    ensures placed { IfOk result (λ _. ArePlaced machines.new.items) }
    ensures makers { IfOk result (λ _. AreMadeByThese machines.old.items →
        AreMadeByThese machines.new.items) }

    // Each new loss has its cause.
    ensures licensed { IfOk result (λ _. (lost : List Loss)
        × (losses.new.items ≡ losses.old.items ++ lost)
        × All (IsLicensed loses.now machines.new.items) lost) }
    ensures scripted { IfOk result (λ _.
        AreScripted loses.now machines.old.items machines.new.items losses.new.items) }
    ensures once { IfOk result (λ _. AreOnce losses.new.items) }
    ensures whole { IfOk result (λ _. (place : ℕ) (m : MachineState) →
        slice_get machines.new.items place ≡ Some m → IsWholeRun m) }
{
    let mut floor = SweptFloor {
        machines: mem::replace(machines, Vec::new(alloc)),
        loses,
        losses: mem::replace(losses, Vec::new(alloc)),
    };
    floor.hand_waits(waits)?;
    while floor.round(alloc)? {}
    *machines = floor.machines;
    *losses = floor.losses;
    Ok(())
}
