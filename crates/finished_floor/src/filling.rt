//! Who did which event, where the sweep did the last ones.
ghost use Rattle.std.specs.Prelude.{◌≡◌, ◌≤◌, ◌-◌, ◌++◌, IfOk, None, length, map, replicate};
ghost use Rattle.std.specs.List.{AllZip};
ghost use Rattle.polling_world.specs.Machines.{MachineState};
ghost use Rattle.finished_floor.specs.Floors.{IsBy};
ghost use Rattle.finished_floor.specs.inside.Begun.{IsBegunBy};

use polling_world::Machine;
use std::alloc::AllocError;

// Makes the list this long, with `None` at its end.
fn fill_up(row: &mut Vec<Option<u32>>, count: usize) -> Result<(), AllocError>
    requires { length row.old.items ≤ count }
    ensures { IfOk result (λ _. row.new.items
        ≡ row.old.items ++ replicate (count - length row.old.items) None) }
{
    for _ in row.len()..count {
        row.push(None)?;
    }
    Ok(())
}

/// Adds `None` for each further event of each machine.
pub fn fill(by: &mut Vec<Vec<Option<u32>>>, machines: &[Machine]) -> Result<(), AllocError>
    requires { AllZip (λ (m : MachineState) row. IsBegunBy m.events row) machines.now
        (map (λ row. row.items) by.old.items) }
    ensures { IfOk result (λ _. AllZip (λ (m : MachineState) row. IsBy m.events row) machines.now
        (map (λ row. row.items) by.new.items)) }
{
    for at in 0..machines.len() {
        let count = machines[at].log().events().len();
        fill_up(&mut by[at], count)?;
    }
    Ok(())
}
