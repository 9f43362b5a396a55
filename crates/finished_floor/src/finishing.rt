//! The end of a run: what threads leave is swept, and what it comes to is put in order.
ghost use Rattle.std.specs.Prelude.{IfOk, map};
ghost use Rattle.election_script.specs.Lawful.{IsLawful};
ghost use Rattle.finished_floor.specs.Floors.{AreBy, AreGathered, ArePlayedAgain, IsFloorOf};

use crate::filling::fill;
use crate::floor::{Floor, Gathered};
use crate::sorting::sort_losses;
use crate::sweeping::sweep;
use election_script::Script;
use std::alloc::{AllocError, Global};

/// What waits is heard or lost, each machine does what it can, the losses are put in order, and
/// the events that no worker did are reported as such.
pub fn finish_floor(alloc: Global, script: &Script, gathered: Gathered) -> Result<Floor, AllocError>
    requires lawful { IsLawful script.now }
    requires gathered { AreGathered script.now gathered.roster.machines gathered.machines.items
        gathered.waits.items gathered.losses.items (map (λ row. row.items) gathered.by.items) }
    ensures floor { IfOk result (λ floor. IsFloorOf script.now floor.roster.machines
        floor.machines.items floor.losses.items) }
    ensures played { IfOk result (λ floor. ArePlayedAgain script.now floor.machines.items) }
    ensures by { IfOk result (λ floor. AreBy floor.machines.items
        (map (λ row. row.items) floor.by.items)) }
{
    let Gathered {
        roster,
        mut machines,
        waits,
        mut losses,
        mut by,
    } = gathered;
    let loses = script.loses.as_slice();
    sweep(alloc, &mut machines, waits, loses, &mut losses)?;
    sort_losses(&mut losses);
    fill(&mut by, &machines)?;
    Ok(Floor {
        roster,
        machines,
        losses,
        by,
    })
}
