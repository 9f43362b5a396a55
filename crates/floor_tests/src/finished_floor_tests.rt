//! Runs in which no thread did anything, so that the sweep does it all. What they come to was
//! computed by another program.
ghost use Rattle.std.specs.Prelude.{IfOk, map};
ghost use Rattle.election_script.specs.Lawful.{IsLawful};
ghost use Rattle.finished_floor.specs.Floors.{AreGathered};

use crate::sessions::{machine_at, script_of};
use election_script::Script;
use finished_floor::{Floor, Gathered, Loss, finish_floor};
use polling_world::{Machine, keys_of, roster_of};
use std::alloc::{AllocError, Global};
use std::test::Fail;

/// The machines of the script, before anything happened.
fn gathered(alloc: Global, script: &Script) -> Result<Gathered, AllocError>
    requires { IsLawful script.now }
    ensures { IfOk result (λ left. AreGathered script.now left.roster.machines left.machines.items
        left.waits.items left.losses.items (map (λ row. row.items) left.by.items)) }
{
    let keys = keys_of(alloc, script)?;
    let roster = roster_of(alloc, script, &keys)?;
    let mut machines = Vec::new(alloc);
    let mut by = Vec::new(alloc);
    let count = script.machines.as_slice().len();
    for at in 0..count {
        machines.push(machine_at(alloc, script, &roster, at as u32)?)?;
        by.push(Vec::new(alloc))?;
    }
    Ok(Gathered {
        roster,
        machines,
        waits: Vec::new(alloc),
        losses: Vec::new(alloc),
        by,
    })
}

/// Appends how many entries each machine sent and holds.
fn push_machines(text: &mut String, machines: &[Machine]) -> Result<(), Fail> {
    for machine in machines {
        let held = machine.log().events().len();
        write!(text, "{} {held};", machine.sent_count())?;
    }
    Ok(())
}

/// Appends how many events of each machine no worker did.
fn push_swept(text: &mut String, by: &[Vec<Option<u32>>]) -> Result<(), Fail> {
    for row in by {
        write!(
            text,
            " {}",
            row.iter().filter(|pass| pass.is_none()).count()
        )?;
    }
    Ok(())
}

/// Appends the losses.
fn push_losses(text: &mut String, losses: &[Loss]) -> Result<(), Fail> {
    for loss in losses {
        let word = loss.why.word();
        write!(text, "; {} {} {} {word}", loss.from, loss.to, loss.number)?;
    }
    Ok(())
}

/// How many entries each machine sent and holds, and how many of them no worker sent or heard; and
/// the losses.
fn outcome(alloc: Global, floor: &Floor) -> Result<String, Fail> {
    let mut text = String::new(alloc);
    push_machines(&mut text, &floor.machines)?;
    push_swept(&mut text, &floor.by)?;
    push_losses(&mut text, &floor.losses)?;
    Ok(text)
}

/// What the script's machines come to.
fn finished(alloc: Global, script: &Script) -> Result<String, Fail>
    requires { IsLawful script.now }
{
    let left = gathered(alloc, script)?;
    let floor = finish_floor(alloc, script, left)?;
    outcome(alloc, &floor)
}

/// Whether the script with logs of this many events and these lines more comes to this.
fn comes_to(alloc: Global, log: u32, lines: &str, want: &str) -> Result<bool, Fail> {
    let script = script_of(alloc, log, lines)?;
    Ok(finished(alloc, &script)?.as_str() == want)
}

/// The room in each log and the script's lines on losses and stops; for each machine how many
/// entries it sent and how many it holds; how many of these no worker sent or heard; and what is
/// lost: the maker's place, the receiver's place, the number and the cause.
const FLOORS: &[(u32, &str, &str)] = &[
    (64, "", "4 10;3 10;3 10; 10 10 10"),
    (64, "lose sv 1 b1\n", "3 6;0 5;3 6; 6 5 6; 0 1 1 Scripted"),
    (
        64,
        "lose b1 2 sv\nlose b2 0 b1\n",
        "3 8;3 8;3 9; 8 8 9; 1 0 2 Scripted; 2 1 0 Scripted",
    ),
    (
        64,
        "stop b1 5\n",
        "3 8;2 5;3 8; 8 5 8; 2 1 0 ToStopped; 2 1 1 ToStopped; 2 1 2 ToStopped",
    ),
    (8, "lose sv 0 b2\n", "3 8;3 8;2 7; 8 8 7; 0 2 0 Scripted"),
    (
        5,
        "lose sv 2 b1\n",
        "3 5;3 5;0 5; 5 5 5; 0 1 2 Scripted; 1 0 2 LogFull; 1 2 2 LogFull",
    ),
    (
        64,
        "lose b1 0 b2\nlose b1 0 sv\nstop sv 3\n",
        "3 3;3 8;2 7; 3 8 7; 1 0 0 Scripted; 1 0 1 ToStopped; 1 0 2 ToStopped; 1 2 0 Scripted\
            ; 2 0 0 ToStopped; 2 0 1 ToStopped",
    ),
];

#[test]
fn a_floor_is_finished(rt: HostRuntime) -> Result<(), Fail> {
    for &(log, lines, want) in FLOORS {
        assert!(rt; comes_to(rt.alloc(), log, lines, want)?, "{log} {lines}");
    }
    Ok(())
}
