//! Sweeps over the machines of small scripts, before anything happened. What they come to was
//! computed by another program.
ghost use Rattle.std.specs.Prelude.{◌≡◌, ℕ, [], Some, IfOk, slice_get};
ghost use Rattle.election_script.specs.Lawful.{IsLawful};
ghost use Rattle.polling_world.specs.Machines.{MachineState};
ghost use Rattle.finished_floor.specs.Placed.{IsAt};

use crate::sessions::{machine_at, script_of};
use election_script::Script;
use finished_floor::{Loss, sweep};
use polling_world::{Left, Machine, keys_of, roster_of};
use std::alloc::{AllocError, Global};
use std::test::Fail;

/// The machines of the script, before anything happened.
fn machines_of(alloc: Global, script: &Script) -> Result<Vec<Machine>, AllocError>
    requires { IsLawful script.now }
    ensures { IfOk result (λ machines. (place : ℕ) (m : MachineState) →
        slice_get machines.items place ≡ Some m → IsAt place m × (m.events ≡ [])) }
{
    let keys = keys_of(alloc, script)?;
    let roster = roster_of(alloc, script, &keys)?;
    let mut machines = Vec::new(alloc);
    let count = script.machines.as_slice().len();
    for at in 0..count {
        machines.push(machine_at(alloc, script, &roster, at as u32)?)?;
    }
    Ok(machines)
}

/// The word of what is left of a machine's actions.
fn left_word(left: Option<Left>) -> &'static str {
    match left {
        Some(left) => left.why.word(),
        None => "NoMore",
    }
}

/// Appends how many entries each machine sent and holds, and why its next action isn't done.
fn push_machines(text: &mut String, machines: &[Machine]) -> Result<(), Fail> {
    for machine in machines {
        let held = machine.log().events().len();
        let word = left_word(machine.left());
        write!(text, "{} {held} {word};", machine.sent_count())?;
    }
    Ok(())
}

/// Appends the losses.
fn push_losses(text: &mut String, losses: &[Loss]) -> Result<(), Fail> {
    for loss in losses {
        let word = loss.why.word();
        write!(text, " {}.{} {} {word}", loss.from, loss.number, loss.to)?;
    }
    Ok(())
}

/// How many entries each machine sent and holds, why its next action isn't done, and the losses.
fn outcome(alloc: Global, machines: &[Machine], losses: &[Loss]) -> Result<String, Fail> {
    let mut text = String::new(alloc);
    push_machines(&mut text, machines)?;
    push_losses(&mut text, losses)?;
    Ok(text)
}

/// What the machines come to once a sweep has done what it can.
fn swept(alloc: Global, script: &Script) -> Result<String, Fail>
    requires { IsLawful script.now }
{
    let mut machines = machines_of(alloc, script)?;
    if machines.len() > 16 {
        return Err(Fail::from("there are at most 16 machines"));
    }
    let mut losses = Vec::new(alloc);
    let waits = Vec::new(alloc);
    sweep(
        alloc,
        &mut machines,
        waits,
        script.loses.as_slice(),
        &mut losses,
    )?;
    outcome(alloc, &machines, &losses)
}

/// Whether the script with logs of this many events and these lines more comes to this.
fn comes_to(alloc: Global, log: u32, lines: &str, want: &str) -> Result<bool, Fail> {
    let script = script_of(alloc, log, lines)?;
    Ok(swept(alloc, &script)?.as_str() == want)
}

/// The room in each log and the script's lines on losses and stops; for each machine how many
/// entries it sent, how many it holds and why its next action isn't done; and what is lost: the
/// maker's place and the number, the receiver's place and the cause.
const SWEEPS: &[(u32, &str, &str)] = &[
    (64, "", "4 10 NoMore;3 10 NoMore;3 10 NoMore;"),
    (
        64,
        "lose sv 1 b1\n",
        "3 6 SessionsLeft;0 5 NotAuthorised;3 6 NoMore; 0.1 1 Scripted",
    ),
    (
        64,
        "lose b1 2 sv\nlose b2 0 b1\n",
        "3 8 SessionsLeft;3 8 NoMore;3 9 NoMore; 1.2 0 Scripted 2.0 1 Scripted",
    ),
    (
        64,
        "stop b1 5\n",
        "3 8 SessionsLeft;2 5 Stopped;3 8 NoMore; 2.0 1 ToStopped 2.1 1 ToStopped 2.2 1 ToStopped",
    ),
    (
        8,
        "lose sv 0 b2\n",
        "3 8 SessionsLeft;3 8 NoMore;2 7 LogNotWhole; 0.0 2 Scripted",
    ),
    (
        5,
        "lose sv 2 b1\n",
        "3 5 SessionsLeft;3 5 NoMore;0 5 Full; 0.2 1 Scripted 1.2 0 LogFull 1.2 2 LogFull",
    ),
    (
        64,
        "lose b1 0 b2\nlose b1 0 sv\nstop sv 3\n",
        "3 3 Stopped;3 8 NoMore;2 7 LogNotWhole; 1.0 0 Scripted 1.0 2 Scripted 1.1 0\
            \u{20}ToStopped 1.2 0 ToStopped 2.0 0 ToStopped 2.1 0 ToStopped",
    ),
];

#[test]
fn a_sweep_does_what_can_be_done(rt: HostRuntime) -> Result<(), Fail> {
    for &(log, lines, want) in SWEEPS {
        assert!(rt; comes_to(rt.alloc(), log, lines, want)?, "{log} {lines}");
    }
    Ok(())
}
