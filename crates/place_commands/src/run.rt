// The command `run`: a script's machines, in threads.
ghost use Rattle.std.specs.Prelude.{◌≡◌, ◌++◌, All, IfOk, OnOk, length, string_bytes};
ghost use Rattle.election_script.specs.Lawful.{IsLawful};
ghost use Rattle.finished_floor.specs.Floors.{ArePlayedAgain, IsFloorOf};
ghost use Rattle.place_commands.specs.Run.{IsRunOf, loss_line, loss_lines, run_parts};
ghost use Rattle.place_commands.specs.inside.Losses.{IsBetween};
ghost use Rattle.command_line.specs.Promise.{IsAnsweredBy};

use crate::play::{add_machines, files_of, undone_lines};
use crate::script_file::read_script;
use command_line::{Answer, Fault};
use election_script::Script;
use hall_outside::{Gate, Store};
use machine_floor::{Floor, Loss, run_floor};
use roster::Roster;
use std::alloc::{AllocError, Global};
use std::fmt::Write;
use std::sync::Wait;
use std::thread::Threads;

/// Adds the line of an entry that didn't arrive.
fn add_loss(lines: &mut String, roster: &Roster, loss: &Loss) -> Result<(), AllocError>
    requires { IsBetween (length roster.now.machines) loss.now }
    ensures { OnOk result (string_bytes lines.new
        ≡ string_bytes lines.old ++ loss_line roster.now.machines loss.now) }
{
    let machines = roster.machines.as_slice();
    let from = machines[loss.from as usize].name.as_str();
    let number = loss.number;
    let to = machines[loss.to as usize].name.as_str();
    let cause = loss.why.word();
    write!(lines, "loss {from}.{number} {to} {cause}\n")
}

/// Adds the line of each entry that didn't arrive.
fn add_losses(lines: &mut String, roster: &Roster, losses: &[Loss]) -> Result<(), AllocError>
    requires { All (IsBetween (length roster.now.machines)) losses.now }
    ensures { OnOk result (string_bytes lines.new
        ≡ string_bytes lines.old ++ loss_lines roster.now.machines losses.now) }
{
    for loss in losses {
        add_loss(lines, roster, loss)?;
    }
    Ok(())
}

/// The answer of what a run of the script comes to.
fn answer_of(
    alloc: Global,
    prefix: &str,
    script: &Script,
    floor: &Floor,
) -> Result<Answer, AllocError>
    requires lawful { IsLawful script.now }
    requires floor { IsFloorOf script.now floor.now.roster.machines floor.now.machines.items
        floor.now.losses.items }
    requires played { ArePlayedAgain script.now floor.now.machines.items }
    ensures { IfOk result (IsRunOf prefix.now script.now) }
{
    let machines = floor.machines.as_slice();
    let files = files_of(alloc, prefix, &floor.roster, machines)?;
    let mut lines = String::new(alloc);
    add_machines(&mut lines, machines)?;
    add_losses(&mut lines, &floor.roster, floor.losses.as_slice())?;
    let undone = undone_lines(alloc, machines)?;
    Ok(Answer::of_play(files, lines, undone.as_str())?)
}

/// The answer of the script's machines once they have run in threads.
fn has_run<R: Threads + Wait + Sync, G: Gate + Sync>(
    rt: &R,
    alloc: Global,
    gate: &G,
    prefix: &str,
    script: &Script,
) -> Result<Answer, AllocError>
    requires { IsLawful script.now }
    ensures { IfOk result (IsRunOf prefix.now script.now) }
{
    let floor = run_floor(rt, alloc, script, gate)?;
    answer_of(alloc, prefix, script, &floor)
}

/// The answer of `run` for the script in this file. It may wait.
pub fn run<R: Threads + Wait + Sync, S: Store, G: Gate + Sync>(
    rt: &R,
    alloc: Global,
    gate: &G,
    store: &mut S,
    name: &str,
    prefix: &str,
) -> Result<Answer, Fault>
    ensures { IsAnsweredBy S.Store (run_parts name.now prefix.now)
        store.old result store.new }
{
    match read_script(alloc, store, name) {
        Ok(script) => Ok(has_run(rt, alloc, gate, prefix, &script)?),
        Err(fault) => Answer::of_fault(alloc, &fault),
    }
}
