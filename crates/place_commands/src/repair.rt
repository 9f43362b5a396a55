// The command `repair`: a script's machines, whose logs are mended before the close.
ghost use Rattle.std.specs.Prelude.{◌≡◌, ◌++◌, All, IfOk, OnOk, length, map, string_bytes};
ghost use Rattle.election_script.specs.Lawful.{IsLawful};
ghost use Rattle.polling_world.specs.Keys.{key_of};
ghost use Rattle.polling_world.specs.Steps.{IsStepOf};
ghost use Rattle.place_commands.specs.Repair.{
  IsRepairOf,
  mended_line,
  mended_lines,
  repair_parts,
};
ghost use Rattle.command_line.specs.Promise.{IsAnsweredBy};
ghost use Rattle.place_commands.specs.inside.Repaired.{ComesByRepair};

use crate::play::{add_machines, files_of, undone_lines};
use crate::script_file::read_script;
use command_line::{Answer, Fault};
use election_script::Script;
use entry_order::Step;
use hall_outside::Store;
use lms_sign::{LeafWork, LmsSecret};
use polling_world::{World, keys_by};
use roster::Roster;
use std::alloc::{AllocError, Global};
use std::fmt::Write;

/// Adds the line of an entry that a machine was answered.
fn add_mended(lines: &mut String, roster: &Roster, step: &Step) -> Result<(), AllocError>
    requires { IsStepOf (length roster.now.machines) step.now }
    ensures { OnOk result (string_bytes lines.new
        ≡ string_bytes lines.old ++ mended_line roster.now.machines step.now) }
{
    match step {
        Step::Hear { at, from, number } => {
            let machines = roster.machines.as_slice();
            let at = machines[*at as usize].name.as_str();
            let from = machines[*from as usize].name.as_str();
            write!(lines, "mended {at} {from}.{number}\n")
        }
        Step::Act(_) => Ok(()),
        Step::Stop(_) => Ok(()),
    }
}

/// Adds the line of each entry that a machine was answered.
fn add_all_mended(lines: &mut String, roster: &Roster, steps: &[Step]) -> Result<(), AllocError>
    requires { All (IsStepOf (length roster.now.machines)) steps.now }
    ensures { OnOk result (string_bytes lines.new
        ≡ string_bytes lines.old ++ mended_lines roster.now.machines steps.now) }
{
    for step in steps {
        add_mended(lines, roster, step)?;
    }
    Ok(())
}

/// The answer of these machines of the script, whose logs were mended by these steps.
fn answer_of(
    alloc: Global,
    prefix: &str,
    script: &Script,
    world: &World,
    mended: &[Step],
) -> Result<Answer, AllocError>
    requires lawful { IsLawful script.now }
    requires comes { ComesByRepair script.now world.now mended.now }
    ensures { IfOk result (IsRepairOf prefix.now script.now) }
{
    let files = files_of(alloc, prefix, &world.roster, &world.machines)?;
    let mut lines = String::new(alloc);
    add_machines(&mut lines, &world.machines)?;
    add_all_mended(&mut lines, &world.roster, mended)?;
    let undone = undone_lines(alloc, &world.machines)?;
    world.order_is_receipt();
    Ok(Answer::of_play(files, lines, undone.as_str())?)
}

/// The answer of the script's machines, which have these keys, once they have played, their logs
/// are mended, and they have finished.
fn repaired(
    alloc: Global,
    prefix: &str,
    script: &Script,
    keys: Vec<LmsSecret>,
) -> Result<Answer, AllocError>
    requires lawful { IsLawful script.now }
    requires keys { keys.items ≡ map (key_of script.now) script.now.machines }
    ensures { IfOk result (IsRepairOf prefix.now script.now) }
{
    let mut world = polling_world::play(alloc, script, keys)?;
    let mended = log_repair::repair(alloc, &mut world)?;
    let _finishing = log_repair::finish(alloc, &mut world)?;
    answer_of(alloc, prefix, script, &world, mended.as_slice())
}

/// The answer of `repair` for the script in this file.
pub fn repair<W: LeafWork, S: Store>(
    work: &W,
    alloc: Global,
    store: &mut S,
    name: &str,
    prefix: &str,
) -> Result<Answer, Fault>
    requires { W.may_share work.now }
    ensures { IsAnsweredBy S.Store (repair_parts name.now prefix.now)
        store.old result store.new }
{
    match read_script(alloc, store, name) {
        Ok(script) => {
            let keys = keys_by(work, alloc, &script)?;
            Ok(repaired(alloc, prefix, &script, keys)?)
        }
        Err(fault) => Answer::of_fault(alloc, &fault),
    }
}
