// The command `play`: a script's machines, on one thread.
ghost use Rattle.std.specs.Prelude.{◌≡◌, ◌++◌, map, IfOk, OnOk, string_bytes};
ghost use Rattle.roster.specs.Machines.{HaveText};
ghost use Rattle.election_script.specs.Lawful.{IsLawful};
ghost use Rattle.polling_world.specs.Keys.{key_of};
ghost use Rattle.command_line.specs.Promise.{IsAnsweredBy};
ghost use Rattle.place_commands.specs.Play.{
  roster_file,
  log_file,
  played_line,
  machine_lines,
  undone_line,
  SayUndone,
  play_parts,
};
ghost use Rattle.place_commands.specs.Play.{IsPlayOf, play_files};

use crate::script_file::read_script;
use command_line::{Answer, Fault, OutputFile};
use election_script::Script;
use hall_outside::Store;
use lms_sign::{LeafWork, LmsSecret};
use log_files::log_text;
use polling_world::{Left, Machine, keys_by};
use roster::Roster;
use std::alloc::{AllocError, Global};
use std::fmt::Write;

/// The file of a machine's log.
fn log_file(alloc: Global, prefix: &str, machine: &Machine) -> Result<OutputFile, AllocError>
    ensures { IfOk result (λ file. file ≡ log_file prefix.now machine.now) }
{
    let name = machine.name();
    let name = format!(in alloc; "{prefix}.{name}.log")?;
    Ok(OutputFile::new(name, log_text(alloc, machine.log())?))
}

/// Adds the file of each machine's log.
fn add_logs(
    alloc: Global,
    files: &mut Vec<OutputFile>,
    prefix: &str,
    machines: &[Machine],
) -> Result<(), AllocError>
    ensures { OnOk result
        (files.new.items ≡ files.old.items ++ map (log_file prefix.now) machines.now) }
{
    for machine in machines {
        files.push(log_file(alloc, prefix, machine)?)?;
    }
    Ok(())
}

/// Adds the line of a machine.
fn add_machine(lines: &mut String, machine: &Machine) -> Result<(), AllocError>
    ensures { OnOk result
        (string_bytes lines.new ≡ string_bytes lines.old ++ played_line machine.now) }
{
    let name = machine.name();
    let sent = machine.sent_count();
    let held = machine.log().events().len();
    write!(lines, "machine {name} sent {sent} held {held}\n")
}

/// Adds the line of each machine.
pub fn add_machines(lines: &mut String, machines: &[Machine]) -> Result<(), AllocError>
    ensures { OnOk result
        (string_bytes lines.new ≡ string_bytes lines.old ++ machine_lines machines.now) }
{
    for machine in machines {
        add_machine(lines, machine)?;
    }
    Ok(())
}

/// Adds the line of what a machine with this name has left.
fn add_left(lines: &mut String, name: &str, left: Option<Left>) -> Result<(), AllocError>
    ensures { OnOk result
        (string_bytes lines.new ≡ string_bytes lines.old ++ undone_line name.now left) }
{
    match left {
        None => Ok(()),
        Some(left) => {
            let place = left.place;
            let cause = left.why.word();
            write!(lines, "undone {name} {place} {cause}\n")
        }
    }
}

/// A line for each machine that has an action left.
pub fn undone_lines(alloc: Global, machines: &[Machine]) -> Result<String, AllocError>
    ensures { IfOk result (λ lines. SayUndone machines.now (string_bytes lines)) }
{
    let mut lines = String::new(alloc);
    for machine in machines {
        add_left(&mut lines, machine.name(), machine.left())?;
    }
    Ok(lines)
}

/// The file of the roster.
fn roster_file(alloc: Global, prefix: &str, roster: &Roster) -> Result<OutputFile, AllocError>
    requires { HaveText roster.now.machines }
    ensures { IfOk result (λ file. file ≡ roster_file prefix.now roster.now.machines) }
{
    let name = format!(in alloc; "{prefix}.roster")?;
    Ok(OutputFile::new(name, roster.write(alloc)?))
}

/// The files of machines with this roster.
pub fn files_of(
    alloc: Global,
    prefix: &str,
    roster: &Roster,
    machines: &[Machine],
) -> Result<Vec<OutputFile>, AllocError>
    requires { HaveText roster.now.machines }
    ensures { IfOk result
        (λ files. files.items ≡ play_files prefix.now roster.now.machines machines.now) }
{
    let mut files = Vec::new(alloc);
    files.push(roster_file(alloc, prefix, roster)?)?;
    add_logs(alloc, &mut files, prefix, machines)?;
    Ok(files)
}

/// The answer of the script's machines, which have these keys, once they have played.
fn played(
    alloc: Global,
    prefix: &str,
    script: &Script,
    keys: Vec<LmsSecret>,
) -> Result<Answer, AllocError>
    requires lawful { IsLawful script.now }
    requires keys { keys.items ≡ map (key_of script.now) script.now.machines }
    ensures { IfOk result (IsPlayOf prefix.now script.now) }
{
    let world = polling_world::play(alloc, script, keys)?;
    let files = files_of(alloc, prefix, &world.roster, &world.machines)?;
    let mut lines = String::new(alloc);
    add_machines(&mut lines, &world.machines)?;
    let undone = undone_lines(alloc, &world.machines)?;
    world.order_is_receipt();
    Ok(Answer::of_play(files, lines, undone.as_str())?)
}

/// The answer of `play` for the script in this file.
pub fn play<W: LeafWork, S: Store>(
    work: &W,
    alloc: Global,
    store: &mut S,
    name: &str,
    prefix: &str,
) -> Result<Answer, Fault>
    requires { W.may_share work.now }
    ensures { IsAnsweredBy S.Store (play_parts name.now prefix.now)
        store.old result store.new }
{
    match read_script(alloc, store, name) {
        Ok(script) => {
            let keys = keys_by(work, alloc, &script)?;
            Ok(played(alloc, prefix, &script, keys)?)
        }
        Err(fault) => Answer::of_fault(alloc, &fault),
    }
}
