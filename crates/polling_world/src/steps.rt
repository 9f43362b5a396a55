//! What a step does to the machines.
ghost use Rattle.std.specs.Prelude.{◌≡◌, ◌<◌, IfOk, OnErr, vec_len};
ghost use Rattle.polling_world.specs.Steps.{ActsAt, HearsAt, IsGiven, IsStepOf, StepsBy};
ghost use Rattle.polling_world.specs.Steps.{StopsMachine, stepped_in};

use crate::acted::Acted;
use crate::heard::MachineHeard;
use crate::machine::{Machine, Memory};
use crate::stepped::Stepped;
use entry_format::Sealed;
use entry_order::Step;
use std::alloc::Global;

/// Does the step, or changes nothing.
pub fn step_in(alloc: Global, machines: &mut Vec<Machine>, step: &Step) -> Result<Stepped, Memory>
    requires { IsStepOf (vec_len machines.old) step.now }
    ensures ok { IfOk result (λ stepped.
        StepsBy step.now machines.old.items stepped machines.new.items) }
    ensures err { OnErr result (machines.new.items ≡ machines.old.items) }
{
    match step {
        Step::Act(machine) => act_at(alloc, machines, *machine as usize),
        Step::Hear { at, from, number } => hear_at(
            alloc,
            machines,
            *at as usize,
            *from as usize,
            *number as usize,
        ),
        Step::Stop(machine) => Ok(stop_at(machines, *machine as usize)),
    }
}

/// The machine at this place does its next action, unless something prevents it.
fn act_at(alloc: Global, machines: &mut Vec<Machine>, at: usize) -> Result<Stepped, Memory>
    requires { at < vec_len machines.old }
    ensures ok { IfOk result (λ stepped.
        ActsAt at machines.old.items stepped machines.new.items) }
    ensures err { OnErr result (machines.new.items ≡ machines.old.items) }
{
    match machines[at].act(alloc, 0)? {
        Acted::Did { .. } => Ok(Stepped::Did),
        _ => Ok(Stepped::Nothing),
    }
}

/// The machine at this place hears another's entry with this number, if it was sent and can be
/// taken.
fn hear_at(
    alloc: Global,
    machines: &mut Vec<Machine>,
    at: usize,
    from: usize,
    number: usize,
) -> Result<Stepped, Memory>
    requires at { at < vec_len machines.old }
    requires from { from < vec_len machines.old }
    ensures ok { IfOk result (λ stepped.
        HearsAt at from number machines.old.items stepped machines.new.items) }
    ensures err { OnErr result (machines.new.items ≡ machines.old.items) }
{
    if at == from {
        return Ok(Stepped::Nothing);
    }
    let Some(entry) = machines[from].log().sent_at(number) else {
        return Ok(Stepped::Nothing);
    };
    if !machines[at].takes(entry) {
        return Ok(Stepped::Nothing);
    }
    let entry = entry.copy(alloc)?;
    Ok(give(machines, at, entry))
}

/// The machine at this place hears the entry, if it can be taken.
fn give(machines: &mut Vec<Machine>, at: usize, entry: Sealed) -> Stepped
    requires { at < vec_len machines.old }
    ensures { IsGiven at entry machines.old.items result machines.new.items }
{
    let heard = machines[at].hear(entry);
    stepped_in(heard)
}

/// Whether an entry that was answered so was taken.
fn stepped_in(heard: MachineHeard) -> Stepped
    ensures { result ≡ stepped_in heard }
{
    match heard {
        MachineHeard::Taken => Stepped::Did,
        _ => Stepped::Nothing,
    }
}

/// The machine at this place stops, unless it has.
fn stop_at(machines: &mut Vec<Machine>, at: usize) -> Stepped
    requires { at < vec_len machines.old }
    ensures { StopsMachine at machines.old.items result machines.new.items }
{
    if machines[at].has_stopped() {
        return Stepped::Nothing;
    }
    machines[at].stop();
    Stepped::Did
}
