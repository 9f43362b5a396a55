//! The steps of a small world.

ghost use Rattle.std.specs.Prelude.{◌≡◌, ◌++◌, IfOk, OnOk, OnErr, slice_get, length};
ghost use Rattle.entry_order.specs.History.{sent};
ghost use Rattle.entry_order.specs.Naming.{Distinct};
ghost use Rattle.entry_order.specs.World.{start, happens, play, history, sent_in};
ghost use Rattle.entry_order.specs.Receipt.{IsOrderly, OrderIsReceiptIn};
ghost use Rattle.entry_order.specs.declared.step.Step.TheVariants.{Act, Hear, Stop};

use crate::machine::{Process, Sender};
use entry_order::{Event, Step};
use std::alloc::{AllocError, Global};

/// This number of machines before anything happens.
pub fn start<T: Sender>(alloc: Global, count: u32) -> Result<Vec<Process<T>>, AllocError>
    ensures { IfOk result (λ machines. machines.items ≡ start count) }
{
    let mut machines = Vec::new(alloc);
    for _place in 0..count {
        machines.push(Process::new(alloc))?;
    }
    Ok(machines)
}

/// All steps, in order, from the start. `log` is how many events a machine has at most that still
/// hears.
pub fn run<T: Sender>(
    alloc: Global,
    log: usize,
    machines: &mut [Process<T>],
    steps: &[Step],
) -> Result<(), AllocError>
    requires { machines.old ≡ start (length machines.old) }
    ensures played { OnOk result
        (machines.new ≡ play T.node T.next log (start (length machines.old)) steps.now) }
    ensures orderly { OnOk result (IsOrderly T.node machines.new) }
    ensures order { OnOk result
        (Distinct T.node (sent_in machines.new) → OrderIsReceiptIn T.node machines.new) }
{
    play(alloc, log, machines, steps)
}

/// All steps, in order. Where memory runs out, this number of them were done.
pub fn play<T: Sender>(
    alloc: Global,
    log: usize,
    machines: &mut [Process<T>],
    steps: &[Step],
) -> Result<(), AllocError>
    ensures { OnOk result (machines.new ≡ play T.node T.next log machines.old steps.now) }
{
    for step in steps {
        take_step(alloc, log, machines, step)?;
    }
    Ok(())
}

// One step.
fn take_step<T: Sender>(
    alloc: Global,
    log: usize,
    machines: &mut [Process<T>],
    step: &Step,
) -> Result<(), AllocError>
    ensures ok { OnOk result (machines.new ≡ happens T.node T.next log machines.old step.now) }
    ensures err { OnErr result (machines.new ≡ machines.old) }
{
    match step {
        Step::Act(machine) => act(alloc, log, machines, *machine as usize),
        Step::Hear { at, from, number } => hear(
            alloc,
            log,
            machines,
            *at as usize,
            *from as usize,
            *number as usize,
        ),
        Step::Stop(machine) => {
            stop(log, machines, *machine as usize);
            Ok(())
        }
    }
}

// One machine acts.
#[tactic(auto, using(crate::proofs::Fusions::changes))]
fn act<T: Sender>(
    alloc: Global,
    log: usize,
    machines: &mut [Process<T>],
    machine: usize,
) -> Result<(), AllocError>
    ensures ok { OnOk result (machines.new ≡ happens T.node T.next log machines.old (Act machine)) }
    ensures err { OnErr result (machines.new ≡ machines.old) }
{
    if machine < machines.len() {
        machines[machine].act(alloc, machine)?;
    }
    Ok(())
}

// One machine stops.
#[tactic(auto, using(crate::proofs::Fusions::changes))]
fn stop<T: Sender>(log: usize, machines: &mut [Process<T>], machine: usize)
    ensures { machines.new ≡ happens T.node T.next log machines.old (Stop machine) }
{
    if machine < machines.len() {
        machines[machine].stop();
    }
}

// One machine hears what another has sent.
#[tactic(auto, using(crate::proofs::Fusions::changes))]
fn hear<T: Sender>(
    alloc: Global,
    log: usize,
    machines: &mut [Process<T>],
    at: usize,
    from: usize,
    number: usize,
) -> Result<(), AllocError>
    ensures ok { OnOk result
        (machines.new ≡ happens T.node T.next log machines.old (Hear at from number)) }
    ensures err { OnErr result (machines.new ≡ machines.old) }
{
    if at != from && at < machines.len() {
        let entry = sent_at(alloc, machines, from, number)?;
        machines[at].hear(log, entry)?;
    }
    Ok(())
}

// A copy of a machine's entry of this number.
fn sent_at<T: Sender>(
    alloc: Global,
    machines: &[Process<T>],
    from: usize,
    number: usize,
) -> Result<Option<T>, AllocError>
    ensures { IfOk result (λ entry. entry ≡ slice_get (sent (history machines.now from)) number) }
{
    if from < machines.len() {
        machines[from].sent_copy(alloc, number)
    } else {
        Ok(None)
    }
}

/// Copies of all entries that were sent, machine by machine.
pub fn all_sent<T: Sender>(alloc: Global, machines: &[Process<T>]) -> Result<Vec<T>, AllocError>
    ensures { IfOk result (λ entries. entries.items ≡ sent_in machines.now) }
{
    let mut entries = Vec::new(alloc);
    for machine in machines {
        push_sent(alloc, machine.events(), &mut entries)?;
    }
    Ok(entries)
}

// Adds copies of what was sent in this history.
fn push_sent<T: Sender>(
    alloc: Global,
    history: &[Event<T>],
    entries: &mut Vec<T>,
) -> Result<(), AllocError>
    ensures { OnOk result (entries.new.items ≡ entries.old.items ++ sent history.now) }
{
    for event in history {
        if let Event::Sent(entry) = event {
            entries.push(entry.copy(alloc)?)?;
        }
    }
    Ok(())
}
