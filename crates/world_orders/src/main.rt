//! Reads a small world as a list of steps, and prints its orders: of each machine the frontier,
//! which entries were held before which, and of the entries that are given the strays, the gaps,
//! and which precede which. Each answer is that of a call whose contract is the definition. With
//! the word `rows` it prints the order of the survivors by rows of their ancestors instead.
#![tactic(auto)]

ghost use Rattle.std.specs.Prelude.{◌≡◌, ◌<◌, length};
ghost use Rattle.entry_order.specs.Receipt.{IsOrderly};
ghost use Rattle.entry_order.specs.World.{start};
ghost use Rattle.world_orders.specs.Numbered.{shown_itself};

mod entry;
mod rows;
mod script;

use entry::{Entry, LOG};
use entry_order::Knot;
use rows::print_rows;
use script::Script;
use small_worlds::{
    Process, Sender, all_sent, gaps, held_before, held_frontier, is_stray, precedes, run,
    sent_count, start, survivors,
};
use std::alloc::{AllocError, Global};
use std::{env, io};

fn print_frontiers(rt: &impl Print, alloc: Global, machines: &[Process<Entry>]) -> io::Result<()> {
    for (place, machine) in machines.iter().enumerate() {
        let frontier = held_frontier(alloc, machine.events())?;
        for digest in &frontier {
            println!(rt; "frontier {place} {} {}", digest[0], digest[1])?;
        }
    }
    Ok(())
}

fn print_held_before(rt: &impl Print, alloc: Global, machines: &[Process<Entry>]) -> io::Result<()>
    requires { IsOrderly shown_itself machines.now }
{
    for a in 0..machines.len() {
        for i in 0..sent_count(machines[a].events()) {
            print_held_before_one(rt, alloc, machines, (a, i))?;
        }
    }
    Ok(())
}

// What was held before the entry: its machine and its number.
fn print_held_before_one(
    rt: &impl Print,
    alloc: Global,
    machines: &[Process<Entry>],
    second: (usize, usize),
) -> io::Result<()>
    requires in_world { second.0 < length machines.now }
    requires orderly { IsOrderly shown_itself machines.now }
{
    for b in 0..machines.len() {
        for j in 0..sent_count(machines[b].events()) {
            if held_before(alloc, machines, (b, j), second)? {
                println!(rt; "held {b} {j} {} {}", second.0, second.1)?;
            }
        }
    }
    Ok(())
}

fn print_strays(rt: &impl Print, given: &[Entry]) -> io::Result<()> {
    for entry in given {
        if is_stray(given, entry) {
            println!(rt; "stray {} {}", entry.maker, entry.number)?;
        }
    }
    Ok(())
}

fn print_gaps(rt: &impl Print, alloc: Global, given: &[Entry]) -> io::Result<()> {
    let survivors = survivors(alloc, given)?;
    let gaps = gaps(alloc, &survivors)?;
    for digest in &gaps {
        println!(rt; "gap {} {}", digest[0], digest[1])?;
    }
    Ok(())
}

fn print_precedes(rt: &impl Print, given: &[Entry]) -> io::Result<()> {
    for (j, second) in given.iter().enumerate() {
        for (i, first) in given.iter().enumerate() {
            if precedes(given, i, j) {
                println!(rt;
                    "precedes {} {} {} {}",
                    first.maker, first.number, second.maker, second.number
                )?;
            }
        }
    }
    Ok(())
}

// The entries that are given: what was sent and isn't lost, and what is forged.
fn given_of(
    alloc: Global,
    machines: &[Process<Entry>],
    script: &Script,
) -> Result<Vec<Entry>, AllocError> {
    let mut given = Vec::new(alloc);
    let sent = all_sent(alloc, machines)?;
    for entry in &sent {
        let own = (entry.maker, entry.number);
        if !script.lost.contains(&own) {
            given.push(entry.copy(alloc)?)?;
        }
    }
    for entry in &script.forged {
        given.push(entry.copy(alloc)?)?;
    }
    Ok(given)
}

// Plays the steps and prints all orders, or those by rows.
fn print_all(
    rt: &impl Print,
    alloc: Global,
    machines: &mut [Process<Entry>],
    script: &Script,
    by_rows: bool,
) -> io::Result<()>
    requires { machines.old ≡ start (length machines.old) }
{
    run(alloc, LOG, machines, &script.steps)?;
    let given = given_of(alloc, machines, script)?;
    if by_rows {
        return print_rows(rt, alloc, &given);
    }
    print_frontiers(rt, alloc, machines)?;
    print_held_before(rt, alloc, machines)?;
    print_strays(rt, &given)?;
    print_gaps(rt, alloc, &given)?;
    print_precedes(rt, &given)
}

fn main(rt: HostRuntime) -> anyhow::Result<()> {
    let alloc = rt.alloc();
    let mut script = Script::new(alloc);
    for (at, line) in rt.lines(alloc).enumerate() {
        if !script.take(alloc, line?.as_str())? {
            println!(rt; "line {at} is not a good one")?;
            return Ok(());
        }
    }
    let by_rows = env::args(&rt)?.skip(1).any(|word| word.as_str() == "rows");
    let mut machines = start(alloc, script.machines)?;
    print_all(&rt, alloc, &mut machines, &script, by_rows)?;
    Ok(())
}
