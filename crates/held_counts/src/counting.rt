//! Whether an entry was held before another was sent.

ghost use Rattle.std.specs.Prelude.{◌≡◌, ◌<◌, ◌^◌, ◌↔◌, IfOk, IsTrue, length, map, replicate};
ghost use Rattle.held_counts.specs.inside.Counts.{
  is_held_before,
  raised,
  spread,
  spread_one,
  spread_times,
  taken_in,
};
ghost use Rattle.held_counts.specs.Places.{IsSentAt};
ghost use Rattle.entry_order.specs.History.{held, greatest_stamp};
ghost use Rattle.entry_order.specs.World.{history};
ghost use Rattle.entry_order.specs.HeldBefore.{HeldBefore};
ghost use Rattle.entry_order.specs.Receipt.{IsOrderly};

use crate::recorder::Recorder;
use crate::stamps::clock;
use entry_order::{Event, Knot};
use std::alloc::{AllocError, Global};

// One count for each machine says how many of its entries, from the first on, are reached from the
// second entry. At first that is what the second's maker held. Then, as often as that can add any,
// what the maker of each machine's last entry that is counted held is counted too. Each function
// that changes the counts answers whether it has raised one.

// The maker's count takes in its entry with this number.
fn raise(counts: &mut [usize], maker: usize, number: usize) -> bool
    requires { number < 2 ^ 32 }
    ensures counts { counts.new ≡ raised counts.old maker number }
    ensures same { ¬ IsTrue result → counts.new ≡ counts.old }
{
    if maker < counts.len() && counts[maker] <= number {
        counts[maker] = number + 1;
        return true;
    }
    false
}

// The counts take in what was held when the entry with this number was sent.
fn take_in<T: Knot>(history: &[Event<T>], number: usize, counts: &mut [usize]) -> bool
    ensures counts { counts.new ≡ taken_in T.node history.now number counts.old }
    ensures same { ¬ IsTrue result → counts.new ≡ counts.old }
{
    let mut left = number;
    let mut any = false;
    for event in history {
        if let Event::Sent(_) = event {
            if left == 0 {
                return any;
            }
            left -= 1;
        }
        let risen = raise(counts, event.maker() as usize, event.number() as usize);
        any = any || risen;
    }
    any
}

// The counts take in what was held when the last entry of one machine that is counted was sent.
fn spread_machine<M: Recorder>(machine: &M, place: usize, counts: &mut [usize]) -> bool
    requires { place < length counts.old }
    ensures counts { counts.new ≡ spread_one M.Entry.node (M.machine machine.now) place counts.old }
    ensures same { ¬ IsTrue result → counts.new ≡ counts.old }
{
    let count = counts[place];
    if count == 0 {
        return false;
    }
    take_in(machine.events(), count - 1, counts)
}

// The same for each machine in turn.
fn spread_all<M: Recorder>(machines: &[M], counts: &mut [usize]) -> bool
    requires { length counts.old ≡ length machines.now }
    ensures counts { counts.new ≡ spread M.Entry.node (map M.machine machines.now) 0 counts.old }
    ensures same { ¬ IsTrue result → counts.new ≡ counts.old }
{
    let mut any = false;
    for (place, machine) in machines.iter().enumerate() {
        let risen = spread_machine(machine, place, counts);
        any = any || risen;
    }
    any
}

// As many such rounds. After a round that raises nothing no other would.
fn spread_rounds<M: Recorder>(machines: &[M], rounds: u32, counts: &mut [usize])
    requires { length counts.old ≡ length machines.now }
    ensures { counts.new
        ≡ spread_times M.Entry.node rounds (map M.machine machines.now) counts.old }
{
    for _round in 0..rounds {
        if !spread_all(machines, counts) {
            return;
        }
    }
}

// The counts from one entry on, after this number of rounds.
fn count_from<M: Recorder>(
    machines: &[M],
    rounds: u32,
    machine: usize,
    number: usize,
    counts: &mut [usize],
)
    requires in_world { machine < length machines.now }
    requires as_long { length counts.old ≡ length machines.now }
    ensures { counts.new ≡ spread_times M.Entry.node rounds (map M.machine machines.now)
        (taken_in M.Entry.node (history (map M.machine machines.now) machine) number counts.old) }
{
    take_in(machines[machine].events(), number, counts);
    spread_rounds(machines, rounds, counts);
}

// The logical clock of one machine.
fn clock_of<M: Recorder>(machines: &[M], machine: usize) -> u32
    requires { machine < length machines.now }
    ensures { result ≡ greatest_stamp M.Entry.node
        (held (history (map M.machine machines.now) machine)) }
{
    clock(machines[machine].events())
}

// Whether the first is counted from the second, where each count is 0 before.
fn is_counted<M: Recorder>(
    machines: &[M],
    first: (usize, usize),
    second: (usize, usize),
    counts: &mut [usize],
) -> bool
    requires first_in { first.0 < length machines.now }
    requires second_in { second.0 < length machines.now }
    requires zeros { counts.old ≡ replicate (length machines.now) 0 }
    ensures { result ≡ is_held_before M.Entry.node (map M.machine machines.now)
        first.0 first.1 second.0 second.1 }
{
    let rounds = clock_of(machines, second.0);
    count_from(machines, rounds, second.0, second.1, counts);
    let count = counts[first.0];
    first.1 < count
}

// The same with counts of its own.
fn counted_before<M: Recorder>(
    alloc: Global,
    machines: &[M],
    first: (usize, usize),
    second: (usize, usize),
) -> Result<bool, AllocError>
    requires first_in { first.0 < length machines.now }
    requires second_in { second.0 < length machines.now }
    ensures { IfOk result (λ yes.
        yes ≡ is_held_before M.Entry.node (map M.machine machines.now)
        first.0 first.1 second.0 second.1) }
{
    let mut counts = vec![in alloc; 0; machines.len()]?;
    Ok(is_counted(machines, first, second, &mut counts))
}

/// Whether the second's maker held the first or a descendant of it when it sent the second. Each is
/// named by its machine and its number, both counted from 0.
pub fn held_before<M: Recorder>(
    alloc: Global,
    machines: &[M],
    first: (usize, usize),
    second: (usize, usize),
) -> Result<bool, AllocError>
    requires first_in { first.0 < length machines.now }
    requires second_in { second.0 < length machines.now }
    requires orderly { IsOrderly M.Entry.node (map M.machine machines.now) }
    ensures { IfOk result (λ yes. let w = map M.machine machines.now in (f e : M.Entry) →
        IsSentAt w first.0 first.1 f → IsSentAt w second.0 second.1 e →
        IsTrue yes ↔ HeldBefore w f e) }
{
    counted_before(alloc, machines, first, second)
}
