//! The script of a day of sessions, for demonstrations and measurements.
ghost use Rattle.std.specs.Prelude.{
  ◌≡◌,
  ◌≤◌,
  ◌+◌,
  ◌-◌,
  ◌++◌,
  ◌∷◌,
  [],
  length,
  replicate,
  reverse,
  IfOk,
  OnOk,
};
ghost use Rattle.std.specs.List.{flat_map, range_with_len};
ghost use Rattle.entry_order.specs.declared.step.Step.TheVariants.{Act};
ghost use Rattle.election_script.specs.Lawful.{IsLawful, max_actions};
ghost use Rattle.roster.specs.declared.post.Role.TheVariants.{Booth};
ghost use Rattle.election_script.specs.Generated.{
  supervisor,
  session_booth,
  session_ballot,
  deeds_of,
  supervisor_actions,
  actions_of,
  first_number,
  hears,
  supervisor_steps,
};
ghost use Rattle.election_script.specs.Generated.{
  others,
  session_steps,
  sessions,
  day_steps,
  machines_of,
  count_actions,
  generated,
};

use crate::script::{Cast0, Script};
use crate::writing::Memory;
use entry_format::Deed;
use entry_order::Step;
use item_list::Items;
use lms_ots::{OtsKind, u32_bytes, write_at};
use roster::{Name, Role};
use std::alloc::Global;

/// The supervisor's place among the machines. The booths follow it.
const SUPERVISOR: u32 = 0;

/// How many booths there are.
const BOOTHS: u32 = 3;

/// The booth of a session.
fn booth_of(session: u32) -> u32
    requires { 1 ≤ session }
    ensures { result ≡ session_booth session }
{
    1 + (session - 1) % BOOTHS
}

/// The ballot of a session.
fn ballot_of(session: u32) -> [u8; 32]
    ensures { result ≡ session_ballot session }
{
    let mut ballot = [0; 32];
    let octets = u32_bytes(session);
    for copy in 0..8usize {
        write_at(&mut ballot, 4 * copy, &octets);
    }
    ballot
}

/// Appends what its booth does in a session.
#[tactic(auto, unfolding(crate::specs::Generated::deeds_of))]
fn push_deeds(deeds: &mut Vec<Deed>, session: u32) -> Result<(), Memory>
    ensures { OnOk result (deeds.new.items ≡ deeds.old.items ++ deeds_of session) }
{
    deeds.push(Deed::Activate { session })?;
    if session % 10 == 0 {
        deeds.push(Deed::Cancel { session })?;
    } else {
        let ballot = ballot_of(session);
        deeds.push(Deed::Commit { session, ballot })?;
        deeds.push(Deed::Cast { session, ballot })?;
    }
    Ok(())
}

/// What a booth does on a day of n sessions.
fn actions_of(alloc: Global, booth: u32, n: u32) -> Result<Vec<Deed>, Memory>
    requires { n ≤ 800 }
    ensures { IfOk result (λ deeds. deeds.items ≡ actions_of booth n) }
{
    let mut deeds = Vec::new(alloc);
    for session in 1..n + 1 {
        if booth_of(session) == booth {
            push_deeds(&mut deeds, session)?;
        }
    }
    Ok(deeds)
}

/// What the supervisor does on a day of n sessions.
fn supervisor_actions(alloc: Global, n: u32) -> Result<Vec<Deed>, Memory>
    requires { n ≤ 800 }
    ensures { IfOk result (λ deeds. deeds.items ≡ supervisor_actions n) }
{
    let mut deeds = Vec::new(alloc);
    deeds.push(Deed::Opened)?;
    for session in 1..n + 1 {
        let booth = booth_of(session);
        deeds.push(Deed::Authorise { booth, session })?;
    }
    deeds.push(Deed::Closed)?;
    Ok(deeds)
}

/// Appends a machine with what it does.
fn push_machine(
    alloc: Global,
    machines: &mut Items<Cast0>,
    name: &str,
    role: Role,
    actions: Vec<Deed>,
) -> Result<(), Memory>
    ensures { OnOk result (machines.new ≡ machines.old
        ++ (record { name = name.now; role = role; actions = actions.items }) ∷ []) }
{
    let name = Name::new(String::from_str(alloc, name)?);
    let actions = Items::from_vec(actions);
    machines.push(Cast0 {
        name,
        role,
        actions,
    })
}

/// Appends a booth with what it does on a day of n sessions.
fn push_booth(
    alloc: Global,
    machines: &mut Items<Cast0>,
    name: &str,
    place: u32,
    n: u32,
) -> Result<(), Memory>
    requires { n ≤ 800 }
    ensures { OnOk result (machines.new ≡ machines.old
        ++ (record { name = name.now; role = Booth; actions = actions_of place n }) ∷ []) }
{
    let actions = actions_of(alloc, place, n)?;
    push_machine(alloc, machines, name, Role::Booth, actions)
}

/// The machines of a day of n sessions.
fn machines_of(alloc: Global, n: u32) -> Result<Items<Cast0>, Memory>
    requires { n ≤ 800 }
    ensures { IfOk result (λ machines. machines ≡ machines_of n) }
{
    let mut machines = Items::new(alloc);
    let actions = supervisor_actions(alloc, n)?;
    push_machine(alloc, &mut machines, "sv", Role::Supervisor, actions)?;
    push_booth(alloc, &mut machines, "b1", 1, n)?;
    push_booth(alloc, &mut machines, "b2", 2, n)?;
    push_booth(alloc, &mut machines, "b3", 3, n)?;
    Ok(machines)
}

/// How much the machines do in all.
fn count_actions(machines: &[Cast0]) -> u32
    requires { count_actions machines.now ≤ max_actions }
    ensures { result ≡ count_actions machines.now }
{
    let mut count = 0;
    for cast in machines {
        count += cast.actions.as_slice().len() as u32;
    }
    count
}

/// Appends that the supervisor makes its entry of this number, and that the booths hear it.
fn push_supervisor(steps: &mut Vec<Step>, number: u32) -> Result<(), Memory>
    ensures { OnOk result (steps.new.items ≡ steps.old.items ++ supervisor_steps number) }
{
    steps.push(Step::Act(SUPERVISOR))?;
    for at in 1..BOOTHS + 1 {
        let from = SUPERVISOR;
        steps.push(Step::Hear { at, from, number })?;
    }
    Ok(())
}

/// Appends that a machine acts this many times.
fn push_acts(steps: &mut Vec<Step>, machine: u32, count: u32) -> Result<(), Memory>
    ensures { OnOk result
        (steps.new.items ≡ steps.old.items ++ replicate count (Act machine)) }
{
    for done in 0..count {
        steps.push(Step::Act(machine))?;
    }
    Ok(())
}

/// Appends that the supervisor hears a machine's entries from `first` up to `end`, the last first.
fn push_back_hears(steps: &mut Vec<Step>, from: u32, first: u32, end: u32) -> Result<(), Memory>
    requires { first ≤ end }
    ensures { OnOk result (steps.new.items ≡ steps.old.items
        ++ hears supervisor from (reverse (range_with_len first (end - first)))) }
{
    for number in (first..end).rev() {
        let at = SUPERVISOR;
        steps.push(Step::Hear { at, from, number })?;
    }
    Ok(())
}

/// Appends that a machine hears another's entries from `first` up to `end`, the first first.
fn push_hears(steps: &mut Vec<Step>, at: u32, from: u32, first: u32, end: u32) -> Result<(), Memory>
    requires { first ≤ end }
    ensures { OnOk result (steps.new.items ≡ steps.old.items
        ++ hears at from (range_with_len first (end - first))) }
{
    for number in first..end {
        steps.push(Step::Hear { at, from, number })?;
    }
    Ok(())
}

/// Appends that the booths other than one hear its entries from `first` up to `end`.
fn push_others(steps: &mut Vec<Step>, from: u32, first: u32, end: u32) -> Result<(), Memory>
    requires { first ≤ end }
    ensures { OnOk result (steps.new.items ≡ steps.old.items
        ++ flat_map (λ other. hears other from (range_with_len first (end - first)))
        (others from)) }
{
    for at in 1..BOOTHS + 1 {
        if at != from {
            push_hears(steps, at, from, first, end)?;
        }
    }
    Ok(())
}

/// How many deeds its booth does in a session.
#[tactic(auto, unfolding(crate::specs::Generated::deeds_of))]
fn count_deeds(session: u32) -> u32
    ensures { result ≡ length (deeds_of session) }
{
    if session % 10 == 0 { 2 } else { 3 }
}

/// Appends the steps of a session, before which its booth has made `first` entries. The answer is
/// how many it has made after it.
fn push_session(steps: &mut Vec<Step>, session: u32, first: u32) -> Result<u32, Memory>
    requires session { (1 ≤ session) × (session ≤ 800) }
    requires first { first ≡ first_number session }
    ensures steps { OnOk result (steps.new.items ≡ steps.old.items ++ session_steps session) }
    ensures end { IfOk result (λ end. end ≡ first_number session + length (deeds_of session)) }
{
    let booth = booth_of(session);
    let count = count_deeds(session);
    let end = first + count;
    push_supervisor(steps, session)?;
    push_acts(steps, booth, count)?;
    push_back_hears(steps, booth, first, end)?;
    push_others(steps, booth, first, end)?;
    Ok(end)
}

/// Appends the steps of the sessions.
fn push_sessions(steps: &mut Vec<Step>, n: u32) -> Result<(), Memory>
    requires { n ≤ 800 }
    ensures { OnOk result
        (steps.new.items ≡ steps.old.items ++ flat_map session_steps (sessions n)) }
{
    // How many entries each booth has made.
    let mut made = [0; BOOTHS as usize];
    for session in 1..n + 1 {
        let place = ((session - 1) % BOOTHS) as usize;
        made[place] = push_session(steps, session, made[place])?;
    }
    Ok(())
}

/// The steps of a day of n sessions.
fn day_steps(alloc: Global, n: u32) -> Result<Vec<Step>, Memory>
    requires { n ≤ 800 }
    ensures { IfOk result (λ steps. steps.items ≡ day_steps n) }
{
    let mut steps = Vec::new(alloc);
    push_supervisor(&mut steps, 0)?;
    push_sessions(&mut steps, n)?;
    push_supervisor(&mut steps, n + 1)?;
    Ok(steps)
}

/// Makes the script of a day of n sessions in three booths, in which each tenth session is
/// cancelled, and every machine hears every entry at once.
pub fn make(alloc: Global, n: u32) -> Result<Script, Memory>
    requires { (1 ≤ n) × (n ≤ 800) }
    ensures value { IfOk result (λ script. script ≡ generated n) }
    ensures lawful { IfOk result IsLawful }
{
    let seed = Vec::from_slice(alloc, b"auditorium")?;
    let machines = machines_of(alloc, n)?;
    let steps = day_steps(alloc, n)?;
    Ok(Script {
        version: 1,
        seed: Items::from_vec(seed),
        kind: OtsKind::W4,
        height: 10,
        log: count_actions(machines.as_slice()),
        link: n + 2,
        machines,
        loses: Items::new(alloc),
        stops: Items::new(alloc),
        steps: Items::from_vec(steps),
    })
}
