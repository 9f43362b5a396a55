//! What is done to the parts of a machine.
ghost use Rattle.std.specs.Prelude.{◌≡◌, ◌<◌, ◌≤◌, ◌+◌, ℕ, List, [], ◌∷◌, ◌++◌, length};
ghost use Rattle.std.specs.Prelude.{replicate, IfOk};
ghost use Rattle.entangled_log.specs.Hearing.{IsHearAnswer, log_after};
ghost use Rattle.entry_format.specs.Nodes.{node_of_sealed};
ghost use Rattle.entry_format.specs.SealedEntry.{SealedEntry};
ghost use Rattle.entry_order.specs.History.{entry_of};
ghost use Rattle.polling_world.specs.Kept.{StandFor, spare_of};
ghost use Rattle.polling_world.specs.Machines.{is_reached};
ghost use Rattle.polling_world.specs.Making.{election_of};
ghost use Rattle.polling_world.specs.Rules.{entries_in};
ghost use Rattle.entry_order.specs.declared.event.Event.{Event};
ghost use Rattle.roster.specs.declared.post.Role.{Role};
ghost use Rattle.roster.specs.Machines.{HaveText};

use crate::rules::Rules;
use election_script::Cast0;
use entangled_log::{Event, Heard, Log};
use entry_format::{Deed, Entry, Sealed};
use roster::{Name, Roster, election};
use std::alloc::{AllocError, Global};

/// Whether there is a number of events to stop at, and there are that many.
pub fn is_reached(stop_at: Option<u32>, count: usize) -> bool
    ensures { result ≡ is_reached stop_at count }
{
    match stop_at {
        None => false,
        Some(stop_at) => stop_at as usize <= count,
    }
}

/// The name and the actions of a machine of a script.
pub fn copy_cast(alloc: Global, cast: &Cast0) -> Result<(Name, Vec<Deed>), AllocError>
    ensures name { IfOk result (λ copy. copy.0 ≡ cast.now.name) }
    ensures actions { IfOk result (λ copy. copy.1.items ≡ cast.now.actions) }
{
    let name = String::from_str(alloc, cast.name.as_str())?;
    let actions = Vec::from_slice(alloc, cast.actions.as_slice())?;
    Ok((Name::new(name), actions))
}

/// A copy of the roster, and SHA-256 of its text.
pub fn copy_roster(alloc: Global, roster: &Roster) -> Result<(Roster, [u8; 32]), AllocError>
    requires { HaveText roster.now.machines }
    ensures copy { IfOk result (λ copy. copy.0.machines ≡ roster.now.machines) }
    ensures election { IfOk result (λ copy. copy.1 ≡ election_of roster.now.machines) }
{
    let text = roster.write(alloc)?;
    let election = election(&text);
    Ok((roster.copy(alloc)?, election))
}

/// Equal copies of the entry.
pub fn copies_of(alloc: Global, sealed: &Sealed, count: usize) -> Result<Vec<Sealed>, AllocError>
    ensures { IfOk result (λ copies. copies.items ≡ replicate count sealed.now) }
{
    let mut copies = Vec::with_capacity(alloc, count)?;
    for _copy in 0..count {
        copies.push(sealed.copy(alloc)?)?;
    }
    Ok(copies)
}

/// Hears an entry into the log, for which the rules have room. It takes no memory.
pub fn hear_into(log: &mut Log<Sealed>, rules: &mut Rules, s: Sealed) -> Heard<Sealed>
    requires { log.old.capacity ≤ length log.old.events + spare_of rules.old }
    ensures answer { IsHearAnswer node_of_sealed log.old s result }
    ensures log { log.new ≡ log_after result s log.old }
    ensures rules { (role : Role) (owner : ℕ) →
        StandFor rules.old role owner (entries_in log.old.events) →
        StandFor rules.new role owner (entries_in log.new.events) }
    ensures spare { log.new.capacity ≤ length log.new.events + spare_of rules.new }
{
    let heard = log.hear(s);
    if let Heard::Taken = heard {
        note_last(rules, log.events());
    }
    heard
}

/// Notes the last of the events that the machine has. It takes no memory.
pub fn note_last(rules: &mut Rules, events: &[Event<Sealed>])
    requires some { 0 < length events.now }
    requires spare { 1 ≤ spare_of rules.old }
    ensures kept { (role : Role) (owner : ℕ) (before : List (Event SealedEntry))
        (x : Event SealedEntry) → events.now ≡ before ++ x ∷ [] →
        StandFor rules.old role owner (entries_in before) →
        StandFor rules.new role owner (entries_in events.now) }
    ensures spare { spare_of rules.old ≤ spare_of rules.new + 1 }
{
    let last = &events[events.len() - 1];
    rules.note(entry_of(last));
}

/// What was said in the entry of the event.
fn entry_of(event: &Event<Sealed>) -> &Entry
    ensures { result.now ≡ (entry_of event.now).entry }
{
    match event {
        Event::Sent(sealed) => sealed.entry(),
        Event::Got(sealed) => sealed.entry(),
    }
}
