//! Machines and plays of small scripts. What they come to was computed by another program.
ghost use Rattle.std.specs.Prelude.{◌≡◌, ◌<◌, length, IfOk};
ghost use Rattle.election_script.specs.Lawful.{IsLawful};
ghost use Rattle.polling_world.specs.Keys.{roster_of};

use election_script::{Script, read};
use entangled_log::Event;
use entry_format::Sealed;
use polling_world::{Acted, Machine, Memory, World, key_of, keys_by, keys_of, play, roster_of};
use roster::Roster;
use std::alloc::{AllocError, Global};
use std::test::Fail;
use ways_of_work::InThreads;

/// The script of these lines in this version, with logs of this many events.
pub(crate) fn script_of(alloc: Global, version: u32, log: u32, lines: &str) -> Result<Script, Fail>
    ensures { IfOk result IsLawful }
{
    let text = format!(in alloc;
        "version {version}\nseed 0102\nkey w4 h5\nlog {log}\nlink 64\n{lines}"
    )?;
    match read(alloc, text.as_bytes()) {
        Ok(script) => Ok(script),
        Err(_) => Err(Fail::from("the script is read")),
    }
}

/// A supervisor and a booth that do one session.
const SESSION: &str = "machine sv supervisor\nmachine b1 booth\n\
    do sv open\ndo sv authorise b1 1\ndo sv close\ndo b1 activate 1\n\
    do b1 commit 1 0707070707070707070707070707070707070707070707070707070707070707\n\
    do b1 cast 1 0707070707070707070707070707070707070707070707070707070707070707\n";

/// The roster of the script.
fn roster_in(alloc: Global, script: &Script) -> Result<Roster, AllocError>
    requires { IsLawful script.now }
    ensures { IfOk result (λ roster. roster.machines ≡ roster_of script.now) }
{
    let keys = keys_of(alloc, script)?;
    roster_of(alloc, script, &keys)
}

/// The script's machine at the place.
fn machine_in(
    alloc: Global,
    script: &Script,
    at: u32,
    stop_at: Option<u32>,
) -> Result<Machine, Memory>
    requires lawful { IsLawful script.now }
    requires at { at < length script.now.machines }
{
    let roster = roster_in(alloc, script)?;
    let key = key_of(alloc, script, at)?;
    Machine::make(alloc, script, &roster, at, key, stop_at)
}

/// The session's machine at the place, with a log of this many events.
fn machine_of(alloc: Global, log: u32, at: u32, stop_at: Option<u32>) -> Result<Machine, Fail> {
    let script = script_of(alloc, 1, log, SESSION)?;
    if at as usize >= script.machines.as_slice().len() {
        return Err(Fail::from("the script has the machine"));
    }
    Ok(machine_in(alloc, &script, at, stop_at)?)
}

/// The word of what became of an action.
fn word_of(acted: &Acted) -> &'static str {
    match acted {
        Acted::Did { .. } => "Ready",
        Acted::Stopped => "Stopped",
        Acted::NoMore => "NoMore",
        Acted::SupervisorNot(why) => why.word(),
        Acted::BoothNot(why) => why.word(),
        Acted::Full => "Full",
        Acted::StampSpent => "StampSpent",
        Acted::Spent => "Spent",
        Acted::SameDigest => "SameDigest",
    }
}

/// The word of what prevents the next action.
fn left_word(machine: &Machine) -> &'static str {
    match machine.left() {
        Some(left) => left.why.word(),
        None => "NoMore",
    }
}

/// What becomes of the next action, which is also what was reported of it before.
fn act_word(alloc: Global, machine: &mut Machine) -> Result<&'static str, AllocError> {
    let told = left_word(machine);
    let acted = machine.act(alloc, 1)?;
    if word_of(&acted) == told {
        Ok(told)
    } else {
        Ok("another cause was told")
    }
}

/// How many actions the machine does before it is refused one, and the cause.
fn acts(alloc: Global, machine: &mut Machine) -> Result<(u32, &'static str), AllocError> {
    for done in 0..6 {
        let word = act_word(alloc, machine)?;
        if word != "Ready" {
            return Ok((done, word));
        }
    }
    Ok((6, "Ready"))
}

/// The room in the log, the machine's place and where it stops; how many actions it does by itself,
/// and the cause against the next.
const ACTS: &[(u32, u32, Option<u32>, u32, &str)] = &[
    (64, 0, None, 2, "SessionsLeft"),
    (64, 1, None, 0, "NotAuthorised"),
    (1, 0, None, 1, "Full"),
    (64, 0, Some(1), 1, "Stopped"),
];

/// Whether the machine does this many actions by itself, and this is what prevents the next.
fn does(
    alloc: Global,
    log: u32,
    at: u32,
    stop_at: Option<u32>,
    want: (u32, &str),
) -> Result<bool, Fail> {
    let mut machine = machine_of(alloc, log, at, stop_at)?;
    let (done, why) = acts(alloc, &mut machine)?;
    Ok(done == want.0 && why == want.1)
}

#[test]
fn a_machine_acts_until_a_cause_stands_against_it(rt: HostRuntime) -> Result<(), Fail> {
    for &(log, at, stop_at, done, why) in ACTS {
        assert!(rt;
            does(rt.alloc(), log, at, stop_at, (done, why))?,
            "{log} {at} {stop_at:?}"
        );
    }
    Ok(())
}

/// Appends the lengths of the texts of the events.
fn push_lengths(text: &mut String, events: &[Event<Sealed>]) -> Result<(), Fail> {
    for event in events {
        write!(text, " {}", text_of(event).len())?;
    }
    Ok(())
}

/// Appends a machine's name, how many entries it sent, the lengths of the texts that it holds, and
/// why its next action isn't done.
fn push_machine(text: &mut String, machine: &Machine) -> Result<(), Fail> {
    write!(
        text,
        "{} sent {}, holds",
        machine.name(),
        machine.sent_count()
    )?;
    push_lengths(text, machine.log().events())?;
    writeln!(text, ", {}", left_word(machine))?;
    Ok(())
}

/// That of each machine.
fn outcome(alloc: Global, machines: &[Machine]) -> Result<String, Fail> {
    let mut text = String::new(alloc);
    for machine in machines {
        push_machine(&mut text, machine)?;
    }
    Ok(text)
}

/// The text of the event's entry.
fn text_of(event: &Event<Sealed>) -> &[u8] {
    match event {
        Event::Sent(sealed) => sealed.text(),
        Event::Got(sealed) => sealed.text(),
    }
}

/// The version of a script and its lines, and what it comes to.
const PLAYS: &[(u32, &str, &str)] = &[
    // A session from its authorisation to its ballot.
    (
        1,
        "machine sv supervisor\nmachine b1 booth\ndo sv open\ndo sv authorise b1 1\ndo sv close\n\
            do b1 activate 1\n\
            do b1 commit 1 0707070707070707070707070707070707070707070707070707070707070707\n\
            do b1 cast 1 0707070707070707070707070707070707070707070707070707070707070707\n\
            step act sv\nstep act sv\nstep hear b1 sv 0\nstep hear b1 sv 1\nstep act b1\n\
            step act b1\nstep act b1\nstep hear sv b1 0\nstep hear sv b1 1\nstep hear sv b1 2\n\
            step act sv\nstep hear b1 sv 2\n",
        "sv sent 3, holds 2431 2475 2471 2504 2502 2466, NoMore\n\
            b1 sent 3, holds 2431 2475 2471 2504 2502 2466, NoMore\n",
    ),
    // The ballot is challenged in place of being cast.
    (
        2,
        "machine sv supervisor\nmachine b1 booth\ndo sv open\ndo sv authorise b1 1\ndo sv close\n\
            do b1 activate 1\n\
            do b1 commit 1 0707070707070707070707070707070707070707070707070707070707070707\n\
            do b1 challenge 1 0707070707070707070707070707070707070707070707070707070707070707\n\
            step act sv\nstep act sv\nstep hear b1 sv 0\nstep hear b1 sv 1\nstep act b1\n\
            step act b1\nstep act b1\nstep hear sv b1 0\nstep hear sv b1 1\nstep hear sv b1 2\n\
            step act sv\nstep hear b1 sv 2\n",
        "sv sent 3, holds 2431 2475 2471 2504 2507 2466, NoMore\n\
            b1 sent 3, holds 2431 2475 2471 2504 2507 2466, NoMore\n",
    ),
    // The supervisor overrides by casting, so the booth can't cancel.
    (
        2,
        "machine sv supervisor\nmachine b1 booth\ndo sv open\ndo sv authorise b1 1\n\
            do sv override 1 cast\ndo sv close\ndo b1 activate 1\n\
            do b1 commit 1 0707070707070707070707070707070707070707070707070707070707070707\n\
            do b1 cancel 1\nstep act sv\nstep act sv\nstep hear b1 sv 0\nstep hear b1 sv 1\n\
            step act b1\nstep act b1\nstep hear sv b1 0\nstep hear sv b1 1\nstep act sv\n\
            step hear b1 sv 2\nstep act b1\n",
        "sv sent 3, holds 2431 2475 2471 2504 2477, SessionsLeft\n\
            b1 sent 2, holds 2431 2475 2471 2504 2477, CastForced\n",
    ),
    // The supervisor never hears the commitment.
    (
        2,
        "machine sv supervisor\nmachine b1 booth\ndo sv open\ndo sv authorise b1 1\n\
            do sv override 1 cast\ndo sv close\ndo b1 activate 1\n\
            do b1 commit 1 0707070707070707070707070707070707070707070707070707070707070707\n\
            do b1 cancel 1\nstep act sv\nstep act sv\nstep hear b1 sv 0\nstep hear b1 sv 1\n\
            step act b1\nstep act b1\nstep hear sv b1 0\nstep act sv\nstep hear b1 sv 2\n\
            step act b1\n",
        "sv sent 2, holds 2431 2475 2471, NothingCommitted\n\
            b1 sent 3, holds 2431 2475 2471 2504 2469, NoMore\n",
    ),
    // The supervisor hears nothing of the session.
    (
        1,
        "machine sv supervisor\nmachine b1 booth\ndo sv open\ndo sv authorise b1 1\ndo sv close\n\
            do b1 activate 1\n\
            do b1 commit 1 0707070707070707070707070707070707070707070707070707070707070707\n\
            do b1 cast 1 0707070707070707070707070707070707070707070707070707070707070707\n\
            step act sv\nstep act sv\nstep hear b1 sv 0\nstep hear b1 sv 1\nstep act b1\n\
            step act b1\nstep act b1\nstep act sv\nstep hear b1 sv 2\n",
        "sv sent 2, holds 2431 2475, SessionsLeft\n\
            b1 sent 3, holds 2431 2475 2471 2504 2502, NoMore\n",
    ),
    // The second booth lacks an entry that is named when it is to challenge.
    (
        2,
        "machine sv supervisor\nmachine b1 booth\nmachine b2 booth\ndo sv open\n\
            do sv authorise b1 1\ndo sv authorise b2 2\ndo b1 activate 1\n\
            do b1 commit 1 0707070707070707070707070707070707070707070707070707070707070707\n\
            do b2 activate 2\n\
            do b2 commit 2 0707070707070707070707070707070707070707070707070707070707070707\n\
            do b2 challenge 2 0707070707070707070707070707070707070707070707070707070707070707\n\
            step act sv\nstep act sv\nstep act sv\nstep hear b1 sv 0\nstep hear b1 sv 1\n\
            step hear b1 sv 2\nstep hear b2 sv 0\nstep hear b2 sv 1\nstep hear b2 sv 2\n\
            step act b1\nstep act b1\nstep hear b2 b1 1\nstep act b2\nstep act b2\nstep act b2\n",
        "sv sent 3, holds 2431 2475 2475, NoMore\n\
            b1 sent 2, holds 2431 2475 2475 2471 2504, NoMore\n\
            b2 sent 2, holds 2431 2475 2475 2504 2506 2504, LogNotWhole\n",
    ),
];

/// The world after the steps of the script of these lines in this version, with logs of 64 events.
pub(crate) fn played(alloc: Global, version: u32, lines: &str) -> Result<World, Fail> {
    let script = script_of(alloc, version, 64, lines)?;
    let keys = keys_of(alloc, &script)?;
    Ok(play(alloc, &script, keys)?)
}

/// Whether those lines come to this.
fn comes_to(alloc: Global, version: u32, lines: &str, want: &str) -> Result<bool, Fail> {
    let world = played(alloc, version, lines)?;
    Ok(outcome(alloc, &world.machines)?.as_str() == want)
}

#[test]
fn scripts_of_both_versions_are_played(rt: HostRuntime) -> Result<(), Fail> {
    for &(version, lines, want) in PLAYS {
        assert!(rt; comes_to(rt.alloc(), version, lines, want)?, "{lines}");
    }
    Ok(())
}

#[test]
fn keys_made_in_threads_are_the_same(rt: HostRuntime) -> Result<(), Fail> {
    let alloc = rt.alloc();
    let script = script_of(alloc, 1, 64, SESSION)?;
    let made = keys_of(alloc, &script)?;
    let in_threads = keys_by(&InThreads { rt: &rt }, alloc, &script)?;
    assert!(rt; made.len() == 2 && in_threads.len() == 2);
    for (one, other) in made.iter().zip(in_threads.iter()) {
        assert!(rt; one.public().bytes() == other.public().bytes());
    }
    Ok(())
}
