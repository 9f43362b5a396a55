//! Rosters' texts: what is accepted, and the first fault of what isn't.
use hex::encode;
use roster::{Roster, election};
use std::alloc::Global;
use std::test::Fail;

const KEY: &str = "kkkkkkkkkkkkkkkkkkkkkkkkkkkkkkkkkkkkkkkkkkkkkkkkkkkkkkkk";

/// The text of a machine that is given as `NAME ROLE`.
fn post_text(alloc: Global, machine: &str) -> Result<String, Fail> {
    let (name, role) = machine.split_once(" ").unwrap_or((machine, ""));
    Ok(format!(in alloc; "({}:{name}{}:{role}56:{KEY})", name.len(), role.len())?)
}

/// The text of a roster with more bytes after it. The machines are given as
/// `NAME ROLE, NAME ROLE`.
fn text_of(alloc: Global, machines: &str, more: &str) -> Result<String, Fail> {
    let mut text = String::from_str(alloc, "(6:roster1:1")?;
    for machine in machines.split(", ") {
        if !machine.is_empty() {
            text.push_str(post_text(alloc, machine)?.as_str())?;
        }
    }
    text.push(')')?;
    text.push_str(more)?;
    Ok(text)
}

/// The fault of a text, or `none`.
fn fault_in(alloc: Global, text: &str) -> Result<String, Fail> {
    match Roster::read(alloc, text.as_bytes()) {
        Ok(_) => Ok(String::from_str(alloc, "none")?),
        Err(fault) => Ok(format!(in alloc; "{fault:?}")?),
    }
}

/// Machines, the bytes after their roster's text, and the first fault.
const MACHINES: &str = "sv supervisor, b1 booth | = none
sv supervisor | = none
sv supervisor, abcdefghij012345 booth | = none
 | = NotOneSupervisor
b1 booth | = NotOneSupervisor
sv supervisor, s2 supervisor | = NotOneSupervisor
sv supervisor, sv supervisor | = SameName
Sv supervisor, Sv supervisor | = BadName
sv supervisor, abcdefghij0123456 booth | = BadName
sv supervisor,  booth | = BadName
a booth, b booth, c booth, d booth, e booth, f booth, g booth, h booth, i booth, \
j booth, k booth, l booth, m booth, n booth, o booth, p booth, a booth | = TooManyMachines
Sv supervisor, b1 Booth | = WrongShape
sv supervisor |) = NotCanonical(91)";

#[test]
fn the_first_fault_of_machines(rt: HostRuntime) -> Result<(), Fail> {
    let alloc = rt.alloc();
    for row in MACHINES.lines() {
        if let Some((given, want)) = row.split_once(" = ") {
            let (machines, more) = given.split_once(" |").unwrap_or((given, ""));
            let text = text_of(alloc, machines, more)?;
            let fault = fault_in(alloc, text.as_str())?;
            assert_eq!(rt; fault.as_str(), want, "{given}");
        }
    }
    Ok(())
}

/// Texts with their faults.
const TEXTS: &str = "(6:roster1:1 = NotCanonical(12)
(6:roster01:1) = NotCanonical(10)
6:roster = WrongShape
(6:roster1:2) = WrongShape";

#[test]
fn the_first_fault_of_texts(rt: HostRuntime) -> Result<(), Fail> {
    for row in TEXTS.lines() {
        if let Some((text, want)) = row.split_once(" = ") {
            let fault = fault_in(rt.alloc(), text)?;
            assert_eq!(rt; fault.as_str(), want, "{text}");
        }
    }
    Ok(())
}

#[test]
fn a_roster_is_written_as_it_was_read(rt: HostRuntime) -> Result<(), Fail> {
    let alloc = rt.alloc();
    let text = text_of(alloc, "sv supervisor, b1 booth", "")?;
    let roster = Roster::read(alloc, text.as_bytes())?;
    let written = roster.copy(alloc)?.write(alloc)?;
    assert_eq!(rt; written.as_slice(), text.as_bytes());
    let digest = encode(alloc, election(text.as_bytes()))?;
    assert_eq!(rt;
        digest.as_str(),
        "969b18fd34b2e3c84f12672aceb8b2112fd5b7b4eb66e63b336132453acf1df9"
    );
    Ok(())
}
