//! A script of two sessions, and its machines before anything happened.
ghost use Rattle.std.specs.Prelude.{◌≡◌, ◌<◌, [], IfOk, length};
ghost use Rattle.election_script.specs.Lawful.{IsLawful};
ghost use Rattle.polling_world.specs.Keys.{roster_of};
ghost use Rattle.finished_floor.specs.Placed.{IsAt};
ghost use Rattle.finished_floor.specs.Places.{IsMachineOf, IsStopOf};

use election_script::{Script, StopAt, read};
use polling_world::{Machine, key_of};
use roster::Roster;
use std::alloc::{AllocError, Global};
use std::test::Fail;

/// A session at each of two booths.
const SESSIONS: &str = "machine sv supervisor\nmachine b1 booth\nmachine b2 booth\n\
    do sv open\ndo sv authorise b1 1\ndo sv authorise b2 2\ndo sv close\ndo b1 activate 1\n\
    do b1 commit 1 0707070707070707070707070707070707070707070707070707070707070707\n\
    do b1 cast 1 0707070707070707070707070707070707070707070707070707070707070707\n\
    do b2 activate 2\n\
    do b2 commit 2 0707070707070707070707070707070707070707070707070707070707070707\n\
    do b2 cast 2 0707070707070707070707070707070707070707070707070707070707070707\n";

/// The sessions' script with logs of this many events and these lines more.
pub(crate) fn script_of(alloc: Global, log: u32, lines: &str) -> Result<Script, Fail>
    ensures { IfOk result IsLawful }
{
    let text = format!(in alloc;
        "version 1\nseed 0102\nkey w2 h5\nlog {log}\nlink 64\n{SESSIONS}{lines}"
    )?;
    match read(alloc, text.as_bytes()) {
        Ok(script) => Ok(script),
        Err(_) => Err(Fail::from("the script is read")),
    }
}

/// Where the machine stops, by the script's lines.
fn stop_of(stops: &[StopAt], at: u32) -> Option<u32>
    ensures { IsStopOf stops.now at result }
{
    for stop in stops {
        if stop.machine == at {
            return Some(stop.events);
        }
    }
    None
}

/// The script's machine at the place, before anything happened.
pub(crate) fn machine_at(
    alloc: Global,
    script: &Script,
    roster: &Roster,
    at: u32,
) -> Result<Machine, AllocError>
    requires lawful { IsLawful script.now }
    requires at { at < length script.now.machines }
    requires roster { roster.now.machines ≡ roster_of script.now }
    ensures of { IfOk result (λ machine. IsMachineOf script.now at machine) }
    ensures at { IfOk result (λ machine. IsAt at machine) }
    ensures events { IfOk result (λ machine. machine.events ≡ []) }
{
    let key = key_of(alloc, script, at)?;
    let stop_at = stop_of(script.stops.as_slice(), at);
    let machine = Machine::make(alloc, script, roster, at, key, stop_at)?;
    let _log = machine.log();
    Ok(machine)
}
