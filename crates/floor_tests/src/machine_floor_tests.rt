//! Runs of a small script in threads, and turns of its stations on one thread. What they come to is
//! a worked play of the same script.
ghost use Rattle.std.specs.Prelude.{◌≡◌, All, IfOk, IfSome};
ghost use Rattle.election_script.specs.Lawful.{IsLawful};
ghost use Rattle.machine_floor.specs.Stations.{IsOfLinks, made_of};

use election_script::{Script, read};
use finished_floor::Floor;
use hall_outside::{MeetGate, OpenGate};
use machine_floor::{Links, Station, run_floor, stations};
use polling_world::Machine;
use std::alloc::{AllocError, Global};
use std::sync::Wait;
use std::test::Fail;

/// One session at one booth.
const SESSION: &str = "version 1\nseed 0102\nkey w4 h5\nlog 64\nlink 64\n\
    machine sv supervisor\nmachine b1 booth\n\
    do sv open\ndo sv authorise b1 1\ndo sv close\ndo b1 activate 1\n\
    do b1 commit 1 0707070707070707070707070707070707070707070707070707070707070707\n\
    do b1 cast 1 0707070707070707070707070707070707070707070707070707070707070707\n";

/// How many entries each machine sent and holds, and how many losses there are.
const COUNTS: &str = "3 6;3 6; 0";

/// The session's script.
fn session(alloc: Global) -> Result<Script, Fail>
    ensures { IfOk result IsLawful }
{
    match read(alloc, SESSION.as_bytes()) {
        Ok(script) => Ok(script),
        Err(_) => Err(Fail::from("the script is read")),
    }
}

/// Appends how many entries each machine sent and holds.
fn push_machines(text: &mut String, machines: &[Machine]) -> Result<(), Fail> {
    for machine in machines {
        let held = machine.log().events().len();
        write!(text, "{} {held};", machine.sent_count())?;
    }
    Ok(())
}

/// The counts of a run.
fn counts(alloc: Global, floor: &Floor) -> Result<String, Fail> {
    let mut text = String::new(alloc);
    push_machines(&mut text, &floor.machines)?;
    write!(text, " {}", floor.losses.len())?;
    Ok(text)
}

/// A turn of the station's hand.
fn hand<R: Wait>(
    rt: &R,
    alloc: Global,
    links: &Links,
    station: &mut Station,
) -> Result<bool, AllocError>
    requires { IsOfLinks links.now (made_of station.old) }
    ensures { made_of station.new ≡ made_of station.old }
{
    station.hand_turn(rt, alloc, links)
}

/// What turns of the first station's hand, and of the second's ear, hand and ear again, answer, and
/// how many losses there are then.
fn turns<R: Wait>(
    rt: &R,
    alloc: Global,
    links: &Links,
    sv: &mut Station,
    b1: &mut Station,
) -> [usize; 5]
    requires sv { IsOfLinks links.now (made_of sv.old) }
    requires b1 { IsOfLinks links.now (made_of b1.old) }
{
    let opened = hand(rt, alloc, links, sv);
    let heard = b1.ear_turn(rt, links);
    let acted = hand(rt, alloc, links, b1);
    let more = b1.ear_turn(rt, links);
    let lost = sv.losses().len() + b1.losses().len();
    [
        count(opened),
        heard as usize,
        count(acted),
        more as usize,
        lost,
    ]
}

/// The last of the stations, which are of these links.
fn last(links: &Links, all: &mut Vec<Station>) -> Option<Station>
    requires { All (λ s. IsOfLinks links.now (made_of s)) all.old.items }
    ensures of { IfSome result (λ s. IsOfLinks links.now (made_of s)) }
    ensures rest { All (λ s. IsOfLinks links.now (made_of s)) all.new.items }
{
    all.pop()
}

/// The same of two stations, which are of these links.
fn turns_of_two<R: Wait>(
    rt: &R,
    alloc: Global,
    links: &Links,
    mut two: Vec<Station>,
) -> Option<[usize; 5]>
    requires { All (λ s. IsOfLinks links.now (made_of s)) two.items }
{
    let mut b1 = last(links, &mut two)?;
    let mut sv = last(links, &mut two)?;
    Some(turns(rt, alloc, links, &mut sv, &mut b1))
}

/// How many actions a hand did in a turn, or 2 where memory was refused.
fn count(did: Result<bool, AllocError>) -> usize {
    match did {
        Ok(did) => usize::from(did),
        Err(_) => 2,
    }
}

/// Which worker did the first event of a machine.
fn first_worker(floor: &Floor, machine: usize) -> Option<u32> {
    let row = floor.by.get(machine)?;
    if row.is_empty() { None } else { row[0] }
}

/// Whether the supervisor's hand did its first event and the booth's ear that of the booth, and the
/// counts are the play's.
fn is_worked(alloc: Global, floor: &Floor) -> Result<bool, Fail> {
    let worked = first_worker(floor, 0) == Some(0) && first_worker(floor, 1) == Some(1);
    Ok(worked && counts(alloc, floor)?.as_str() == COUNTS)
}

/// The supervisor opens the place, which the booth hears; it isn't authorised yet, and no more was
/// sent.
#[test]
fn a_booth_hears_the_opening_and_waits(rt: HostRuntime) -> Result<(), Fail> {
    let script = session(rt.alloc())?;
    let (two, links) = stations(rt.alloc(), &script)?;
    let answers = turns_of_two(&rt, rt.alloc(), &links, two);
    assert_eq!(rt; answers, Some([1, 1, 0, 0, 0]));
    Ok(())
}

#[test]
fn a_run_comes_to_what_a_play_comes_to(rt: HostRuntime) -> Result<(), Fail> {
    let script = session(rt.alloc())?;
    let floor = run_floor(&rt, rt.alloc(), &script, &OpenGate)?;
    assert_eq!(rt; counts(rt.alloc(), &floor)?.as_str(), COUNTS);
    Ok(())
}

#[test]
fn a_hand_and_another_ear_meet(rt: HostRuntime) -> Result<(), Fail> {
    let script = session(rt.alloc())?;
    let gate = MeetGate::make(50_000_000);
    let floor = run_floor(&rt, rt.alloc(), &script, &gate)?;
    assert!(rt; gate.met() && is_worked(rt.alloc(), &floor)?);
    Ok(())
}
