//! The stations of a script.
ghost use Rattle.std.specs.Prelude.{◌≡◌, ◌<◌, [], All, IfOk, length, map};
ghost use Rattle.election_script.specs.Lawful.{IsLawful};
ghost use Rattle.finished_floor.specs.Places.{IsStopOf};
ghost use Rattle.machine_floor.specs.Fresh.{AreNewStations};
ghost use Rattle.machine_floor.specs.inside.Beginning.{HasBegun, MayBegin};
ghost use Rattle.polling_world.specs.Keys.{IsKeyOf, key_of, roster_of};
ghost use Rattle.machine_floor.specs.Stations.{IsOfLinks, made_of};

use crate::station::Station;
use broadcast_queues::{LinkIn, LinkOut};
use election_script::{Script, StopAt};
use floor_links::{Broadcast, Links, NewLinks, make_links};
use lms_sign::LmsSecret;
use polling_world::{Machine, Memory, keys_of, roster_of};
use roster::Roster;
use std::alloc::Global;

/// The stations of a script with its roster, and the links between them.
pub(crate) struct Prepared {
    pub(crate) roster: Roster,
    pub(crate) stations: Vec<Station>,
    pub(crate) links: Links,
}

/// One station for each machine of the script, in its order, and the links between them. All memory
/// that turns need beside that for entries is taken here. Making the machines' keys takes a while.
pub fn stations(alloc: Global, script: &Script) -> Result<(Vec<Station>, Links), Memory>
    requires { IsLawful script.now }
    ensures new { IfOk result (λ made. AreNewStations script.now made.1 made.0.items) }

    // So they can be worked.
    ensures links { IfOk result (λ made. All (λ s. IsOfLinks made.1 (made_of s)) made.0.items) }
    ensures first { IfOk result (λ made. All (λ s. s.ticks ≡ []) made.0.items) }
{
    let Prepared {
        roster: _,
        stations,
        links,
    } = prepare(alloc, script, keys_of(alloc, script)?)?;
    Ok((stations, links))
}

/// The same with the roster, of machines with these keys.
pub(crate) fn prepare(
    alloc: Global,
    script: &Script,
    keys: Vec<LmsSecret>,
) -> Result<Prepared, Memory>
    requires lawful { IsLawful script.now }
    requires keys { keys.items ≡ map (key_of script.now) script.now.machines }
    ensures roster { IfOk result (λ p. p.roster.machines ≡ roster_of script.now) }
    ensures new { IfOk result (λ p. AreNewStations script.now p.links p.stations.items) }

    // So they can be worked.
    ensures links { IfOk result (λ p. All (λ s. IsOfLinks p.links (made_of s)) p.stations.items) }
    ensures first { IfOk result (λ p. All (λ s. s.ticks ≡ []) p.stations.items) }
{
    let roster = roster_of(alloc, script, &keys)?;
    let count = script.machines.as_slice().len();
    let NewLinks { links, outs, inns } = make_links(alloc, count, script.link as usize)?;
    let mut outs = outs.into_iter();
    let mut inns = inns.into_iter();
    let mut all = Vec::new(alloc);
    for key in keys {
        let at = all.len() as u32;
        let Some(ends_out) = outs.next() else {
            unreachable!();
        };
        let Some(ends_in) = inns.next() else {
            unreachable!();
        };
        all.push(station_of(alloc, script, &roster, at, key, ends_out, ends_in)?)?;
    }
    Ok(Prepared {
        roster,
        stations: all,
        links,
    })
}

// The station of the script's machine at a place, which has this key and these ends of its links.
fn station_of(
    alloc: Global,
    script: &Script,
    roster: &Roster,
    at: u32,
    key: LmsSecret,
    outs: Vec<LinkOut<Broadcast>>,
    inns: Vec<LinkIn<Broadcast>>,
) -> Result<Station, Memory>
    requires lawful { IsLawful script.now }
    requires at { at < length script.now.machines }
    requires roster { roster.now.machines ≡ roster_of script.now }
    requires key { IsKeyOf script.now at key }
    requires ends { MayBegin script.now at outs.items inns.items }
    ensures { IfOk result (HasBegun script.now at outs.items inns.items) }
{
    let stop_at = stop_of(script.stops.as_slice(), at);
    let machine = Machine::make(alloc, script, roster, at, key, stop_at)?;
    Station::new(alloc, script, machine, outs, inns)
}

// The number of events at which the machine stops, if a line says so.
fn stop_of(stops: &[StopAt], machine: u32) -> Option<u32>
    ensures { IsStopOf stops.now machine result }
{
    for stop in stops {
        if stop.machine == machine {
            return Some(stop.events);
        }
    }
    None
}
