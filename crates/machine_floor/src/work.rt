//! Two threads for each station.
ghost use Rattle.std.specs.Prelude.{◌≡◌, ◌<◌, ℕ, [], All, IfOk, slice_index_or};
ghost use Rattle.std.specs.Prelude.{vec_len};
ghost use Rattle.machine_floor.specs.Stations.{IsOfLinks, made_of};
ghost use Rattle.machine_floor.specs.declared.station.Station.{Station};

use crate::news::News;
use crate::station::Station;
use floor_links::Links;
use hall_outside::Gate;
use log_lock::{LogLock, Pass};
use polling_world::Memory;
use std::alloc::Global;
use std::sync::Wait;
use std::thread;
use std::thread::Threads;

// The bytes that have to be free for threads to be started, and are kept free until they have
// ended. So a limit on the address space, which their stacks take up, leaves room for the rest.
const ROOM: usize = 67_108_864;

// The turns of a station's hand: at most `turns`, each behind the gate and the lock, until no
// action is left. Where memory is refused it ends, and leaves the rest to whoever has the station.
fn hand<R: Wait, G: Gate>(
    rt: &R,
    alloc: Global,
    gate: &G,
    links: &Links,
    news: &News,
    lock: &LogLock<Station, Station>,
    mut pass: Pass<Station, Station>,
    machine: u32,
    turns: u32,
) -> Pass<Station, Station>
    requires lock { pass.lock ≡ lock.now }
    requires number { pass.number ≡ 0 }
    requires links { All (IsOfLinks links.now) pass.brand }
    ensures lock { result.lock ≡ lock.now }
    ensures number { result.number ≡ 0 }
    ensures brand { result.brand ≡ pass.brand }
{
    news.begin();
    for turn in 0..turns {
        let seen = news.turns();
        gate.pass(machine, false, turn);
        let mut guard = lock.hold(rt, pass);
        let did = guard.value().hand_turn(rt, alloc, links);
        let done = guard.value().machine().left().is_none();
        pass = lock.release(rt, guard);
        if did.is_err() {
            break;
        }
        if done {
            news.tell();
            break;
        }
        if did == Ok(false) {
            news.wait(rt, seen);
        } else {
            news.tell();
        }
    }
    news.end();
    pass
}

// The turns of a station's ear, each behind the gate and the lock.
fn ear<R: Wait, G: Gate>(
    rt: &R,
    gate: &G,
    links: &Links,
    news: &News,
    lock: &LogLock<Station, Station>,
    mut pass: Pass<Station, Station>,
    machine: u32,
    turns: u32,
) -> Pass<Station, Station>
    requires lock { pass.lock ≡ lock.now }
    requires number { pass.number ≡ 1 }
    requires links { All (IsOfLinks links.now) pass.brand }
    ensures lock { result.lock ≡ lock.now }
    ensures number { result.number ≡ 1 }
    ensures brand { result.brand ≡ pass.brand }
{
    news.begin();
    for turn in 0..turns {
        let seen = news.turns();
        gate.pass(machine, true, turn);
        let mut guard = lock.hold(rt, pass);
        let heard = guard.value().ear_turn(rt, links);
        pass = lock.release(rt, guard);
        if heard == 0 {
            news.wait(rt, seen);
        } else {
            news.tell();
        }
    }
    news.end();
    pass
}

// Both workers of one station, each in a thread.
fn work_station<R: Threads + Wait + Sync, G: Gate + Sync>(
    rt: &R,
    alloc: Global,
    gate: &G,
    links: &Links,
    news: &News,
    turns: u32,
    station: Station,
) -> Result<Station, Memory>
    requires links { IsOfLinks links.now (made_of station) }
    requires first { station.ticks ≡ [] }
    ensures { IfOk result (λ s. made_of s ≡ made_of station) }
{
    let machine = station.machine().log().owner();
    let (lock, first, second) = LogLock::<Station, Station>::make(rt, alloc, station)?;
    let shared = &lock;
    let (first, second) = thread::join(
        rt,
        move ||
            requires { (first.lock ≡ shared.now) × (first.number ≡ 0)
                × All (IsOfLinks links.now) first.brand }
            ensures { (result.lock ≡ shared.entry.now) × (result.number ≡ 0)
                × (result.brand ≡ first.brand) }
        { hand(rt, alloc, gate, links, news, shared, first, machine, turns) },
        move ||
            requires { (second.lock ≡ shared.now) × (second.number ≡ 1)
                × All (IsOfLinks links.now) second.brand }
            ensures { (result.lock ≡ shared.entry.now) × (result.number ≡ 1)
                × (result.brand ≡ second.brand) }
        { ear(rt, gate, links, news, shared, second, machine, turns) },
    );
    Ok(lock.close(rt, first, second))
}

// Lets each station be worked by two threads.
fn work_each<R: Threads + Wait + Sync, G: Gate + Sync>(
    rt: &R,
    alloc: Global,
    gate: &G,
    links: &Links,
    turns: u32,
    stations: Vec<Station>,
) -> Result<Vec<Station>, Memory>
    requires links { All (λ (s : Station). IsOfLinks links.now (made_of s)) stations.items }
    requires first { All (λ (s : Station). s.ticks ≡ []) stations.items }
    ensures count { IfOk result (λ after. vec_len after ≡ vec_len stations) }
    ensures made { IfOk result (λ after. (i : ℕ) (d : Station) → i < vec_len stations →
        made_of (slice_index_or after.items i d) ≡ made_of (slice_index_or stations.items i d)) }
{
    let news = &News::make(2 * stations.len() as u64);
    let done = thread::map_vec(
        rt,
        stations,
        &|station: Station| -> Result<Station, Memory>
            requires { IsOfLinks links.now (made_of station) × (station.ticks ≡ []) }
            ensures { IfOk result (λ s. made_of s ≡ made_of station) }
        { work_station(rt, alloc, gate, links, news, turns, station) },
    )?;
    let mut after = Vec::new(alloc);
    for station in done {
        after.push(station?)?;
    }
    Ok(after)
}

/// Lets each station be worked by two threads, its hand and its ear, for at most `turns` turns
/// each, and ends once all have ended. Each station comes back in its place, grown by turns. Where
/// there is no room for threads the stations come back as they are, and what a hand could not do
/// once memory ran out isn't done.
pub fn work_all<R: Threads + Wait + Sync, G: Gate + Sync>(
    rt: &R,
    alloc: Global,
    gate: &G,
    links: &Links,
    turns: u32,
    stations: Vec<Station>,
) -> Result<Vec<Station>, Memory>
    requires links { All (λ (s : Station). IsOfLinks links.now (made_of s)) stations.items }
    requires first { All (λ (s : Station). s.ticks ≡ []) stations.items }
    ensures count { IfOk result (λ after. vec_len after ≡ vec_len stations) }
    ensures made { IfOk result (λ after. (i : ℕ) (d : Station) → i < vec_len stations →
        made_of (slice_index_or after.items i d) ≡ made_of (slice_index_or stations.items i d)) }
{
    match Vec::<u8>::with_capacity(alloc, ROOM) {
        Ok(_room) => work_each(rt, alloc, gate, links, turns, stations),
        Err(_) => Ok(stations),
    }
}
