// The command `order`: which of two entries came first, whatever was lost.
ghost use Rattle.std.specs.Prelude.{
  ◌≡◌,
  ◌≢◌,
  ◌<◌,
  ◌↔◌,
  ◌∷◌,
  map,
  length,
  IfOk,
  IfErr,
  IfSome,
  IsTrue,
  Some,
  slice_get,
  string_bytes,
};
ghost use Rattle.roster.specs.declared.post.Post.{Post};
ghost use Rattle.entry_format.specs.Nodes.{node_of_sealed};
ghost use Rattle.entry_graph.specs.EntryGraph.{IsEntryGraph};
ghost use Rattle.evidence.specs.Graphs.{entries_of};
ghost use Rattle.evidence.specs.Reading.{IsReadFrom};
ghost use Rattle.log_commands.specs.EntryWords.{IsNamedBy, IsNumbered, MeansEntry, by_number};
ghost use Rattle.log_commands.specs.Order.{AreOrderWords, IsOrderOver, order_parts};
ghost use Rattle.log_commands.specs.TwoEntries.{IsOrderAmong};
ghost use Rattle.log_commands.specs.inside.EntryNames.{IsLowerAt, IsPlaceOf, IsWordAt, word_by};
ghost use Rattle.log_commands.specs.inside.PlaceFiles.{GivesPlace, place_of};
ghost use Rattle.command_line.specs.Promise.{IsAnsweredBy};

use crate::entry_word::{Read, is_entry_word, read_word};
use crate::order_word::OrderWord;
use command_line::{Answer, Fault, Status, are_logs};
use entry_format::Sealed;
use entry_graph::Graph;
use entry_order::{Knot, Three, order_is_settled};
use evidence::{InputFault, RosterRead, graph_from, read_logs_by, read_roster};
use hall_outside::Store;
use input_causes::Cause;
use log_files::{EntryWork, LogRead};
use precedence::{Arrows, Rows};
use roster::Roster;
use std::alloc::{AllocError, Global};

/// Whether these are words for entries, and there are 1 to 16 logs.
pub fn are_ordered(x: &str, y: &str, logs: &[String]) -> bool
    ensures { IsTrue result ↔ AreOrderWords x.now y.now (map string_bytes logs.now) }
{
    is_entry_word(x) && is_entry_word(y) && are_logs(logs)
}

/// A roster, and the logs that were read by it.
#[derive(Drop)]
struct PlaceRead {
    read: RosterRead,
    logs: Vec<LogRead>,
}

/// Reads the roster and the logs.
fn read_place<W: EntryWork, S: Store>(
    work: &W,
    alloc: Global,
    store: &mut S,
    roster: &str,
    logs: &[String],
) -> Result<PlaceRead, InputFault>
    requires { W.may_share work.now }
    ensures { IsReadFrom S.Store place_of (roster.now ∷ map string_bytes logs.now)
        (GivesPlace roster.now (map string_bytes logs.now)) store.old result store.new }
{
    match read_roster(alloc, store, roster) {
        Ok(read) => match read_logs_by(work, alloc, store, logs, &read.roster, &read.election) {
            Ok(logs) => Ok(PlaceRead { read, logs }),
            Err(fault) => Err(fault),
        },
        Err(fault) => Err(fault),
    }
}

/// The answer of `order` for two words for entries, by the roster and the logs in these files.
pub fn order<W: EntryWork, S: Store>(
    work: &W,
    alloc: Global,
    store: &mut S,
    roster: &str,
    x: &str,
    y: &str,
    logs: &[String],
) -> Result<Answer, Fault>
    requires { W.may_share work.now }
    ensures { IsAnsweredBy S.Store (order_parts roster.now x.now y.now (map string_bytes logs.now))
        store.old result store.new }
{
    match read_place(work, alloc, store, roster, logs) {
        Ok(place) => {
            let PlaceRead { read, logs } = place;
            order_over(alloc, &read.roster, x, y, logs)
        }
        Err(fault) => Answer::of_fault(alloc, &fault),
    }
}

/// The answer over the entries that the logs keep.
fn order_over(
    alloc: Global,
    roster: &Roster,
    x: &str,
    y: &str,
    logs: Vec<LogRead>,
) -> Result<Answer, Fault>
    ensures told { IfOk result
        (IsOrderOver roster.now.machines x.now y.now (entries_of logs.items)) }
    ensures status { IfOk result (λ answer. answer.status ≢ Status.Absent) }
    ensures fault { IfErr result (λ fault. fault ≡ Fault.Memory) }
{
    match graph_from(alloc, logs) {
        Ok(graph) => Ok(order_among(alloc, roster, x, y, &graph)?),
        Err(fault) => Answer::of_fault(alloc, &fault),
    }
}

/// The answer among the survivors of the graph.
fn order_among(
    alloc: Global,
    roster: &Roster,
    x: &str,
    y: &str,
    graph: &Graph,
) -> Result<Answer, AllocError>
    requires { IsEntryGraph node_of_sealed graph.now }
    ensures told { IfOk result
        (IsOrderAmong roster.now.machines graph.now.survivors x.now y.now) }
    ensures status { IfOk result (λ answer. answer.status ≢ Status.Absent) }
{
    let Some(first) = place_of(roster, graph, x) else {
        return Answer::refused(alloc, x, 0, Cause::NoEntry);
    };
    let Some(second) = place_of(roster, graph, y) else {
        return Answer::refused(alloc, y, 0, Cause::NoEntry);
    };
    let word = word_at(alloc, graph, first, second)?;
    Answer::line(alloc, word.word())
}

/// The place of the survivor that the word means.
fn place_of(roster: &Roster, graph: &Graph, word: &str) -> Option<usize>
    ensures { IsPlaceOf (MeansEntry roster.now.machines graph.now.survivors word.now)
        graph.now.survivors result }
{
    match read_word(word.as_bytes()) {
        Some(Read::Digest(digest)) => place_of_digest(graph, &digest),
        Some(Read::Number(machine, number)) => place_of_number(roster, graph, machine, number),
        None => None,
    }
}

/// The place of the survivor that has the digest.
fn place_of_digest(graph: &Graph, digest: &[u8; 32]) -> Option<usize>
    ensures { IsPlaceOf (λ e. e.digest ≡ digest.now) graph.now.survivors result }
{
    for at in 0..graph.count() {
        if graph.node(at).digest() == digest {
            return Some(at);
        }
    }
    None
}

/// The place of the survivor that the machine of this name sent under this number; of several that
/// with the least digest.
fn place_of_number(roster: &Roster, graph: &Graph, machine: &[u8], number: u32) -> Option<usize>
    ensures { IsPlaceOf
        (IsNamedBy roster.now.machines graph.now.survivors (by_number machine.now number))
        graph.now.survivors result }
{
    let mut least: Option<usize> = None;
    for at in 0..graph.count() {
        if is_numbered(roster, graph.node(at), machine, number) && is_lower(graph, at, least) {
            least = Some(at);
        }
    }
    least
}

/// Whether the survivor at this place has a lower digest than that at the other, if there is one.
fn is_lower(graph: &Graph, at: usize, other: Option<usize>) -> bool
    requires at { at < length graph.now.survivors }
    requires other { IfSome other (λ place. place < length graph.now.survivors) }
    ensures { IsTrue result ↔ IsLowerAt graph.now.survivors at other }
{
    match other {
        Some(other) => {
            let digest = graph.node(other).digest();
            graph.node(at).digest().cmp(digest).is_lt()
        }
        None => true,
    }
}

/// Whether the machine of this name sent the entry under this number.
fn is_numbered(roster: &Roster, entry: &Sealed, machine: &[u8], number: u32) -> bool
    ensures { IsTrue result ↔ IsNumbered roster.now.machines machine.now number entry.now }
{
    has_name(roster, entry.maker() as usize, machine) && entry.number() == number
}

/// Whether the machine at this place has this name.
fn has_name(roster: &Roster, place: usize, machine: &[u8]) -> bool
    ensures { IsTrue result ↔ ((post : Post) × (slice_get roster.now.machines place ≡ Some post)
        × (post.name ≡ machine.now)) }
{
    let posts = roster.machines.as_slice();
    place < posts.len() && posts[place].name.as_str().as_bytes() == machine
}

/// Where the survivor at the first place comes relative to the one at the second.
fn word_at(
    alloc: Global,
    graph: &Graph,
    first: usize,
    second: usize,
) -> Result<OrderWord, AllocError>
    requires kept { IsEntryGraph node_of_sealed graph.now }
    requires first { first < length graph.now.survivors }
    requires second { second < length graph.now.survivors }
    ensures { IfOk result (IsWordAt graph.now.survivors first second) }
{
    if first == second {
        return Ok(OrderWord::Same);
    }
    let rows = Rows::make(alloc, graph)?;
    order_is_settled::<Sealed>();
    Ok(word_by(rows.before(first, second), rows.before(second, first)))
}

/// The word by what is known of the order of two different entries, this way and that way.
fn word_by(this: Three, that: Three) -> OrderWord
    ensures { result ≡ word_by this that }
{
    match (this, that) {
        (Three::True, _) => OrderWord::Before,
        (_, Three::True) => OrderWord::After,
        (Three::False, Three::False) => OrderWord::Apart,
        _ => OrderWord::Unknown,
    }
}
