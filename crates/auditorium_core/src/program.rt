// From the words of the command line to the bytes that go out.
ghost use Rattle.std.specs.Prelude.{◌≡◌, ℕ, List, IfNone, IfSome, map, string_bytes};
ghost use Rattle.auditorium_core.specs.Outcome.{HasDone, IsGivenBy};
ghost use Rattle.command_line.specs.Heard.{HasHeard, IsSaid};
ghost use Rattle.command_line.specs.Outside.{outside};
ghost use Rattle.auditorium_core.specs.Words.{IsAny, IsStill, Means, command_parts, run};
ghost use Rattle.auditorium_core.specs.inside.Meaning.{asked};
ghost use Rattle.auditorium_core.specs.inside.Promise.{AreAnswered};
ghost use Rattle.command_line.specs.Promise.{IsAnsweredBy};

use crate::demonstrating::demonstrate;
use crate::words::{Request, request_of};
use command_line::{Answer, Fault, Listener, Nobody, Status, end_heard};
use hall_outside::{Gate, Sink, Store};
use lms_sign::LeafWork;
use log_commands::audit::audit;
use log_commands::check::check;
use log_commands::gaps::gaps;
use log_commands::order::order;
use log_commands::prove::prove;
use log_commands::watch::watch;
use log_files::EntryWork;
use office_commands::endorse::endorse;
use office_commands::endorsed::endorsed;
use office_commands::office::office;
use place_commands::make::make;
use place_commands::play::play;
use place_commands::repair::repair;
use place_commands::run::run;
use std::alloc::Global;
use std::sync::Wait;
use std::thread::Threads;
use ways_of_work::{Alone, InThreads};

/// Does what the words ask for, and answers how the program ends: each command. `run` plays a
/// script in threads; `play`, `repair`, `demo`, `run`, `office` and `endorse` make their keys in
/// threads, and `audit`, `order`, `prove`, `check` and `watch` verify signatures in threads. It
/// reads the files that the words name, and takes all its memory before it writes. It may wait.
pub fn auditorium<R: Threads + Wait + Sync, S: Store, K: Sink, G: Gate + Sync>(
    rt: &R,
    alloc: Global,
    words: &[String],
    store: &mut S,
    out: &mut K,
    gate: &G,
) -> Status
    ensures { HasDone IsAny (map string_bytes words.now)
        (IsGivenBy S.Store K.Sink store.old out.old store.new out.new)
        (outside S.Store K.Sink store.old out.old) result
        (outside S.Store K.Sink store.new out.new) }
{
    auditorium_heard(rt, alloc, words, store, out, gate, &mut Nobody)
}

/// `auditorium`, of which a listener hears why an input was refused, or that it isn't there.
pub fn auditorium_heard<R: Threads + Wait + Sync, S: Store, K: Sink, G: Gate + Sync, N: Listener>(
    rt: &R,
    alloc: Global,
    words: &[String],
    store: &mut S,
    out: &mut K,
    gate: &G,
    listener: &mut N,
) -> Status
    ensures done { HasDone IsAny (map string_bytes words.now)
        (IsGivenBy S.Store K.Sink store.old out.old store.new out.new)
        (outside S.Store K.Sink store.old out.old) result
        (outside S.Store K.Sink store.new out.new) }
    ensures heard { HasHeard N.hears (IsSaid (K.written out.old) result (K.written out.new))
        listener.old listener.new }
{
    match run_of(words) {
        Some((script, prefix)) => {
            let answer = run(rt, alloc, gate, store, script, prefix);
            end_heard(answer, store, out, listener)
        }
        None => done_by(&InThreads { rt }, alloc, words, store, out, listener),
    }
}

/// `auditorium` without threads: `run` isn't one of the commands. It takes no runtime and always
/// returns.
pub fn auditorium_still<S: Store, K: Sink>(
    alloc: Global,
    words: &[String],
    store: &mut S,
    out: &mut K,
) -> Status
    ensures { HasDone IsStill (map string_bytes words.now)
        (IsGivenBy S.Store K.Sink store.old out.old store.new out.new)
        (outside S.Store K.Sink store.old out.old) result
        (outside S.Store K.Sink store.new out.new) }
{
    done_by(&Alone, alloc, words, store, out, &mut Nobody)
}

/// Does what the words ask for in this way of work, but for `run`, which is none of the commands.
fn done_by<W: LeafWork + EntryWork, S: Store, K: Sink, N: Listener>(
    work: &W,
    alloc: Global,
    words: &[String],
    store: &mut S,
    out: &mut K,
    listener: &mut N,
) -> Status
    requires { W.may_share work.now }
    ensures done { HasDone IsStill (map string_bytes words.now)
        (IsGivenBy S.Store K.Sink store.old out.old store.new out.new)
        (outside S.Store K.Sink store.old out.old) result
        (outside S.Store K.Sink store.new out.new) }
    ensures heard { HasHeard N.hears (IsSaid (K.written out.old) result (K.written out.new))
        listener.old listener.new }
{
    let answer = answer_of(work, alloc, words, store);
    end_heard(answer, store, out, listener)
}

/// The script and the prefix of a run, if the words are for one.
fn run_of(words: &[String]) -> Option<(&str, &str)>
    ensures some { IfSome result (λ found.
        Means (map string_bytes words.now) (run found.0.now found.1.now)) }
    ensures none { IfNone result ((script prefix : List ℕ) →
        ¬ Means (map string_bytes words.now) (run script prefix)) }
{
    match request_of(words) {
        Some(request) => run_in(&request),
        None => None,
    }
}

/// The script and the prefix of a run, if the request is for one.
fn run_in<'a>(request: &Request<'a>) -> Option<(&'a str, &'a str)>
    ensures some { IfSome result (λ found. asked request.now ≡ run found.0.now found.1.now) }
    ensures none { IfNone result (IsStill (asked request.now)) }
{
    match *request {
        Request::Run(script, prefix) => Some((script, prefix)),
        _ => None,
    }
}

/// The answer to the words. Nothing is written.
fn answer_of<W: LeafWork + EntryWork, S: Store>(
    work: &W,
    alloc: Global,
    words: &[String],
    store: &mut S,
) -> Result<Answer, Fault>
    requires { W.may_share work.now }
    ensures { AreAnswered S.Store IsStill (map string_bytes words.now)
        store.old result store.new }
{
    match request_of(words) {
        Some(request) if run_in(&request).is_none() => answer_to(work, alloc, request, store),
        _ => Ok(Answer::usage(alloc)?),
    }
}

/// The answer of a command that can do without threads.
fn answer_to<W: LeafWork + EntryWork, S: Store>(
    work: &W,
    alloc: Global,
    request: Request<'_>,
    store: &mut S,
) -> Result<Answer, Fault>
    requires shared { W.may_share work.now }
    requires still { IsStill (asked request) }
    requires allowed { (command_parts (asked request)).IsAllowed }
    ensures { IsAnsweredBy S.Store (command_parts (asked request.entry))
        store.old result store.new }
{
    match request {
        Request::Audit(roster, rules, logs) => audit(work, alloc, store, roster, rules, logs),
        Request::Check(roster, rules, proof, logs) => {
            check(work, alloc, store, roster, rules, proof, logs)
        }
        Request::Demonstrate(sessions) => demonstrate(work, alloc, sessions),
        Request::Endorse(name, file) => endorse(work, alloc, store, name, file),
        Request::Endorsed(key, file, signature) => endorsed(alloc, store, key, file, signature),
        Request::Gaps(log) => gaps(alloc, store, log),
        Request::Make(sessions) => Ok(make(alloc, sessions)?),
        Request::Office(name, seed) => office(work, alloc, store, name, seed),
        Request::Order(roster, x, y, logs) => order(work, alloc, store, roster, x, y, logs),
        Request::Play(script, prefix) => play(work, alloc, store, script, prefix),
        Request::Prove(roster, proof, logs) => prove(work, alloc, store, roster, proof, logs),
        Request::Repair(script, prefix) => repair(work, alloc, store, script, prefix),
        Request::Run(_, _) => unreachable!(),
        Request::Watch(roster, rules, logs) => watch(work, alloc, store, roster, rules, logs),
    }
}
