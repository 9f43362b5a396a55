//! The command `run`. The lines are those to which every interleaving of the scripts comes.
use crate::auditing_tests::{answer, empty, play, wide, words_of};
use crate::play_tests::{Parts, SESSION, STEPS, TWO, joined};
use auditorium_core::{Status, auditorium};
use hall_outside::{Gate, MeetGate, MemorySink, MemoryStore, OpenGate};
use std::alloc::Global;
use std::sync::Wait;
use std::test::Fail;
use std::thread::Threads;

/// The same two machines with logs of two events.
const SHORT: &str =
    "seed 0102\nkey w4 h5\nlog 2\nlink 64\nmachine sv supervisor\nmachine b1 booth\n";

/// The same with links that hold one entry.
const NARROW: &str =
    "seed 0102\nkey w4 h5\nlog 64\nlink 1\nmachine sv supervisor\nmachine b1 booth\n";

/// Scripts with the status and the output of their runs.
const RUNS: &[(Parts, Status, &str)] = &[
    (
        &[(1, TWO), (1, SESSION)],
        Status::Done,
        "machine sv sent 3 held 6\nmachine b1 sent 3 held 6\n",
    ),
    (
        &[(1, TWO), (1, SESSION), (1, "lose sv 2 b1\n")],
        Status::Done,
        "machine sv sent 3 held 6\nmachine b1 sent 3 held 5\nloss sv.2 b1 Scripted\n",
    ),
    (
        &[(1, TWO), (1, SESSION), (1, "stop b1 3\n")],
        Status::Undone,
        "machine sv sent 2 held 3\nmachine b1 sent 1 held 3\n\
        undone sv 2 SessionsLeft\nundone b1 1 Stopped\n",
    ),
    (
        &[(1, TWO), (1, SESSION), (1, "stop b1 0\n")],
        Status::Undone,
        "machine sv sent 2 held 2\nmachine b1 sent 0 held 0\n\
        loss sv.0 b1 ToStopped\nloss sv.1 b1 ToStopped\n\
        undone sv 2 SessionsLeft\nundone b1 0 Stopped\n",
    ),
    (
        &[(1, SHORT), (1, SESSION)],
        Status::Undone,
        "machine sv sent 2 held 2\nmachine b1 sent 0 held 2\n\
        undone sv 2 SessionsLeft\nundone b1 0 Full\n",
    ),
    (
        &[(1, TWO), (1, "do sv tidy\n")],
        Status::Refused,
        "refused s 7 UnknownWord\n",
    ),
];

/// Runs the script, which is placed in the file `s`, into files whose names begin with `p`.
fn run<R: Threads + Wait + Sync, G: Gate + Sync>(
    rt: &R,
    alloc: Global,
    gate: &G,
    script: &str,
    store: &mut MemoryStore,
    out: &mut MemorySink,
) -> Result<Status, Fail> {
    store.place(alloc, "s", script.as_bytes())?;
    let words = words_of(alloc, "run s p")?;
    Ok(auditorium(rt, alloc, words.as_slice(), store, out, gate))
}

/// Whether the run of the script of these parts has this status and output.
fn runs_to<R: Threads + Wait + Sync, G: Gate + Sync>(
    rt: &R,
    alloc: Global,
    gate: &G,
    parts: Parts,
    (status, output): (Status, &str),
) -> Result<bool, Fail> {
    let script = joined(alloc, parts)?;
    let mut out = wide(alloc);
    let ended = run(
        rt,
        alloc,
        gate,
        script.as_str(),
        &mut empty(alloc),
        &mut out,
    )?;
    Ok(ended == status && out.bytes() == output.as_bytes())
}

#[test]
fn a_run_has_its_status_and_lines(rt: HostRuntime) -> Result<(), Fail> {
    let alloc = rt.alloc();
    for &(parts, status, output) in RUNS {
        let want = (status, output);
        assert!(rt; runs_to(&rt, alloc, &OpenGate, parts, want)?, "{output}");
    }
    Ok(())
}

/// A store with the files of a run of the script, and of a play of it.
fn run_and_played<R: Threads + Wait + Sync>(rt: &R, alloc: Global) -> Result<MemoryStore, Fail> {
    let script = joined(alloc, &[(1, TWO), (1, SESSION), (1, STEPS)])?;
    let mut store = empty(alloc);
    let mut out = wide(alloc);
    run(rt, alloc, &OpenGate, script.as_str(), &mut store, &mut out)?;
    play(alloc, script.as_str(), "q", &mut store)?;
    Ok(store)
}

/// Whether the audit of the run's files is `Done`.
fn is_audited(alloc: Global, store: &mut MemoryStore) -> Result<bool, Fail> {
    let words = "audit p.roster standard p.sv.log p.b1.log";
    Ok(answer(alloc, words, store, &mut wide(alloc))? == Status::Done)
}

/// The files of the run and of the play.
const PAIRS: &[(&str, &str)] = &[
    ("p.roster", "q.roster"),
    ("p.sv.log", "q.sv.log"),
    ("p.b1.log", "q.b1.log"),
];

/// In this session each machine can act only once it has heard the other, so there is one play.
#[test]
fn a_run_writes_the_files_of_its_play(rt: HostRuntime) -> Result<(), Fail> {
    let alloc = rt.alloc();
    let mut store = run_and_played(&rt, alloc)?;
    for (run, played) in PAIRS {
        assert!(rt; store.file(run) == store.file(played), "{run}");
    }
    assert!(rt; is_audited(alloc, &mut store)?);
    Ok(())
}

/// Whether the run of the session is `Done` under this gate.
fn is_run_done<R: Threads + Wait + Sync, G: Gate + Sync>(
    rt: &R,
    alloc: Global,
    gate: &G,
) -> Result<bool, Fail> {
    let script = joined(alloc, &[(1, TWO), (1, SESSION)])?;
    let ended = run(
        rt,
        alloc,
        gate,
        script.as_str(),
        &mut empty(alloc),
        &mut wide(alloc),
    )?;
    Ok(ended == Status::Done)
}

/// The first turns of both machines' workers meet in the gate, which those of one thread can't.
#[test]
fn two_threads_of_a_run_meet(rt: HostRuntime) -> Result<(), Fail> {
    let gate = MeetGate::make(50_000_000);
    let done = is_run_done(&rt, rt.alloc(), &gate)?;
    assert!(rt; done && gate.met());
    Ok(())
}

/// Whether a line reports no loss, or one of an entry before which another was put on the link.
fn is_licensed(line: &str) -> bool {
    !line.starts_with("loss ") || line.ends_with(" LinkFull") && !line.contains(".0 ")
}

/// What a run over the narrow links prints.
fn narrow_lines<R: Threads + Wait + Sync>(rt: &R, alloc: Global) -> Result<String, Fail> {
    let script = joined(alloc, &[(1, NARROW), (1, SESSION)])?;
    let mut out = wide(alloc);
    run(
        rt,
        alloc,
        &OpenGate,
        script.as_str(),
        &mut empty(alloc),
        &mut out,
    )?;
    Ok(String::from_utf8_lossy(alloc, out.bytes())?)
}

#[test]
fn what_narrow_links_lose_has_its_cause(rt: HostRuntime) -> Result<(), Fail> {
    for _ in 0..50 {
        let text = narrow_lines(&rt, rt.alloc())?;
        for line in text.lines() {
            assert!(rt; is_licensed(line), "{line}");
        }
    }
    Ok(())
}
