//! The command `repair`. The lines are those of the worked scripts.
use crate::auditing_tests::{empty, words_of};
use crate::play_tests::{
    BALLOT, BALLOT_STEPS, Parts, SESSION, SESSIONS, STEPS, THREE, TWO, joined,
};
use auditorium_core::{Status, auditorium_still};
use hall_outside::{MemorySink, MemoryStore};
use std::alloc::Global;
use std::test::Fail;

/// Each booth hears one entry of the supervisor, which then stops.
const STOPPED: &str = "step act sv\nstep act sv\nstep act sv\n\
    step hear b1 sv 1\nstep hear b2 sv 2\nstep stop sv\n";

/// Scripts; the same with steps after their own, by which their logs are mended and their
/// machines finish; the status, and the output.
const REPAIRS: &[(Parts, Parts, Status, &str)] = &[
    (
        &[(1, THREE), (1, SESSIONS), (1, BALLOT), (1, BALLOT_STEPS)],
        &[
            (1, THREE),
            (1, SESSIONS),
            (1, BALLOT),
            (1, BALLOT_STEPS),
            (1, "step hear b2 b1 0\nstep act b2\n"),
        ],
        Status::Done,
        "machine sv sent 3 held 3\nmachine b1 sent 2 held 5\nmachine b2 sent 3 held 8\n\
            mended b2 b1.0\n",
    ),
    (
        &[
            (1, "version 2\n"),
            (1, THREE),
            (1, SESSIONS),
            (1, BALLOT),
            (1, BALLOT_STEPS),
        ],
        &[
            (1, "version 2\n"),
            (1, THREE),
            (1, SESSIONS),
            (1, BALLOT),
            (1, BALLOT_STEPS),
            (1, "step hear b2 b1 0\nstep act b2\n"),
        ],
        Status::Done,
        "machine sv sent 3 held 3\nmachine b1 sent 2 held 5\nmachine b2 sent 3 held 8\n\
            mended b2 b1.0\n",
    ),
    // The only machine that holds the entry has stopped.
    (
        &[
            (1, THREE),
            (1, SESSIONS),
            (1, BALLOT),
            (1, BALLOT_STEPS),
            (1, "step stop b1\n"),
        ],
        &[
            (1, THREE),
            (1, SESSIONS),
            (1, BALLOT),
            (1, BALLOT_STEPS),
            (1, "step stop b1\n"),
        ],
        Status::Undone,
        "machine sv sent 3 held 3\nmachine b1 sent 2 held 5\nmachine b2 sent 2 held 6\n\
            undone b2 2 LogNotWhole\n",
    ),
    (
        &[
            (1, "version 2\n"),
            (1, THREE),
            (1, SESSIONS),
            (1, BALLOT),
            (1, BALLOT_STEPS),
            (1, "step stop b1\n"),
        ],
        &[
            (1, "version 2\n"),
            (1, THREE),
            (1, SESSIONS),
            (1, BALLOT),
            (1, BALLOT_STEPS),
            (1, "step stop b1\n"),
        ],
        Status::Undone,
        "machine sv sent 3 held 3\nmachine b1 sent 2 held 5\nmachine b2 sent 2 held 6\n\
            undone b2 2 LogNotWhole\n",
    ),
    // The maker of the missed entry has stopped, and another machine answers.
    (
        &[(1, THREE), (1, SESSIONS), (1, STOPPED)],
        &[
            (1, THREE),
            (1, SESSIONS),
            (1, STOPPED),
            (
                1,
                "step hear b2 sv 1\nstep act b1\nstep act b1\nstep act b2\n",
            ),
        ],
        Status::Done,
        "machine sv sent 3 held 3\nmachine b1 sent 2 held 3\nmachine b2 sent 1 held 3\n\
            mended b2 sv.1\n",
    ),
    // Nothing is missed, and nothing is left.
    (
        &[(1, TWO), (1, SESSION), (1, STEPS)],
        &[(1, TWO), (1, SESSION), (1, STEPS)],
        Status::Done,
        "machine sv sent 3 held 6\nmachine b1 sent 3 held 6\n",
    ),
    (
        &[(1, "version 2\n"), (1, TWO), (1, SESSION), (1, STEPS)],
        &[(1, "version 2\n"), (1, TWO), (1, SESSION), (1, STEPS)],
        Status::Done,
        "machine sv sent 3 held 6\nmachine b1 sent 3 held 6\n",
    ),
];

/// The files that may be written.
const FILES: [&str; 4] = ["p.roster", "p.sv.log", "p.b1.log", "p.b2.log"];

/// What the command over the script of these parts comes to, over a store of its own.
fn done_over(
    alloc: Global,
    command: &str,
    parts: Parts,
    out: &mut MemorySink,
) -> Result<(Status, MemoryStore), Fail> {
    let script = joined(alloc, parts)?;
    let mut store = empty(alloc);
    store.place(alloc, "s", script.as_bytes())?;
    let words = words_of(alloc, command)?;
    let status = auditorium_still(alloc, words.as_slice(), &mut store, out);
    Ok((status, store))
}

/// Whether the two stores have the same files, byte for byte.
fn have_same_files(store: &MemoryStore, other: &MemoryStore) -> bool {
    for name in FILES {
        if store.file(name) != other.file(name) {
            return false;
        }
    }
    true
}

/// Whether `repair` of the script has this status and output, and writes what `play` writes of the
/// other.
fn is_repaired(
    alloc: Global,
    parts: Parts,
    played: Parts,
    status: Status,
    output: &str,
) -> Result<bool, Fail> {
    let mut out = MemorySink::make(alloc, 100, Vec::new(alloc));
    let (answered, store) = done_over(alloc, "repair s p", parts, &mut out)?;
    let mut other = MemorySink::make(alloc, 100, Vec::new(alloc));
    let (_, wanted) = done_over(alloc, "play s p", played, &mut other)?;
    Ok(
        answered == status
            && out.bytes() == output.as_bytes()
            && store.file("p.roster").is_some()
            && have_same_files(&store, &wanted),
    )
}

#[test]
fn a_repair_writes_the_files_of_a_play_with_its_steps(rt: HostRuntime) -> Result<(), Fail> {
    for &(parts, played, status, output) in REPAIRS {
        assert!(rt;
            is_repaired(rt.alloc(), parts, played, status, output)?,
            "{output}"
        );
    }
    Ok(())
}
