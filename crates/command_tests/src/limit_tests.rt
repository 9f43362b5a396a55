//! As many distinct entries as an audit has room for, 16,384, and one more. All are of one maker
//! and have the number 0: its key signs each of them with its first index.
use crate::auditing_tests::{all_of, empty, is_answered, play};
use auditorium_core::Status;
use hall_outside::MemoryStore;
use std::alloc::Global;
use std::test::Fail;

/// A supervisor and a booth, of which the supervisor's key signs fast and shortly.
const SCRIPT: &str =
    "seed 0102\nkey w2 h5\nlog 1\nlink 1\nmachine sv supervisor\nmachine b1 booth\n";

/// The booth's logs, with the first and the last session that the entries in them are of: 8,192
/// entries, as many others, another, and the first once more.
const LOGS: &[(&str, u32, u32)] = &[
    ("a", 10_000, 18_191),
    ("b", 18_192, 26_383),
    ("one", 26_384, 26_384),
    ("again", 10_000, 10_000),
];

/// The text of an entry of the supervisor, unsigned: it is the first of its entries, names nothing,
/// and is of a session with a number of five digits.
fn body_of(alloc: Global, election: &[u8; 32], session: u32) -> Result<Vec<u8>, Fail> {
    let fields = format!(in alloc; "1:01:01:1()(8:activate5:{session}))")?;
    all_of(alloc, &[b"(5:entry1:132:", election, fields.as_bytes()])
}

/// The record of the signed entry.
fn record_of(alloc: Global, body: &[u8], signature: &[u8]) -> Result<Vec<u8>, Fail> {
    all_of(
        alloc,
        &[b"(3:got(6:sealed", body, b"4460:", signature, b"))"],
    )
}

/// The records of the entries of these sessions.
fn records_of(
    alloc: Global,
    election: &[u8; 32],
    (first, last): (u32, u32),
) -> Result<Vec<u8>, Fail> {
    let mut records = Vec::new(alloc);
    if let Ok(script) = election_script::read(alloc, SCRIPT.as_bytes()) {
        if !script.machines.as_slice().is_empty() {
            let secret = polling_world::key_of(alloc, &script, 0)?;
            for session in first..=last {
                let body = body_of(alloc, election, session)?;
                let signature = secret.signature(alloc, &body)?;
                records.extend_from_slice(&record_of(alloc, &body, &signature)?)?;
            }
        }
    }
    Ok(records)
}

/// Puts a log of the booth that has the entries of these sessions into a file.
pub(super) fn place_log(
    alloc: Global,
    name: &str,
    election: &[u8; 32],
    sessions: (u32, u32),
    store: &mut MemoryStore,
) -> Result<(), Fail> {
    let records = records_of(alloc, election, sessions)?;
    let log = all_of(alloc, &[b"(3:log1:11:1)", &records])?;
    Ok(store.place(alloc, name, &log)?)
}

/// A store with the roster's file, the logs and a rule that takes no time.
fn hall(alloc: Global) -> Result<MemoryStore, Fail> {
    let mut store = empty(alloc);
    play(alloc, SCRIPT, "p", &mut store)?;
    let election = roster::election(store.file("p.roster").unwrap_or(b""));
    for &(name, first, last) in LOGS {
        place_log(alloc, name, &election, (first, last), &mut store)?;
    }
    store.place(alloc, "own", b"(rule A true)")?;
    Ok(store)
}

/// Words with the status and the output: an entry that two logs have is one.
const ROWS: &[(&str, Status, &str)] = &[
    (
        "audit p.roster own a b again",
        Status::Findings,
        "log a owner 1 kept 8192 refused 0\nlog b owner 1 kept 8192 refused 0\n\
            log again owner 1 kept 1 refused 0\nentries 16384\nfork sv 0\nkept A\n\
            verdict findings\n",
    ),
    (
        "audit p.roster own a b one",
        Status::Refused,
        "refused entries 0 TooMany\n",
    ),
    (
        "prove p.roster o a b one",
        Status::Refused,
        "refused entries 0 TooMany\n",
    ),
    (
        "check p.roster own gone a b one",
        Status::Refused,
        "refused entries 0 TooMany\n",
    ),
    (
        "order p.roster sv.0 sv.1 a b one",
        Status::Refused,
        "refused entries 0 TooMany\n",
    ),
];

#[test]
fn one_entry_over_the_limit_is_too_many(rt: HostRuntime) -> Result<(), Fail> {
    let alloc = rt.alloc();
    let mut store = hall(alloc)?;
    for &(words, status, output) in ROWS {
        assert!(rt;
            is_answered(alloc, words, &mut store, (status, output))?,
            "{words}"
        );
    }
    Ok(())
}
