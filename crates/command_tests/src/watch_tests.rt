//! The command `watch`. The lines are those of the worked rows, and were computed by a separate
//! plain program.
use crate::auditing_tests::{THREE, all_of, answer, empty, hall, is_answered, play, told, wide};
use crate::limit_tests::place_log;
use auditorium_core::Status;
use hall_outside::{MemorySink, MemoryStore};
use std::alloc::Global;
use std::test::Fail;

/// The lines of a log in which a gap opens, and of one that closes it.
const OPENED_AND_CLOSED: &str = "1 1 gaps 0 kept 22 broken 0 unsettled 0
2 2 gaps 0 kept 22 broken 0 unsettled 0
3 3 gaps 0 kept 22 broken 0 unsettled 0
4 4 gaps 1 kept 20 broken 0 unsettled 2
5 5 gaps 1 kept 20 broken 0 unsettled 2
6 5 gaps 1 kept 20 broken 0 unsettled 2
7 5 gaps 1 kept 20 broken 0 unsettled 2
8 5 gaps 1 kept 20 broken 0 unsettled 2
9 6 gaps 0 kept 22 broken 0 unsettled 0
10 6 gaps 0 kept 22 broken 0 unsettled 0
";

#[test]
fn a_gap_opens_and_is_closed(rt: HostRuntime) -> Result<(), Fail> {
    let alloc = rt.alloc();
    let mut store = empty(alloc);
    play(alloc, THREE, "p", &mut store)?;
    let words = "watch p.roster standard p.b2.log p.b1.log";
    let want = (Status::Done, OPENED_AND_CLOSED);
    assert!(rt; is_answered(alloc, words, &mut store, want)?);
    Ok(())
}

/// Words with the status and the lines, a slash for each newline, of which those of entries have
/// their numbers alone.
const ROWS: &str =
    "watch q.roster standard q.b1.log q.b2.log = 0 1 1 0 22 0 0/2 2 0 22 0 0/3 3 0 22 0 0/\
4 4 0 22 0 0/5 5 0 22 0 0/6 5 0 22 0 0/7 5 0 22 0 0/8 5 0 22 0 0/9 5 0 22 0 0/10 6 0 22 0 0/
watch q.roster standard q.sv.log q.b2.log = 2 1 1 0 22 0 0/2 2 0 22 0 0/3 3 0 22 0 0/\
4 3 0 22 0 0/5 3 0 22 0 0/6 3 0 22 0 0/7 4 1 20 0 2/8 5 1 20 0 2/
watch q.roster own q.b2.log = 3 1 1 0 1 1 0/2 2 0 1 1 0/3 3 0 1 1 0/4 4 1 1 1 0/5 5 1 1 1 0/
watch p.roster own p.sv.log p.b1.log = 0 1 1 0 1 1 0/2 2 0 1 1 0/3 3 0 1 1 0/4 4 0 1 1 0/\
5 5 0 2 0 0/6 6 0 2 0 0/7 6 0 2 0 0/8 6 0 2 0 0/9 6 0 2 0 0/10 6 0 2 0 0/11 6 0 2 0 0/\
12 6 0 2 0 0/
watch p.roster standard torn.log = 1 1 1 0 22 0 0/2 2 0 22 0 0/3 3 0 22 0 0/4 4 0 22 0 0/\
5 5 0 22 0 0/
watch p.roster standard bit.log = 2 1 1 0 22 0 0/2 2 0 22 0 0/3 3 0 22 0 0/4 4 0 22 0 0/\
5 5 1 20 0 2/
watch p.roster standard bit.log p.b1.log = 1 1 1 0 22 0 0/2 2 0 22 0 0/3 3 0 22 0 0/\
4 4 0 22 0 0/5 5 1 20 0 2/6 5 1 20 0 2/7 5 1 20 0 2/8 5 1 20 0 2/9 5 1 20 0 2/10 6 0 22 0 0/\
11 6 0 22 0 0/
watch o.roster standard p.sv.log = 1 
watch p.roster standard f.sv.log p.sv.log = 3 1 1 0 22 0 0/2 2 0 22 0 0/3 2 0 22 0 0/\
4 3 0 21 1 0/5 4 0 21 1 0/6 5 0 21 1 0/7 6 0 21 1 0/8 7 0 21 1 0/
watch p.roster standard stray.log = 1 1 1 0 22 0 0/2 1 0 22 0 0/
watch p.roster standard early.log = 1 1 1 1 19 0 3/2 1 0 22 0 0/
watch p.roster standard stray.log early.log = 1 1 1 0 22 0 0/2 1 0 22 0 0/3 1 0 22 0 0/\
4 1 0 22 0 0/
watch p.roster free p.sv.log = 5 refused free 33 Unbound/
watch p.sv.log free none = 5 refused p.sv.log 13 NotCanonical/
watch p.roster none gone = 6 absent none/
watch x.roster none gone = 6 absent x.roster/
watch p.roster standard p.roster gone = 5 refused p.roster 0 Header/
watch p.roster standard p.sv.log gone = 6 absent gone/
watch p.roster standard = 4 usage/
watch p.roster -x p.sv.log = 4 usage/
watch a b d d d d d d d d d d d d d d d d = 6 absent a/
watch a b d d d d d d d d d d d d d d d d d = 4 usage/";

/// The store of the audits, with a log in which a stray comes before the entry that it names.
fn watched_hall(alloc: Global) -> Result<MemoryStore, Fail> {
    let mut store = hall(alloc)?;
    let log = store.file("stray.log").unwrap_or(b"");
    let (header, records) = log.split_at(log.len().min(13));
    let (first, stray) = records.split_at(records.len().min(2439));
    let early = all_of(alloc, &[header, stray, first])?;
    store.place(alloc, "early.log", &early)?;
    Ok(store)
}

/// Adds a line, which has words between its numbers if there are six.
fn add_line(alloc: Global, lines: &mut String, line: &str) -> Result<(), Fail> {
    let numbers: Vec<&str> = line.split(' ').collect(alloc)?;
    match numbers.as_slice() {
        &[n, s, gaps, kept, broken, unsettled] => write!(
            lines,
            "{n} {s} gaps {gaps} kept {kept} broken {broken} unsettled {unsettled}\n"
        )?,
        _ => write!(lines, "{line}\n")?,
    }
    Ok(())
}

/// The status with the lines in full.
fn lines_of(alloc: Global, row: &str) -> Result<String, Fail> {
    let (status, rest) = row.split_once(' ').unwrap_or((row, ""));
    let mut lines = format!(in alloc; "{status} ")?;
    for line in rest.split('/') {
        if !line.is_empty() {
            add_line(alloc, &mut lines, line)?;
        }
    }
    Ok(lines)
}

#[test]
fn each_watch_has_its_lines_and_status(rt: HostRuntime) -> Result<(), Fail> {
    let alloc = rt.alloc();
    let mut store = watched_hall(alloc)?;
    for row in ROWS.lines() {
        if let Some((words, want)) = row.split_once(" = ") {
            let found = told(alloc, words, &mut store)?;
            let want = lines_of(alloc, want)?;
            assert!(rt; found == want, "{row}: {found}");
        }
    }
    Ok(())
}

/// The supervisor opens, and its key signs the entries of the logs, too.
const OPENED: &str =
    "seed 0102\nkey w2 h5\nlog 1\nlink 1\nmachine sv supervisor\nmachine b1 booth\n\
    do sv open\nstep act sv\n";

/// The booth's logs, with the first and the last session that the entries in them are of: as many
/// entries as `watch` has room for, another, the first once more, and fewer.
const LOGS: &[(&str, u32, u32)] = &[
    ("most", 10_000, 11_023),
    ("one", 11_024, 11_024),
    ("again", 10_000, 10_000),
    ("fewer", 10_000, 10_699),
];

/// Once it is opened, the second rule is too wide for the entries of each of these logs.
const WIDE: &str = "(rule A true)(rule W (every o opened (every a activate (every b activate \
    (every c activate true)))))";

/// A store with the roster's file, the logs and the rules.
fn wide_hall(alloc: Global) -> Result<MemoryStore, Fail> {
    let mut store = empty(alloc);
    play(alloc, OPENED, "p", &mut store)?;
    let election = roster::election(store.file("p.roster").unwrap_or(b""));
    for &(name, first, last) in LOGS {
        place_log(alloc, name, &election, (first, last), &mut store)?;
    }
    store.place(alloc, "own", b"(rule A true)")?;
    store.place(alloc, "wide", WIDE.as_bytes())?;
    Ok(store)
}

/// Words with the exit status, the number of lines and the last of them. Too many entries are
/// reported before a rule that is too wide.
const LIMITS: &str = "watch p.roster own most again = 1 1025 \
1025 1024 gaps 0 kept 1 broken 0 unsettled 0
watch p.roster own most one = 5 1 refused entries 0 TooMany
watch p.roster wide fewer p.sv.log = 5 1 refused wide 1 TooWide
watch p.roster wide fewer p.sv.log most = 5 1 refused entries 0 TooMany";

/// The exit status, the number of lines and the last of them.
fn summed(alloc: Global, words: &str, store: &mut MemoryStore) -> Result<String, Fail> {
    let mut out = wide(alloc);
    let status = answer(alloc, words, store, &mut out)?.exit_status();
    let text = String::from_utf8_lossy(alloc, out.bytes())?;
    let count = text.lines().count();
    let last = text.lines().last().unwrap_or("");
    Ok(format!(in alloc; "{status} {count} {last}")?)
}

#[test]
fn too_much_to_watch_is_refused(rt: HostRuntime) -> Result<(), Fail> {
    let alloc = rt.alloc();
    let mut store = wide_hall(alloc)?;
    for row in LIMITS.lines() {
        if let Some((words, want)) = row.split_once(" = ") {
            let found = summed(alloc, words, &mut store)?;
            assert!(rt; found.as_str() == want, "{row}: {found}");
        }
    }
    Ok(())
}
