//! Rosters and logs over a store in memory. Texts are written by hand.
use evidence::{InputFault, graph_from, graph_of, read_logs, read_roster};
use hall_outside::MemoryStore;
use log_files::LogRead;
use precedence::Arrows;
use std::alloc::{AllocError, Global};
use std::test::Fail;

const ROSTER: &[u8] = b"(6:roster1:1(2:sv10:supervisor56:\
    kkkkkkkkkkkkkkkkkkkkkkkkkkkkkkkkkkkkkkkkkkkkkkkkkkkkkkkk))";

/// A store with a roster `r`, logs `a` and `b` without a record, and the start of a header `c`.
fn store_of(alloc: Global, failing: Vec<u64>) -> Result<MemoryStore, Fail> {
    let mut store = MemoryStore::make(alloc, failing, Vec::new(alloc));
    store.place(alloc, "r", ROSTER)?;
    store.place(alloc, "a", b"(3:log1:11:0)")?;
    store.place(alloc, "b", b"(3:log1:11:7)")?;
    store.place(alloc, "c", b"(3:log")?;
    Ok(store)
}

/// Names of files, with a space between.
fn names_of(alloc: Global, words: &str) -> Result<Vec<String>, AllocError> {
    let mut names = Vec::new(alloc);
    for word in words.split(' ') {
        names.push(String::from_str(alloc, word)?)?;
    }
    Ok(names)
}

/// The owner of each log.
fn owners_of(alloc: Global, logs: &[LogRead]) -> Result<String, AllocError> {
    let mut owners = String::new(alloc);
    for log in logs {
        owners.push_str(format!(in alloc; "{} ", log.owner)?.as_str())?;
    }
    Ok(owners)
}

/// The owners of the logs, and how many survivors each of their graphs has.
fn shown(alloc: Global, logs: Vec<LogRead>) -> Result<String, InputFault> {
    let owners = owners_of(alloc, logs.as_slice())?;
    let copied = graph_of(alloc, logs.as_slice())?.count();
    let moved = graph_from(alloc, logs)?.count();
    Ok(format!(in alloc; "{owners}{copied} {moved}")?)
}

/// What is shown of the roster in the first file and the logs in the others.
fn read(alloc: Global, store: &mut MemoryStore, files: &str) -> Result<String, InputFault> {
    let (roster, rest) = files.split_once(" ").unwrap_or((files, ""));
    let names = names_of(alloc, rest)?;
    let read = read_roster(alloc, store, roster)?;
    let logs = read_logs(alloc, store, names.as_slice(), &read.roster, &read.election)?;
    shown(alloc, logs)
}

/// The same, or what the fault says.
fn told(alloc: Global, store: &mut MemoryStore, files: &str) -> Result<String, AllocError> {
    match read(alloc, store, files) {
        Ok(line) => Ok(line),
        Err(fault) => format!(in alloc; "{fault}"),
    }
}

/// The files with what is reported: the owners of the logs and how many survivors each graph has.
const ROWS: &str = "r a = 0 0 0
r a b a = 0 7 0 0 0
x y = there is no file x
r y x = there is no file y
r a c x = c is refused at 0: Header
a a = a is refused at 0: WrongShape
c a = c is refused at 6: NotCanonical";

#[test]
fn the_first_refusal_is_told(rt: HostRuntime) -> Result<(), Fail> {
    let alloc = rt.alloc();
    let mut store = store_of(alloc, Vec::new(alloc))?;
    for row in ROWS.lines() {
        if let Some((files, want)) = row.split_once(" = ") {
            let line = told(alloc, &mut store, files)?;
            assert!(rt; line.as_str() == want, "{files}: {line}");
        }
    }
    Ok(())
}

#[test]
fn a_failed_read_is_told(rt: HostRuntime) -> Result<(), Fail> {
    let alloc = rt.alloc();
    // Two reads for the roster, and two for the log.
    for failing in [1_u64, 2, 3, 4] {
        let mut store = store_of(alloc, vec![in alloc; failing]?)?;
        let line = told(alloc, &mut store, "r a")?;
        assert!(rt; line.as_str() == "a read failed", "{failing}: {line}");
    }
    Ok(())
}
