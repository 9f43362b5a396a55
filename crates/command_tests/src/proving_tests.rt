//! The commands `prove` and `check`. The lines are those of the worked rows, and were computed by a
//! separate plain program.
use crate::auditing_tests::{THREE, TWO, answer, empty, play, wide, without_kept};
use auditorium_core::Status;
use hall_outside::{MemorySink, MemoryStore};
use std::alloc::Global;
use std::test::Fail;

/// Files beside those of the two plays, with a bar for a newline: rules, and proofs for both.
const FILES: &str = "own=(rule A1 (every x opened true))(rule N (some x cast true))
cut=(rule A1
free=(rule A1 (every x opened (same x y)))
empty=
headless=proof 1|
alone=proof 1|entries 6|
form=proof 2|entries 6|
count=proof 1|entries 5|
range=proof 1|entries 6|past 6|
rising=proof 1|entries 6|past 1 0:1|past 0|
falling=proof 1|entries 6|past 2 1:2 1:2|
reached=proof 1|entries 6|past 0|past 1 0:1|past 2 1:2 0:1|past 3 2:3 1:2 0:1|\
past 4 3:4 2:3 1:2 0:1|past 5 4:5 2:3 1:2 0:1|
parent=proof 1|entries 6|past 2 0:2|
closed=proof 1|entries 6|past 0|past 1 0:1|past 2 1:2 0:1|past 3 2:3 1:2 0:1|\
past 4 3:4 2:3 1:2 0:1|past 5 4:5 3:4 2:3 1:2|
open=proof 1|entries 6|past 0|past 1 0:1
four=proof 1|entries 6|past 0|past 1 0:1|past 2 1:2 0:1|past 3 2:3 1:2 0:1|\
past 5 4:5 3:4 2:3 1:2 0:1|
q0=proof 1|entries 5|past 1 0:1|past 2 1:2 0:1|past 3|past 4 3:4 2:4 1:2 0:1|
q1=proof 1|entries 5|past 0|past 2 1:2 0:1|past 3|past 4 3:4 2:4 1:2 0:1|
q2=proof 1|entries 5|past 0|past 1 0:1|past 3|past 4 3:4 2:4 1:2 0:1|
q3=proof 1|entries 5|past 0|past 1 0:1|past 2 1:2 0:1|past 4 3:4 2:4 1:2 0:1|
q4=proof 1|entries 5|past 0|past 1 0:1|past 2 1:2 0:1|past 3|";

/// Words over these files, in this order, with the status and the lines, a slash for each newline,
/// without those of kept rules. Of the second play a log is left out, so that an entry is a gap.
const ROWS: &str = "prove p.roster p.proof p.sv.log p.b1.log = 0 proof p.proof entries 6 bytes 120/
check p.roster standard p.proof p.sv.log p.b1.log = 0 verdict kept/
check p.roster standard p.proof p.b1.log p.sv.log p.b1.log = 0 verdict kept/
check p.roster own p.proof p.sv.log p.b1.log = 0 verdict kept/
check p.roster standard p.proof p.sv.log = 0 verdict kept/
check p.roster standard four p.sv.log p.b1.log = \
2 unsettled C2/unsettled V2/unsettled P4/unsettled K2/verdict unsettled/
check p.roster standard alone p.sv.log p.b1.log = 2 unsettled O2/unsettled A1/unsettled C1/\
unsettled C2/unsettled V2/unsettled P2/unsettled P3/unsettled P4/unsettled K2/verdict unsettled/
check p.roster standard form p.sv.log = 5 refused form 1 Form/
check p.roster standard empty p.sv.log = 5 refused empty 1 Form/
check p.roster standard headless p.sv.log = 5 refused headless 2 Form/
check p.roster standard count p.sv.log = 5 refused count 2 WrongCount/
check p.roster standard range p.sv.log = 5 refused range 3 OutOfRange/
check p.roster standard rising p.sv.log = 5 refused rising 4 NotRising/
check p.roster standard falling p.sv.log = 5 refused falling 3 NotFalling/
check p.roster standard reached p.sv.log = 5 refused reached 8 NotReached/
check p.roster standard parent p.sv.log = 5 refused parent 3 NotParent/
check p.roster standard closed p.sv.log = 5 refused closed 8 NotClosed/
check p.roster standard open p.sv.log = 5 refused open 4 Form/
prove q.roster q.proof q.sv.log q.b2.log = 0 proof q.proof entries 5 bytes 81/
check q.roster standard q.proof q.sv.log q.b2.log = \
2 unsettled C1/unsettled K2/verdict unsettled/
check q.roster standard q0 q.sv.log q.b2.log = 2 unsettled C1/unsettled K2/verdict unsettled/
check q.roster standard q1 q.sv.log q.b2.log = \
2 unsettled O2/unsettled C1/unsettled P2/unsettled K2/verdict unsettled/
check q.roster standard q2 q.sv.log q.b2.log = \
2 unsettled O2/unsettled C1/unsettled P2/unsettled K2/verdict unsettled/
check q.roster standard q3 q.sv.log q.b2.log = 2 unsettled C1/unsettled K2/verdict unsettled/
check q.roster standard q4 q.sv.log q.b2.log = \
2 unsettled A1/unsettled C1/unsettled K2/verdict unsettled/
check q.roster own q.proof q.sv.log q.b2.log = 3 broken N/verdict broken/
check q.roster own q.proof q.b2.log q.sv.log = 3 broken N/verdict broken/
check q.roster standard p.proof q.sv.log q.b2.log = 5 refused p.proof 2 WrongCount/
prove x.roster o x.log = 6 absent x.roster/
prove p.roster o p.sv.log x.log = 6 absent x.log/
prove p.sv.log o x.log = 5 refused p.sv.log 13 NotCanonical/
prove p.roster o p.roster x.log = 5 refused p.roster 0 Header/
check x.roster x x.proof x.log = 6 absent x.roster/
check p.roster x x.proof x.log = 6 absent x/
check p.roster own x.proof x.log = 6 absent x.log/
check p.roster own x.proof p.sv.log = 6 absent x.proof/
check p.roster cut x.proof x.log = 5 refused cut 8 Shape/
check p.roster free x.proof x.log = 5 refused free 33 Unbound/
check p.roster standard x.proof p.roster = 5 refused p.roster 0 Header/
check p.sv.log x x.proof x.log = 5 refused p.sv.log 13 NotCanonical/
prove = 4 usage/
prove p.roster o = 4 usage/
prove p.roster -o p.sv.log = 4 usage/
check p.roster standard p.proof = 4 usage/
check a b c d d d d d d d d d d d d d d d d = 6 absent a/
check a b c d d d d d d d d d d d d d d d d d = 4 usage/
prove a b d d d d d d d d d d d d d d d d d = 4 usage/";

/// The text with a newline for each bar.
fn lines_of(alloc: Global, text: &str) -> Result<String, Fail> {
    let mut lines = String::new(alloc);
    for c in text.chars() {
        lines.push(if c == '|' { '\n' } else { c })?;
    }
    Ok(lines)
}

/// A store with the files of both plays, and those of the table.
fn hall(alloc: Global) -> Result<MemoryStore, Fail> {
    let mut store = empty(alloc);
    play(alloc, TWO, "p", &mut store)?;
    play(alloc, THREE, "q", &mut store)?;
    for row in FILES.lines() {
        if let Some((name, text)) = row.split_once('=') {
            store.place(alloc, name, lines_of(alloc, text)?.as_str().as_bytes())?;
        }
    }
    Ok(store)
}

/// The exit status and the lines for the words, without those of kept rules, a slash for each
/// newline.
fn told(alloc: Global, words: &str, store: &mut MemoryStore) -> Result<String, Fail> {
    let mut out = wide(alloc);
    let status = answer(alloc, words, store, &mut out)?.exit_status();
    let lines = without_kept(alloc, out.bytes())?;
    let mut text = format!(in alloc; "{status} ")?;
    for c in lines.as_str().chars() {
        text.push(if c == '\n' { '/' } else { c })?;
    }
    Ok(text)
}

#[test]
fn each_proof_has_its_lines_and_status(rt: HostRuntime) -> Result<(), Fail> {
    let alloc = rt.alloc();
    let mut store = hall(alloc)?;
    for row in ROWS.lines() {
        if let Some((words, want)) = row.split_once(" = ") {
            let found = told(alloc, words, &mut store)?;
            assert!(rt; found.as_str() == want, "{row}: {found}");
        }
    }
    Ok(())
}

/// The proofs that are written of both plays, with a bar for a newline.
const WRITTEN: &[(&str, &str)] = &[
    (
        "prove p.roster o p.sv.log p.b1.log",
        "proof 1|entries 6|past 0|past 1 0:1|past 2 1:2 0:1|past 3 2:3 1:2 0:1|\
        past 4 3:4 2:3 1:2 0:1|past 5 4:5 3:4 2:3 1:2 0:1|",
    ),
    (
        "prove q.roster o q.sv.log q.b2.log",
        "proof 1|entries 5|past 0|past 1 0:1|past 2 1:2 0:1|past 3|past 4 3:4 2:4 1:2 0:1|",
    ),
];

#[test]
fn proofs_list_the_ancestors_of_each_entry(rt: HostRuntime) -> Result<(), Fail> {
    let alloc = rt.alloc();
    let mut store = hall(alloc)?;
    for &(words, text) in WRITTEN {
        answer(alloc, words, &mut store, &mut wide(alloc))?;
        let want = lines_of(alloc, text)?;
        assert!(rt;
            store.file("o") == Some(want.as_str().as_bytes()),
            "{words}"
        );
    }
    Ok(())
}

/// The creates, appends and finishes that fail, counted from 1, with the status, and the length of
/// the proof that is left, if there is one.
const STOPS: &[(u64, Status, Option<usize>)] = &[
    (1, Status::WriteFault, None),
    (2, Status::WriteFault, Some(0)),
    (3, Status::WriteFault, Some(120)),
    (4, Status::Done, Some(120)),
];

/// Copies the files of the first play into a store whose create, append or finish with this number
/// fails.
fn failing(alloc: Global, files: &MemoryStore, write: u64) -> Result<MemoryStore, Fail> {
    let mut store = MemoryStore::make(alloc, Vec::new(alloc), vec![in alloc; write]?);
    for name in ["p.roster", "p.sv.log", "p.b1.log"] {
        store.place(alloc, name, files.file(name).unwrap_or(b""))?;
    }
    Ok(store)
}

#[test]
fn a_proof_that_cannot_be_written_is_told(rt: HostRuntime) -> Result<(), Fail> {
    let alloc = rt.alloc();
    let files = hall(alloc)?;
    for &(write, status, length) in STOPS {
        let mut store = failing(alloc, &files, write)?;
        let words = "prove p.roster o p.sv.log p.b1.log";
        let ended = answer(alloc, words, &mut store, &mut wide(alloc))?;
        let left = store.file("o").map(|bytes| bytes.len());
        assert!(rt; ended == status && left == length, "{write}");
    }
    Ok(())
}

/// The greatest length of a proof and one more, with the refusals.
const LENGTHS: &[(usize, &str)] = &[
    (67_108_864, "5 refused long 1 Form/"),
    (67_108_865, "5 refused long 0 TooLong/"),
];

/// What is printed of a proof of this length. No clause, so that no check computes the bytes.
fn told_of_long(alloc: Global, length: usize, store: &mut MemoryStore) -> Result<String, Fail> {
    let text = vec![in alloc; b'x'; length]?;
    store.place(alloc, "long", text.as_slice())?;
    told(alloc, "check p.roster own long p.sv.log", store)
}

#[test]
fn a_proof_over_its_limit_is_refused_before_its_form(rt: HostRuntime) -> Result<(), Fail> {
    let alloc = rt.alloc();
    let mut store = hall(alloc)?;
    for &(length, want) in LENGTHS {
        let found = told_of_long(alloc, length, &mut store)?;
        assert!(rt; found.as_str() == want, "{length}");
    }
    Ok(())
}
