//! The command `make`. The texts and lengths were computed by a separate plain program.
use crate::auditing_tests::{answer, empty, is_answered};
use auditorium_core::Status;
use hall_outside::MemorySink;
use hall_text::digest_hex;
use roster::election;
use std::alloc::Global;
use std::test::Fail;

/// The script of a day of one session.
pub(super) const ONE: &str = "seed 61756469746f7269756d\n\
    key w4 h10\n\
    log 6\n\
    link 3\n\
    machine sv supervisor\n\
    machine b1 booth\n\
    machine b2 booth\n\
    machine b3 booth\n\
    do sv open\n\
    do sv authorise b1 1\n\
    do sv close\n\
    do b1 activate 1\n\
    do b1 commit 1 0000000100000001000000010000000100000001000000010000000100000001\n\
    do b1 cast 1 0000000100000001000000010000000100000001000000010000000100000001\n\
    step act sv\n\
    step hear b1 sv 0\n\
    step hear b2 sv 0\n\
    step hear b3 sv 0\n\
    step act sv\n\
    step hear b1 sv 1\n\
    step hear b2 sv 1\n\
    step hear b3 sv 1\n\
    step act b1\n\
    step act b1\n\
    step act b1\n\
    step hear sv b1 2\n\
    step hear sv b1 1\n\
    step hear sv b1 0\n\
    step hear b2 b1 0\n\
    step hear b2 b1 1\n\
    step hear b2 b1 2\n\
    step hear b3 b1 0\n\
    step hear b3 b1 1\n\
    step hear b3 b1 2\n\
    step act sv\n\
    step hear b1 sv 2\n\
    step hear b2 sv 2\n\
    step hear b3 sv 2\n";

/// The words, with the length of what they print, and its SHA-256.
const TEXTS: &[(&str, usize, &str)] = &[
    (
        "make 1",
        738,
        "03cb2e95e383a5781a64fee556bfb8b5198290a95f6d1f26d9f8cfcc80cc3381",
    ),
    (
        "make 2",
        1199,
        "e4d43f405413da09a9afab8451f9a9c5f8fc488f1f2c77e66d48939994ce8178",
    ),
    (
        "make 9",
        4423,
        "11bddff07eb65cc0419aa88517eac6ba6e88af48e9edf16edf9cd527cb5d544d",
    ),
    (
        "make 10",
        4683,
        "bafb5e90cdff690a008a2d02df3454d964a321bcc60f188b6dcd48880800c449",
    ),
    (
        "make 11",
        5156,
        "ebbc1cc0ccfc9a3064f1f5297917caf01d390234f1144ce2191727e1c744793c",
    ),
    (
        "make 800",
        374_792,
        "5b599d2b3e1e1252e2bac0d3e3105edaf4a70f7faaa2270c371d9e6f28d41503",
    ),
];

/// Whether SHA-256 of the bytes is this, in hexadecimal.
fn is_digest(bytes: &[u8], digest: &str) -> bool {
    match digest_hex(digest.as_bytes()) {
        Some(octets) => election(bytes) == octets,
        None => false,
    }
}

/// What the words print, where they are `Done`.
fn printed(alloc: Global, words: &str) -> Result<Option<MemorySink>, Fail> {
    let mut out = MemorySink::make(alloc, 1_000_000, Vec::new(alloc));
    let status = answer(alloc, words, &mut empty(alloc), &mut out)?;
    Ok(if status == Status::Done {
        Some(out)
    } else {
        None
    })
}

/// Whether the words print this many bytes with this digest.
fn prints(alloc: Global, words: &str, length: usize, digest: &str) -> Result<bool, Fail> {
    match printed(alloc, words)? {
        Some(out) => Ok(out.bytes().len() == length && is_digest(out.bytes(), digest)),
        None => Ok(false),
    }
}

#[test]
fn a_made_script_has_its_text(rt: HostRuntime) -> Result<(), Fail> {
    let alloc = rt.alloc();
    for &(words, length, digest) in TEXTS {
        assert!(rt; prints(alloc, words, length, digest)?, "{words}");
    }
    let want = (Status::Done, ONE);
    assert!(rt; is_answered(alloc, "make 1", &mut empty(alloc), want)?);
    Ok(())
}

#[test]
fn a_made_script_is_played_to_its_end(rt: HostRuntime) -> Result<(), Fail> {
    let alloc = rt.alloc();
    let mut store = empty(alloc);
    store.place(alloc, "one", ONE.as_bytes())?;
    let lines = "machine sv sent 3 held 6\nmachine b1 sent 3 held 6\n\
        machine b2 sent 0 held 6\nmachine b3 sent 0 held 6\n";
    assert!(rt; is_answered(alloc, "play one p", &mut store, (Status::Done, lines))?);
    Ok(())
}
