//! What audits say of the scripts that are played in other tests: of all logs, whole, that each
//! rule is kept, and of one alone that none is broken.
use crate::auditing_tests::{answer, play};
use crate::play_tests::{PLAYS, joined};
use auditorium_core::Status;
use hall_outside::{MemorySink, MemoryStore};
use std::alloc::Global;
use std::test::Fail;

/// The audits of all logs of two machines, and of three.
const TWO: &str = "audit p.roster standard p.sv.log p.b1.log";

const THREE: &str = "audit p.roster standard p.sv.log p.b1.log p.b2.log";

/// Audits of one log alone.
const ALONE: &[&str] = &[
    "audit p.roster standard p.sv.log",
    "audit p.roster standard p.b1.log",
];

/// The status of an audit.
fn status_of(alloc: Global, words: &str, store: &mut MemoryStore) -> Result<Status, Fail> {
    let mut out = MemorySink::make(alloc, 1000, Vec::new(alloc));
    answer(alloc, words, store, &mut out)
}

#[test]
fn no_audit_of_a_played_script_breaks_a_rule(rt: HostRuntime) -> Result<(), Fail> {
    let alloc = rt.alloc();
    for (parts, lengths, _, output) in PLAYS {
        let script = joined(alloc, parts)?;
        let mut store = MemoryStore::make(alloc, Vec::new(alloc), Vec::new(alloc));
        play(alloc, script.as_str(), "p", &mut store)?;
        let all = if lengths[3] == 0 { TWO } else { THREE };
        assert_eq!(rt;
            status_of(alloc, all, &mut store)?,
            Status::Done,
            "{output}"
        );
        for words in ALONE {
            let status = status_of(alloc, words, &mut store)?;
            assert!(rt; status != Status::Broken, "{words}");
        }
    }
    Ok(())
}
