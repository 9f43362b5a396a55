//! Commands that are done in threads where there are any.
use crate::auditing_tests::{answer, hall, wide};
use crate::fault_tests::ends;
use std::test::Fail;

/// Words over whole, cut, changed and forked logs, and logs of others.
const WORDS: &str = "\
audit p.roster standard p.sv.log p.b1.log
audit p.roster standard torn.log p.b1.log p.sv.log
audit p.roster standard bit.log
audit p.roster standard stray.log f.sv.log
audit o.roster own p.sv.log
audit p.roster free p.sv.log
audit p.roster standard p.b1.log p.roster
audit p.roster standard gone
order p.roster sv.0 b1.2 torn.log bit.log
order q.roster sv.2 b2.0 q.b2.log
order p.roster sv.1 sv.1 f.sv.log p.sv.log
order p.roster sv.0 b1.9 p.sv.log
order p.sv.log sv.0 b1.0 p.sv.log
order p.roster sv.0 b1.0 gone
play script t
repair script t
play own t
repair gone t";

#[test]
fn threads_answer_the_same(rt: HostRuntime) -> Result<(), Fail> {
    let alloc = rt.alloc();
    let mut store = hall(alloc)?;
    for words in WORDS.lines() {
        let mut out = wide(alloc);
        let status = answer(alloc, words, &mut store, &mut out)?;
        let mut told = wide(alloc);
        let ended = ends(&rt, alloc, words, &mut store, &mut told)?;
        assert!(rt; ended == status && told.bytes() == out.bytes(), "{words}");
    }
    Ok(())
}
