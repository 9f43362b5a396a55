//! The command `order`. The words and lines are those of the worked script of two sessions, and of
//! two other scripts of the same machines.
use crate::auditing_tests::{empty, front_of, play, told};
use hall_outside::MemoryStore;
use std::alloc::Global;
use std::test::Fail;

/// A supervisor and two booths, with a session at each.
const SESSIONS: &str = "seed 0102\nkey w4 h5\nlog 64\nlink 64\n\
    machine sv supervisor\nmachine b1 booth\nmachine b2 booth\n\
    do sv open\ndo sv authorise b1 1\ndo sv authorise b2 2\ndo b1 activate 1\n\
    do b1 commit 1 0707070707070707070707070707070707070707070707070707070707070707\n\
    do b2 activate 2\n\
    step act sv\nstep act sv\nstep act sv\n\
    step hear b1 sv 0\nstep hear b1 sv 1\nstep hear b1 sv 2\n\
    step hear b2 sv 0\nstep hear b2 sv 1\nstep hear b2 sv 2\n\
    step act b1\nstep act b1\n";

/// The second booth hears the later of the first one's two entries.
const HEARD: &str = "step hear b2 b1 1\nstep act b2\n";

/// It hears none of them.
const UNHEARD: &str = "step act b2\n";

/// The same machines, of which the supervisor authorises another session first.
const OTHERS: &str = "seed 0102\nkey w4 h5\nlog 64\nlink 64\n\
    machine sv supervisor\nmachine b1 booth\nmachine b2 booth\n\
    do sv open\ndo sv authorise b2 9\nstep act sv\nstep act sv\n";

/// Plays a script in two parts into files whose names begin with the prefix.
fn play_parts(
    alloc: Global,
    store: &mut MemoryStore,
    script: &str,
    steps: &str,
    prefix: &str,
) -> Result<(), Fail> {
    let text = format!(in alloc; "{script}{steps}")?;
    play(alloc, text.as_str(), prefix, store)
}

/// Puts a log of `p` that is cut in a record into a file.
fn place_cut(alloc: Global, store: &mut MemoryStore) -> Result<(), Fail> {
    let cut = front_of(alloc, store, "p.b2.log", 10_000)?;
    Ok(store.place(alloc, "cut", &cut)?)
}

/// The plays: as heard in `p`, unheard in `q`, the others in `r`.
const PLAYED: &[(&str, &str, &str)] = &[
    (SESSIONS, HEARD, "p"),
    (SESSIONS, UNHEARD, "q"),
    (OTHERS, "", "r"),
];

/// A store with the files of the three plays, and the log that is cut.
fn plays(alloc: Global) -> Result<MemoryStore, Fail> {
    let mut store = empty(alloc);
    for (script, steps, prefix) in PLAYED {
        play_parts(alloc, &mut store, script, steps, prefix)?;
    }
    place_cut(alloc, &mut store)?;
    Ok(store)
}

/// Words after `order`, with the status and the line that it prints. The digests are those of b1's
/// first entry, and of the two that sv sent under the number 1. Over all logs of `q` each pair is
/// reported as its machines held it.
const ROWS: &str = "p.roster b1.0 b2.0 p.b1.log p.b2.log = 0 before
p.roster b2.0 b1.0 p.b1.log p.b2.log = 0 after
p.roster sv.1 sv.0 p.sv.log = 0 after
p.roster sv.0 sv.1 p.sv.log p.sv.log = 0 before
p.roster sv.0 sv.0 p.sv.log = 0 same
q.roster sv.0 sv.0 q.sv.log q.b1.log q.b2.log = 0 same
q.roster sv.0 sv.1 q.sv.log q.b1.log q.b2.log = 0 before
q.roster sv.0 sv.2 q.sv.log q.b1.log q.b2.log = 0 before
q.roster sv.0 b1.0 q.sv.log q.b1.log q.b2.log = 0 before
q.roster sv.0 b1.1 q.sv.log q.b1.log q.b2.log = 0 before
q.roster sv.0 b2.0 q.sv.log q.b1.log q.b2.log = 0 before
q.roster sv.1 sv.0 q.sv.log q.b1.log q.b2.log = 0 after
q.roster sv.1 sv.1 q.sv.log q.b1.log q.b2.log = 0 same
q.roster sv.1 sv.2 q.sv.log q.b1.log q.b2.log = 0 before
q.roster sv.1 b1.0 q.sv.log q.b1.log q.b2.log = 0 before
q.roster sv.1 b1.1 q.sv.log q.b1.log q.b2.log = 0 before
q.roster sv.1 b2.0 q.sv.log q.b1.log q.b2.log = 0 before
q.roster sv.2 sv.0 q.sv.log q.b1.log q.b2.log = 0 after
q.roster sv.2 sv.1 q.sv.log q.b1.log q.b2.log = 0 after
q.roster sv.2 sv.2 q.sv.log q.b1.log q.b2.log = 0 same
q.roster sv.2 b1.0 q.sv.log q.b1.log q.b2.log = 0 before
q.roster sv.2 b1.1 q.sv.log q.b1.log q.b2.log = 0 before
q.roster sv.2 b2.0 q.sv.log q.b1.log q.b2.log = 0 before
q.roster b1.0 sv.0 q.sv.log q.b1.log q.b2.log = 0 after
q.roster b1.0 sv.1 q.sv.log q.b1.log q.b2.log = 0 after
q.roster b1.0 sv.2 q.sv.log q.b1.log q.b2.log = 0 after
q.roster b1.0 b1.0 q.sv.log q.b1.log q.b2.log = 0 same
q.roster b1.0 b1.1 q.sv.log q.b1.log q.b2.log = 0 before
q.roster b1.0 b2.0 q.sv.log q.b1.log q.b2.log = 0 apart
q.roster b1.1 sv.0 q.sv.log q.b1.log q.b2.log = 0 after
q.roster b1.1 sv.1 q.sv.log q.b1.log q.b2.log = 0 after
q.roster b1.1 sv.2 q.sv.log q.b1.log q.b2.log = 0 after
q.roster b1.1 b1.0 q.sv.log q.b1.log q.b2.log = 0 after
q.roster b1.1 b1.1 q.sv.log q.b1.log q.b2.log = 0 same
q.roster b1.1 b2.0 q.sv.log q.b1.log q.b2.log = 0 apart
q.roster b2.0 sv.0 q.sv.log q.b1.log q.b2.log = 0 after
q.roster b2.0 sv.1 q.sv.log q.b1.log q.b2.log = 0 after
q.roster b2.0 sv.2 q.sv.log q.b1.log q.b2.log = 0 after
q.roster b2.0 b1.0 q.sv.log q.b1.log q.b2.log = 0 apart
q.roster b2.0 b1.1 q.sv.log q.b1.log q.b2.log = 0 apart
q.roster b2.0 b2.0 q.sv.log q.b1.log q.b2.log = 0 same
p.roster sv.1 b1.1 p.sv.log p.b2.log = 0 unknown
p.roster b1.1 sv.1 p.sv.log p.b2.log = 0 unknown
p.roster sv.2 b1.1 p.sv.log cut = 0 unknown
p.roster sv.0 b2.0 p.sv.log cut = 5 refused b2.0 0 NoEntry
p.roster 628e5112466668856b29d6f9c7f3a840b204acd10ffed85a3d7a2d45388d2659 b2.0 p.b1.log \
p.b2.log = 0 before
p.roster b1.0 628e5112466668856b29d6f9c7f3a840b204acd10ffed85a3d7a2d45388d2659 p.b1.log = 0 same
p.roster sv.1 0016b920177f257c57f3cb5417771a941cdce9ad812c6b55cb63673110760c68 p.sv.log \
r.sv.log = 0 same
p.roster sv.1 a12715d0867195d9fb797ef4c751e43935422962bdad39c99550b738766726ba p.sv.log \
r.sv.log = 0 apart
p.roster sv.1 a12715d0867195d9fb797ef4c751e43935422962bdad39c99550b738766726ba r.sv.log = 0 same
p.roster b1.0 sv.1 p.sv.log p.b2.log = 5 refused b1.0 0 NoEntry
p.roster b1.9 b2.9 p.sv.log = 5 refused b1.9 0 NoEntry
p.roster sv.0 b3.0 p.sv.log = 5 refused b3.0 0 NoEntry
x.roster sv.0 sv.0 x.log = 6 absent x.roster
p.roster sv.9 sv.0 p.sv.log x.log y.log = 6 absent x.log
p.sv.log sv.0 sv.0 x.log = 5 refused p.sv.log 13 NotCanonical
p.roster sv.9 sv.0 p.roster x.log = 5 refused p.roster 0 Header
p.roster sv.0 sv.0 = 4 usage
p.roster b1.01 sv.0 p.sv.log = 4 usage
p.roster B1.0 sv.0 p.sv.log = 4 usage
p.roster sv.0 b1. p.sv.log = 4 usage
p.roster sv.0 .0 p.sv.log = 4 usage
p.roster sv.0 sv p.sv.log = 4 usage
p.roster sv.0 sv.0.0 p.sv.log = 4 usage
p.roster sv.0 sv.4294967296 p.sv.log = 4 usage
p.roster sv.0 628e5112466668856b29d6f9c7f3a840b204acd10ffed85a3d7a2d45388d265 p.sv.log = 4 usage
p.roster sv.0 628E5112466668856b29d6f9c7f3a840b204acd10ffed85a3d7a2d45388d2659 p.sv.log = 4 usage
p.roster sv.0 sv.0 -x = 4 usage
p.roster sv.0 sv.1 p.sv.log p.sv.log p.sv.log p.sv.log p.sv.log p.sv.log p.sv.log p.sv.log \
p.sv.log p.sv.log \
p.sv.log p.sv.log p.sv.log p.sv.log p.sv.log p.sv.log = 0 before
p.roster sv.0 sv.1 p.sv.log p.sv.log p.sv.log p.sv.log p.sv.log p.sv.log p.sv.log p.sv.log \
p.sv.log p.sv.log \
p.sv.log p.sv.log p.sv.log p.sv.log p.sv.log p.sv.log p.sv.log = 4 usage";

/// Whether `order` with these words prints this.
fn is_told(alloc: Global, words: &str, want: &str, store: &mut MemoryStore) -> Result<bool, Fail> {
    let words = format!(in alloc; "order {words}")?;
    let line = told(alloc, words.as_str(), store)?;
    Ok(line.as_str().strip_suffix('\n') == Some(want))
}

#[test]
fn two_entries_have_their_word(rt: HostRuntime) -> Result<(), Fail> {
    let alloc = rt.alloc();
    let mut store = plays(alloc)?;
    for row in ROWS.lines() {
        if let Some((words, want)) = row.split_once(" = ") {
            assert!(rt; is_told(alloc, words, want, &mut store)?, "{row}");
        }
    }
    Ok(())
}
