//! Logs of small scripts that are mended and finished. The steps that are taken were computed by
//! another program.
use crate::merge_tests::are_steps;
use crate::polling_world_tests::script_of;
use log_repair::{finish, repair};
use polling_world::{World, keys_of, play};
use std::alloc::Global;
use std::test::Fail;

/// A supervisor and two booths, each with a session of its own.
const SESSIONS: &str = "machine sv supervisor\nmachine b1 booth\nmachine b2 booth\n\
    do sv open\ndo sv authorise b1 1\ndo sv authorise b2 2\ndo b1 activate 1\n\
    do b1 commit 1 0707070707070707070707070707070707070707070707070707070707070707\n\
    do b2 activate 2\n\
    do b2 commit 2 0707070707070707070707070707070707070707070707070707070707070707\n\
    do b2 cast 2 0707070707070707070707070707070707070707070707070707070707070707\n";

/// The room in each log, the steps of a script of these sessions, and the steps by which its logs
/// are mended and its machines finish.
const MENDED: &[(u32, &str, &str, &str)] = &[
    // The second booth lacks one entry, and then it may cast.
    (
        64,
        "step act sv\nstep act sv\nstep act sv\n\
            step hear b1 sv 0\nstep hear b1 sv 1\nstep hear b1 sv 2\n\
            step hear b2 sv 0\nstep hear b2 sv 1\nstep hear b2 sv 2\n\
            step act b1\nstep act b1\nstep hear b2 b1 1\nstep act b2\nstep act b2\n",
        "step hear b2 b1 0\n",
        "step act b2\n",
    ),
    // The only machine that holds the entry has stopped.
    (
        64,
        "step act sv\nstep act sv\nstep act sv\n\
            step hear b1 sv 0\nstep hear b1 sv 1\nstep hear b1 sv 2\n\
            step hear b2 sv 0\nstep hear b2 sv 1\nstep hear b2 sv 2\n\
            step act b1\nstep act b1\nstep hear b2 b1 1\nstep act b2\nstep act b2\n\
            step stop b1\n",
        "",
        "",
    ),
    // Each answer shows that another entry is missed, so there are two rounds.
    (
        64,
        "step act sv\nstep act sv\nstep act sv\nstep hear b1 sv 2\nstep hear b2 sv 2\n",
        "step hear b1 sv 1\nstep hear b2 sv 1\nstep hear b1 sv 0\nstep hear b2 sv 0\n",
        "step act b1\nstep act b1\nstep act b2\nstep act b2\nstep act b2\n",
    ),
    // The answer fills the log.
    (
        3,
        "step act sv\nstep act sv\nstep act sv\nstep hear b2 sv 2\nstep act b2\n",
        "step hear b2 sv 1\n",
        "",
    ),
    // One machine answers for one that has stopped; no machine that runs holds what is missed then.
    (
        64,
        "step act sv\nstep act sv\nstep act sv\nstep hear b1 sv 1\nstep hear b2 sv 2\n\
            step stop sv\n",
        "step hear b2 sv 1\n",
        "step act b1\nstep act b1\nstep act b2\nstep act b2\n",
    ),
    // A machine asks for two digests in one turn.
    (
        64,
        "step act sv\nstep act sv\nstep act sv\n\
            step hear b1 sv 0\nstep hear b1 sv 1\nstep hear b1 sv 2\n\
            step act b1\nstep act b1\nstep hear b2 sv 2\nstep act b2\nstep act b2\n\
            step hear sv b1 1\nstep hear sv b2 1\n",
        "step hear sv b1 0\nstep hear sv b2 0\nstep hear b2 sv 1\nstep hear b2 sv 0\n",
        "step act b2\n",
    ),
];

/// The world after the steps of the script of these sessions, with logs of this many events.
fn stepped(alloc: Global, log: u32, steps: &str) -> Result<World, Fail> {
    let lines = format!(in alloc; "{SESSIONS}{steps}")?;
    let script = script_of(alloc, 1, log, lines.as_str())?;
    let keys = keys_of(alloc, &script)?;
    Ok(play(alloc, &script, keys)?)
}

/// Whether the logs are mended by these steps, and the machines finish by those.
fn is_mended(
    alloc: Global,
    log: u32,
    steps: &str,
    mended: &str,
    finished: &str,
) -> Result<bool, Fail> {
    let mut world = stepped(alloc, log, steps)?;
    let taken = repair(alloc, &mut world)?;
    let done = finish(alloc, &mut world)?;
    Ok(
        are_steps(alloc, SESSIONS, mended, taken.as_slice())?
            && are_steps(alloc, SESSIONS, finished, done.as_slice())?,
    )
}

#[test]
fn logs_are_mended_before_machines_finish(rt: HostRuntime) -> Result<(), Fail> {
    for &(log, steps, mended, finished) in MENDED {
        assert!(rt;
            is_mended(rt.alloc(), log, steps, mended, finished)?,
            "{steps}"
        );
    }
    Ok(())
}
