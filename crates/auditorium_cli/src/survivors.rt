//! How many entries survive, for the hint on a proof that gives another number.

use crate::endorsement::is_regular;
use evidence::{graph_from, read_logs_by, read_roster};
use hall_outside::FolderStore;
use precedence::Arrows;
use std::fs::File;
use std::rt::Files;
use std::thread::Threads;
use ways_of_work::InThreads;

/// How many entries survive in the logs with which the words ask for a check, if these and the
/// roster can be read once more.
pub(crate) fn survivors<R: Files<File = File> + AllocGlobal + Threads + Sync>(
    rt: &R,
    words: &[String],
) -> Option<u32> {
    let [_, roster, _, _, logs @ ..] = words else {
        return None;
    };
    let is_again = is_regular(rt, roster.as_str());
    if !is_again || !logs.iter().all(|name| is_regular(rt, name.as_str())) {
        return None;
    }
    let alloc = rt.alloc();
    let mut store = FolderStore::make(rt).ok()?;
    let read = read_roster(alloc, &mut store, roster.as_str()).ok()?;
    let work = InThreads { rt };
    let kept = read_logs_by(&work, alloc, &mut store, logs, &read.roster, &read.election).ok()?;
    let graph = graph_from(alloc, kept).ok()?;
    u32::try_from(graph.count()).ok()
}
