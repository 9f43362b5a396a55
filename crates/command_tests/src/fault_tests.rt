//! Calls of the store and of the sink that fail, or that give and take little, under each command.
ghost use Rattle.std.specs.Prelude.{◌<◌};

use crate::auditing_tests::{TWO, answer, empty, front_of, play, wide, words_of};
use crate::demonstrating_tests::ONE;
use crate::make_tests::ONE as DAY;
use auditorium_core::{Status, auditorium};
use hall_outside::{MemorySink, MemoryStore, OpenGate};
use std::alloc::Global;
use std::fmt::Write;
use std::sync::Wait;
use std::test::Fail;
use std::thread::Threads;

const PLAYED: &str = "machine sv sent 3 held 6\nmachine b1 sent 3 held 6\n";

const REPORT: &str =
    "log p.sv.log owner 0 kept 6 refused 0\nlog p.b1.log owner 1 kept 6 refused 0\n\
    entries 6\nkept O1\nkept O2\nkept A1\nkept A2\nkept C1\nkept C2\nkept C3\nkept C4\nkept C5\n\
    kept V1\nkept V2\nkept P1\nkept P2\nkept P3\nkept P4\nkept M1\nkept K1\nkept K2\nkept C6\n\
    kept C7\nkept V3\nkept V4\nverdict kept\n";

const CHECKED: &str =
    "kept O1\nkept O2\nkept A1\nkept A2\nkept C1\nkept C2\nkept C3\nkept C4\nkept C5\n\
    kept V1\nkept V2\nkept P1\nkept P2\nkept P3\nkept P4\nkept M1\nkept K1\nkept K2\nkept C6\n\
    kept C7\nkept V3\nkept V4\nverdict kept\n";

/// Words, how many reads they make, their status and their output.
type Command = (&'static str, u32, Status, &'static str);

/// Words over the worked files, with how many reads they make, their status and their output. Of
/// each file one read gives the bytes and one finds the end. The run comes to the files of the play
/// in whatever order its threads take their turns.
const COMMANDS: &[Command] = &[
    ("play script q", 2, Status::Done, PLAYED),
    ("repair script q", 2, Status::Done, PLAYED),
    ("run script q", 2, Status::Done, PLAYED),
    (
        "audit p.roster standard p.sv.log p.b1.log",
        6,
        Status::Done,
        REPORT,
    ),
    (
        "order p.roster sv.0 b1.2 p.sv.log p.b1.log",
        6,
        Status::Done,
        "before\n",
    ),
    (
        "gaps torn.log",
        2,
        Status::Findings,
        "torn torn.log 12433\n",
    ),
    (
        "prove p.roster o p.sv.log p.b1.log",
        6,
        Status::Done,
        "proof o entries 6 bytes 120\n",
    ),
    (
        "check p.roster standard o p.sv.log p.b1.log",
        8,
        Status::Done,
        CHECKED,
    ),
    ("make 1", 0, Status::Done, DAY),
    ("demo 1", 0, Status::Unsettled, ONE),
];

/// The files that the commands read.
const READ: [&str; 6] = [
    "script", "p.roster", "p.sv.log", "p.b1.log", "torn.log", "o",
];

/// The files that `play`, `repair` and `run` write.
const WRITTEN: [&str; 3] = ["q.roster", "q.sv.log", "q.b1.log"];

/// The files of the worked play, its script, the proof of its entries, and the supervisor's log
/// without its last byte.
fn played(alloc: Global) -> Result<MemoryStore, Fail> {
    let mut store = empty(alloc);
    play(alloc, TWO, "p", &mut store)?;
    let torn = front_of(alloc, &store, "p.sv.log", 14_906)?;
    store.place(alloc, "torn.log", &torn)?;
    let words = "prove p.roster o p.sv.log p.b1.log";
    answer(alloc, words, &mut store, &mut wide(alloc))?;
    Ok(store)
}

/// Puts the files that the commands read into a store.
fn place_files(alloc: Global, files: &MemoryStore, store: &mut MemoryStore) -> Result<(), Fail> {
    for name in READ {
        store.place(alloc, name, files.file(name).unwrap_or(b""))?;
    }
    Ok(())
}

/// A store with the same files, whose read, and whose create, append or finish, with these numbers
/// fail.
fn copied(alloc: Global, files: &MemoryStore, read: u64, write: u64) -> Result<MemoryStore, Fail> {
    let reads = vec![in alloc; read]?;
    let writes = vec![in alloc; write]?;
    let mut store = MemoryStore::make(alloc, reads, writes);
    place_files(alloc, files, &mut store)?;
    Ok(store)
}

/// The program's status for the words of one text.
pub(super) fn ends<R: Threads + Wait + Sync>(
    rt: &R,
    alloc: Global,
    words: &str,
    store: &mut MemoryStore,
    out: &mut MemorySink,
) -> Result<Status, Fail> {
    let words = words_of(alloc, words)?;
    Ok(auditorium(rt, alloc, words.as_slice(), store, out, &OpenGate))
}

/// The lengths of the files that `play` and `run` write, with a hyphen for one that isn't there.
fn lengths_of(alloc: Global, store: &MemoryStore) -> Result<String, Fail> {
    let mut text = String::new(alloc);
    for name in WRITTEN {
        match store.file(name) {
            Some(bytes) => {
                let length = bytes.len();
                write!(text, " {length}")?;
            }
            None => text.push_str(" -")?,
        }
    }
    Ok(text)
}

/// Whether the words are those of a command that writes the files of a play.
fn writes_files(words: &str) -> bool {
    words.ends_with(" script q")
}

/// Whether they are those of a command that writes any file.
fn creates_files(words: &str) -> bool {
    writes_files(words) || words.starts_with("prove ")
}

/// The lengths that the words leave.
fn lengths_after(words: &str) -> &'static str {
    if writes_files(words) {
        " 163 14907 14907"
    } else {
        " - - -"
    }
}

/// A status, an output, and the lengths of the files that are left.
type Ending<'a> = (Status, &'a [u8], &'a str);

/// What the command comes to where no call fails.
fn whole(command: &Command) -> Ending<'static> {
    let (words, _, status, output) = *command;
    (status, output.as_bytes(), lengths_after(words))
}

/// Whether the words come to this.
fn leaves<R: Threads + Wait + Sync>(
    rt: &R,
    alloc: Global,
    words: &str,
    store: &mut MemoryStore,
    out: &mut MemorySink,
    want: Ending<'_>,
) -> Result<bool, Fail> {
    let (status, output, lengths) = want;
    let ended = ends(rt, alloc, words, store, out)?;
    let left = lengths_of(alloc, store)?;
    Ok(ended == status && out.bytes() == output && left.as_str() == lengths)
}

/// Whether the command, over a copy of the files, reports that its read after this many others
/// fails, or is carried out where it makes no such read.
fn tells_of_read<R: Threads + Wait + Sync>(
    rt: &R,
    alloc: Global,
    files: &MemoryStore,
    command: &Command,
    before: u32,
) -> Result<bool, Fail> {
    let (words, reads, _, _) = *command;
    let want: Ending<'_> = if before < reads {
        (Status::ReadFault, b"", " - - -")
    } else {
        whole(command)
    };
    let mut store = copied(alloc, files, u64::from(before) + 1, 0)?;
    leaves(rt, alloc, words, &mut store, &mut wide(alloc), want)
}

#[test]
fn each_read_may_fail(rt: HostRuntime) -> Result<(), Fail> {
    let alloc = rt.alloc();
    let files = played(alloc)?;
    for command in COMMANDS {
        let (words, reads, _, _) = *command;
        for before in 0..=reads {
            assert!(rt;
                tells_of_read(&rt, alloc, &files, command, before)?,
                "{words}: {before}"
            );
        }
    }
    Ok(())
}

/// Whether the command is carried out over a copy of the files whose reads give at most this many
/// bytes.
fn reads_slowly<R: Threads + Wait + Sync>(
    rt: &R,
    alloc: Global,
    files: &MemoryStore,
    command: &Command,
    most: usize,
) -> Result<bool, Fail>
    requires { 0 < most }
{
    let (words, _, _, _) = *command;
    let mut store = copied(alloc, files, 0, 0)?;
    store.greatest_read(most);
    leaves(
        rt,
        alloc,
        words,
        &mut store,
        &mut wide(alloc),
        whole(command),
    )
}

#[test]
fn short_reads_change_no_answer(rt: HostRuntime) -> Result<(), Fail> {
    let alloc = rt.alloc();
    let files = played(alloc)?;
    for command in COMMANDS {
        let (words, reads, _, _) = *command;
        for most in [7, 1] {
            if reads > 0 {
                assert!(rt;
                    reads_slowly(&rt, alloc, &files, command, most)?,
                    "{words}: {most}"
                );
            }
        }
    }
    Ok(())
}

/// The creates, appends and finishes that fail, counted from 1, with the lengths of the files that
/// are left. Each file is created, and takes its bytes in one piece; the seventh call says that
/// they are all, and the eighth doesn't come.
const STOPS: &[(u64, &str)] = &[
    (1, " - - -"),
    (2, " 0 - -"),
    (3, " 163 - -"),
    (4, " 163 0 -"),
    (5, " 163 14907 -"),
    (6, " 163 14907 0"),
    (7, " 163 14907 14907"),
    (8, " 163 14907 14907"),
];

/// Whether the words, over a copy of the files, leave these lengths where this create, append or
/// finish fails.
fn stops_at<R: Threads + Wait + Sync>(
    rt: &R,
    alloc: Global,
    files: &MemoryStore,
    words: &str,
    (failing, lengths): (u64, &str),
) -> Result<bool, Fail> {
    let want: Ending<'_> = if failing < 8 {
        (Status::WriteFault, b"", lengths)
    } else {
        (Status::Done, PLAYED.as_bytes(), lengths)
    };
    let mut store = copied(alloc, files, 0, failing)?;
    leaves(rt, alloc, words, &mut store, &mut wide(alloc), want)
}

#[test]
fn a_stop_at_each_call_that_writes_leaves_the_files_before_it(rt: HostRuntime) -> Result<(), Fail> {
    let alloc = rt.alloc();
    let files = played(alloc)?;
    for words in ["play script q", "run script q"] {
        for &(failing, lengths) in STOPS {
            let stop = (failing, lengths);
            assert!(rt;
                stops_at(&rt, alloc, &files, words, stop)?,
                "{words}: {failing}"
            );
        }
    }
    Ok(())
}

/// What the command comes to where the write of the output after this many bytes fails, or where
/// it has no more bytes.
fn stopped_after(command: &Command, sent: usize) -> Ending<'static> {
    let (words, _, _, output) = *command;
    if sent < output.len() {
        (
            Status::WriteFault,
            &output.as_bytes()[..sent],
            lengths_after(words),
        )
    } else {
        whole(command)
    }
}

/// Whether the command, over a copy of the files, reports that this write of its output fails,
/// before which this many bytes are sent, or is carried out where it has no more bytes.
fn tells_of_write<R: Threads + Wait + Sync>(
    rt: &R,
    alloc: Global,
    files: &MemoryStore,
    command: &Command,
    (failing, sent): (u64, usize),
) -> Result<bool, Fail> {
    let (words, _, _, _) = *command;
    let mut store = copied(alloc, files, 0, 0)?;
    let mut out = MemorySink::make(alloc, 10, vec![in alloc; failing]?);
    let want = stopped_after(command, sent);
    leaves(rt, alloc, words, &mut store, &mut out, want)
}

#[test]
fn each_write_of_an_output_may_fail(rt: HostRuntime) -> Result<(), Fail> {
    let alloc = rt.alloc();
    let files = played(alloc)?;
    for command in COMMANDS {
        let (words, _, _, output) = *command;
        // Each write takes 10 bytes of the output, which has at most 738.
        for failing in 1..76usize {
            let sent = 10 * (failing - 1);
            let write = (failing as u64, sent);
            assert!(rt;
                tells_of_write(&rt, alloc, &files, command, write)?,
                "{words}: {failing}"
            );
            if sent >= output.len() {
                break;
            }
        }
    }
    Ok(())
}

/// Whether the command is whole over a copy of the files whose first create fails.
fn creates_nothing<R: Threads + Wait + Sync>(
    rt: &R,
    alloc: Global,
    files: &MemoryStore,
    command: &Command,
) -> Result<bool, Fail> {
    let (words, _, _, _) = *command;
    let mut store = copied(alloc, files, 0, 1)?;
    leaves(
        rt,
        alloc,
        words,
        &mut store,
        &mut wide(alloc),
        whole(command),
    )
}

#[test]
fn only_play_run_and_prove_create_files(rt: HostRuntime) -> Result<(), Fail> {
    let alloc = rt.alloc();
    let files = played(alloc)?;
    for command in COMMANDS {
        let (words, _, _, _) = *command;
        if !creates_files(words) {
            assert!(rt; creates_nothing(&rt, alloc, &files, command)?, "{words}");
        }
    }
    Ok(())
}
