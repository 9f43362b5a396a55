//! The command `play`. The sizes of the files and the lines are those of the worked scripts.
use crate::auditing_tests::{empty, words_of};
use auditorium_core::{Status, auditorium_still};
use entry_format::Sealed;
use entry_order::{Event, Knot};
use hall_outside::{MemorySink, MemoryStore};
use polling_world::World;
use std::alloc::Global;
use std::test::Fail;

/// A supervisor and a booth.
pub(super) const TWO: &str =
    "seed 0102\nkey w4 h5\nlog 64\nlink 64\nmachine sv supervisor\nmachine b1 booth\n";

/// A supervisor and two booths.
pub(super) const THREE: &str = "seed 0102\nkey w4 h5\nlog 64\nlink 64\n\
    machine sv supervisor\nmachine b1 booth\nmachine b2 booth\n";

/// One session from authorisation to ballot.
pub(super) const SESSION: &str = "do sv open\ndo sv authorise b1 1\ndo sv close\ndo b1 activate 1\n\
    do b1 commit 1 0707070707070707070707070707070707070707070707070707070707070707\n\
    do b1 cast 1 0707070707070707070707070707070707070707070707070707070707070707\n";

/// The steps of that session, each of which changes something.
pub(super) const STEPS: &str = "step act sv\nstep act sv\nstep hear b1 sv 0\nstep hear b1 sv 1\n\
    step act b1\nstep act b1\nstep act b1\n\
    step hear sv b1 0\nstep hear sv b1 1\nstep hear sv b1 2\nstep act sv\nstep hear b1 sv 2\n";

/// Steps after which the supervisor hears nothing of the session.
const UNHEARD: &str = "step act sv\nstep act sv\nstep hear b1 sv 0\nstep hear b1 sv 1\n\
    step act b1\nstep act b1\nstep act b1\nstep act sv\nstep hear b1 sv 2\n";

/// A session at each booth.
pub(super) const SESSIONS: &str =
    "do sv open\ndo sv authorise b1 1\ndo sv authorise b2 2\ndo b1 activate 1\n\
    do b1 commit 1 0707070707070707070707070707070707070707070707070707070707070707\n\
    do b2 activate 2\n";

/// The end of the second one.
pub(super) const BALLOT: &str =
    "do b2 commit 2 0707070707070707070707070707070707070707070707070707070707070707\n\
    do b2 cast 2 0707070707070707070707070707070707070707070707070707070707070707\n";

/// Both booths hear the supervisor, and the second the later of the first one's two entries.
const PARTED: &str = "step act sv\nstep act sv\nstep act sv\n\
    step hear b1 sv 0\nstep hear b1 sv 1\nstep hear b1 sv 2\n\
    step hear b2 sv 0\nstep hear b2 sv 1\nstep hear b2 sv 2\n\
    step act b1\nstep act b1\nstep hear b2 b1 1\nstep act b2\n";

/// After that the second booth has an action after its commitment.
pub(super) const BALLOT_STEPS: &str = "step act sv\nstep act sv\nstep act sv\n\
    step hear b1 sv 0\nstep hear b1 sv 1\nstep hear b1 sv 2\n\
    step hear b2 sv 0\nstep hear b2 sv 1\nstep hear b2 sv 2\n\
    step act b1\nstep act b1\nstep hear b2 b1 1\nstep act b2\nstep act b2\nstep act b2\n";

/// A session of version 2 that ends with a challenge.
const CHALLENGED: &str = "do sv open\ndo sv authorise b1 1\ndo sv close\ndo b1 activate 1\n\
    do b1 commit 1 0707070707070707070707070707070707070707070707070707070707070707\n\
    do b1 challenge 1 0707070707070707070707070707070707070707070707070707070707070707\n";

/// A session that the supervisor overrides: the booth is to cast, and would cancel.
const FORCED: &str = "do sv open\ndo sv authorise b1 1\ndo sv override 1 cast\ndo sv close\n\
    do b1 activate 1\n\
    do b1 commit 1 0707070707070707070707070707070707070707070707070707070707070707\n\
    do b1 cancel 1\n";

/// The steps of that session up to its commitment.
const COMMITTED: &str = "step act sv\nstep act sv\nstep hear b1 sv 0\nstep hear b1 sv 1\n\
    step act b1\nstep act b1\nstep hear sv b1 0\n";

/// The supervisor overrides, and the booth acts once more.
const OVERRIDDEN: &str = "step act sv\nstep hear b1 sv 2\nstep act b1\n";

/// Parts of a text, each with the number of times that it is repeated.
pub(super) type Parts = &'static [(usize, &'static str)];

/// The text of the parts, one after the other.
pub(super) fn joined(alloc: Global, parts: &[(usize, &str)]) -> Result<String, Fail> {
    let mut text = String::new(alloc);
    for (count, part) in parts {
        for _ in 0..*count {
            text.push_str(part)?;
        }
    }
    Ok(text)
}

/// Plays the script over a store of its own.
fn play_over(
    alloc: Global,
    script: &str,
    out: &mut MemorySink,
) -> Result<(Status, MemoryStore), Fail> {
    let mut store = empty(alloc);
    store.place(alloc, "s", script.as_bytes())?;
    let words = words_of(alloc, "play s p")?;
    let status = auditorium_still(alloc, words.as_slice(), &mut store, out);
    Ok((status, store))
}

/// How long a file is; 0 if there is none.
fn length_of(store: &MemoryStore, name: &str) -> usize {
    match store.file(name) {
        Some(bytes) => bytes.len(),
        None => 0,
    }
}

/// Scripts with the lengths of the files, the status and the output of their plays.
pub(super) const PLAYS: &[(Parts, [usize; 4], Status, &str)] = &[
    (
        &[(1, TWO), (1, SESSION), (1, STEPS)],
        [163, 14907, 14907, 0],
        Status::Done,
        "machine sv sent 3 held 6\nmachine b1 sent 3 held 6\n",
    ),
    (
        &[(1, TWO), (1, SESSION), (1, UNHEARD)],
        [163, 4935, 12434, 0],
        Status::Undone,
        "machine sv sent 2 held 2\nmachine b1 sent 3 held 5\nundone sv 2 SessionsLeft\n",
    ),
    (
        &[(1, THREE), (1, SESSIONS), (1, PARTED)],
        [235, 7418, 12406, 12440],
        Status::Done,
        "machine sv sent 3 held 3\nmachine b1 sent 2 held 5\nmachine b2 sent 1 held 5\n",
    ),
    (
        &[(1, "version 2\n"), (1, TWO), (1, CHALLENGED), (1, STEPS)],
        [163, 14912, 14912, 0],
        Status::Done,
        "machine sv sent 3 held 6\nmachine b1 sent 3 held 6\n",
    ),
    (
        &[
            (1, "version 2\n"),
            (1, TWO),
            (1, FORCED),
            (1, COMMITTED),
            (1, "step hear sv b1 1\n"),
            (1, OVERRIDDEN),
        ],
        [163, 12409, 12408, 0],
        Status::Undone,
        "machine sv sent 3 held 5\nmachine b1 sent 2 held 5\n\
            undone sv 3 SessionsLeft\nundone b1 2 CastForced\n",
    ),
    (
        &[
            (1, "version 2\n"),
            (1, TWO),
            (1, FORCED),
            (1, COMMITTED),
            (1, OVERRIDDEN),
        ],
        [163, 7413, 12401, 0],
        Status::Undone,
        "machine sv sent 2 held 3\nmachine b1 sent 3 held 5\nundone sv 2 NothingCommitted\n",
    ),
];

/// Whether the files of a play have these lengths.
fn has_lengths(store: &MemoryStore, lengths: &[usize; 4]) -> bool {
    let &[roster, supervisor, first, second] = lengths;
    length_of(store, "p.roster") == roster
        && length_of(store, "p.sv.log") == supervisor
        && length_of(store, "p.b1.log") == first
        && length_of(store, "p.b2.log") == second
}

/// The store after the play of the script of these parts, if it has this status and output.
fn played_to(
    alloc: Global,
    parts: Parts,
    (status, output): (Status, &str),
) -> Result<Option<MemoryStore>, Fail> {
    let script = joined(alloc, parts)?;
    let mut out = MemorySink::make(alloc, 100, Vec::new(alloc));
    let (answered, store) = play_over(alloc, script.as_str(), &mut out)?;
    if answered == status && out.bytes() == output.as_bytes() {
        Ok(Some(store))
    } else {
        Ok(None)
    }
}

#[test]
fn a_play_has_its_files_lines_and_status(rt: HostRuntime) -> Result<(), Fail> {
    for &(parts, lengths, status, output) in PLAYS {
        let played = played_to(rt.alloc(), parts, (status, output))?;
        let told = played.is_some_and(|store| has_lengths(&store, &lengths));
        assert!(rt; told, "{output}");
    }
    Ok(())
}

/// What an entry is to be: its maker and number, its stamp, the maker and number of each entry that
/// it names, in the order of their digests, and the length of its signed text.
type Expected = (u32, u32, u32, &'static [(u32, u32)], usize);

/// The entries of the session whose steps all change something.
const SESSION_ENTRIES: &[Expected] = &[
    (0, 0, 1, &[], 2431),
    (0, 1, 2, &[(0, 0)], 2475),
    (1, 0, 3, &[(0, 1)], 2471),
    (1, 1, 4, &[(1, 0)], 2504),
    (1, 2, 5, &[(1, 1)], 2502),
    (0, 2, 6, &[(1, 2)], 2466),
];

/// The entries of the session that ends with a challenge.
const CHALLENGED_ENTRIES: &[Expected] = &[
    (0, 0, 1, &[], 2431),
    (0, 1, 2, &[(0, 0)], 2475),
    (1, 0, 3, &[(0, 1)], 2471),
    (1, 1, 4, &[(1, 0)], 2504),
    (1, 2, 5, &[(1, 1)], 2507),
    (0, 2, 6, &[(1, 2)], 2466),
];

/// The entries of the session that the supervisor hears nothing of.
const UNHEARD_ENTRIES: &[Expected] = &[
    (0, 0, 1, &[], 2431),
    (0, 1, 2, &[(0, 0)], 2475),
    (1, 0, 3, &[(0, 1)], 2471),
    (1, 1, 4, &[(1, 0)], 2504),
    (1, 2, 5, &[(1, 1)], 2502),
];

/// The entries of two sessions, of which the second booth's names what it heard last of each.
const PARTED_ENTRIES: &[Expected] = &[
    (0, 0, 1, &[], 2431),
    (0, 1, 2, &[(0, 0)], 2475),
    (0, 2, 3, &[(0, 1)], 2475),
    (1, 0, 4, &[(0, 2)], 2471),
    (1, 1, 5, &[(1, 0)], 2504),
    (2, 0, 6, &[(1, 1), (0, 2)], 2506),
];

/// The world after the script's steps.
fn world_of(alloc: Global, script: &str) -> Result<World, Fail> {
    match election_script::read(alloc, script.as_bytes()) {
        Ok(script) => {
            let keys = polling_world::keys_of(alloc, &script)?;
            Ok(polling_world::play(alloc, &script, keys)?)
        }
        Err(_) => Err(Fail::from("the script is read")),
    }
}

/// The entry that the machine sent under this number.
fn sent_by(world: &World, (maker, number): (u32, u32)) -> Option<&Sealed> {
    let machine = world.machines.get(maker as usize)?;
    for event in machine.log().events() {
        if let Event::Sent(sealed) = event {
            if sealed.number() == number {
                return Some(sealed);
            }
        }
    }
    None
}

/// Scripts with the entries of their plays.
const SENT: &[(Parts, &[Expected])] = &[
    (&[(1, TWO), (1, SESSION), (1, STEPS)], SESSION_ENTRIES),
    (
        &[(1, "version 2\n"), (1, TWO), (1, CHALLENGED), (1, STEPS)],
        CHALLENGED_ENTRIES,
    ),
    (&[(1, TWO), (1, SESSION), (1, UNHEARD)], UNHEARD_ENTRIES),
    (&[(1, THREE), (1, SESSIONS), (1, PARTED)], PARTED_ENTRIES),
];

/// Whether the machine sent an entry under this number that has this digest.
fn is_digest_of(world: &World, sent: (u32, u32), digest: &[u8; 32]) -> bool {
    match sent_by(world, sent) {
        Some(sealed) => sealed.digest() == digest,
        None => false,
    }
}

/// Whether the entry names these, in this order.
fn names_these(world: &World, sealed: &Sealed, names: &[(u32, u32)]) -> bool {
    if sealed.names().len() != names.len() {
        return false;
    }
    for (digest, named) in sealed.names().iter().zip(names.iter()) {
        if !is_digest_of(world, *named, digest) {
            return false;
        }
    }
    true
}

/// Whether the entry was sent as it is to be.
fn is_sent(world: &World, expected: &Expected) -> bool {
    let (maker, number, stamp, names, length) = *expected;
    match sent_by(world, (maker, number)) {
        Some(sealed) => {
            sealed.stamp() == stamp
                && sealed.text().len() == length
                && names_these(world, sealed, names)
        }
        None => false,
    }
}

/// The world after the steps of the script of these parts.
fn world_of_parts(alloc: Global, parts: Parts) -> Result<World, Fail> {
    let script = joined(alloc, parts)?;
    world_of(alloc, script.as_str())
}

#[test]
fn entries_name_what_was_held_last(rt: HostRuntime) -> Result<(), Fail> {
    for &(parts, entries) in SENT {
        let world = world_of_parts(rt.alloc(), parts)?;
        for expected in entries {
            let (maker, number, _, _, _) = *expected;
            assert!(rt; is_sent(&world, expected), "{maker}.{number}");
        }
    }
    Ok(())
}

/// Scripts with the status and the output of their plays: a spent key, a log that isn't whole, and
/// one that is refused.
const LEFT: &[(Parts, Status, &str)] = &[
    (
        &[
            (1, TWO),
            (1, "do sv open\ndo sv authorise b1 1\n"),
            (31, "do sv override 1\n"),
            (33, "step act sv\n"),
        ],
        Status::Undone,
        "machine sv sent 32 held 32\nmachine b1 sent 0 held 0\nundone sv 32 Spent\n",
    ),
    (
        &[(1, THREE), (1, SESSIONS), (1, BALLOT), (1, BALLOT_STEPS)],
        Status::Undone,
        "machine sv sent 3 held 3\nmachine b1 sent 2 held 5\nmachine b2 sent 2 held 6\n\
            undone b2 2 LogNotWhole\n",
    ),
    (
        &[
            (1, TWO),
            (1, "do sv open\ndo sv close\n"),
            (1, "do sv authorise b9 1\n"),
        ],
        Status::Refused,
        "refused s 9 UnknownName\n",
    ),
];

/// Whether the play of the script of these parts has this status and output, and writes a roster
/// only if it isn't refused.
fn is_left(alloc: Global, parts: Parts, want: (Status, &str)) -> Result<bool, Fail> {
    let (status, _) = want;
    match played_to(alloc, parts, want)? {
        Some(store) => Ok((length_of(&store, "p.roster") > 0) == (status == Status::Undone)),
        None => Ok(false),
    }
}

#[test]
fn what_is_left_has_its_cause(rt: HostRuntime) -> Result<(), Fail> {
    for &(parts, status, output) in LEFT {
        assert!(rt; is_left(rt.alloc(), parts, (status, output))?, "{output}");
    }
    Ok(())
}
