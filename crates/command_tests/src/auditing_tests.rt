//! The command `audit`. The lines are those of the worked rows, and were computed by a separate
//! plain program.
use crate::play_tests::{Parts, joined};
use auditorium_core::{Status, auditorium_still};
use hall_outside::{MemorySink, MemoryStore};
use std::alloc::Global;
use std::test::Fail;

/// A session of a supervisor and a booth, all of which both hear.
pub(super) const TWO: &str =
    "seed 0102\nkey w4 h5\nlog 64\nlink 64\nmachine sv supervisor\nmachine b1 booth\n\
    do sv open\ndo sv authorise b1 1\ndo sv close\ndo b1 activate 1\n\
    do b1 commit 1 0707070707070707070707070707070707070707070707070707070707070707\n\
    do b1 cast 1 0707070707070707070707070707070707070707070707070707070707070707\n\
    step act sv\nstep act sv\nstep hear b1 sv 0\nstep hear b1 sv 1\n\
    step act b1\nstep act b1\nstep act b1\n\
    step hear sv b1 0\nstep hear sv b1 1\nstep hear sv b1 2\nstep act sv\nstep hear b1 sv 2\n";

/// The same machines, of which the supervisor authorises another session.
const FORK: &str =
    "seed 0102\nkey w4 h5\nlog 64\nlink 64\nmachine sv supervisor\nmachine b1 booth\n\
    do sv open\ndo sv authorise b1 2\nstep act sv\nstep act sv\n";

/// The same machines with other keys.
const OTHER: &str =
    "seed 0103\nkey w4 h5\nlog 64\nlink 64\nmachine sv supervisor\nmachine b1 booth\n";

/// Sessions at two booths, of which the second hears the later of the first one's two entries.
pub(super) const THREE: &str = "seed 0102\nkey w4 h5\nlog 64\nlink 64\n\
    machine sv supervisor\nmachine b1 booth\nmachine b2 booth\n\
    do sv open\ndo sv authorise b1 1\ndo sv authorise b2 2\ndo b1 activate 1\n\
    do b1 commit 1 0707070707070707070707070707070707070707070707070707070707070707\n\
    do b2 activate 2\n\
    step act sv\nstep act sv\nstep act sv\n\
    step hear b1 sv 0\nstep hear b1 sv 1\nstep hear b1 sv 2\n\
    step hear b2 sv 0\nstep hear b2 sv 1\nstep hear b2 sv 2\n\
    step act b1\nstep act b1\nstep hear b2 b1 1\nstep act b2\n";

/// The digest of the supervisor's first entry in `TWO`.
const FIRST: &str = "2fed14e03229333b1998551e1e3c05a921656bade300ea337364b17d51e2f1f0";

/// The files with these bytes are there beside those of the plays.
const FILES: &[(&str, &str)] = &[
    (
        "own",
        "(rule A1 (every x opened true))(rule N (some x cast true))\n",
    ),
    ("free", "(rule A1 (every x opened (same x y)))\n"),
];

/// The words of one text.
pub(super) fn words_of(alloc: Global, text: &str) -> Result<Vec<String>, Fail> {
    let mut words = Vec::new(alloc);
    for word in text.split(' ') {
        words.push(String::from_str(alloc, word)?)?;
    }
    Ok(words)
}

/// A store without files, no call of which fails.
pub(super) fn empty(alloc: Global) -> MemoryStore {
    MemoryStore::make(alloc, Vec::new(alloc), Vec::new(alloc))
}

/// A sink that takes 1000 bytes at a write, none of which fails.
pub(super) fn wide(alloc: Global) -> MemorySink {
    MemorySink::make(alloc, 1000, Vec::new(alloc))
}

/// The program's status for the words of one text.
pub(super) fn answer(
    alloc: Global,
    words: &str,
    store: &mut MemoryStore,
    out: &mut MemorySink,
) -> Result<Status, Fail> {
    let words = words_of(alloc, words)?;
    Ok(auditorium_still(alloc, words.as_slice(), store, out))
}

/// Whether the words have this status and this output.
pub(super) fn is_answered(
    alloc: Global,
    words: &str,
    store: &mut MemoryStore,
    (status, output): (Status, &str),
) -> Result<bool, Fail> {
    let mut out = wide(alloc);
    let answered = answer(alloc, words, store, &mut out)?;
    Ok(answered == status && out.bytes() == output.as_bytes())
}

/// The exit status and the output for the words.
pub(super) fn told(alloc: Global, words: &str, store: &mut MemoryStore) -> Result<String, Fail> {
    let mut out = wide(alloc);
    let status = answer(alloc, words, store, &mut out)?.exit_status();
    let lines = String::from_utf8_lossy(alloc, out.bytes())?;
    Ok(format!(in alloc; "{status} {lines}")?)
}

/// The bytes of the parts, one after the other.
pub(super) fn all_of(alloc: Global, parts: &[&[u8]]) -> Result<Vec<u8>, Fail> {
    let mut bytes = Vec::new(alloc);
    for part in parts {
        bytes.extend_from_slice(part)?;
    }
    Ok(bytes)
}

/// The octets of these digits.
pub(super) fn octets_of(alloc: Global, digits: &str) -> Result<Vec<u8>, Fail> {
    match hex::decode(alloc, digits) {
        Ok(octets) => Ok(octets),
        Err(_) => Err(Fail::from("the digits are hexadecimal")),
    }
}

/// Plays the script into files whose names begin so.
pub(super) fn play(
    alloc: Global,
    script: &str,
    prefix: &str,
    store: &mut MemoryStore,
) -> Result<(), Fail> {
    store.place(alloc, "script", script.as_bytes())?;
    let words = format!(in alloc; "play script {prefix}")?;
    answer(alloc, words.as_str(), store, &mut wide(alloc))?;
    Ok(())
}

/// The first bytes of a file, or fewer if it is shorter.
pub(super) fn front_of(
    alloc: Global,
    store: &MemoryStore,
    name: &str,
    length: usize,
) -> Result<Vec<u8>, Fail> {
    let bytes = store.file(name).unwrap_or(b"");
    Ok(Vec::from_slice(alloc, &bytes[..bytes.len().min(length)])?)
}

/// The bytes with the lowest bit of one of them changed.
pub(super) fn flipped(alloc: Global, bytes: &[u8], place: usize) -> Result<Vec<u8>, Fail> {
    let mut flipped = Vec::from_slice(alloc, bytes)?;
    if let Some(byte) = flipped.get_mut(place) {
        *byte ^= 1;
    }
    Ok(flipped)
}

/// Puts the first bytes of a log into a file.
fn place_cut(
    alloc: Global,
    length: usize,
    name: &str,
    store: &mut MemoryStore,
) -> Result<(), Fail> {
    let bytes = front_of(alloc, store, "p.sv.log", length)?;
    Ok(store.place(alloc, name, &bytes)?)
}

/// Puts a log into a file, with one bit changed.
fn place_flipped(alloc: Global, name: &str, store: &mut MemoryStore) -> Result<(), Fail> {
    let bytes = flipped(alloc, store.file("p.sv.log").unwrap_or(b""), 12_430)?;
    Ok(store.place(alloc, name, &bytes)?)
}

/// The text of the supervisor's second entry of `election`, unsigned: it names the first by this
/// digest, and has its stamp.
fn stray_body(alloc: Global, election: &[u8], digest: &str) -> Result<Vec<u8>, Fail> {
    let digest = octets_of(alloc, digest)?;
    all_of(
        alloc,
        &[
            b"(5:entry1:132:",
            election,
            b"1:01:11:1(32:",
            &digest,
            b")(9:authorise1:11:1))",
        ],
    )
}

/// The signature of the supervisor of `TWO` with its key's second index.
fn signed(alloc: Global, body: &[u8]) -> Result<Vec<u8>, Fail> {
    if let Ok(script) = election_script::read(alloc, TWO.as_bytes()) {
        if !script.machines.as_slice().is_empty() {
            let mut secret = polling_world::key_of(alloc, &script, 0)?;
            secret.sign(alloc, body)?;
            return Ok(secret.sign(alloc, body)?);
        }
    }
    Err(Fail::from("the entry is signed"))
}

/// The record of the stray.
fn stray_record(alloc: Global, election: &[u8]) -> Result<Vec<u8>, Fail> {
    let body = stray_body(alloc, election, FIRST)?;
    let signature = signed(alloc, &body)?;
    all_of(
        alloc,
        &[b"(4:sent(6:sealed", &body, b"2348:", &signature, b"))"],
    )
}

/// The supervisor's log up to its first entry, and then a stray.
fn stray_log(alloc: Global, log: &[u8]) -> Result<Vec<u8>, Fail> {
    let election = &log[log.len().min(43)..log.len().min(75)];
    let record = stray_record(alloc, election)?;
    all_of(alloc, &[&log[..log.len().min(2452)], &record])
}

/// Puts that log into a file.
fn place_stray(alloc: Global, name: &str, store: &mut MemoryStore) -> Result<(), Fail> {
    let bytes = stray_log(alloc, store.file("p.sv.log").unwrap_or(b""))?;
    Ok(store.place(alloc, name, &bytes)?)
}

/// Puts cut and changed logs into files, and those of `FILES`.
fn place_changed(alloc: Global, store: &mut MemoryStore) -> Result<(), Fail> {
    place_cut(alloc, 14906, "torn.log", store)?;
    place_cut(alloc, 12433, "ends.log", store)?;
    place_flipped(alloc, "bit.log", store)?;
    place_stray(alloc, "stray.log", store)?;
    for (name, bytes) in FILES {
        store.place(alloc, name, bytes.as_bytes())?;
    }
    Ok(())
}

/// The plays, each with the prefix of its files.
const PLAYED: &[(&str, &str)] = &[(TWO, "p"), (FORK, "f"), (OTHER, "o"), (THREE, "q")];

/// A store with the files of all plays, and with cut and changed logs.
pub(super) fn hall(alloc: Global) -> Result<MemoryStore, Fail> {
    let mut store = empty(alloc);
    for (script, prefix) in PLAYED {
        play(alloc, script, prefix, &mut store)?;
    }
    place_changed(alloc, &mut store)?;
    Ok(store)
}

/// Words with the status, and the output without the lines of kept rules.
const AUDITS: &[(&str, Status, &str)] = &[
    (
        "audit p.roster standard p.sv.log p.b1.log",
        Status::Done,
        "log p.sv.log owner 0 kept 6 refused 0\nlog p.b1.log owner 1 kept 6 refused 0\n\
            entries 6\nverdict kept\n",
    ),
    (
        "audit p.roster standard torn.log",
        Status::Findings,
        "log torn.log owner 0 kept 5 refused 0\ntorn torn.log 12433\nentries 5\nverdict findings\n",
    ),
    (
        "audit p.roster standard ends.log",
        Status::Done,
        "log ends.log owner 0 kept 5 refused 0\nentries 5\nverdict kept\n",
    ),
    (
        "audit q.roster standard q.sv.log q.b2.log",
        Status::Unsettled,
        "log q.sv.log owner 0 kept 3 refused 0\nlog q.b2.log owner 2 kept 5 refused 0\nentries 5\n\
            gap 628e5112466668856b29d6f9c7f3a840b204acd10ffed85a3d7a2d45388d2659\n\
            unsettled C1\nunsettled K2\nverdict unsettled\n",
    ),
    (
        "audit p.roster standard bit.log",
        Status::Unsettled,
        "log bit.log owner 0 kept 5 refused 1\nrefused bit.log 4 BadSignature\nbreak bit.log 5\n\
            entries 5\ngap a9e840a06e82e5098f5c05488b689762452fd14724bf4c8277b7a748e62c4bf9\n\
            unsettled P3\nunsettled K2\nverdict unsettled\n",
    ),
    (
        "audit o.roster standard p.sv.log",
        Status::Findings,
        "log p.sv.log owner 0 kept 0 refused 6\nrefused p.sv.log 0 OtherElection\n\
            refused p.sv.log 1 OtherElection\nrefused p.sv.log 2 OtherElection\n\
            refused p.sv.log 3 OtherElection\nrefused p.sv.log 4 OtherElection\n\
            refused p.sv.log 5 OtherElection\nentries 0\nverdict findings\n",
    ),
    (
        "audit p.roster standard p.sv.log p.b1.log p.sv.log p.sv.log",
        Status::Done,
        "log p.sv.log owner 0 kept 6 refused 0\nlog p.b1.log owner 1 kept 6 refused 0\n\
            log p.sv.log owner 0 kept 6 refused 0\nlog p.sv.log owner 0 kept 6 refused 0\n\
            entries 6\nverdict kept\n",
    ),
    (
        "audit p.roster standard p.sv.log f.sv.log",
        Status::Broken,
        "log p.sv.log owner 0 kept 6 refused 0\nlog f.sv.log owner 0 kept 2 refused 0\nentries 7\n\
            fork sv 1\nbroken K1 \
            sv.1:db93dda5af4824d79ddcc1885c59bc8db561b03bb1aeab96a69b225ed492701f \
            sv.1:fdb9c3ad202b5b2d4c066def07dc18849ac022bfdf7567c18330b1d1178676b9\n\
            verdict broken\n",
    ),
    (
        "audit q.roster own q.b2.log",
        Status::Broken,
        "log q.b2.log owner 2 kept 5 refused 0\nentries 5\n\
            gap 628e5112466668856b29d6f9c7f3a840b204acd10ffed85a3d7a2d45388d2659\n\
            broken N\nverdict broken\n",
    ),
    // An entry that names another and isn't later is set aside.
    (
        "audit p.roster standard stray.log",
        Status::Findings,
        "log stray.log owner 0 kept 2 refused 0\nbreak stray.log 1\nentries 1\n\
            stray 2b1d113529eda7b07eb7caf331f7cca871f0e74cead8483997fa4434cc7d913c\n\
            verdict findings\n",
    ),
    // The first refusal ends it, in the order of the words.
    (
        "audit p.roster free p.sv.log",
        Status::Refused,
        "refused free 33 Unbound\n",
    ),
    (
        "audit p.sv.log free none",
        Status::Refused,
        "refused p.sv.log 13 NotCanonical\n",
    ),
    ("audit p.roster none gone", Status::Absent, "absent none\n"),
    (
        "audit p.roster standard p.roster gone",
        Status::Refused,
        "refused p.roster 0 Header\n",
    ),
    (
        "audit p.roster standard gone",
        Status::Absent,
        "absent gone\n",
    ),
    ("audit p.roster standard", Status::Usage, "usage\n"),
    (
        "audit a b c c c c c c c c c c c c c c c c c",
        Status::Usage,
        "usage\n",
    ),
];

/// The lines, without those of kept rules.
pub(super) fn without_kept(alloc: Global, bytes: &[u8]) -> Result<String, Fail> {
    let text = String::from_utf8_lossy(alloc, bytes)?;
    let mut lines = String::new(alloc);
    for line in text.as_str().split('\n') {
        if !line.is_empty() && !line.starts_with("kept ") {
            lines.push_str(line)?;
            lines.push_str("\n")?;
        }
    }
    Ok(lines)
}

/// Whether the words have this status, and these lines without those of kept rules.
fn is_reported(
    alloc: Global,
    words: &str,
    store: &mut MemoryStore,
    (status, lines): (Status, &str),
) -> Result<bool, Fail> {
    let mut out = wide(alloc);
    let answered = answer(alloc, words, store, &mut out)?;
    let found = without_kept(alloc, out.bytes())?;
    Ok(answered == status && found.as_str() == lines)
}

#[test]
fn each_audit_has_its_lines_and_status(rt: HostRuntime) -> Result<(), Fail> {
    let alloc = rt.alloc();
    let mut store = hall(alloc)?;
    for &(words, status, lines) in AUDITS {
        assert!(rt;
            is_reported(alloc, words, &mut store, (status, lines))?,
            "{words}"
        );
    }
    Ok(())
}

/// Rules, with the place and the cause of their refusal.
const RULES: &[(Parts, &str)] = &[
    (&[(1, "(rule A true) \u{1}")], "14 Token"),
    (&[], "0 Shape"),
    (&[(1, "(rule A)")], "7 Shape"),
    (&[(1, "(rule A-B true)")], "6 Shape"),
    (&[(1, "(rule ABCDEFGHIJKLMNOPQ true)")], "6 Shape"),
    (&[(1, "(rule A (every x opened true)))")], "30 Shape"),
    (
        &[(1, "(rule A (every x cast (= x.number 4294967296)))")],
        "34 Shape",
    ),
    (&[(1, "(rule A (every x vote true))")], "17 UnknownKind"),
    (&[(2, "(rule A true)")], "19 SameName"),
    (
        &[(1, "(rule A (every x opened (every x opened true)))")],
        "31 SameName",
    ),
    (&[(1, "(rule A (every x opened (same x y)))")], "32 Unbound"),
    (
        &[(1, "(rule A (every x opened (= x.session 1)))")],
        "27 WrongField",
    ),
    (
        &[(1, "(rule A (every x cast (= x.session x.maker)))")],
        "35 WrongField",
    ),
    (
        &[(1, "(rule A (every x cast (< x.ballot x.ballot)))")],
        "25 WrongField",
    ),
    // The 33rd parenthesis, the fifth quantifier, and parentheses alone.
    (&[(1, "(rule A "), (32, "(not ")], "163 TooDeep"),
    (
        &[
            (1, "(rule A (every v entry (every w entry (every x entry "),
            (1, "(every y entry (some z entry true))))))"),
        ],
        "69 TooDeep",
    ),
    (&[(33, "(")], "1 Shape"),
    (&[(1, "(rule A "), (32, "(")], "9 Shape"),
];

/// Puts the parts into a file.
pub(super) fn place_parts(
    alloc: Global,
    name: &str,
    parts: &[(usize, &str)],
    store: &mut MemoryStore,
) -> Result<(), Fail> {
    let text = joined(alloc, parts)?;
    Ok(store.place(alloc, name, text.as_bytes())?)
}

/// Whether the rules of these parts are refused so.
fn are_refused(
    alloc: Global,
    parts: Parts,
    refusal: &str,
    store: &mut MemoryStore,
) -> Result<bool, Fail> {
    place_parts(alloc, "own", parts, store)?;
    let line = format!(in alloc; "refused own {refusal}\n")?;
    let want = (Status::Refused, line.as_str());
    is_answered(alloc, "audit o.roster own gone", store, want)
}

#[test]
fn rules_are_refused_at_their_first_fault(rt: HostRuntime) -> Result<(), Fail> {
    let alloc = rt.alloc();
    let mut store = empty(alloc);
    play(alloc, OTHER, "o", &mut store)?;
    for &(parts, refusal) in RULES {
        assert!(rt;
            are_refused(alloc, parts, refusal, &mut store)?,
            "{refusal}"
        );
    }
    Ok(())
}

/// The supervisor opens, authorises a session and overrides it, with keys that sign at once.
const MANY: &str =
    "seed 0102\nkey w1 h5\nlog 64\nlink 64\nmachine sv supervisor\nmachine b1 booth\n\
    do sv open\n";

/// Five plays, each with its session and how often that is overridden, together of 129 entries: the
/// first entry is the same in each.
const OVERRIDES: &[(usize, usize)] = &[(1, 30), (2, 30), (3, 30), (4, 30), (5, 3)];

/// Four quantifiers over 129 entries each are over the limit.
const WIDE: &str = "(rule A1 (every x opened true))\
    (rule W (every a entry (every b entry (every c entry (every d entry true)))))";

/// The script of a play in which the session is overridden so often.
fn overrides(alloc: Global, session: usize, count: usize) -> Result<String, Fail> {
    let authorise = format!(in alloc; "do sv authorise b1 {session}\n")?;
    let again = format!(in alloc; "do sv override {session}\n")?;
    joined(
        alloc,
        &[
            (1, MANY),
            (1, authorise.as_str()),
            (count, again.as_str()),
            (count, "step act sv\n"),
            (2, "step act sv\n"),
        ],
    )
}

/// Puts the files of that play into the store.
fn play_overrides(
    alloc: Global,
    session: usize,
    count: usize,
    store: &mut MemoryStore,
) -> Result<(), Fail> {
    let script = overrides(alloc, session, count)?;
    let prefix = format!(in alloc; "w{session}")?;
    play(alloc, script.as_str(), prefix.as_str(), store)
}

/// A store with the files of the five plays, and a rule that is too wide for them.
fn wide_hall(alloc: Global) -> Result<MemoryStore, Fail> {
    let mut store = empty(alloc);
    for &(session, count) in OVERRIDES {
        play_overrides(alloc, session, count, &mut store)?;
    }
    store.place(alloc, "wide", WIDE.as_bytes())?;
    Ok(store)
}

#[test]
fn a_rule_over_too_many_entries_is_too_wide(rt: HostRuntime) -> Result<(), Fail> {
    let alloc = rt.alloc();
    let mut store = wide_hall(alloc)?;
    store.place(alloc, "proof", b"proof 1\nentries 129\n")?;
    for words in ["audit w1.roster wide", "check w1.roster wide proof"] {
        let words = format!(in alloc; "{words} w1.sv.log w2.sv.log w3.sv.log w4.sv.log w5.sv.log")?;
        let want = (Status::Refused, "refused wide 1 TooWide\n");
        assert!(rt;
            is_answered(alloc, words.as_str(), &mut store, want)?,
            "{words}"
        );
    }
    Ok(())
}
