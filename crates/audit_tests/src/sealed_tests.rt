//! Logs whose signatures are verified.
use crate::log_files_tests::{first, joined};
use hall_outside::MemoryStore;
use lms_ots::OtsKind;
use lms_sign::LmsSecret;
use log_files::{LogFault, LogRead, read_log, read_log_by};
use roster::{Roster, election};
use sha2::{Digest, Sha256};
use std::alloc::Global;
use std::test::Fail;
use ways_of_work::Alone;

/// The keys of a supervisor and a booth, and the texts of their roster and of one in which each has
/// the other's key.
#[derive(Drop)]
struct Hall {
    supervisor: LmsSecret,
    booth: LmsSecret,
    roster: Vec<u8>,
    swapped: Vec<u8>,
    /// The digests of the entries that were signed.
    digests: Vec<[u8; 32]>,
    /// The records that logs are made of.
    records: Vec<Vec<u8>>,
}

impl Hall {
    /// The text of the roster, or of the swapped one.
    fn text(&self, swapped: bool) -> &[u8] {
        if swapped { &self.swapped } else { &self.roster }
    }
}

/// The text of a roster with these keys.
fn roster_of(alloc: Global, supervisor: &LmsSecret, booth: &LmsSecret) -> Result<Vec<u8>, Fail> {
    let supervisor = supervisor.public();
    let booth = booth.public();
    let front = b"(6:roster1:1(2:sv10:supervisor56:";
    joined(
        alloc,
        &[
            front,
            supervisor.bytes(),
            b")(2:b15:booth56:",
            booth.bytes(),
            b"))",
        ],
    )
}

/// A key that has signed nothing.
fn secret_of(alloc: Global, id: u8) -> Result<LmsSecret, Fail> {
    Ok(LmsSecret::make(alloc, OtsKind::W1, 5, [id; 16], [7; 32])?)
}

/// A polling place of these keys, without records.
fn hall_of(alloc: Global, supervisor: LmsSecret, booth: LmsSecret) -> Result<Hall, Fail> {
    let roster = roster_of(alloc, &supervisor, &booth)?;
    let swapped = roster_of(alloc, &booth, &supervisor)?;
    Ok(Hall {
        supervisor,
        booth,
        roster,
        swapped,
        digests: Vec::new(alloc),
        records: Vec::new(alloc),
    })
}

/// A polling place with the records of the rows, and the third of them altered.
fn hall_with(alloc: Global, rows: &str) -> Result<Hall, Fail> {
    let mut hall = hall_of(alloc, secret_of(alloc, 1)?, secret_of(alloc, 2)?)?;
    add_records(alloc, &mut hall, rows)?;
    Ok(hall)
}

/// The row of a record of an entry. A flaw is a word for what is wrong with the entry.
#[derive(Clone, Copy)]
struct Row<'a> {
    word: &'a str,
    version: &'a str,
    maker: &'a str,
    number: &'a str,
    stamp: &'a str,
    names: &'a str,
    deed: &'a str,
    flaw: &'a str,
}

/// The row of these parts, if there are as many.
fn row_of<'a>(parts: &[&'a str]) -> Option<Row<'a>> {
    let &[word, version, maker, number, stamp, names, deed, flaw] = parts else {
        return None;
    };
    Some(Row {
        word,
        version,
        maker,
        number,
        stamp,
        names,
        deed,
        flaw,
    })
}

/// The digests of the entries that these digits name, in ascending order or, for a flaw, in
/// descending order.
fn names_of(
    alloc: Global,
    digests: &[[u8; 32]],
    names: &str,
    falling: bool,
) -> Result<Vec<[u8; 32]>, Fail> {
    let mut named = Vec::new(alloc);
    for digit in names.as_bytes() {
        if let Some(digest) = digests.get(digit.saturating_sub(b'0') as usize) {
            named.push(*digest)?;
        }
    }
    named.sort()?;
    if falling {
        named.reverse();
    }
    Ok(named)
}

/// The names as atoms.
fn names_text(alloc: Global, names: &[[u8; 32]]) -> Result<Vec<u8>, Fail> {
    let mut text = Vec::new(alloc);
    for name in names {
        text.extend_from_slice(b"32:")?;
        text.extend_from_slice(name)?;
    }
    Ok(text)
}

/// The names of a row as atoms.
fn named(alloc: Global, hall: &Hall, row: &Row<'_>) -> Result<Vec<u8>, Fail> {
    let names = names_of(alloc, &hall.digests, row.names, row.flaw == "falling")?;
    names_text(alloc, names.as_slice())
}

/// The election of the polling place or, for a flaw, another.
fn elected(hall: &Hall, row: &Row<'_>) -> [u8; 32] {
    if row.flaw == "election" {
        [b'o'; 32]
    } else {
        election(&hall.roster)
    }
}

/// The maker, number and stamp of a row as atoms.
fn numbers_of(alloc: Global, row: &Row<'_>) -> Result<String, Fail> {
    Ok(format!(in alloc; "1:{}1:{}1:{}(", row.maker, row.number, row.stamp)?)
}

/// The text of the entry of a row, without its signature.
fn body_of(alloc: Global, hall: &Hall, row: &Row<'_>) -> Result<Vec<u8>, Fail> {
    let numbers = numbers_of(alloc, row)?;
    let names = named(alloc, hall, row)?;
    let election = elected(hall, row);
    let version = row.version.as_bytes();
    let numbers = numbers.as_bytes();
    let deed = row.deed.as_bytes();
    joined(
        alloc,
        &[
            b"(5:entry1:",
            version,
            b"32:",
            &election,
            numbers,
            &names,
            b")",
            deed,
            b")",
        ],
    )
}

/// The signature of the maker. The flaw `again` leaves the key's index for the next row.
fn signature_of(
    alloc: Global,
    hall: &mut Hall,
    row: &Row<'_>,
    body: &[u8],
) -> Result<Vec<u8>, Fail> {
    if row.maker != "0" {
        Ok(hall.booth.sign(alloc, body)?)
    } else if row.flaw == "again" {
        Ok(hall.supervisor.signature(alloc, body)?)
    } else {
        Ok(hall.supervisor.sign(alloc, body)?)
    }
}

/// The same, with another last byte if that is the flaw.
fn flawed_signature(
    alloc: Global,
    hall: &mut Hall,
    row: &Row<'_>,
    body: &[u8],
) -> Result<Vec<u8>, Fail> {
    let mut signature = signature_of(alloc, hall, row, body)?;
    if row.flaw == "signature" {
        signature.pop();
        signature.push(b'x')?;
    }
    Ok(signature)
}

/// The text of the body with the signature.
fn signed_text(alloc: Global, body: &[u8], signature: &[u8]) -> Result<Vec<u8>, Fail> {
    let length = format!(in alloc; "{}:", signature.len())?;
    joined(
        alloc,
        &[b"(6:sealed", body, length.as_bytes(), signature, b")"],
    )
}

/// The text of the entry of a row.
fn entry_text(alloc: Global, hall: &mut Hall, row: &Row<'_>) -> Result<Vec<u8>, Fail> {
    let body = body_of(alloc, hall, row)?;
    let signature = flawed_signature(alloc, hall, row, &body)?;
    signed_text(alloc, &body, &signature)
}

/// The record of a word and an entry.
fn record_text(alloc: Global, word: &str, entry: &[u8]) -> Result<Vec<u8>, Fail> {
    let word = format!(in alloc; "({}:{word}", word.len())?;
    joined(alloc, &[word.as_bytes(), entry, b")"])
}

/// The record of a row, whose entry's digest is kept for the names of the next ones.
fn sealed_record(alloc: Global, hall: &mut Hall, row: &Row<'_>) -> Result<Vec<u8>, Fail> {
    let entry = entry_text(alloc, hall, row)?;
    hall.digests.push(Sha256::digest(&entry))?;
    record_text(alloc, row.word, &entry)
}

/// The record of a row: its word, version, maker, number, stamp, names, deed and flaw. Another row
/// is the record itself.
fn record_of(alloc: Global, hall: &mut Hall, row: &str) -> Result<Vec<u8>, Fail> {
    let parts: Vec<&str> = row.split('|').collect(alloc)?;
    match row_of(parts.as_slice()) {
        Some(parts) => sealed_record(alloc, hall, &parts),
        None => Ok(Vec::from_slice(alloc, row.as_bytes())?),
    }
}

/// The record with the last byte of its signature changed.
fn altered(alloc: Global, record: &[u8]) -> Result<Vec<u8>, Fail> {
    let mut altered = Vec::from_slice(alloc, record)?;
    altered.pop();
    altered.pop();
    let last = altered.pop().unwrap_or(0);
    altered.push(last ^ 1)?;
    altered.extend_from_slice(b"))")?;
    Ok(altered)
}

/// Adds the third record with its signature changed.
fn add_altered(alloc: Global, hall: &mut Hall) -> Result<(), Fail> {
    if let Some(record) = hall.records.get(2) {
        let altered = altered(alloc, record)?;
        hall.records.push(altered)?;
    }
    Ok(())
}

/// Adds the records of the rows, and then the altered one.
fn add_records(alloc: Global, hall: &mut Hall, rows: &str) -> Result<(), Fail> {
    for row in rows.lines() {
        let record = record_of(alloc, hall, row)?;
        hall.records.push(record)?;
    }
    add_altered(alloc, hall)
}

/// The text of a log of this owner, with the records that the digits name.
fn log_of(alloc: Global, hall: &Hall, owner: &str, order: &str) -> Result<Vec<u8>, Fail> {
    let mut log = joined(alloc, &[b"(3:log1:11:", owner.as_bytes(), b")"])?;
    for digit in order.as_bytes() {
        if let Some(record) = hall.records.get(digit.saturating_sub(b'0') as usize) {
            log.extend_from_slice(record)?;
        }
    }
    Ok(log)
}

/// Adds the place, the word and the number of each kept record.
fn add_kept(text: &mut String, log: &LogRead) -> Result<(), Fail> {
    for kept in &log.kept {
        let word = if kept.sent { "sent" } else { "got" };
        write!(text, " {}{word}{}", kept.place, kept.entry.entry().number)?;
    }
    Ok(())
}

/// Adds the place and the fault of each refused record.
fn add_refused(text: &mut String, log: &LogRead) -> Result<(), Fail> {
    for (place, fault) in &log.refused {
        write!(text, " {place}{}", fault.word())?;
    }
    Ok(())
}

/// What a log says: its owner, the kept records, the refused ones, the end and the break.
fn said(alloc: Global, log: &LogRead) -> Result<String, Fail> {
    let mut text = log.owner.to_string(alloc)?;
    add_kept(&mut text, log)?;
    add_refused(&mut text, log)?;
    write!(text, " {:?} {:?}", log.end, log.broke)?;
    Ok(text)
}

/// What a log says, or its fault.
fn said_of(alloc: Global, read: Result<LogRead, LogFault>) -> Result<String, Fail> {
    match read {
        Ok(log) => said(alloc, &log),
        Err(fault) => Ok(format!(in alloc; "{fault:?}")?),
    }
}

/// A store of this file. A read gives at most this many bytes, or any number if that is 0, and the
/// read with this number fails, or none if that is 0.
fn store_of(alloc: Global, bytes: &[u8], most: usize, failing: u64) -> Result<MemoryStore, Fail> {
    let mut store = MemoryStore::make(alloc, vec![in alloc; failing]?, Vec::new(alloc));
    store.place(alloc, "x", bytes)?;
    if most > 0 {
        store.greatest_read(most);
    }
    Ok(store)
}

/// Whether that is said of the store's file under the roster of this text.
fn is_answer(
    alloc: Global,
    store: &mut MemoryStore,
    roster: &[u8],
    own: &[u8; 32],
    want: &str,
) -> Result<bool, Fail> {
    let roster = Roster::read(alloc, roster)?;
    let read = read_log(alloc, store, "x", &roster, own);
    Ok(said_of(alloc, read)?.as_str() == want)
}

/// Whether that is said of these bytes under the polling place's roster.
fn is_said(
    alloc: Global,
    hall: &Hall,
    bytes: &[u8],
    most: usize,
    want: &str,
) -> Result<bool, Fail> {
    let mut store = store_of(alloc, bytes, most, 0)?;
    is_answer(
        alloc,
        &mut store,
        &hall.roster,
        &election(&hall.roster),
        want,
    )
}

/// Records with each fault, one of another version, and rows that are no records.
const FAULTS: &str = "sent|1|0|0|1||(6:opened)|
sent|1|0|1|2|0|(9:authorise1:11:1)|
got|1|1|0|3|1|(8:activate1:1)|
got|1|1|1|4|2|(4:vote)|
got|1|1|2|4|12|(6:cancel1:1)|falling
got|1|1|3|4|2|(6:cancel1:1)|election
got|1|2|4|4|2|(6:cancel1:1)|
got|1|1|9|4|2|(6:cancel1:1)|
got|1|1|6|4|2|(6:cancel1:1)|signature
sent|2|0|2|4|2|(8:override1:14:cast)|
()
(4:sent3:abc)
(4:send(6:sealed))";

/// Owners and orders of these records, with what the log says.
const FAULT_LOGS: &[(&str, &str, &str)] = &[
    (
        "0",
        "0123456789:;<",
        "0 0sent0 1sent1 2got0 9sent2 3WrongShape 4NamesNotRising 5OtherElection 6UnknownMaker \
        7WrongIndex 8BadSignature 10WrongShape 11WrongShape 12WrongShape Clean None",
    ),
    ("0", "3", "0 0WrongShape Clean None"),
    (
        "0",
        "80129",
        "0 1sent0 2sent1 3got0 4sent2 0BadSignature Clean None",
    ),
];

/// The most bytes that a read gives.
const READS: &[usize] = &[1, 7, 65_535, 65_536];

/// The first of these for which the bytes say something else.
fn first_other_read(
    alloc: Global,
    hall: &Hall,
    bytes: &[u8],
    want: &str,
) -> Result<Option<usize>, Fail> {
    for &most in READS {
        if !is_said(alloc, hall, bytes, most, want)? {
            return Ok(Some(most));
        }
    }
    Ok(None)
}

/// The first row's owner, order and most bytes that a read gives, for which the log says something
/// else.
fn first_other_log<'a>(
    alloc: Global,
    hall: &Hall,
    logs: &[(&'a str, &'a str, &str)],
) -> Result<Option<(&'a str, &'a str, usize)>, Fail> {
    for &(owner, order, want) in logs {
        let log = log_of(alloc, hall, owner, order)?;
        if let Some(most) = first_other_read(alloc, hall, &log, want)? {
            return Ok(Some((owner, order, most)));
        }
    }
    Ok(None)
}

/// The same of logs with the records of the rows.
fn first_other<'a>(
    alloc: Global,
    rows: &str,
    logs: &[(&'a str, &'a str, &str)],
) -> Result<Option<(&'a str, &'a str, usize)>, Fail> {
    let hall = hall_with(alloc, rows)?;
    first_other_log(alloc, &hall, logs)
}

#[test]
fn each_record_is_kept_or_refused_by_its_first_fault(rt: HostRuntime) -> Result<(), Fail> {
    let other = first_other(rt.alloc(), FAULTS, FAULT_LOGS)?;
    assert!(rt; other.is_none(), "{other:?}");
    Ok(())
}

/// Records of which the first four are a legal history; each of the others is broken by one thing.
const HISTORY: &str = "sent|1|0|0|1||(6:opened)|
sent|1|0|1|2|0|(9:authorise1:11:1)|
got|1|1|0|3|1|(8:activate1:1)|
sent|1|0|2|4|2|(6:closed)|again
sent|1|0|2|5|2|(6:closed)|again
sent|1|0|2|4|1|(6:closed)|again
got|1|0|2|4|2|(6:closed)|again
sent|1|1|1|4|2|(6:cancel1:1)|
()";

/// Owners and orders of these records, with what the log says. A refused record breaks nothing.
const BREAKS: &[(&str, &str, &str)] = &[
    ("0", "", "0 Clean None"),
    ("0", "0123", "0 0sent0 1sent1 2got0 3sent2 Clean None"),
    ("0", "81", "0 1sent1 0WrongShape Clean Some(1)"),
    ("0", "1023", "0 0sent1 1sent0 2got0 3sent2 Clean Some(0)"),
    ("0", "0213", "0 0sent0 1got0 2sent1 3sent2 Clean Some(2)"),
    ("0", "0012", "0 0sent0 1sent0 2sent1 3got0 Clean Some(1)"),
    ("0", "0122", "0 0sent0 1sent1 2got0 3got0 Clean Some(3)"),
    ("0", "0124", "0 0sent0 1sent1 2got0 3sent2 Clean Some(3)"),
    ("0", "0125", "0 0sent0 1sent1 2got0 3sent2 Clean Some(3)"),
    ("0", "0126", "0 0sent0 1sent1 2got0 3got2 Clean Some(3)"),
    ("0", "0127", "0 0sent0 1sent1 2got0 3sent1 Clean Some(3)"),
    (
        "0",
        "01283",
        "0 0sent0 1sent1 2got0 4sent2 3WrongShape Clean None",
    ),
    (
        "0",
        "0183",
        "0 0sent0 1sent1 3sent2 2WrongShape Clean Some(3)",
    ),
    ("1", "2", "1 0got0 Clean Some(0)"),
    ("1", "0", "1 0sent0 Clean Some(0)"),
    ("2", "012", "2 0sent0 1sent1 2got0 Clean Some(0)"),
];

#[test]
fn a_log_breaks_at_the_first_record_that_may_not_follow(rt: HostRuntime) -> Result<(), Fail> {
    let other = first_other(rt.alloc(), HISTORY, BREAKS)?;
    assert!(rt; other.is_none(), "{other:?}");
    Ok(())
}

/// Whether the roster and the election are the swapped ones, the number of the read that fails, and
/// what the log `012` says.
const ROSTERS: &[(bool, bool, u64, &str)] = &[
    (false, false, 9, "0 0sent0 1sent1 2got0 Clean None"),
    (
        true,
        true,
        9,
        "0 0OtherElection 1OtherElection 2OtherElection Clean None",
    ),
    (
        false,
        true,
        9,
        "0 0OtherElection 1OtherElection 2OtherElection Clean None",
    ),
    (
        true,
        false,
        9,
        "0 0BadSignature 1BadSignature 2BadSignature Clean None",
    ),
    (false, false, 1, "ReadFault"),
    (false, false, 2, "ReadFault"),
    (false, false, 3, "0 0sent0 1sent1 2got0 Clean None"),
];

/// Whether the bytes say so under this roster, in this election.
fn is_said_under(
    alloc: Global,
    bytes: &[u8],
    roster: &[u8],
    election: &[u8; 32],
    failing: u64,
    want: &str,
) -> Result<bool, Fail> {
    let mut store = store_of(alloc, bytes, 0, failing)?;
    is_answer(alloc, &mut store, roster, election, want)
}

/// The first row for which the bytes say something else.
fn first_other_roster(
    alloc: Global,
    hall: &Hall,
    bytes: &[u8],
) -> Result<Option<(bool, bool, u64)>, Fail> {
    for &(other_roster, other_election, failing, want) in ROSTERS {
        let roster = hall.text(other_roster);
        let election = election(hall.text(other_election));
        if !is_said_under(alloc, bytes, roster, &election, failing, want)? {
            return Ok(Some((other_roster, other_election, failing)));
        }
    }
    Ok(None)
}

/// The same of the log `012`.
fn first_other_of_log(alloc: Global, hall: &Hall) -> Result<Option<(bool, bool, u64)>, Fail> {
    let log = log_of(alloc, hall, "0", "012")?;
    first_other_roster(alloc, hall, &log)
}

/// The same of a new log.
fn first_other_under(alloc: Global) -> Result<Option<(bool, bool, u64)>, Fail> {
    let hall = hall_with(alloc, HISTORY)?;
    first_other_of_log(alloc, &hall)
}

#[test]
fn a_log_under_another_roster_keeps_nothing(rt: HostRuntime) -> Result<(), Fail> {
    let other = first_other_under(rt.alloc())?;
    assert!(rt; other.is_none(), "{other:?}");
    Ok(())
}

/// What the second file says that is read after the first.
fn answer_after(
    alloc: Global,
    store: &mut MemoryStore,
    roster: &Roster,
    own: &[u8; 32],
) -> Result<String, Fail> {
    let before = read_log_by(&Alone, alloc, store, "first", roster, own, &[])?;
    let before = vec![in alloc; before]?;
    said_of(
        alloc,
        read_log_by(&Alone, alloc, store, "second", roster, own, &before),
    )
}

/// A store of these two files.
fn store_of_two(alloc: Global, first: &[u8], second: &[u8]) -> Result<MemoryStore, Fail> {
    let mut store = MemoryStore::make(alloc, Vec::new(alloc), Vec::new(alloc));
    store.place(alloc, "first", first)?;
    store.place(alloc, "second", second)?;
    Ok(store)
}

/// The same, of the logs with the records of these orders.
fn store_of_logs(
    alloc: Global,
    hall: &Hall,
    first: &str,
    second: &str,
) -> Result<MemoryStore, Fail> {
    let first = log_of(alloc, hall, "0", first)?;
    let second = log_of(alloc, hall, "0", second)?;
    store_of_two(alloc, &first, &second)
}

/// Whether that is said of the store's second file under the roster of this text.
fn is_answer_after(
    alloc: Global,
    store: &mut MemoryStore,
    roster: &[u8],
    want: &str,
) -> Result<bool, Fail> {
    let own = election(roster);
    let roster = Roster::read(alloc, roster)?;
    Ok(answer_after(alloc, store, &roster, &own)?.as_str() == want)
}

/// Whether the second of these logs says so after the first.
fn is_said_after(
    alloc: Global,
    hall: &Hall,
    first: &str,
    second: &str,
    want: &str,
) -> Result<bool, Fail> {
    let mut store = store_of_logs(alloc, hall, first, second)?;
    is_answer_after(alloc, &mut store, &hall.roster, want)
}

/// A log, the one that is read after it, and what that says. The record 9 is the record 2 with its
/// signature changed.
const AFTER: &[(&str, &str, &str)] = &[
    ("012", "012", "0 0sent0 1sent1 2got0 Clean None"),
    (
        "012",
        "0129",
        "0 0sent0 1sent1 2got0 3BadSignature Clean None",
    ),
    ("019", "012", "0 0sent0 1sent1 2got0 Clean None"),
    ("019", "9", "0 0BadSignature Clean None"),
    ("", "012", "0 0sent0 1sent1 2got0 Clean None"),
];

/// The first row's logs of which the second says something else.
fn first_other_after(
    alloc: Global,
    hall: &Hall,
) -> Result<Option<(&'static str, &'static str)>, Fail> {
    for &(first, second, want) in AFTER {
        if !is_said_after(alloc, hall, first, second, want)? {
            return Ok(Some((first, second)));
        }
    }
    Ok(None)
}

/// The same of new logs.
fn first_other_second(alloc: Global) -> Result<Option<(&'static str, &'static str)>, Fail> {
    let hall = hall_with(alloc, HISTORY)?;
    first_other_after(alloc, &hall)
}

#[test]
fn a_log_read_after_another_says_the_same(rt: HostRuntime) -> Result<(), Fail> {
    let other = first_other_second(rt.alloc())?;
    assert!(rt; other.is_none(), "{other:?}");
    Ok(())
}

/// What is read up to the end of each record of the log `0123`.
const WHOLE: &[&str] = &["0", "0 0sent0", "0 0sent0 1sent1", "0 0sent0 1sent1 2got0"];

/// Where the header and this many records end.
fn end_of(records: &[Vec<u8>], count: usize) -> usize {
    let mut end = 13usize;
    for record in records.iter().take(count) {
        end = end.saturating_add(record.len());
    }
    end
}

/// How many records are whole in the log that is cut after this many bytes, if its header is.
fn whole_records(records: &[Vec<u8>], cut: usize) -> Option<usize> {
    let mut whole = None;
    for count in 0..4usize {
        if end_of(records, count) <= cut {
            whole = Some(count);
        }
    }
    whole
}

/// What the log that is cut after this many bytes says.
fn wanted(alloc: Global, records: &[Vec<u8>], cut: usize) -> Result<String, Fail> {
    let Some(count) = whole_records(records, cut) else {
        return Ok(String::from_str(alloc, "Header")?);
    };
    let whole = WHOLE.get(count).unwrap_or(&"");
    let end = end_of(records, count);
    if end == cut {
        Ok(format!(in alloc; "{whole} Clean None")?)
    } else {
        Ok(format!(in alloc; "{whole} Torn({end}) None")?)
    }
}

/// Whether the log that is cut after this many bytes says so.
fn is_cut_so(alloc: Global, hall: &Hall, log: &[u8], cut: usize) -> Result<bool, Fail> {
    let want = wanted(alloc, &hall.records, cut)?;
    is_said(alloc, hall, first(log, cut), 0, want.as_str())
}

/// The first cut, within three bytes of this end, of a log that says something else.
fn first_other_near(
    alloc: Global,
    hall: &Hall,
    log: &[u8],
    end: usize,
) -> Result<Option<usize>, Fail> {
    for step in 0..7usize {
        let cut = end.saturating_sub(3).saturating_add(step);
        if !is_cut_so(alloc, hall, log, cut)? {
            return Ok(Some(cut));
        }
    }
    Ok(None)
}

/// The same near the end of the header and of each record of the log `0123` but the last.
fn first_other_cut(alloc: Global, hall: &Hall) -> Result<Option<usize>, Fail> {
    let log = log_of(alloc, hall, "0", "0123")?;
    for count in 0..4usize {
        let end = end_of(&hall.records, count);
        if let Some(cut) = first_other_near(alloc, hall, &log, end)? {
            return Ok(Some(cut));
        }
    }
    Ok(None)
}

/// The same of a new log.
fn first_other_whole(alloc: Global) -> Result<Option<usize>, Fail> {
    let hall = hall_with(alloc, HISTORY)?;
    first_other_cut(alloc, &hall)
}

#[test]
fn a_log_cut_near_a_record_has_its_whole_records(rt: HostRuntime) -> Result<(), Fail> {
    let other = first_other_whole(rt.alloc())?;
    assert!(rt; other.is_none(), "{other:?}");
    Ok(())
}

/// Whether a log is refused as absent, if there is no such file.
fn is_absent(alloc: Global, hall: &Hall) -> Result<bool, Fail> {
    let roster = Roster::read(alloc, &hall.roster)?;
    let mut store = MemoryStore::make(alloc, Vec::new(alloc), Vec::new(alloc));
    let fault = read_log(alloc, &mut store, "x", &roster, &election(&hall.roster)).err();
    Ok(fault == Some(LogFault::Absent))
}

/// Whether a log is refused, once as there is no such file, once as it has no header.
fn is_refused(alloc: Global) -> Result<bool, Fail> {
    let hall = hall_with(alloc, "")?;
    Ok(is_absent(alloc, &hall)? && is_said(alloc, &hall, b"(3:log1:21:0)", 0, "Header")?)
}

#[test]
fn a_log_that_is_absent_or_has_no_header_is_refused(rt: HostRuntime) -> Result<(), Fail> {
    assert!(rt; is_refused(rt.alloc())?);
    Ok(())
}
