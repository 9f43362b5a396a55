//! Logs that are cut, damaged or absent.
use entangled_log::Log;
use entry_format::Sealed;
use hall_outside::MemoryStore;
use log_files::{LogFault, PlainLog, log_text, read_plain_log};
use std::alloc::Global;
use std::test::Fail;

/// A log with a header, three entries that are kept and three records that are refused.
const LOG: &str = "(3:log1:11:0)\
(4:sent(6:sealed(5:entry1:132:eeeeeeeeeeeeeeeeeeeeeeeeeeeeeeee1:01:01:1()(6:opened))3:sig))\
(3:got0:)\
(3:got(6:sealed(5:entry1:132:eeeeeeeeeeeeeeeeeeeeeeeeeeeeeeee1:11:01:2\
(32:aaaaaaaaaaaaaaaaaaaaaaaaaaaaaaaa32:bbbbbbbbbbbbbbbbbbbbbbbbbbbbbbbb)(8:activate1:1))3:sig))\
(4:sent(6:sealed(5:entry1:132:eeeeeeeeeeeeeeeeeeeeeeeeeeeeeeee1:01:11:3\
(32:bbbbbbbbbbbbbbbbbbbbbbbbbbbbbbbb32:aaaaaaaaaaaaaaaaaaaaaaaaaaaaaaaa)(6:closed))3:sig))\
6:record\
(4:sent(6:sealed(5:entry1:132:eeeeeeeeeeeeeeeeeeeeeeeeeeeeeeee1:01:11:3\
(32:aaaaaaaaaaaaaaaaaaaaaaaaaaaaaaaa)(6:closed))3:sig))";

/// After the header and each record: the place in bytes, and what is read up to there.
const ENDS: &[(usize, &str)] = &[
    (13, "0"),
    (104, "1"),
    (113, "1 1 WrongShape"),
    (278, "2 1 WrongShape"),
    (439, "2 1 WrongShape 3 NamesNotRising"),
    (447, "2 1 WrongShape 3 NamesNotRising 4 WrongShape"),
    (573, "3 1 WrongShape 3 NamesNotRising 4 WrongShape"),
];

/// What a log says: how many entries, the refused records, and the end.
fn said(alloc: Global, log: &PlainLog) -> Result<String, Fail> {
    let mut text = log.kept.len().to_string(alloc)?;
    for (place, fault) in &log.refused {
        write!(text, " {place} {fault:?}")?;
    }
    write!(text, " {:?}", log.end)?;
    Ok(text)
}

/// What the store's file says, or its fault.
fn answer_of(alloc: Global, store: &mut MemoryStore) -> Result<String, Fail> {
    match read_plain_log(alloc, store, "x") {
        Ok(log) => said(alloc, &log),
        Err(fault) => Ok(format!(in alloc; "{fault:?}")?),
    }
}

/// What the file of these bytes says, where a read gives at most this many bytes, or any number if
/// that is 0, and the read with this number fails, or none if that is 0.
fn answer(alloc: Global, bytes: &[u8], most: usize, failing: u64) -> Result<String, Fail> {
    let mut store = MemoryStore::make(alloc, vec![in alloc; failing]?, Vec::new(alloc));
    store.place(alloc, "x", bytes)?;
    if most > 0 {
        store.greatest_read(most);
    }
    answer_of(alloc, &mut store)
}

/// Whether that is this.
fn is_said(
    alloc: Global,
    bytes: &[u8],
    most: usize,
    failing: u64,
    want: &str,
) -> Result<bool, Fail> {
    Ok(answer(alloc, bytes, most, failing)?.as_str() == want)
}

/// This many of the bytes, from the first on, or all of them.
pub(crate) fn first(bytes: &[u8], count: usize) -> &[u8] {
    if count < bytes.len() {
        &bytes[..count]
    } else {
        bytes
    }
}

/// The place after the last whole record of the log that is cut after this many bytes, and what is
/// read up to there.
fn last_end(cut: usize) -> (usize, &'static str) {
    let mut last = (0, "");
    for &(end, read) in ENDS {
        if end <= cut {
            last = (end, read);
        }
    }
    last
}

/// What the log that is cut after this many bytes says.
fn wanted(alloc: Global, cut: usize) -> Result<String, Fail> {
    let (end, read) = last_end(cut);
    if end == cut {
        Ok(format!(in alloc; "{read} Clean")?)
    } else {
        Ok(format!(in alloc; "{read} Torn({end})")?)
    }
}

/// Whether the log that is cut after this many bytes says so in reads of at most this many bytes.
fn is_cut_so(alloc: Global, cut: usize, most: usize, failing: u64) -> Result<bool, Fail> {
    let want = wanted(alloc, cut)?;
    is_said(
        alloc,
        first(LOG.as_bytes(), cut),
        most,
        failing,
        want.as_str(),
    )
}

#[test]
fn a_cut_log_has_its_whole_records(rt: HostRuntime) -> Result<(), Fail> {
    assert!(rt; LOG.len() == 573);
    for step in 0..81usize {
        let cut = 13 + 7 * step;
        assert!(rt; is_cut_so(rt.alloc(), cut, 0, 0)?, "{cut}");
    }
    Ok(())
}

/// Files and what they say.
const FILES: &str = "(3:log1:11:0) = 0 Clean
(3:log1:110:4294967295) = 0 Clean
(3:log1:11:0)(03:abc) = 0 Malformed(15, LeadingZero)
(3:log1:11:0)x = 0 Malformed(13, NotAToken)
(3:log1:11:0)(3:got())(3:got)[ = 0 0 WrongShape 1 WrongShape Malformed(29, Hint)
(3:log1:11:0)(3:got())( = 0 0 WrongShape Torn(22)
(3:log1:11:0)(4:sent()()) = 0 0 WrongShape Clean
(3:log1:11:0)(4:send()) = 0 0 WrongShape Clean
(3:log1:11:0)()0: = 0 0 WrongShape 1 WrongShape Clean
 = Header
(3:log1:11:0 = Header
(3:log1:21:0) = Header
(3:log1:1) = Header
(3:log1:12:01) = Header
(3:log1:110:4294967296) = Header
3:log = Header";

/// Whether the row's file says what follows it, read as one and byte by byte.
fn is_row_said(alloc: Global, row: &str) -> Result<bool, Fail> {
    let Some((bytes, want)) = row.split_once(" = ") else {
        return Ok(false);
    };
    let bytes = bytes.as_bytes();
    Ok(is_said(alloc, bytes, 0, 0, want)? && is_said(alloc, bytes, 1, 0, want)?)
}

#[test]
fn a_log_ends_or_is_refused_as_its_bytes_say(rt: HostRuntime) -> Result<(), Fail> {
    for row in FILES.lines() {
        assert!(rt; is_row_said(rt.alloc(), row)?, "{row}");
    }
    Ok(())
}

/// These parts one after another.
pub(crate) fn joined(alloc: Global, parts: &[&[u8]]) -> Result<Vec<u8>, Fail> {
    let mut text = Vec::new(alloc);
    for part in parts {
        text.extend_from_slice(part)?;
    }
    Ok(text)
}

/// A log longer than a piece: a record of two atoms of 262,144 octets, two short ones, and one that
/// is cut or damaged.
fn long_log(alloc: Global, end: &str) -> Result<Vec<u8>, Fail> {
    let atom: Vec<u8> = vec![in alloc; b'o'; 262_144]?;
    let front = b"(3:log1:11:0)(262144:";
    joined(
        alloc,
        &[
            front,
            &atom,
            b"262144:",
            &atom,
            b")()(3:got())",
            end.as_bytes(),
        ],
    )
}

/// How a long log ends, and what it says.
const LONG: &[(&str, &str)] = &[
    ("", "0 0 WrongShape 1 WrongShape 2 WrongShape Clean"),
    (
        "(262144:",
        "0 0 WrongShape 1 WrongShape 2 WrongShape Torn(524328)",
    ),
    (
        "(262145:",
        "0 0 WrongShape 1 WrongShape 2 WrongShape Malformed(524334, AtomTooLong)",
    ),
];

/// The most bytes that reads of a long log give.
const LONG_READS: &[usize] = &[7, 65_535, 65_536];

/// The first of these for which the bytes say something else.
fn first_other_read(alloc: Global, bytes: &[u8], want: &str) -> Result<Option<usize>, Fail> {
    for &most in LONG_READS {
        if !is_said(alloc, bytes, most, 0, want)? {
            return Ok(Some(most));
        }
    }
    Ok(None)
}

/// The same of a long log with this end.
fn first_other_long(alloc: Global, end: &str, want: &str) -> Result<Option<usize>, Fail> {
    let bytes = long_log(alloc, end)?;
    first_other_read(alloc, &bytes, want)
}

#[test]
fn a_long_log_says_the_same_in_reads_of_any_length(rt: HostRuntime) -> Result<(), Fail> {
    for &(end, want) in LONG {
        let other = first_other_long(rt.alloc(), end, want)?;
        assert!(rt; other.is_none(), "{end} in {other:?}");
    }
    Ok(())
}

/// The most bytes that a read of the log gives.
const READS: &[usize] = &[1, 7, 100];

#[test]
fn a_log_says_the_same_in_short_reads(rt: HostRuntime) -> Result<(), Fail> {
    for &most in READS {
        assert!(rt; is_cut_so(rt.alloc(), 573, most, 0)?, "in {most}");
    }
    Ok(())
}

/// Whether the log without its first byte is answered so, where the read with this number fails.
fn is_headless_so(alloc: Global, failing: u64, want: &str) -> Result<bool, Fail> {
    is_said(alloc, &LOG.as_bytes()[1..], 100, failing, want)
}

/// Whether the read with this number fails, with a header and without, if there is one. The log is
/// six reads of up to 100 bytes, and one at its end.
fn is_failing_so(alloc: Global, failing: u64) -> Result<bool, Fail> {
    if failing < 8 {
        Ok(
            is_said(alloc, LOG.as_bytes(), 100, failing, "ReadFault")?
                && is_headless_so(alloc, failing, "ReadFault")?,
        )
    } else {
        Ok(is_cut_so(alloc, 573, 100, failing)? && is_headless_so(alloc, failing, "Header")?)
    }
}

#[test]
fn a_read_that_fails_is_told_before_the_header(rt: HostRuntime) -> Result<(), Fail> {
    for failing in 1..9u64 {
        assert!(rt; is_failing_so(rt.alloc(), failing)?, "read {failing}");
    }
    Ok(())
}

/// Whether the store's file is refused for this.
fn is_refused(alloc: Global, store: &mut MemoryStore, want: LogFault) -> bool {
    read_plain_log(alloc, store, "x").err() == Some(want)
}

/// Whether the file is absent and then, once it is there, not read, since the second read fails.
fn is_absent_then_unread(alloc: Global) -> Result<bool, Fail> {
    let mut store = MemoryStore::make(alloc, vec![in alloc; 2]?, Vec::new(alloc));
    let is_absent = is_refused(alloc, &mut store, LogFault::Absent);
    store.place(alloc, "x", b"(3:log1:11:0)")?;
    Ok(is_absent && is_refused(alloc, &mut store, LogFault::ReadFault))
}

#[test]
fn a_log_that_is_absent_or_not_read_is_refused(rt: HostRuntime) -> Result<(), Fail> {
    assert!(rt; is_absent_then_unread(rt.alloc())?);
    Ok(())
}

/// Owners, each with the text of its empty log.
const HEADERS: &[(u32, &str)] = &[
    (0, "(3:log1:11:0)"),
    (4_294_967_295, "(3:log1:110:4294967295)"),
];

/// Whether the owner's empty log has this text.
fn is_header(alloc: Global, owner: u32, want: &str) -> Result<bool, Fail> {
    let log: Log<Sealed> = Log::make(alloc, owner, 4)?;
    Ok(log_text(alloc, &log)?.as_slice() == want.as_bytes())
}

#[test]
fn an_empty_log_is_its_header(rt: HostRuntime) -> Result<(), Fail> {
    for &(owner, want) in HEADERS {
        assert!(rt; is_header(rt.alloc(), owner, want)?, "{owner}");
    }
    Ok(())
}
