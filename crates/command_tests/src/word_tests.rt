use crate::auditing_tests::{all_of, octets_of, words_of};
use auditorium_core::{Status, auditorium_still};
use hall_outside::{MemorySink, MemoryStore};
use std::alloc::Global;
use std::test::Fail;

const HEADER: &[u8] = b"(3:log1:11:0)";

const OPENED: &[u8] =
    b"(6:sealed(5:entry1:132:eeeeeeeeeeeeeeeeeeeeeeeeeeeeeeee1:01:01:1()(6:opened))9:signature)";

/// The SHA-256 of `OPENED`.
const DIGEST: &str = "19196633800a8ff5b0f231ffc1f2308a4b3bfc7cabc6be3ec874ff226bfd0a3b";

const GAP: &str = "gap ffffffffffffffffffffffffffffffffffffffffffffffffffffffffffffffff\n";

/// No entry, since its names don't rise.
const EQUAL_NAMES: &[u8] = b"(6:sealed(5:entry1:132:eeeeeeeeeeeeeeeeeeeeeeeeeeeeeeee1:01:01:1\
    (32:nnnnnnnnnnnnnnnnnnnnnnnnnnnnnnnn32:nnnnnnnnnnnnnnnnnnnnnnnnnnnnnnnn)(6:opened))\
    9:signature)";

/// The SHA-256 of `EQUAL_NAMES`.
const REFUSED: &str = "bca88ba140f12485200c12831ffea5f934a799307851fb74542d3b0bd7ad75f0";

const REFUSED_BEARER: &str = "refused x 0 NamesNotRising\n\
    gap bca88ba140f12485200c12831ffea5f934a799307851fb74542d3b0bd7ad75f0\n";

/// 32 bytes 0xff, which are a digest that no entry has.
const ONES: [u8; 32] = [255; 32];

/// The atoms of this digest and maybe of `ONES`.
fn names_of(alloc: Global, digest: &str, more: bool) -> Result<Vec<u8>, Fail> {
    let digest = octets_of(alloc, digest)?;
    if more {
        all_of(alloc, &[b"32:", &digest, b"32:", &ONES])
    } else {
        all_of(alloc, &[b"32:", &digest])
    }
}

/// A log of this record, and of an entry that names this digest and maybe 32 bytes 0xff.
fn log_of(alloc: Global, record: &[u8], digest: &str, more: bool) -> Result<Vec<u8>, Fail> {
    let names = names_of(alloc, digest, more)?;
    all_of(
        alloc,
        &[
            HEADER,
            b"(4:sent",
            record,
            b")(4:sent(6:sealed(5:entry1:132:eeeeeeeeeeeeeeeeeeeeeeeeeeeeeeee",
            b"1:01:11:2(",
            &names,
            b")(6:closed))9:signature))",
        ],
    )
}

/// The words of one text: an empty text has none.
fn listed(alloc: Global, text: &str) -> Result<Vec<String>, Fail> {
    if text.is_empty() {
        Ok(Vec::new(alloc))
    } else {
        words_of(alloc, text)
    }
}

/// Runs the program on the words of one text, over a store whose file `x` has these bytes.
fn run(
    alloc: Global,
    words: &str,
    log: &[u8],
    failing_reads: Vec<u64>,
    out: &mut MemorySink,
) -> Result<Status, Fail> {
    let mut store = MemoryStore::make(alloc, failing_reads, Vec::new(alloc));
    store.place(alloc, "x", log)?;
    let words = listed(alloc, words)?;
    Ok(auditorium_still(alloc, words.as_slice(), &mut store, out))
}

/// Whether the words, where no call fails, have this status and this output.
fn is_run(
    alloc: Global,
    words: &str,
    log: &[u8],
    (status, output): (Status, &str),
) -> Result<bool, Fail> {
    let mut out = MemorySink::make(alloc, 100, Vec::new(alloc));
    let ended = run(alloc, words, log, Vec::new(alloc), &mut out)?;
    Ok(ended == status && out.bytes() == output.as_bytes())
}

/// Words over the header alone.
const OVER_HEADER: &[(&str, Status, &str)] = &[
    ("gaps x", Status::Done, ""),
    ("gaps y", Status::Absent, "absent y\n"),
    ("play nofile p", Status::Absent, "absent nofile\n"),
    ("", Status::Usage, "usage\n"),
    ("make", Status::Usage, "usage\n"),
    ("make 0", Status::Usage, "usage\n"),
    ("make 801", Status::Usage, "usage\n"),
    ("make 01", Status::Usage, "usage\n"),
    ("make +1", Status::Usage, "usage\n"),
    ("make -1", Status::Usage, "usage\n"),
    ("make 4294967297", Status::Usage, "usage\n"),
    ("make 1 1", Status::Usage, "usage\n"),
    ("gaps", Status::Usage, "usage\n"),
    ("gaps -x", Status::Usage, "usage\n"),
    ("gaps x x", Status::Usage, "usage\n"),
    ("play x", Status::Usage, "usage\n"),
    ("gaps ", Status::Usage, "usage\n"),
    ("--help", Status::Usage, "usage\n"),
];

/// Logs with what `gaps` says of them.
const OVER_LOGS: &[(&str, Status, &str)] = &[
    (
        "(3:log1:11:0)(03:abc)",
        Status::Findings,
        "malformed x 15 LeadingZero\n",
    ),
    ("(3:log1:11:0)(", Status::Findings, "torn x 13\n"),
    (
        "(3:log1:11:0)3:abc",
        Status::Findings,
        "refused x 0 WrongShape\n",
    ),
    ("(3:log1:11:0", Status::Refused, "refused x 0 Header\n"),
];

/// Whether `gaps` finds this in a log of this record, and of an entry that names this digest and
/// maybe 32 bytes 0xff.
fn is_found(
    alloc: Global,
    (record, digest, more): (&[u8], &str, bool),
    output: &str,
) -> Result<bool, Fail> {
    let log = log_of(alloc, record, digest, more)?;
    is_run(alloc, "gaps x", &log, (Status::Findings, output))
}

#[test]
fn each_command_line_has_its_status_and_output(rt: HostRuntime) -> Result<(), Fail> {
    let alloc = rt.alloc();
    for &(words, status, output) in OVER_HEADER {
        assert!(rt; is_run(alloc, words, HEADER, (status, output))?, "{words}");
    }
    Ok(())
}

#[test]
fn gaps_says_what_a_log_lacks(rt: HostRuntime) -> Result<(), Fail> {
    let alloc = rt.alloc();
    for &(log, status, output) in OVER_LOGS {
        assert!(rt;
            is_run(alloc, "gaps x", log.as_bytes(), (status, output))?,
            "{log}"
        );
    }
    assert!(rt; is_found(alloc, (OPENED, DIGEST, true), GAP)?);
    // A refused record has no entry.
    assert!(rt; is_found(alloc, (EQUAL_NAMES, REFUSED, false), REFUSED_BEARER)?);
    Ok(())
}

/// The reads that fail, counted from 1, with the status: one read is for the bytes, and one finds
/// the end.
const READS: &[(u64, Status)] = &[
    (1, Status::ReadFault),
    (2, Status::ReadFault),
    (3, Status::Findings),
];

/// Whether a failure of this read has this status, and only the third lets something be written.
fn is_read_told(alloc: Global, failing: u64, status: Status) -> Result<bool, Fail> {
    let mut out = MemorySink::make(alloc, 100, Vec::new(alloc));
    let reads = vec![in alloc; failing]?;
    let ended = run(alloc, "gaps x", b"(3:log1:11:0)(", reads, &mut out)?;
    Ok(ended == status && out.bytes().is_empty() == (failing < 3))
}

#[test]
fn a_failing_read_writes_nothing(rt: HostRuntime) -> Result<(), Fail> {
    for &(failing, status) in READS {
        assert!(rt;
            is_read_told(rt.alloc(), failing, status)?,
            "read {failing}"
        );
    }
    Ok(())
}

/// How many bytes a write takes at most, the write that fails, counted from 1, and how many bytes
/// go out before: of 69, 3 at each of 23 writes, or 34 at the first of three.
const WRITES: &[(usize, u64, usize)] = &[
    (3, 1, 0),
    (3, 2, 3),
    (3, 12, 33),
    (3, 23, 66),
    (3, 24, 69),
    (34, 2, 34),
];

/// Whether a sink, over which that log is read, is given the first bytes alone.
fn is_prefix_sent(alloc: Global, out: &mut MemorySink, sent: usize) -> Result<bool, Fail> {
    let log = log_of(alloc, OPENED, DIGEST, true)?;
    let ended = run(alloc, "gaps x", &log, Vec::new(alloc), out)?;
    let status = if sent == 69 {
        Status::Findings
    } else {
        Status::WriteFault
    };
    let told = out.bytes();
    Ok(ended == status && GAP.as_bytes().starts_with(told) && told.len() == sent)
}

/// Whether `sent` bytes are sent where this write, of at most `greatest` bytes, fails.
fn is_write_told(alloc: Global, greatest: usize, failing: u64, sent: usize) -> Result<bool, Fail> {
    if greatest == 0 {
        return Ok(false);
    }
    let writes = vec![in alloc; failing]?;
    let mut out = MemorySink::make(alloc, greatest, writes);
    is_prefix_sent(alloc, &mut out, sent)
}

#[test]
fn a_failing_write_leaves_a_prefix(rt: HostRuntime) -> Result<(), Fail> {
    for &(greatest, failing, sent) in WRITES {
        let told = is_write_told(rt.alloc(), greatest, failing, sent)?;
        assert!(rt; told, "write {failing} of {greatest}");
    }
    Ok(())
}

/// The greatest length of a log and one more, with the refusals.
const LENGTHS: &[(usize, &str)] = &[
    (67_108_864, "refused x 0 Header\n"),
    (67_108_865, "refused x 0 TooLong\n"),
];

/// Whether a log of this length is refused with this line. No clause, so that no check computes
/// the bytes.
fn is_long_refused(alloc: Global, length: usize, line: &str) -> Result<bool, Fail> {
    let log = vec![in alloc; b'x'; length]?;
    is_run(alloc, "gaps x", log.as_slice(), (Status::Refused, line))
}

#[test]
fn a_file_over_its_limit_is_refused_before_its_form(rt: HostRuntime) -> Result<(), Fail> {
    for &(length, line) in LENGTHS {
        assert!(rt; is_long_refused(rt.alloc(), length, line)?, "{length}");
    }
    Ok(())
}

#[test]
fn statuses_have_their_numbers(rt: HostRuntime) {
    assert_eq!(rt; Status::Done.exit_status(), 0);
    assert_eq!(rt; Status::Usage.exit_status(), 4);
    assert_eq!(rt; Status::Memory.exit_status(), 10);
}
