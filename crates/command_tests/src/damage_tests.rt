//! The supervisor's log of the worked play, cut at many places and changed at many.
use crate::auditing_tests::{TWO, answer, empty, flipped, is_answered, play, wide};
use auditorium_core::Status;
use hall_outside::MemoryStore;
use std::alloc::Global;
use std::test::Fail;

/// Where the header of the log ends, and each record.
const ENDS: [usize; 7] = [13, 2452, 4935, 7413, 9924, 12433, 14907];

/// Cuts at each of these places, and one byte before and after it.
const CUTS: &[usize] = &[
    12, 13, 14, 2451, 2452, 2453, 4934, 4935, 4936, 7412, 7413, 7414, 9923, 9924, 9925, 12432,
    12433, 12434, 14906, 14907,
];

/// The entries of the records.
const ENTRIES: [&str; 6] = ["sv.0", "sv.1", "b1.0", "b1.1", "b1.2", "sv.2"];

/// A store with the files of the worked play, and the supervisor's log.
fn played(alloc: Global) -> Result<(MemoryStore, Vec<u8>), Fail> {
    let mut store = empty(alloc);
    play(alloc, TWO, "p", &mut store)?;
    let log = Vec::from_slice(alloc, store.file("p.sv.log").unwrap_or(b""))?;
    Ok((store, log))
}

/// How many of the ends aren't after this place.
fn ends_up_to(place: usize) -> usize {
    let mut count = 0;
    for (at, end) in ENDS.iter().enumerate() {
        if *end <= place {
            count = at + 1;
        }
    }
    count
}

/// The first lines of the report on the log's first bytes: each whole record is kept, and an end
/// that is none of these is torn after the last one.
fn lines_of_cut(alloc: Global, length: usize) -> Result<String, Fail> {
    let count = ends_up_to(length);
    if count == 0 || count > 7 {
        return Ok(String::from_str(alloc, "refused p.sv.log 0 Header\n")?);
    }
    let kept = count - 1;
    let end = ENDS[kept];
    let torn = if end == length {
        String::new(alloc)
    } else {
        format!(in alloc; "torn p.sv.log {end}\n")?
    };
    Ok(format!(in alloc; "log p.sv.log owner 0 kept {kept} refused 0\n{torn}entries {kept}\n")?)
}

/// Whether the audit of the log's first bytes begins with these lines.
fn is_cut_told(
    alloc: Global,
    store: &mut MemoryStore,
    log: &[u8],
    length: usize,
) -> Result<bool, Fail> {
    store.place(alloc, "p.sv.log", &log[..length.min(log.len())])?;
    let mut out = wide(alloc);
    let status = answer(alloc, "audit p.roster standard p.sv.log", store, &mut out)?;
    let lines = lines_of_cut(alloc, length)?;
    Ok((status == Status::Refused) == (length < 13) && out.bytes().starts_with(lines.as_bytes()))
}

#[test]
fn a_cut_log_is_whole_up_to_its_last_record(rt: HostRuntime) -> Result<(), Fail> {
    let alloc = rt.alloc();
    let (mut store, log) = played(alloc)?;
    assert_eq!(rt; log.len(), 14907);
    for &length in CUTS {
        assert!(rt; is_cut_told(alloc, &mut store, &log, length)?, "{length}");
    }
    for at in 0..59usize {
        let length = 256 * at;
        assert!(rt; is_cut_told(alloc, &mut store, &log, length)?, "{length}");
    }
    Ok(())
}

/// Whether the log in the file has no survivor with this maker and number.
fn has_no(alloc: Global, store: &mut MemoryStore, entry: &str) -> Result<bool, Fail> {
    let words = format!(in alloc; "order p.roster {entry} {entry} p.sv.log")?;
    let line = format!(in alloc; "refused {entry} 0 NoEntry\n")?;
    is_answered(
        alloc,
        words.as_str(),
        store,
        (Status::Refused, line.as_str()),
    )
}

/// Whether no survivor has the maker and the number of the entry whose record has the byte at this
/// place, when the lowest bit of that byte is changed.
fn is_missed(
    alloc: Global,
    store: &mut MemoryStore,
    log: &[u8],
    place: usize,
) -> Result<bool, Fail> {
    let changed = flipped(alloc, log, place)?;
    store.place(alloc, "p.sv.log", &changed)?;
    let record = ends_up_to(place);
    if record == 0 || record > 6 {
        return Ok(false);
    }
    has_no(alloc, store, ENTRIES[record - 1])
}

#[test]
fn an_altered_record_has_no_entry(rt: HostRuntime) -> Result<(), Fail> {
    let alloc = rt.alloc();
    let (mut store, log) = played(alloc)?;
    // The places are below 14,907, the length of the log.
    for at in 0..154usize {
        let place = 13 + 97 * at;
        assert!(rt; is_missed(alloc, &mut store, &log, place)?, "{place}");
    }
    Ok(())
}
