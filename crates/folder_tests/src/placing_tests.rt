use crate::crashes::{crash, crash_count, has_other_names, remains};
use crate::disk::{Call, Disk, Fault};
use crate::memory_folder::MemoryFolder;
use crate::reading::{PLAIN, content};
use folder_calls::Found;
use hall_outside::{PlacingStore, Store, put_file, read_file};
use std::alloc::Global;
use std::test::Fail;

/// What stands under a file's name.
#[derive(Clone, Copy, PartialEq)]
enum State {
    Old,
    New,
    Absent,
    Other,
}

/// A line of a table: a file's name, its old bytes and its new ones. A hyphen stands for no file.
#[derive(Clone, Copy)]
struct Row<'a> {
    name: &'a str,
    old: &'a str,
    new: &'a str,
}

/// The row that the line is; none where it says that the files so far are put in place.
fn row_of(line: &str) -> Option<Row<'_>> {
    let (name, rest) = line.split_once(' ')?;
    let (old, new) = rest.split_once(' ')?;
    Some(Row { name, old, new })
}

/// A disk with the old files of the table.
fn old_disk(alloc: Global, table: &str) -> Result<Disk, Fail> {
    let mut disk = Disk::make(alloc);
    for line in table.lines() {
        if let Some(row) = row_of(line)
            && row.old != "-"
        {
            disk.put(alloc, row.name, row.old.as_bytes(), PLAIN)?;
        }
    }
    Ok(disk)
}

/// Does what the line says, and answers whether that succeeded.
fn is_done<S: Store>(store: &mut S, line: &str) -> bool {
    match row_of(line) {
        Some(row) => put_file(store, row.name, row.new.as_bytes()).is_ok(),
        None => store.finish().is_ok(),
    }
}

/// Puts the new files of the table in place, up to the first call of the store that fails, and
/// answers whether none did.
fn are_put(
    alloc: Global,
    disk: &mut Disk,
    fault: Option<Fault>,
    table: &str,
) -> Result<bool, Fail> {
    let folder = MemoryFolder::make(alloc, disk, fault);
    let mut store = PlacingStore::make(alloc, folder)?;
    for line in table.lines() {
        if !is_done(&mut store, line) {
            return Ok(false);
        }
    }
    Ok(true)
}

fn state_of(alloc: Global, calls: &[Call], row: &Row<'_>) -> Result<State, Fail> {
    let Some(bytes) = content(alloc, calls, row.name)? else {
        return Ok(if row.old == "-" {
            State::Old
        } else {
            State::Absent
        });
    };
    if bytes.as_slice() == row.new.as_bytes() {
        return Ok(State::New);
    }
    if bytes.as_slice() == row.old.as_bytes() {
        return Ok(State::Old);
    }
    Ok(State::Other)
}

/// Whether each file is old or new, and none is new after an old one.
fn are_in_order(alloc: Global, calls: &[Call], table: &str) -> Result<bool, Fail> {
    let mut all_new = true;
    for line in table.lines() {
        if let Some(row) = row_of(line) {
            match state_of(alloc, calls, &row)? {
                State::New if all_new => {}
                State::Old => all_new = false,
                _ => return Ok(false),
            }
        }
    }
    Ok(true)
}

/// Whether each file is in the state, or is old or new where no state is given.
fn are_all(
    alloc: Global,
    calls: &[Call],
    table: &str,
    wanted: Option<State>,
) -> Result<bool, Fail> {
    for line in table.lines() {
        if let Some(row) = row_of(line) {
            let state = state_of(alloc, calls, &row)?;
            let is_wanted = match wanted {
                Some(wanted) => state == wanted,
                None => state == State::Old || state == State::New,
            };
            if !is_wanted {
                return Ok(false);
            }
        }
    }
    Ok(true)
}

/// Whether the set, whose first file is its mark, is old, or new, or has no mark.
fn is_whole(alloc: Global, calls: &[Call], table: &str) -> Result<bool, Fail> {
    let Some((mark, others)) = table.split_once('\n') else {
        return Ok(false);
    };
    if is_absent(alloc, calls, mark)? {
        return are_all(alloc, calls, others, None);
    }
    match row_of(mark) {
        Some(row) => {
            let state = state_of(alloc, calls, &row)?;
            Ok(
                (state == State::Old || state == State::New)
                    && are_all(alloc, calls, others, Some(state))?,
            )
        }
        None => Ok(false),
    }
}

/// Whether nothing has the name of the first line.
fn is_absent(alloc: Global, calls: &[Call], table: &str) -> Result<bool, Fail> {
    match table.split_once(' ') {
        Some((name, _)) => Ok(content(alloc, calls, name)?.is_none()),
        None => Ok(false),
    }
}

/// Files that are put in place, and what is counted: the calls of the folder where none fails; of
/// that run and all with failing calls, how many different things crashes leave, after how many
/// runs a file is left under another name, and after how many nothing has the first name; crashes
/// and runs that break a law; and crashes after which the files can't be put in place, all of them
/// and nothing else. `bench/folder_counts.py` counts the same by a model that knows nothing of this
/// code.
type Case = (&'static str, [u64; 6]);

/// What was tried of files so far.
#[derive(Clone, Copy)]
struct Tried<'a> {
    table: &'a str,
    is_set: bool,
    crashes: u64,
    left: u64,
    absent: u64,
    broken: u64,
    unmended: u64,
}

fn count(number: &mut u64, is_one: bool) {
    if is_one {
        *number = number.saturating_add(1);
    }
}

fn is_lawful(alloc: Global, calls: &[Call], tried: &Tried<'_>) -> Result<bool, Fail> {
    if tried.is_set {
        return is_whole(alloc, calls, tried.table);
    }
    are_in_order(alloc, calls, tried.table)
}

/// Whether the files can be put in place after the crash, and nothing is left under another name.
fn is_mended(alloc: Global, mut disk: Disk, table: &str) -> Result<bool, Fail> {
    let are_put = are_put(alloc, &mut disk, None, table)?;
    let calls = disk.calls.as_slice();
    Ok(are_put && are_all(alloc, calls, table, Some(State::New))? && !has_other_names(calls))
}

/// Tries each crash at this moment.
fn try_crashes(alloc: Global, calls: &[Call], tried: &mut Tried<'_>) -> Result<(), Fail> {
    let remains = remains(alloc, calls)?;
    for number in 0..crash_count(remains.as_slice()) {
        let disk = crash(alloc, remains.as_slice(), number)?;
        count(&mut tried.crashes, true);
        let is_lawful = is_lawful(alloc, disk.calls.as_slice(), tried)?;
        count(&mut tried.broken, !is_lawful);
        let is_mended = is_mended(alloc, disk, tried.table)?;
        count(&mut tried.unmended, !is_mended);
    }
    Ok(())
}

/// Tries each crash after the first `from` calls and after each later one.
fn try_moments(
    alloc: Global,
    calls: &[Call],
    from: usize,
    tried: &mut Tried<'_>,
) -> Result<(), Fail> {
    let mut calls = calls;
    for _ in 0..=calls.len() {
        if calls.len() >= from {
            try_crashes(alloc, calls, tried)?;
        }
        if let [_, earlier @ ..] = calls {
            calls = earlier;
        }
    }
    Ok(())
}

/// Looks at what a run leaves with no crash. Where the store says that all is done, all is new.
fn look_at(
    alloc: Global,
    calls: &[Call],
    are_put: bool,
    tried: &mut Tried<'_>,
) -> Result<(), Fail> {
    let are_new = are_all(alloc, calls, tried.table, Some(State::New))?;
    let is_lawful = is_lawful(alloc, calls, tried)?;
    count(&mut tried.broken, !is_lawful || are_put && !are_new);
    count(&mut tried.left, has_other_names(calls));
    let is_absent = is_absent(alloc, calls, tried.table)?;
    count(&mut tried.absent, is_absent);
    Ok(())
}

/// Puts the files in place, and tries each crash on the way, from the first call on that fails.
/// Answers how many calls of the folder there were.
fn try_run(alloc: Global, fault: Option<Fault>, tried: &mut Tried<'_>) -> Result<u64, Fail> {
    let mut disk = old_disk(alloc, tried.table)?;
    let old_files = disk.calls.len();
    let are_put = are_put(alloc, &mut disk, fault, tried.table)?;
    let from = match fault {
        Some(_) => disk.before_fault.saturating_add(1),
        None => old_files,
    };
    let calls = disk.calls.as_slice();
    look_at(alloc, calls, are_put, tried)?;
    try_moments(alloc, calls, from, tried)?;
    Ok(disk.asked)
}

/// Tries a run in which no call fails, and those in which one fails, or all from one on, done or
/// not.
fn counts_of(alloc: Global, table: &str, is_set: bool) -> Result<[u64; 6], Fail> {
    let mut tried = Tried {
        table,
        is_set,
        crashes: 0,
        left: 0,
        absent: 0,
        broken: 0,
        unmended: 0,
    };
    let calls = try_run(alloc, None, &mut tried)?;
    for first in 1..=calls {
        for last in [first, u64::MAX] {
            for is_done in [false, true] {
                try_run(
                    alloc,
                    Some(Fault {
                        first,
                        last,
                        is_done,
                    }),
                    &mut tried,
                )?;
            }
        }
    }
    Ok([
        calls,
        tried.crashes,
        tried.left,
        tried.absent,
        tried.broken,
        tried.unmended,
    ])
}

const SETS: &[Case] = &[
    (
        "all.roster (6:r1 (6:r22\na.log (3:l1 (3:l22\nb.log (3:l3 (3:l44\nfinish",
        [56, 10_711, 108, 29, 0, 0],
    ),
    (
        "all.roster - (6:r22\na.log - (3:l22\nb.log (3:l3 (3:l44\nfinish",
        [43, 4_311, 87, 158, 0, 0],
    ),
    (
        "n.office - (6:o1\nn.key - k22\nfinish",
        [28, 707, 51, 98, 0, 0],
    ),
];

#[test]
fn a_set_is_old_or_new_or_has_no_mark(rt: HostRuntime) -> Result<(), Fail> {
    for &(table, counts) in SETS {
        assert_eq!(rt; counts_of(rt.alloc(), table, true)?, counts, "{table}");
    }
    Ok(())
}

const SIGNED: &[Case] = &[
    (
        "e.office (6:o1 (6:o22\nfinish\ne.sig s1 s22\nfinish",
        [33, 373, 39, 0, 0, 0],
    ),
    (
        "e.office (6:o1 (6:o22\nfinish\ne.sig - s22\nfinish",
        [29, 277, 35, 0, 0, 0],
    ),
];

#[test]
fn a_signature_comes_after_the_number_that_it_uses(rt: HostRuntime) -> Result<(), Fail> {
    for &(table, counts) in SIGNED {
        assert_eq!(rt; counts_of(rt.alloc(), table, false)?, counts, "{table}");
    }
    Ok(())
}

const SINGLE: &[Case] = &[
    ("p.svg p1 p22\nfinish", [15, 113, 18, 0, 0, 0]),
    ("p.svg - p22\nfinish", [11, 65, 14, 34, 0, 0]),
];

#[test]
fn a_file_is_old_or_new(rt: HostRuntime) -> Result<(), Fail> {
    for &(table, counts) in SINGLE {
        assert_eq!(rt; counts_of(rt.alloc(), table, false)?, counts, "{table}");
    }
    Ok(())
}

/// Whether the store shows these bytes.
fn is_shown<S: Store>(alloc: Global, store: &mut S, row: &Row<'_>) -> bool {
    match read_file(alloc, store, row.name, 100) {
        Ok(bytes) => bytes.as_slice() == row.new.as_bytes(),
        Err(_) => false,
    }
}

/// Whether a store over a folder in memory shows the files that were put.
fn are_shown(alloc: Global, table: &str) -> Result<bool, Fail> {
    let mut disk = old_disk(alloc, table)?;
    let folder = MemoryFolder::make(alloc, &mut disk, None);
    let mut store = PlacingStore::make(alloc, folder)?;
    for line in table.lines() {
        if !is_done(&mut store, line) {
            return Ok(false);
        }
    }
    for line in table.lines() {
        if let Some(row) = row_of(line)
            && !is_shown(alloc, &mut store, &row)
        {
            return Ok(false);
        }
    }
    Ok(true)
}

#[test]
fn a_store_shows_the_files_that_were_put(rt: HostRuntime) -> Result<(), Fail> {
    for &(table, _) in SETS {
        assert!(rt; are_shown(rt.alloc(), table)?, "{table}");
    }
    Ok(())
}

/// A name, what stands there (whether it is a file, its names and its permission bits), and whether
/// a new file may replace it.
const STANDING: &[(&str, bool, u64, u32, bool)] = &[
    ("p.svg", true, 1, 0o644, true),
    ("p.svg", true, 2, 0o644, true),
    ("p.svg", false, 1, 0o644, false),
    ("p.svg", true, 1, 0o444, false),
    ("e.office", true, 1, 0o600, true),
    ("e.office", true, 2, 0o600, false),
];

/// Whether a new file may replace what is found.
fn may_replace(alloc: Global, name: &str, found: Found) -> Result<bool, Fail> {
    let mut disk = Disk::make(alloc);
    disk.put(alloc, name, b"", found)?;
    let folder = MemoryFolder::make(alloc, &mut disk, None);
    let mut store = PlacingStore::make(alloc, folder)?;
    Ok(store.create(name).is_ok())
}

#[test]
fn a_file_is_replaced_by_what_is_found(rt: HostRuntime) -> Result<(), Fail> {
    for &(name, is_regular, links, bits, want) in STANDING {
        let found = Found {
            is_regular,
            links,
            bits,
            ..PLAIN
        };
        let may = may_replace(rt.alloc(), name, found)?;
        assert_eq!(rt; may, want, "{name} {is_regular} {links} {bits:o}");
    }
    Ok(())
}
