use crate::disk::Disk;
use crate::memory_folder::MemoryFolder;
use crate::reading::{PLAIN, content};
use folder_calls::Found;
use hall_outside::{PlacingStore, Store, put_file};
use std::alloc::Global;
use std::test::Fail;

/// The name that the file `a` has until it is put in place: the 64-bit FNV-1a hash of `a` is in the
/// table of test vectors of its authors.
const OTHER: &str = ".auditorium-af63dc4c8601ec8c";

/// What stands on a disk before: `old` as file 0 under the name `a`, and as file 1 what an ended
/// program left under the other name.
#[derive(Clone, Copy)]
struct Row {
    is_left: bool,
    /// What was left is a file.
    is_regular: bool,
    /// Which file another program has locked.
    held: Option<u64>,
    /// Which file another program removes before this one locks it.
    fleeting: Option<u64>,
    has_changed: bool,
    /// What has the name `a` in the end, and what the other name.
    place: &'static str,
    other: Option<&'static str>,
}

/// Nothing but the old file, which is replaced.
const FREE: Row = Row {
    is_left: false,
    is_regular: true,
    held: None,
    fleeting: None,
    has_changed: false,
    place: "new",
    other: None,
};

const ROWS: &[(&str, Row)] = &[
    ("nothing is left", FREE),
    (
        "a leftover is removed",
        Row {
            is_left: true,
            ..FREE
        },
    ),
    (
        "a locked leftover stays",
        Row {
            is_left: true,
            held: Some(1),
            place: "old",
            other: Some("left"),
            ..FREE
        },
    ),
    (
        "what is no file stays",
        Row {
            is_left: true,
            is_regular: false,
            place: "old",
            other: Some("left"),
            ..FREE
        },
    ),
    (
        "a leftover goes before it is locked",
        Row {
            is_left: true,
            fleeting: Some(1),
            ..FREE
        },
    ),
    (
        "a new file goes before it is locked",
        Row {
            fleeting: Some(1),
            ..FREE
        },
    ),
    (
        "a new file is locked by another program",
        Row {
            held: Some(1),
            place: "old",
            other: Some(""),
            ..FREE
        },
    ),
    (
        "what was read was written meanwhile",
        Row {
            has_changed: true,
            place: "old",
            ..FREE
        },
    ),
];

fn disk_of(alloc: Global, row: &Row) -> Result<Disk, Fail> {
    let mut disk = Disk::make(alloc);
    disk.put(alloc, "a", b"old", PLAIN)?;
    if row.is_left {
        let found = Found {
            is_regular: row.is_regular,
            ..PLAIN
        };
        disk.put(alloc, OTHER, b"left", found)?;
    }
    if let Some(number) = row.held {
        disk.held.push(number)?;
    }
    if let Some(number) = row.fleeting {
        disk.fleeting.push(number)?;
    }
    disk.has_changed = row.has_changed;
    Ok(disk)
}

/// Puts the new file in place, and answers whether that was done.
fn is_put(alloc: Global, disk: &mut Disk) -> Result<bool, Fail> {
    let folder = MemoryFolder::make(alloc, disk, None);
    let mut store = PlacingStore::make(alloc, folder)?;
    Ok(put_file(&mut store, "a", b"new").is_ok() && store.finish().is_ok())
}

/// Whether the file has these bytes.
fn has(alloc: Global, disk: &Disk, name: &str, want: Option<&str>) -> Result<bool, Fail> {
    let found = content(alloc, disk.calls.as_slice(), name)?;
    match (&found, want) {
        (Some(bytes), Some(want)) => Ok(bytes.as_slice() == want.as_bytes()),
        (None, None) => Ok(true),
        _ => Ok(false),
    }
}

#[test]
fn what_is_locked_is_left_alone(rt: HostRuntime) -> Result<(), Fail> {
    for (name, row) in ROWS {
        let mut disk = disk_of(rt.alloc(), row)?;
        let is_put = is_put(rt.alloc(), &mut disk)?;
        assert_eq!(rt; is_put, row.place == "new", "{name}");
        assert!(rt; has(rt.alloc(), &disk, "a", Some(row.place))?, "{name}");
        assert!(rt; has(rt.alloc(), &disk, OTHER, row.other)?, "{name}");
    }
    Ok(())
}

/// Whether the new file is put in place where this user may not open the folder, or the file system
/// flushes none.
fn is_put_unflushed(alloc: Global, is_unreadable: bool, has_no_flush: bool) -> Result<bool, Fail> {
    let mut disk = disk_of(alloc, &FREE)?;
    disk.is_unreadable = is_unreadable;
    disk.has_no_flush = has_no_flush;
    Ok(is_put(alloc, &mut disk)? && has(alloc, &disk, "a", Some("new"))?)
}

#[test]
fn a_folder_that_cannot_be_flushed_is_taken_to_be(rt: HostRuntime) -> Result<(), Fail> {
    assert!(rt; is_put_unflushed(rt.alloc(), true, false)?);
    assert!(rt; is_put_unflushed(rt.alloc(), false, true)?);
    Ok(())
}
