ghost use Rattle.std.specs.Prelude.{◌<◌};

use hall_outside::{
    Failure, FileFault, FolderStore, MemorySink, MemoryStore, OutputSink, Store, Taken, put_file,
    read_file, write_all,
};
use std::alloc::Global;
use std::fs::{self, Permissions};
use std::os::unix::fs::{PermissionsExt, symlink};
use std::test::Fail;

const LIMIT: usize = 200_000;

/// A store whose file `a` has these bytes, and whose calls with these numbers fail.
fn store_of(
    alloc: Global,
    bytes: &[u8],
    reads: Vec<u64>,
    writes: Vec<u64>,
) -> Result<MemoryStore, Fail> {
    let mut store = MemoryStore::make(alloc, reads, writes);
    store.place(alloc, "a", bytes)?;
    Ok(store)
}

// No clause, so that no check computes the bytes. No two neighbours are equal, nor two bytes that
// stand a piece apart.
fn distinct_bytes(alloc: Global, len: usize) -> Result<Vec<u8>, Fail> {
    let mut bytes = Vec::new(alloc);
    for at in 0..len {
        bytes.push((at % 251) as u8)?;
    }
    Ok(bytes)
}

/// The file, its limit, the number of the read that fails, and the answer. The file has 65,536 and
/// then 4,464 bytes to be read.
const READS: &[(&str, usize, u64, Option<FileFault>)] = &[
    ("a", 70_000, 4, None),
    ("a", 69_999, 3, Some(FileFault::TooLong)),
    ("a", 0, 2, Some(FileFault::TooLong)),
    ("a", LIMIT, 1, Some(FileFault::ReadFault)),
    ("a", LIMIT, 2, Some(FileFault::ReadFault)),
    ("a", LIMIT, 3, Some(FileFault::ReadFault)),
    ("b", LIMIT, 2, Some(FileFault::Absent)),
];

/// Whether the file of 70,000 bytes is read so, where the read with this number fails.
fn is_read_so(
    alloc: Global,
    name: &str,
    limit: usize,
    failing: u64,
    want: Option<FileFault>,
) -> Result<bool, Fail> {
    let bytes = distinct_bytes(alloc, 70_000)?;
    let failing = vec![in alloc; failing]?;
    let mut store = store_of(alloc, bytes.as_slice(), failing, Vec::new(alloc))?;
    Ok(match read_file(alloc, &mut store, name, limit) {
        Ok(read) => want.is_none() && read.as_slice() == bytes.as_slice(),
        Err(fault) => Some(fault) == want,
    })
}

#[test]
fn read_file_answers_what_the_store_said(rt: HostRuntime) -> Result<(), Fail> {
    for &(name, limit, failing, want) in READS {
        let is_so = is_read_so(rt.alloc(), name, limit, failing, want)?;
        assert!(rt; is_so, "{name} within {limit}, read {failing} failing");
    }
    Ok(())
}

/// The most bytes that a read gives, where the next read begins in a file of ten letters, how many
/// it gives, and a buffer of four hyphens then.
const GREATEST: &[(usize, u64, usize, &str)] = &[
    (1, 0, 1, "a---"),
    (3, 2, 3, "cde-"),
    (3, 8, 2, "ij--"),
    (4, 4, 4, "efgh"),
    (5, 4, 4, "efgh"),
    (3, 10, 0, "----"),
];

/// Whether a read gives this, where reads give at most this many bytes.
fn is_given(alloc: Global, most: usize, at: u64, count: usize, want: &str) -> Result<bool, Fail>
    requires { 0 < most }
{
    let letters = "abcdefghij".as_bytes();
    let mut store = store_of(alloc, letters, Vec::new(alloc), Vec::new(alloc))?;
    store.greatest_read(most);
    let mut into = [b'-'; 4];
    let taken = store.read_at("a", at, &mut into);
    Ok(taken == Ok(Taken::Bytes(count)) && into.as_slice() == want.as_bytes())
}

#[test]
fn greatest_read_bounds_what_a_read_gives(rt: HostRuntime) -> Result<(), Fail> {
    for &(most, at, count, want) in GREATEST {
        if most > 0 {
            let is_so = is_given(rt.alloc(), most, at, count, want)?;
            assert!(rt; is_so, "{most} from {at}");
        }
    }
    Ok(())
}

/// The number of the write that fails, and what went out. Ten bytes at three a write are four.
const WRITES: &[(u64, &str)] = &[
    (1, ""),
    (2, "abc"),
    (3, "abcdef"),
    (4, "abcdefghi"),
    (5, "abcdefghij"),
];

/// Whether this many of ten letters go out, where the write with this number fails.
fn is_written_so(alloc: Global, failing: u64, want: &str) -> Result<bool, Fail> {
    let mut sink = MemorySink::make(alloc, 3, vec![in alloc; failing]?);
    let written = write_all(&mut sink, "abcdefghij".as_bytes());
    Ok(written.is_ok() == (failing == 5) && sink.bytes() == want.as_bytes())
}

#[test]
fn a_failing_write_leaves_a_prefix(rt: HostRuntime) -> Result<(), Fail> {
    for &(failing, want) in WRITES {
        assert!(rt;
            is_written_so(rt.alloc(), failing, want)?,
            "write {failing}"
        );
    }
    Ok(())
}

/// The number of the call that fails, and the file then. A file is a create and one append.
const PUTS: &[(u64, &str)] = &[(1, "old"), (2, ""), (3, "new")];

/// Whether the file is so after it was put, where the call with this number failed.
fn is_put_so(alloc: Global, failing: u64, want: &str) -> Result<bool, Fail> {
    let failing_calls = vec![in alloc; failing]?;
    let mut store = store_of(alloc, "old".as_bytes(), Vec::new(alloc), failing_calls)?;
    let put = put_file(&mut store, "a", "new".as_bytes());
    Ok(put.is_ok() == (failing == 3) && store.file("a") == Some(want.as_bytes()))
}

#[test]
fn a_failing_put_leaves_the_file_or_a_prefix(rt: HostRuntime) -> Result<(), Fail> {
    for &(failing, want) in PUTS {
        assert!(rt; is_put_so(rt.alloc(), failing, want)?, "call {failing}");
    }
    Ok(())
}

/// Where a read of eight bytes begins in a file of 29, and what it finds: first on from where the
/// last one ended, up to the end, then back in the middle, and past the end.
const PARTS: &[(u64, &[u8])] = &[
    (4, &[4, 5, 6, 7, 8, 9, 10, 11]),
    (12, &[12, 13, 14, 15, 16, 17, 18, 19]),
    (20, &[20, 21, 22, 23, 24, 25, 26, 27]),
    (28, &[28]),
    (29, &[]),
    (7, &[7, 8, 9, 10, 11, 12, 13, 14]),
    (1_000, &[]),
];

/// Whether the system's file has these bytes.
fn has_bytes(rt: &HostRuntime, name: &str, bytes: &[u8]) -> Result<bool, Fail> {
    Ok(fs::read(rt, name)?.as_slice() == bytes)
}

/// Whether the store has these bytes as the file.
fn is_read_back<S: Store>(alloc: Global, store: &mut S, name: &str, bytes: &[u8]) -> bool {
    match read_file(alloc, store, name, bytes.len()) {
        Ok(read) => read.as_slice() == bytes,
        Err(_) => false,
    }
}

/// Whether one store puts the bytes as the file and reads them back.
fn is_put_and_read(rt: &HostRuntime, name: &str, bytes: &[u8]) -> Result<bool, Fail> {
    let mut store = FolderStore::make(rt)?;
    let is_put = put_file(&mut store, name, bytes).is_ok() && store.finish().is_ok();
    Ok(is_put && is_read_back(rt.alloc(), &mut store, name, bytes))
}

/// Whether a file of this many bytes is put, and read back by the store and by the system.
fn is_moved(rt: &HostRuntime, name: &str, len: usize) -> Result<bool, Fail> {
    let bytes = distinct_bytes(rt.alloc(), len)?;
    Ok(is_put_and_read(rt, name, bytes.as_slice())? && has_bytes(rt, name, bytes.as_slice())?)
}

/// Whether a read there finds these bytes.
fn is_found(store: &mut FolderStore<'_, HostRuntime>, at: u64, want: &[u8]) -> bool {
    let mut into = [0; 8];
    let taken = store.read_at("outside-test", at, &mut into);
    matches!(taken, Ok(Taken::Bytes(count)) if count == want.len()) && into.starts_with(want)
}

/// Where the first read begins that doesn't find its part.
fn first_unfound(rt: &HostRuntime) -> Result<Option<u64>, Fail> {
    let mut store = FolderStore::make(rt)?;
    for &(at, want) in PARTS {
        if !is_found(&mut store, at, want) {
            return Ok(Some(at));
        }
    }
    Ok(None)
}

#[test]
fn folder_store_moves_the_bytes_of_files(rt: HostRuntime) -> Result<(), Fail> {
    assert!(rt; is_moved(&rt, "outside-test", 70_000)?);
    // A shorter file over a longer one.
    assert!(rt; is_moved(&rt, "outside-test", 29)?);
    assert_eq!(rt; first_unfound(&rt)?, None);
    fs::remove_file(&rt, "outside-test")?;
    Ok(())
}

/// Whether the store says that there is no such file.
fn is_absent(rt: &HostRuntime, name: &str) -> Result<bool, Fail> {
    Ok(FolderStore::make(rt)?.read_at(name, 0, &mut [0; 8]) == Ok(Taken::Absent))
}

/// The line of a failure.
fn line_of(alloc: Global, failure: Option<&Failure>) -> Result<String, Fail> {
    match failure {
        Some(failure) => Ok(format!(in alloc; "{failure}")?),
        None => Ok(String::new(alloc)),
    }
}

/// The line that the store keeps of the last read that failed.
fn failure_of(rt: &HostRuntime, name: &str) -> Result<String, Fail> {
    let mut store = FolderStore::make(rt)?;
    let _ = store.read_at(name, 0, &mut [0; 8]);
    line_of(rt.alloc(), store.failure())
}

#[test]
fn folder_store_refuses_by_name(rt: HostRuntime) -> Result<(), Fail> {
    assert!(rt; is_absent(&rt, "outside-none")?);
    let line = failure_of(&rt, ".")?;
    assert!(rt; line.as_str() == "reading . failed: Is a directory (os error 21)");
    Ok(())
}

/// Whether the text is put as the file.
fn is_put(rt: &HostRuntime, name: &str, text: &str) -> Result<bool, Fail> {
    let mut store = FolderStore::make(rt)?;
    Ok(put_file(&mut store, name, text.as_bytes()).is_ok() && store.finish().is_ok())
}

/// Whether a file of the name is there.
fn is_there(rt: &HostRuntime, name: &str) -> bool {
    fs::symlink_metadata(rt, name).is_ok()
}

/// Whether the file has this text, which is then removed.
fn had_text(rt: &HostRuntime, name: &str, text: &str) -> Result<bool, Fail> {
    let had = has_bytes(rt, name, text.as_bytes())?;
    fs::remove_file(rt, name)?;
    Ok(had)
}

/// The line that the store keeps of a file that it doesn't replace.
fn refusal_of(rt: &HostRuntime, name: &str, text: &str) -> Result<String, Fail> {
    let mut store = FolderStore::make(rt)?;
    let _ = put_file(&mut store, name, text.as_bytes()).is_ok() && store.finish().is_ok();
    line_of(rt.alloc(), store.failure())
}

#[test]
fn a_link_is_not_replaced_and_not_followed(rt: HostRuntime) -> Result<(), Fail> {
    assert!(rt; is_put(&rt, "outside-target", "target")?);
    symlink(&rt, "outside-target", "outside-link")?;
    let line = refusal_of(&rt, "outside-link", "link")?;
    let want = "writing outside-link failed: it is a symbolic link: name the file that it leads to";
    assert!(rt; line.as_str() == want);
    assert!(rt; fs::symlink_metadata(&rt, "outside-link")?.is_symlink());
    assert!(rt; had_text(&rt, "outside-target", "target")?);
    fs::remove_file(&rt, "outside-link")?;
    Ok(())
}

#[test]
fn a_write_protected_file_is_not_replaced(rt: HostRuntime) -> Result<(), Fail> {
    fs::write(&rt, "outside-protected", "old")?;
    fs::set_permissions(&rt, "outside-protected", Permissions::from_mode(0o444))?;
    let line = refusal_of(&rt, "outside-protected", "new")?;
    let want = "writing outside-protected failed: \
        it is write-protected: chmod u+w it, or name another file";
    assert!(rt; line.as_str() == want);
    assert!(rt; had_text(&rt, "outside-protected", "old")?);
    Ok(())
}

#[test]
fn what_was_read_is_not_replaced(rt: HostRuntime) -> Result<(), Fail> {
    fs::write(&rt, "outside-input", "input")?;
    let mut store = FolderStore::make(&rt)?;
    assert!(rt; is_read_back(rt.alloc(), &mut store, "outside-input", "input".as_bytes()));
    // Another name of the same place.
    assert!(rt; store.create("./outside-input").is_err());
    let line = line_of(rt.alloc(), store.failure())?;
    let want = "writing ./outside-input failed: \
        this command has read it: name another file to be written";
    assert!(rt; line.as_str() == want);
    assert!(rt; had_text(&rt, "outside-input", "input")?);
    Ok(())
}

#[test]
fn a_file_of_another_kind_is_not_replaced(rt: HostRuntime) -> Result<(), Fail> {
    fs::write(&rt, "outside-log", "(3:log1:11:0)")?;
    let line = refusal_of(&rt, "outside-log", "proof 1\n")?;
    let want = "writing outside-log failed: \
        it is a file of another kind: remove it, or name another file";
    assert!(rt; line.as_str() == want);
    assert!(rt; is_put(&rt, "outside-log", "(3:log1:12:0)")?);
    assert!(rt; had_text(&rt, "outside-log", "(3:log1:12:0)")?);
    Ok(())
}

/// Whether the office's file is read, and whether it is replaced.
fn office_use(rt: &HostRuntime, name: &str) -> Result<(bool, bool), Fail> {
    let mut store = FolderStore::make(rt)?;
    let is_read = is_read_back(rt.alloc(), &mut store, name, "office".as_bytes());
    Ok((is_read, is_put(rt, name, "office")?))
}

#[test]
fn an_office_has_one_name(rt: HostRuntime) -> Result<(), Fail> {
    assert!(rt; is_put(&rt, "outside-one.office", "office")?);
    assert_eq!(rt; office_use(&rt, "outside-one.office")?, (true, true));
    symlink(&rt, "outside-one.office", "outside-link.office")?;
    assert_eq!(rt; office_use(&rt, "outside-link.office")?, (false, false));
    let line = failure_of(&rt, "outside-link.office")?;
    let want = "reading outside-link.office failed: \
        it is a symbolic link: name the file that it leads to";
    assert!(rt; line.as_str() == want);
    assert_eq!(rt; office_use(&rt, "outside-one.office")?, (true, true));
    fs::remove_file(&rt, "outside-link.office")?;
    fs::hard_link(&rt, "outside-one.office", "outside-two.office")?;
    assert_eq!(rt; office_use(&rt, "outside-one.office")?, (false, false));
    assert_eq!(rt; office_use(&rt, "outside-two.office")?, (false, false));
    let line = failure_of(&rt, "outside-one.office")?;
    let want = "reading outside-one.office failed: \
        it has another name too (a hard link): remove one of the two";
    assert!(rt; line.as_str() == want);
    fs::remove_file(&rt, "outside-two.office")?;
    assert_eq!(rt; office_use(&rt, "outside-one.office")?, (true, true));
    fs::remove_file(&rt, "outside-one.office")?;
    Ok(())
}

#[test]
fn files_that_change_between_reads_are_refused(rt: HostRuntime) -> Result<(), Fail> {
    assert!(rt; is_put(&rt, "outside-set.roster", "old")?);
    assert!(rt; is_put(&rt, "outside-set.log", "old")?);
    let mut reader = FolderStore::make(&rt)?;
    assert!(rt;
        is_read_back(
            rt.alloc(),
            &mut reader,
            "outside-set.roster",
            "old".as_bytes()
        )
    );
    assert!(rt; is_put(&rt, "outside-set.roster", "new")?);
    assert!(rt; reader.read_at("outside-set.log", 0, &mut [0; 8]).is_err());
    let line = line_of(rt.alloc(), reader.failure())?;
    let want = "reading outside-set.log failed: \
        a file that was read before it has changed since: try again";
    assert!(rt; line.as_str() == want);
    fs::remove_file(&rt, "outside-set.roster")?;
    fs::remove_file(&rt, "outside-set.log")?;
    Ok(())
}

#[test]
fn a_set_is_replaced_whole_or_keeps_its_roster(rt: HostRuntime) -> Result<(), Fail> {
    fs::write(&rt, "outside-old.roster", "old roster")?;
    fs::write(&rt, "outside-old.log", "old log")?;
    let mut store = FolderStore::make(&rt)?;
    assert!(rt; put_file(&mut store, "outside-old.roster", "new roster".as_bytes()).is_ok());
    assert!(rt; put_file(&mut store, "outside-old.log", "new log".as_bytes()).is_ok());
    // A folder has the log's name now: its rename fails, once the old roster is set aside.
    fs::remove_file(&rt, "outside-old.log")?;
    fs::create_dir(&rt, "outside-old.log")?;
    assert!(rt; store.finish().is_err());
    assert!(rt; has_bytes(&rt, "outside-old.roster", "old roster".as_bytes())?);
    fs::remove_dir(&rt, "outside-old.log")?;
    assert!(rt; put_file(&mut store, "outside-old.roster", "new roster".as_bytes()).is_ok());
    assert!(rt; put_file(&mut store, "outside-old.log", "new log".as_bytes()).is_ok());
    assert!(rt; store.finish().is_ok());
    assert!(rt; had_text(&rt, "outside-old.roster", "new roster")?);
    assert!(rt; had_text(&rt, "outside-old.log", "new log")?);
    Ok(())
}

#[test]
fn no_file_changes_before_all_are_finished(rt: HostRuntime) -> Result<(), Fail> {
    assert!(rt; is_put(&rt, "outside-first", "old")?);
    let mut store = FolderStore::make(&rt)?;
    assert!(rt; put_file(&mut store, "outside-first", "new".as_bytes()).is_ok());
    assert!(rt; put_file(&mut store, "outside-second", "new".as_bytes()).is_ok());
    assert!(rt; has_bytes(&rt, "outside-first", "old".as_bytes())?);
    assert!(rt; !is_there(&rt, "outside-second"));
    assert!(rt; store.finish().is_ok());
    assert!(rt; had_text(&rt, "outside-first", "new")?);
    assert!(rt; had_text(&rt, "outside-second", "new")?);
    Ok(())
}

/// The name that `outside-kept` has until it is put in place.
const OTHER_NAME: &str = ".auditorium-ea6c218822befb8b";

#[test]
fn a_failed_create_gives_up_the_files_before_it(rt: HostRuntime) -> Result<(), Fail> {
    let mut store = FolderStore::make(&rt)?;
    assert!(rt; put_file(&mut store, "outside-kept", "text".as_bytes()).is_ok());
    assert!(rt; is_there(&rt, OTHER_NAME));
    // A folder is not replaced.
    assert!(rt; store.create(".").is_err());
    assert!(rt; !is_there(&rt, OTHER_NAME));
    assert!(rt; store.finish().is_ok());
    assert!(rt; !is_there(&rt, "outside-kept"));
    Ok(())
}

#[test]
fn what_was_left_under_the_other_name_is_removed(rt: HostRuntime) -> Result<(), Fail> {
    fs::write(&rt, OTHER_NAME, "left")?;
    assert!(rt; is_put(&rt, "outside-kept", "text")?);
    assert!(rt; had_text(&rt, "outside-kept", "text")?);
    assert!(rt; !is_there(&rt, OTHER_NAME));
    Ok(())
}

#[test]
fn the_second_that_writes_a_file_fails(rt: HostRuntime) -> Result<(), Fail> {
    let mut first = FolderStore::make(&rt)?;
    assert!(rt; put_file(&mut first, "outside-both", "first".as_bytes()).is_ok());
    let mut second = FolderStore::make(&rt)?;
    assert!(rt; second.create("outside-both").is_err());
    let line = line_of(rt.alloc(), second.failure())?;
    let want = "writing outside-both failed: another program is writing it";
    assert!(rt; line.as_str() == want);
    assert!(rt; first.finish().is_ok());
    assert!(rt; had_text(&rt, "outside-both", "first")?);
    Ok(())
}

/// The permission bits that the file had, which is then removed.
fn bits_of(rt: &HostRuntime, name: &str) -> Result<u32, Fail> {
    let bits = fs::metadata(rt, name)?.permissions().mode() & 0o777;
    fs::remove_file(rt, name)?;
    Ok(bits)
}

/// The bits that a file has once it is put over one that had these bits.
fn bits_after(rt: &HostRuntime, name: &str, bits: u32) -> Result<u32, Fail> {
    fs::write(rt, name, "old")?;
    fs::set_permissions(rt, name, Permissions::from_mode(bits))?;
    let _ = is_put(rt, name, "new")?;
    bits_of(rt, name)
}

#[test]
fn a_replaced_file_keeps_its_permissions(rt: HostRuntime) -> Result<(), Fail> {
    for bits in [0o600, 0o640, 0o666, 0o755] {
        assert_eq!(rt; bits_after(&rt, "outside-bits", bits)?, bits);
    }
    Ok(())
}

#[test]
fn only_its_owner_reads_a_secret(rt: HostRuntime) -> Result<(), Fail> {
    assert!(rt; is_put(&rt, "outside.office", "new")?);
    assert_eq!(rt; bits_of(&rt, "outside.office")?, 0o600);
    assert_eq!(rt; bits_after(&rt, "outside.office", 0o644)?, 0o600);
    Ok(())
}

#[test]
fn output_sink_writes_to_standard_output(rt: HostRuntime) {
    let mut sink = OutputSink::make(&rt);
    let written = write_all(&mut sink, "the standard output\n".as_bytes()).is_ok();
    assert!(rt; written && sink.failure().is_none());
}
