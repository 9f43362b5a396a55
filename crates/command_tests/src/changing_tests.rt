//! Files that change while they are read: the answer is right for what the reads gave.
use crate::auditing_tests::{TWO, empty, front_of, play, wide, words_of};
use crate::changing_store::ChangingStore;
use auditorium_core::auditorium_still;
use hall_outside::{MemoryStore, read_file};
use std::alloc::Global;
use std::test::Fail;

/// After how many reads a file of 70,000 ones is one of as many twos, and how many of each are
/// read.
const PIECES: &[(u64, usize, usize)] = &[(0, 0, 70_000), (1, 65_536, 4_464), (2, 70_000, 0)];

/// After how many reads the supervisor's log is cut after its third record, and how many entries of
/// it are kept of its first reading and of its second. A small file takes two reads, and the roster
/// is read first.
const KEPT: &[(u64, u8, u8)] = &[(2, 3, 3), (4, 6, 3), (6, 6, 6)];

/// A store that is one of these for so many reads, and then the other.
fn changing(before: MemoryStore, after: MemoryStore, reads_before: u64) -> ChangingStore {
    ChangingStore {
        before,
        after,
        reads_before,
        read_faults: 0,
        absences: 0,
        bytes: 0,
    }
}

/// A store with one file, of 70,000 equal bytes.
fn filled(alloc: Global, byte: u8) -> Result<MemoryStore, Fail> {
    let mut store = empty(alloc);
    let bytes = vec![in alloc; byte; 70_000]?;
    store.place(alloc, "f", &bytes)?;
    Ok(store)
}

/// Whether these are so many ones and then so many twos.
fn are_pieces(alloc: Global, bytes: &[u8], ones: usize, twos: usize) -> Result<bool, Fail> {
    let mut pieces = vec![in alloc; 1u8; ones]?;
    let rest = vec![in alloc; 2u8; twos]?;
    pieces.extend_from_slice(&rest)?;
    Ok(bytes == pieces.as_slice())
}

#[test]
fn a_file_has_the_pieces_that_were_read(rt: HostRuntime) -> Result<(), Fail> {
    let alloc = rt.alloc();
    for &(reads, ones, twos) in PIECES {
        let mut store = changing(filled(alloc, 1)?, filled(alloc, 2)?, reads);
        let Ok(bytes) = read_file(alloc, &mut store, "f", 100_000) else {
            return Err(Fail::from("the file is read"));
        };
        assert!(rt; are_pieces(alloc, bytes.as_slice(), ones, twos)?, "{reads}");
    }
    Ok(())
}

/// The files of the worked play, and the same with the supervisor's log cut.
fn plays(alloc: Global) -> Result<(MemoryStore, MemoryStore), Fail> {
    let mut before = empty(alloc);
    play(alloc, TWO, "p", &mut before)?;
    let mut after = empty(alloc);
    play(alloc, TWO, "p", &mut after)?;
    let cut = front_of(alloc, &after, "p.sv.log", 7_413)?;
    after.place(alloc, "p.sv.log", &cut)?;
    Ok((before, after))
}

/// The first lines of the audit of the log, named twice, after so many reads of the whole one.
fn report(alloc: Global, reads: u64) -> Result<String, Fail> {
    let (before, after) = plays(alloc)?;
    let mut store = changing(before, after, reads);
    let words = words_of(alloc, "audit p.roster standard p.sv.log p.sv.log")?;
    let mut out = wide(alloc);
    let _ = auditorium_still(alloc, words.as_slice(), &mut store, &mut out);
    Ok(String::from_utf8_lossy(alloc, out.bytes())?)
}

#[test]
fn a_log_that_is_cut_meanwhile_is_reported_as_it_was_read(rt: HostRuntime) -> Result<(), Fail> {
    let alloc = rt.alloc();
    for &(reads, first, second) in KEPT {
        let lines = format!(in alloc;
            "log p.sv.log owner 0 kept {first} refused 0\n\
            log p.sv.log owner 0 kept {second} refused 0\n"
        )?;
        let told = report(alloc, reads)?;
        assert!(rt;
            told.as_str().starts_with(lines.as_str()),
            "{reads}: {told}"
        );
    }
    Ok(())
}
