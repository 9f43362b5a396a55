//! How much memory a call takes at most over a file that was made to harm its reader, as Linux
//! reports it of the process. Each test has a process of its own, so that none has memory at hand
//! that another gave back. `rt try` runs them with an allocator that takes more.
use crate::auditing_tests::{answer, empty, place_parts, play, wide};
use crate::play_tests::{Parts, TWO};
use auditorium_core::Status;
use hall_outside::{MemorySink, MemoryStore};
use hall_text::decimal;
use std::alloc::Global;
use std::fs;
use std::test::Fail;

const HEADER: &str = "(3:log1:11:0)";

/// The most memory that the process has had so far, in kilobytes.
fn peak(rt: &HostRuntime) -> Result<u32, Fail> {
    let status = fs::read_to_string(rt, "/proc/self/status")?;
    if let Some((_, rest)) = status.as_str().split_once("VmHWM:") {
        for word in rest.split_whitespace() {
            if let Some(count) = decimal(word.as_bytes()) {
                return Ok(count);
            }
        }
    }
    Err(Fail::from("the system tells the peak"))
}

/// Sets the peak back to what the process has now. Where the system refuses that, the files' making
/// counts too, and less than what is taken is seen.
fn set_back(rt: &HostRuntime) -> bool {
    fs::write(rt, "/proc/self/clear_refs", "5").is_ok()
}

/// A store with a roster's file, and a file `x` of these parts.
fn hall(alloc: Global, parts: Parts) -> Result<MemoryStore, Fail> {
    let mut store = empty(alloc);
    play(alloc, TWO, "p", &mut store)?;
    place_parts(alloc, "x", parts, &mut store)?;
    Ok(store)
}

/// Calls the program over an empty file: its code is read from its file at its first call.
fn called_before(alloc: Global, words: &str) -> Result<Status, Fail> {
    answer(alloc, words, &mut hall(alloc, &[])?, &mut wide(alloc))
}

/// By how many kilobytes the peak grows in the call.
fn grown_by(
    rt: &HostRuntime,
    words: &str,
    store: &mut MemoryStore,
    out: &mut MemorySink,
) -> Result<u32, Fail> {
    set_back(rt);
    let before = peak(rt)?;
    answer(rt.alloc(), words, store, out)?;
    Ok(peak(rt)?.saturating_sub(before))
}

/// Whether the words are answered so, and by how many kilobytes the peak grows in that call.
fn grown(rt: &HostRuntime, words: &str, parts: Parts, want: &str) -> Result<(bool, u32), Fail> {
    let alloc = rt.alloc();
    called_before(alloc, words)?;
    let mut store = hall(alloc, parts)?;
    let mut out = wide(alloc);
    let more = grown_by(rt, words, &mut store, &mut out)?;
    Ok((out.bytes() == want.as_bytes(), more))
}

#[test]
fn a_log_of_parentheses_takes_no_memory(rt: HostRuntime) -> Result<(), Fail> {
    let parts: Parts = &[(1, HEADER), (66_000_000, "(")];
    let (is_told, more) = grown(&rt, "gaps x", parts, "malformed x 21 TooDeep\n")?;
    assert!(rt; is_told && more < 4_000, "{more}");
    Ok(())
}

#[test]
fn a_roster_of_parentheses_takes_its_bytes(rt: HostRuntime) -> Result<(), Fail> {
    let parts: Parts = &[(4_194_304, "(")];
    let want = "refused x 8 NotCanonical\n";
    let (is_told, more) = grown(&rt, "audit x standard x", parts, want)?;
    assert!(rt; is_told && more < 8_000, "{more}");
    Ok(())
}

#[test]
fn rules_of_parentheses_take_their_bytes(rt: HostRuntime) -> Result<(), Fail> {
    let parts: Parts = &[(4_194_304, "(")];
    let (is_told, more) = grown(&rt, "audit p.roster x x", parts, "refused x 1 Shape\n")?;
    assert!(rt; is_told && more < 8_000, "{more}");
    Ok(())
}

#[test]
fn a_script_of_parentheses_takes_its_bytes(rt: HostRuntime) -> Result<(), Fail> {
    let parts: Parts = &[(4_194_304, "(")];
    let (is_told, more) = grown(&rt, "play x q", parts, "refused x 1 UnknownWord\n")?;
    assert!(rt; is_told && more < 8_000, "{more}");
    Ok(())
}

/// The place of each line is kept.
#[test]
fn a_script_of_empty_lines_takes_seventeen_times_its_bytes(rt: HostRuntime) -> Result<(), Fail> {
    let parts: Parts = &[(4_194_304, "\n")];
    let want = "refused x 4194305 OutOfOrder\n";
    let (is_told, more) = grown(&rt, "play x q", parts, want)?;
    assert!(rt; is_told && more < 80_000, "{more}");
    Ok(())
}
