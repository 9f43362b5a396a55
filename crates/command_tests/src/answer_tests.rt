//! An answer that no command made.
use crate::auditing_tests::empty;
use command_line::{Answer, Status, end_with};
use hall_outside::MemorySink;
use std::test::Fail;

/// The number of the write that fails, of two bytes each, what is written, and the status.
const ROWS: &[(u64, &str, Status)] = &[
    (9, "kept\n", Status::Done),
    (2, "ke", Status::WriteFault),
    (1, "", Status::WriteFault),
];

#[test]
fn an_answer_is_written_or_cut_short(rt: HostRuntime) -> Result<(), Fail> {
    let alloc = rt.alloc();
    for &(failing, written, wanted) in ROWS {
        let answer = Ok(Answer::line(alloc, "kept")?);
        let mut store = empty(alloc);
        let mut out = MemorySink::make(alloc, 2, vec![in alloc; failing]?);
        let status = end_with(&answer, &mut store, &mut out);
        assert!(rt; status == wanted && out.bytes() == written.as_bytes());
    }
    Ok(())
}
