//! The command `demo`. The numbers were computed by a separate plain program.
use crate::auditing_tests::{empty, is_answered};
use auditorium_core::Status;
use std::test::Fail;

/// The lines of one session. Its booth's last entry is heard first, so the commitment that it names
/// is cut away.
pub(super) const ONE: &str =
    "sessions 1\nentries 6\nsurvivors 3\ngaps 1\nkept 18\nbroken 0\nunsettled 4\n";

/// Those of ten sessions, of which the fifth is the last that is kept.
const TEN: &str = "sessions 10\nentries 41\nsurvivors 19\ngaps 1\nkept 18\nbroken 0\nunsettled 4\n";

/// Those of a hundred: the fiftieth is cancelled, and its activation is cut away.
const HUNDRED: &str =
    "sessions 100\nentries 392\nsurvivors 195\ngaps 1\nkept 20\nbroken 0\nunsettled 2\n";

/// Words with their status and their output.
const ROWS: &[(&str, Status, &str)] = &[
    ("demo 1", Status::Unsettled, ONE),
    ("demo 10", Status::Unsettled, TEN),
    ("demo 100", Status::Unsettled, HUNDRED),
    ("demo 0", Status::Usage, "usage\n"),
    ("demo 801", Status::Usage, "usage\n"),
    ("demo 01", Status::Usage, "usage\n"),
    ("demo", Status::Usage, "usage\n"),
    ("demo 1 1", Status::Usage, "usage\n"),
];

#[test]
fn a_demonstration_has_its_status_and_lines(rt: HostRuntime) -> Result<(), Fail> {
    let alloc = rt.alloc();
    for &(words, status, output) in ROWS {
        let told = is_answered(alloc, words, &mut empty(alloc), (status, output))?;
        assert!(rt; told, "{words}");
    }
    Ok(())
}
