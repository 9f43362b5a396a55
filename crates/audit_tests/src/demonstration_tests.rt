//! Demonstrations of small elections. The numbers were computed by a separate plain program.
ghost use Rattle.std.specs.Prelude.{IfOk};
ghost use Rattle.election_script.specs.Lawful.{IsLawful};

use demonstration::{Demonstration, demonstrate, write_demonstration};
use election_script::{Script, read};
use polling_world::keys_of;
use std::alloc::Global;
use std::test::Fail;

/// A supervisor and a booth.
const HEAD: &str =
    "seed 0102\nkey w4 h5\nlog 64\nlink 64\nmachine sv supervisor\nmachine b1 booth\n\
    do sv open\ndo sv authorise b1 1\n";

/// A session that ends with a ballot, before the supervisor closes.
const CAST: &str = "do sv close\ndo b1 activate 1\n\
    do b1 commit 1 0707070707070707070707070707070707070707070707070707070707070707\n\
    do b1 cast 1 0707070707070707070707070707070707070707070707070707070707070707\n";

/// The same in version 2 with the ballot challenged.
const CHALLENGED: &str = "do sv close\ndo b1 activate 1\n\
    do b1 commit 1 0707070707070707070707070707070707070707070707070707070707070707\n\
    do b1 challenge 1 0707070707070707070707070707070707070707070707070707070707070707\n";

/// The session is ended without a ballot.
const CANCELLED: &str = "do sv close\ndo b1 activate 1\ndo b1 cancel 1\n";

/// The booth hears the supervisor.
const OPEN: &str = "step act sv\nstep act sv\nstep hear b1 sv 0\nstep hear b1 sv 1\n";

/// The supervisor hears a ballot's session, the first of its entries first.
const IN_ORDER: &str = "step act b1\nstep act b1\nstep act b1\n\
    step hear sv b1 0\nstep hear sv b1 1\nstep hear sv b1 2\n";

/// The same with the last first.
const LAST_FIRST: &str = "step act b1\nstep act b1\nstep act b1\n\
    step hear sv b1 2\nstep hear sv b1 1\nstep hear sv b1 0\n";

/// The supervisor hears a cancelled session, the last of its entries first.
const CANCEL_FIRST: &str = "step act b1\nstep act b1\nstep hear sv b1 1\nstep hear sv b1 0\n";

/// The supervisor closes.
const CLOSE: &str = "step act sv\n";

/// A script by its parts, a session, and what is shown: entries, survivors, gaps, rules that are
/// kept, broken and unsettled, and the outcome.
type Row = (&'static [&'static str], u32, &'static str);

const ROWS: &[Row] = &[
    // The last of the supervisor's entries is gone.
    (
        &[HEAD, CAST, OPEN, IN_ORDER, CLOSE],
        1,
        "6 5 0 22 0 0 findings",
    ),
    (
        &["version 2\n", HEAD, CHALLENGED, OPEN, IN_ORDER, CLOSE],
        1,
        "6 5 0 22 0 0 findings",
    ),
    // No record ends this session, so the log is whole.
    (&[HEAD, CAST, OPEN, IN_ORDER, CLOSE], 2, "6 6 0 22 0 0 kept"),
    // Nothing follows the record.
    (&[HEAD, CAST, OPEN, IN_ORDER], 1, "5 5 0 22 0 0 kept"),
    // What the last entry names is gone.
    (
        &[HEAD, CAST, OPEN, LAST_FIRST, CLOSE],
        1,
        "6 3 1 18 0 4 unsettled",
    ),
    (
        &[HEAD, CANCELLED, OPEN, CANCEL_FIRST, CLOSE],
        1,
        "5 3 1 20 0 2 unsettled",
    ),
];

/// The script of these parts.
fn script_of(alloc: Global, parts: &[&str]) -> Result<Script, Fail>
    ensures { IfOk result IsLawful }
{
    let mut text = String::new(alloc);
    for part in parts {
        text.push_str(part)?;
    }
    match read(alloc, text.as_bytes()) {
        Ok(script) => Ok(script),
        Err(_) => Err(Fail::from("the script is read")),
    }
}

/// What is shown of the script of these parts.
fn shown_for(alloc: Global, parts: &[&str], session: u32) -> Result<Demonstration, Fail> {
    let script = script_of(alloc, parts)?;
    let keys = keys_of(alloc, &script)?;
    match demonstrate(alloc, &script, keys, session) {
        Ok(shown) => Ok(shown),
        Err(_) => Err(Fail::from("the log is audited")),
    }
}

/// The numbers and the outcome in a row.
fn row_of(alloc: Global, shown: &Demonstration) -> Result<String, Fail> {
    let outcome = shown.outcome.word();
    Ok(format!(in alloc;
        "{} {} {} {} {} {} {outcome}",
        shown.entries, shown.survivors, shown.gaps, shown.kept, shown.broken, shown.unsettled
    )?)
}

#[test]
fn what_is_left_is_counted(rt: HostRuntime) -> Result<(), Fail> {
    let alloc = rt.alloc();
    for &(parts, session, expected) in ROWS {
        let shown = shown_for(alloc, parts, session)?;
        let row = row_of(alloc, &shown)?;
        assert_eq!(rt; row.as_str(), expected);
    }
    Ok(())
}

/// The lines of the fifth row.
const LINES: &str = "sessions 1\nentries 6\nsurvivors 3\ngaps 1\nkept 18\nbroken 0\nunsettled 4\n";

#[test]
fn seven_lines_are_written(rt: HostRuntime) -> Result<(), Fail> {
    let alloc = rt.alloc();
    let shown = shown_for(alloc, &[HEAD, CAST, OPEN, LAST_FIRST, CLOSE], 1)?;
    let lines = write_demonstration(alloc, 1, &shown)?;
    assert_eq!(rt; lines.as_str(), LINES);
    Ok(())
}
