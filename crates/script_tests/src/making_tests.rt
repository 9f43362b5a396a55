//! Days of sessions as texts. The expected ones are those of an independent program.
use election_script::{make, write};
use std::alloc::Global;
use std::test::Fail;

const ONE_SESSION: &str = "seed 61756469746f7269756d
key w4 h10
log 6
link 3
machine sv supervisor
machine b1 booth
machine b2 booth
machine b3 booth
do sv open
do sv authorise b1 1
do sv close
do b1 activate 1
do b1 commit 1 0000000100000001000000010000000100000001000000010000000100000001
do b1 cast 1 0000000100000001000000010000000100000001000000010000000100000001
step act sv
step hear b1 sv 0
step hear b2 sv 0
step hear b3 sv 0
step act sv
step hear b1 sv 1
step hear b2 sv 1
step hear b3 sv 1
step act b1
step act b1
step act b1
step hear sv b1 2
step hear sv b1 1
step hear sv b1 0
step hear b2 b1 0
step hear b2 b1 1
step hear b2 b1 2
step hear b3 b1 0
step hear b3 b1 1
step hear b3 b1 2
step act sv
step hear b1 sv 2
step hear b2 sv 2
step hear b3 sv 2
";

/// Lines of a day of ten sessions, by their numbers from 0.
const TEN_SESSIONS: &str = "2 log 41
3 link 12
18 do sv authorise b1 10
30 do b1 cancel 10
203 step hear sv b1 10
205 step hear b2 b1 9
208 step hear b3 b1 10
212 step hear b3 sv 11";

/// Lines of a day of as many sessions as there may be.
const MOST_SESSIONS: &str = "2 log 3122
3 link 802
808 do sv authorise b2 800
2357 do b2 cancel 800
15609 step hear sv b2 772
15611 step hear b1 b2 773
15617 step hear b3 sv 801";

/// How many sessions a day has, how many bytes its text, and some of its lines.
const DAYS: &[(u32, usize, &str)] = &[(10, 4683, TEN_SESSIONS), (800, 374_792, MOST_SESSIONS)];

/// The text of a day of this many sessions.
fn text_of_day(alloc: Global, sessions: u32) -> Result<Vec<u8>, Fail> {
    if sessions < 1 || sessions > 800 {
        return Err(Fail::from("a day has 1 to 800 sessions"));
    }
    let script = make(alloc, sessions)?;
    Ok(write(alloc, &script)?)
}

/// Whether the row's line is the one with the number before it.
fn has_line(lines: &[&str], row: &str) -> bool {
    let Some((number, want)) = row.split_once(' ') else {
        return false;
    };
    match number.parse::<usize>() {
        Ok(number) => lines.get(number) == Some(&want),
        Err(_) => false,
    }
}

/// Whether each of the rows' lines is the one with the number before it.
fn has_each(lines: &[&str], rows: &str) -> bool {
    for row in rows.lines() {
        if !has_line(lines, row) {
            return false;
        }
    }
    true
}

/// Whether the text has this many bytes, and each of the rows' lines at its number.
fn has_lines(alloc: Global, text: &[u8], bytes: usize, rows: &str) -> Result<bool, Fail> {
    let lines: Vec<&str> = std::str::from_utf8(text)?.lines().collect(alloc)?;
    Ok(text.len() == bytes && has_each(lines.as_slice(), rows))
}

/// Whether the text of a day of this many sessions has this many bytes and these lines.
fn is_day(alloc: Global, sessions: u32, bytes: usize, rows: &str) -> Result<bool, Fail> {
    let text = text_of_day(alloc, sessions)?;
    has_lines(alloc, text.as_slice(), bytes, rows)
}

#[test]
fn a_day_of_one_session_has_this_text(rt: HostRuntime) -> Result<(), Fail> {
    let text = text_of_day(rt.alloc(), 1)?;
    assert!(rt; text.as_slice() == ONE_SESSION.as_bytes());
    Ok(())
}

#[test]
fn longer_days_have_these_lines(rt: HostRuntime) -> Result<(), Fail> {
    for &(sessions, bytes, rows) in DAYS {
        assert!(rt; is_day(rt.alloc(), sessions, bytes, rows)?, "{sessions}");
    }
    Ok(())
}
