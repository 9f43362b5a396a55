//! Histories in which each cause applies alone, in which each two causes of a row apply together,
//! and in which an entry comes near to a cause. The answers are those of another program.
ghost use Rattle.entry_format.specs.Deeds.{IsDeedOf};
ghost use Rattle.roster.specs.declared.post.Role.TheVariants.{Booth};

use crate::histories::{authorise, entries_in, entry_of, override_by};
use booth_core::BoothState;
use entry_format::{Deed, How};
use std::alloc::{AllocError, Global};
use std::test::Fail;

/// The booth's place in the roster.
const OWNER: u32 = 1;

/// The maker and the deed of an entry. Where nobody is named it is the supervisor that authorises,
/// overrides and closes, and the booth that does the rest.
fn event(words: &str) -> (u32, Deed) {
    let ballot = [b'x'; 32];
    match words {
        "authorised 7" => (0, authorise(OWNER, 7)),
        "booth 2 authorised 7" => (0, authorise(2, 7)),
        "authorised 8" => (0, authorise(OWNER, 8)),
        "overridden 7 to cancel" => (0, override_by(7, How::Cancel)),
        "overridden 7 to cast" => (0, override_by(7, How::Cast)),
        "overridden 8 to cancel" => (0, override_by(8, How::Cancel)),
        "overridden 8 to cast" => (0, override_by(8, How::Cast)),
        "closed" => (0, Deed::Closed),
        "activates 7" => (OWNER, Deed::Activate { session: 7 }),
        "commits 7" => (OWNER, Deed::Commit { session: 7, ballot }),
        "commits 7 otherwise" => (OWNER, other_commit()),
        "cancels 7" => (OWNER, Deed::Cancel { session: 7 }),
        "cancels 8" => (OWNER, Deed::Cancel { session: 8 }),
        "casts 7" => (OWNER, Deed::Cast { session: 7, ballot }),
        "challenges 7" => (OWNER, Deed::Challenge { session: 7, ballot }),
        "overrides 7 to cancel" => (OWNER, override_by(7, How::Cancel)),
        "overrides 7 to cast" => (OWNER, override_by(7, How::Cast)),
        "booth 2 closes" => (2, Deed::Closed),
        "booth 2 activates 7" => (2, Deed::Activate { session: 7 }),
        "booth 2 commits 7" => (2, Deed::Commit { session: 7, ballot }),
        "booth 2 cancels 7" => (2, Deed::Cancel { session: 7 }),
        "booth 2 casts 7" => (2, Deed::Cast { session: 7, ballot }),
        _ => (2, Deed::Challenge { session: 7, ballot }),
    }
}

fn other_commit() -> Deed {
    let ballot = [b'y'; 32];
    Deed::Commit { session: 7, ballot }
}

/// The state of the history that has these entries, in their order.
fn state_of(alloc: Global, history: &[&str]) -> Result<BoothState, AllocError> {
    let mut state = BoothState::make(alloc, OWNER, history.len())?;
    for words in history {
        state.note(&entry_of(alloc, event(words)));
    }
    Ok(state)
}

/// The answer for the deed after the history, where the log is complete or isn't, in words.
fn answer(rt: &HostRuntime, history: &str, whole: bool, deed: &Deed) -> Result<String, Fail>
    requires { IsDeedOf Booth deed.now }
{
    let history = entries_in(rt.alloc(), history)?;
    let state = state_of(rt.alloc(), history.as_slice())?;
    Ok(match state.may(deed, whole) {
        Ok(()) => String::from_str(rt.alloc(), "Ok")?,
        Err(cause) => format!(in rt.alloc(); "{cause:?}")?,
    })
}

/// The deed of a row.
fn deed_named(word: &str) -> Deed
    ensures { IsDeedOf Booth result }
{
    let ballot = [b'x'; 32];
    match word {
        "Activate" => Deed::Activate { session: 7 },
        "Commit" => Deed::Commit { session: 7, ballot },
        "Cast" => Deed::Cast { session: 7, ballot },
        "Challenge" => Deed::Challenge { session: 7, ballot },
        _ => Deed::Cancel { session: 7 },
    }
}

/// Whether the answer is the row's last part.
fn is_answered(rt: &HostRuntime, row: &str) -> Result<bool, Fail> {
    let parts: Vec<&str> = row.split(';').collect(rt.alloc())?;
    let [word, history, whole, want] = parts.as_slice() else {
        return Ok(false);
    };
    let got = answer(rt, history, *whole == "whole", &deed_named(word))?;
    Ok(got.as_str() == *want)
}

/// The deed, the history before it, whether the log is complete, and the answer.
const ROWS: &str = "Activate;authorised 7;whole;Ok
Activate;;whole;NotAuthorised
Activate;authorised 7,cancels 7;whole;Ended
Activate;authorised 7,activates 7;whole;AlreadyActive
Activate;authorised 7,overridden 7 to cancel;whole;Overridden
Activate;authorised 7,closed;whole;Closed
Activate;cancels 7;whole;NotAuthorised
Activate;activates 7;whole;NotAuthorised
Activate;overridden 7 to cancel;whole;NotAuthorised
Activate;closed;whole;NotAuthorised
Activate;authorised 7,cancels 7,activates 7;whole;Ended
Activate;authorised 7,cancels 7,overridden 7 to cancel;whole;Ended
Activate;authorised 7,cancels 7,closed;whole;Ended
Activate;authorised 7,activates 7,overridden 7 to cancel;whole;AlreadyActive
Activate;authorised 7,activates 7,closed;whole;AlreadyActive
Activate;authorised 7,overridden 7 to cancel,closed;whole;Overridden
Activate;booth 2 authorised 7;whole;NotAuthorised
Activate;authorised 8;whole;NotAuthorised
Activate;authorised 7,booth 2 cancels 7;whole;Ok
Activate;authorised 7,booth 2 casts 7;whole;Ok
Activate;authorised 7,casts 7;whole;Ended
Activate;authorised 7,booth 2 activates 7;whole;Ok
Activate;authorised 7,overrides 7 to cancel;whole;Overridden
Activate;authorised 7,overridden 8 to cancel;whole;Ok
Activate;authorised 7,booth 2 closes;whole;Closed
Activate;authorised 7,cancels 8;whole;Ok
Activate;authorised 7;cut;Ok
Activate;authorised 7,overridden 7 to cast;whole;Overridden
Activate;overridden 7 to cast;whole;NotAuthorised
Activate;authorised 7,cancels 7,overridden 7 to cast;whole;Ended
Activate;authorised 7,activates 7,overridden 7 to cast;whole;AlreadyActive
Activate;authorised 7,overridden 7 to cast,closed;whole;Overridden
Activate;authorised 7,challenges 7;whole;Ended
Activate;authorised 7,booth 2 challenges 7;whole;Ok
Activate;authorised 7,overrides 7 to cast;whole;Overridden
Activate;authorised 7,overridden 8 to cast;whole;Ok
Commit;activates 7;whole;Ok
Commit;;whole;NotActive
Commit;activates 7,cancels 7;whole;Ended
Commit;activates 7,commits 7 otherwise;whole;AlreadyCommitted
Commit;activates 7,overridden 7 to cancel;whole;Overridden
Commit;activates 7,closed;whole;Closed
Commit;cancels 7;whole;NotActive
Commit;commits 7 otherwise;whole;NotActive
Commit;overridden 7 to cancel;whole;NotActive
Commit;closed;whole;NotActive
Commit;activates 7,cancels 7,commits 7 otherwise;whole;Ended
Commit;activates 7,cancels 7,overridden 7 to cancel;whole;Ended
Commit;activates 7,cancels 7,closed;whole;Ended
Commit;activates 7,commits 7 otherwise,overridden 7 to cancel;whole;AlreadyCommitted
Commit;activates 7,commits 7 otherwise,closed;whole;AlreadyCommitted
Commit;activates 7,overridden 7 to cancel,closed;whole;Overridden
Commit;booth 2 activates 7;whole;NotActive
Commit;activates 7,booth 2 commits 7;whole;Ok
Commit;activates 7,commits 7;whole;AlreadyCommitted
Commit;activates 7,booth 2 cancels 7;whole;Ok
Commit;activates 7;cut;Ok
Commit;activates 7,overridden 7 to cast;whole;Overridden
Commit;activates 7,commits 7 otherwise,overridden 7 to cast;whole;AlreadyCommitted
Commit;activates 7,overridden 7 to cast,closed;whole;Overridden
Commit;activates 7,challenges 7;whole;Ended
Commit;activates 7,booth 2 challenges 7;whole;Ok
Cast;commits 7;whole;Ok
Cast;;whole;NotCommitted
Cast;commits 7,cancels 7;whole;Ended
Cast;commits 7,overridden 7 to cancel;whole;Overridden
Cast;commits 7,closed;whole;Closed
Cast;commits 7;cut;LogNotWhole
Cast;cancels 7;whole;NotCommitted
Cast;overridden 7 to cancel;whole;NotCommitted
Cast;closed;whole;NotCommitted
Cast;;cut;NotCommitted
Cast;commits 7,cancels 7,overridden 7 to cancel;whole;Ended
Cast;commits 7,cancels 7,closed;whole;Ended
Cast;commits 7,cancels 7;cut;Ended
Cast;commits 7,overridden 7 to cancel,closed;whole;Overridden
Cast;commits 7,overridden 7 to cancel;cut;Overridden
Cast;commits 7,closed;cut;Closed
Cast;booth 2 commits 7;whole;NotCommitted
Cast;commits 7 otherwise;whole;NotCommitted
Cast;commits 7 otherwise,commits 7;whole;Ok
Cast;commits 7,booth 2 cancels 7;whole;Ok
Cast;commits 7,booth 2 casts 7;whole;Ok
Cast;commits 7,casts 7;whole;Ended
Cast;commits 7,overrides 7 to cancel;whole;Overridden
Cast;commits 7,booth 2 closes;whole;Closed
Cast;commits 7,overridden 7 to cast;whole;Ok
Cast;commits 7,overridden 7 to cast,closed;whole;Closed
Cast;commits 7,overridden 7 to cast;cut;LogNotWhole
Cast;commits 7,overridden 7 to cast,overridden 7 to cancel;whole;Overridden
Cast;commits 7,overridden 8 to cancel;whole;Ok
Cast;commits 7,challenges 7;whole;Ended
Cast;commits 7,booth 2 challenges 7;whole;Ok
Challenge;commits 7;whole;Ok
Challenge;;whole;NotCommitted
Challenge;commits 7,cancels 7;whole;Ended
Challenge;commits 7,overridden 7 to cancel;whole;Overridden
Challenge;commits 7,overridden 7 to cast;whole;Overridden
Challenge;commits 7,closed;whole;Closed
Challenge;commits 7;cut;LogNotWhole
Challenge;cancels 7;whole;NotCommitted
Challenge;overridden 7 to cancel;whole;NotCommitted
Challenge;overridden 7 to cast;whole;NotCommitted
Challenge;closed;whole;NotCommitted
Challenge;;cut;NotCommitted
Challenge;commits 7,cancels 7,overridden 7 to cast;whole;Ended
Challenge;commits 7,cancels 7,closed;whole;Ended
Challenge;commits 7,cancels 7;cut;Ended
Challenge;commits 7,overridden 7 to cancel,closed;whole;Overridden
Challenge;commits 7,overridden 7 to cast,closed;whole;Overridden
Challenge;commits 7,overridden 7 to cast;cut;Overridden
Challenge;commits 7,closed;cut;Closed
Challenge;booth 2 commits 7;whole;NotCommitted
Challenge;commits 7 otherwise;whole;NotCommitted
Challenge;commits 7 otherwise,commits 7;whole;Ok
Challenge;commits 7,casts 7;whole;Ended
Challenge;commits 7,challenges 7;whole;Ended
Challenge;commits 7,booth 2 challenges 7;whole;Ok
Challenge;commits 7,overrides 7 to cast;whole;Overridden
Challenge;commits 7,overridden 8 to cast;whole;Ok
Cancel;authorised 7;whole;Ok
Cancel;;whole;NotAuthorised
Cancel;authorised 7,cancels 7;whole;Ended
Cancel;cancels 7;whole;NotAuthorised
Cancel;booth 2 authorised 7;whole;NotAuthorised
Cancel;authorised 7,booth 2 cancels 7;whole;Ok
Cancel;authorised 7,casts 7;whole;Ended
Cancel;authorised 7,overridden 7 to cancel;whole;Ok
Cancel;authorised 7,closed;whole;Ok
Cancel;authorised 7;cut;Ok
Cancel;authorised 7,overridden 7 to cast;whole;CastForced
Cancel;overridden 7 to cast;whole;NotAuthorised
Cancel;authorised 7,cancels 7,overridden 7 to cast;whole;Ended
Cancel;authorised 7,challenges 7;whole;Ended
Cancel;authorised 7,booth 2 challenges 7;whole;Ok
Cancel;authorised 7,overridden 8 to cast;whole;Ok
Cancel;authorised 7,overrides 7 to cast;whole;CastForced
Cancel;authorised 7,overridden 7 to cancel,overridden 7 to cast;whole;CastForced";

#[test]
fn the_first_cause_is_told(rt: HostRuntime) -> Result<(), Fail> {
    for row in ROWS.split('\n') {
        assert!(rt; is_answered(&rt, row)?, "{row}");
    }
    Ok(())
}
