//! Histories in which each cause applies alone, in which each two causes of a row apply together,
//! and in which an entry comes near to a cause. The answers are those of another program.
ghost use Rattle.entry_format.specs.Deeds.{IsDeedOf};
ghost use Rattle.roster.specs.declared.post.Role.TheVariants.{Supervisor};

use crate::histories::{authorise, entries_in, entry_of, override_by};
use entry_format::{Deed, How};
use std::alloc::{AllocError, Global};
use std::test::Fail;
use supervisor_core::SupervisorState;

/// The supervisor's place in the roster.
const OWNER: u32 = 0;

/// The maker and the deed of an entry. Where nobody is named it is the supervisor.
fn event(words: &str) -> (u32, Deed) {
    let ballot = [b'x'; 32];
    match words {
        "opened" => (OWNER, Deed::Opened),
        "closed" => (OWNER, Deed::Closed),
        "authorised 7 at 1" => (OWNER, authorise(1, 7)),
        "authorised 7 at 2" => (OWNER, authorise(2, 7)),
        "authorised 8 at 1" => (OWNER, authorise(1, 8)),
        "overridden 7 to cancel" => (OWNER, override_by(7, How::Cancel)),
        "overridden 7 to cast" => (OWNER, override_by(7, How::Cast)),
        "overridden 8 to cast" => (OWNER, override_by(8, How::Cast)),
        "booth commits 7" => (1, Deed::Commit { session: 7, ballot }),
        "booth commits 8" => (1, Deed::Commit { session: 8, ballot }),
        "booth casts 7" => (1, Deed::Cast { session: 7, ballot }),
        "booth challenges 7" => (1, Deed::Challenge { session: 7, ballot }),
        "booth challenges 8" => (1, Deed::Challenge { session: 8, ballot }),
        "booth cancels 7" => (1, Deed::Cancel { session: 7 }),
        "booth cancels 8" => (1, Deed::Cancel { session: 8 }),
        "booth 2 opens" => (2, Deed::Opened),
        "booth 2 closes" => (2, Deed::Closed),
        "booth 2 authorises 7 at 2" => (2, authorise(2, 7)),
        "booth 2 overrides 7 to cancel" => (2, override_by(7, How::Cancel)),
        "booth 2 overrides 7 to cast" => (2, override_by(7, How::Cast)),
        _ => (2, Deed::Commit { session: 7, ballot }),
    }
}

/// The state of the history that has these entries, in their order.
fn state_of(alloc: Global, history: &[&str]) -> Result<SupervisorState, AllocError> {
    let mut state = SupervisorState::make(alloc, OWNER, history.len())?;
    for words in history {
        state.note(&entry_of(alloc, event(words)));
    }
    Ok(state)
}

/// The answer for the deed after the history, in words.
fn answer(rt: &HostRuntime, history: &str, deed: &Deed) -> Result<String, Fail>
    requires { IsDeedOf Supervisor deed.now }
{
    let history = entries_in(rt.alloc(), history)?;
    let state = state_of(rt.alloc(), history.as_slice())?;
    Ok(match state.may(deed) {
        Ok(()) => String::from_str(rt.alloc(), "Ok")?,
        Err(cause) => format!(in rt.alloc(); "{cause:?}")?,
    })
}

/// The deed of a row.
fn deed_named(word: &str) -> Deed
    ensures { IsDeedOf Supervisor result }
{
    match word {
        "Opened" => Deed::Opened,
        "Authorise" => authorise(1, 7),
        "Override to cancel" => override_by(7, How::Cancel),
        "Override to cast" => override_by(7, How::Cast),
        _ => Deed::Closed,
    }
}

/// Whether the answer is the row's last part.
fn is_answered(rt: &HostRuntime, row: &str) -> Result<bool, Fail> {
    let parts: Vec<&str> = row.split(';').collect(rt.alloc())?;
    let [word, history, want] = parts.as_slice() else {
        return Ok(false);
    };
    let got = answer(rt, history, &deed_named(word))?;
    Ok(got.as_str() == *want)
}

/// The deed, the history before it, and the answer.
const ROWS: &str = "Opened;;Ok
Opened;opened;AlreadyOpened
Opened;booth 2 opens;Ok
Authorise;opened;Ok
Authorise;;NotOpened
Authorise;opened,closed;Closed
Authorise;opened,authorised 7 at 2;SessionUsed
Authorise;opened,authorised 8 at 1;BoothBusy
Authorise;closed;NotOpened
Authorise;authorised 7 at 2;NotOpened
Authorise;authorised 8 at 1;NotOpened
Authorise;opened,closed,authorised 7 at 2;Closed
Authorise;opened,closed,authorised 8 at 1;Closed
Authorise;opened,authorised 7 at 2,authorised 8 at 1;SessionUsed
Authorise;booth 2 opens;NotOpened
Authorise;opened,booth 2 closes;Ok
Authorise;opened,booth 2 authorises 7 at 2;Ok
Authorise;opened,authorised 8 at 1,booth cancels 8;Ok
Authorise;opened,booth cancels 8,authorised 8 at 1;Ok
Authorise;opened,authorised 8 at 1,booth challenges 8;Ok
Authorise;opened,booth challenges 8,authorised 8 at 1;Ok
Authorise;opened,authorised 7 at 1,booth cancels 7;SessionUsed
Override to cancel;authorised 7 at 1;Ok
Override to cancel;;NoSession
Override to cancel;authorised 7 at 1,booth casts 7;SessionEnded
Override to cancel;authorised 7 at 1,overridden 7 to cast;OtherOverride
Override to cancel;booth casts 7;NoSession
Override to cancel;overridden 7 to cast;NoSession
Override to cancel;authorised 7 at 1,booth casts 7,overridden 7 to cast;SessionEnded
Override to cancel;booth 2 authorises 7 at 2;NoSession
Override to cancel;authorised 7 at 1,booth cancels 7;SessionEnded
Override to cancel;booth cancels 7,authorised 7 at 1;SessionEnded
Override to cancel;authorised 7 at 1,booth challenges 7;SessionEnded
Override to cancel;authorised 7 at 1,booth cancels 8;Ok
Override to cancel;authorised 7 at 1,overridden 7 to cancel;Ok
Override to cancel;authorised 7 at 1,overridden 8 to cast;Ok
Override to cancel;authorised 7 at 1,booth 2 overrides 7 to cast;Ok
Override to cast;authorised 7 at 1,booth commits 7;Ok
Override to cast;;NoSession
Override to cast;authorised 7 at 1,booth commits 7,booth casts 7;SessionEnded
Override to cast;authorised 7 at 1,booth commits 7,overridden 7 to cancel;OtherOverride
Override to cast;authorised 7 at 1;NothingCommitted
Override to cast;booth casts 7;NoSession
Override to cast;overridden 7 to cancel;NoSession
Override to cast;booth commits 7;NoSession
Override to cast;authorised 7 at 1,booth commits 7,booth casts 7,overridden 7 to cancel;SessionEnded
Override to cast;authorised 7 at 1,booth casts 7;SessionEnded
Override to cast;authorised 7 at 1,overridden 7 to cancel;OtherOverride
Override to cast;authorised 7 at 1,booth commits 7,booth challenges 7;SessionEnded
Override to cast;authorised 7 at 1,booth 2 commits 7;Ok
Override to cast;authorised 7 at 1,booth commits 8;NothingCommitted
Override to cast;authorised 7 at 1,booth commits 7,overridden 7 to cast;Ok
Override to cast;authorised 7 at 1,booth commits 7,booth 2 overrides 7 to cancel;Ok
Closed;opened;Ok
Closed;;NotOpened
Closed;opened,closed;Closed
Closed;opened,authorised 8 at 1;SessionsLeft
Closed;closed;NotOpened
Closed;authorised 8 at 1;NotOpened
Closed;opened,closed,authorised 8 at 1;Closed
Closed;booth 2 opens;NotOpened
Closed;opened,booth 2 closes;Ok
Closed;opened,authorised 8 at 1,booth cancels 8;Ok
Closed;opened,booth cancels 8,authorised 8 at 1;Ok
Closed;opened,authorised 8 at 1,booth challenges 8;Ok
Closed;opened,authorised 8 at 1,authorised 7 at 2,booth cancels 8;SessionsLeft
Closed;opened,booth 2 authorises 7 at 2;Ok
Closed;opened,authorised 7 at 1,overridden 7 to cancel;SessionsLeft
Closed;opened,authorised 7 at 1,overridden 7 to cast;SessionsLeft
Closed;opened,authorised 7 at 1,booth casts 7;Ok";

#[test]
fn the_first_cause_is_told(rt: HostRuntime) -> Result<(), Fail> {
    for row in ROWS.split('\n') {
        assert!(rt; is_answered(&rt, row)?, "{row}");
    }
    Ok(())
}
