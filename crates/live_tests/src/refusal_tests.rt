//! What is refused, and what is said afterwards.
ghost use Rattle.std.specs.Prelude.{◌≡◌};

use crate::places::{Place, add, body_of, place_of, signed_text};
use live_auditor::Live;
use rule_engine::Verdict;
use rule_language::read;
use std::alloc::Global;
use std::test::Fail;

/// Once it is opened, the second rule is too wide for more than 645 activations.
const RULES: &[u8] = b"(rule A true)(rule W (every o opened (every a activate (every b activate \
    (every c activate true)))))";

/// The deed of some entries, with a bar for the session, the first and the last session, what
/// becomes of each entry, and how many survive afterwards. All are the supervisor's, with one
/// number.
const STEPS: &[(&str, u32, u32, &str, usize)] = &[
    ("(8:activate5:|)", 10_000, 10_699, "New", 700),
    ("(6:opened)", 0, 0, "TooWide 1", 700),
    ("(8:activate5:|)", 10_000, 10_000, "Known", 700),
    ("(8:activate5:|)", 10_700, 11_023, "New", 1_024),
    ("(8:activate5:|)", 11_024, 11_024, "TooMany", 1_024),
    ("(6:opened)", 0, 0, "TooMany", 1_024),
    ("(8:activate5:|)", 10_500, 10_500, "Known", 1_024),
];

/// The text of the supervisor's first entry, with this deed in a session.
fn text_of(alloc: Global, place: &Place, deed: &str, session: u32) -> Result<Vec<u8>, Fail> {
    let (front, back) = deed.split_once('|').unwrap_or((deed, ""));
    let session = if back.is_empty() {
        String::new(alloc)
    } else {
        session.to_string(alloc)?
    };
    let fields = format!(in alloc; "1:01:01:1(){front}{session}{back}")?;
    let body = body_of(alloc, &place.election, fields.as_bytes())?;
    let signature = place.supervisor.signature(alloc, &body)?;
    signed_text(alloc, &body, &signature)
}

/// Whether that number survives, the rules are kept, and nothing is missing or astray.
fn is_sound(live: &Live, survivors: usize) -> bool {
    let kept = live
        .verdicts()
        .iter()
        .filter(|verdict| matches!(verdict, Verdict::Kept))
        .count();
    live.survivors() == survivors
        && kept == 2
        && live.gaps().is_empty()
        && live.strays().is_empty()
        && live.forks().len() == 1
}

/// Adds the entry of each session, and answers the first of which something else becomes, or after
/// which something else is said.
fn differs_at(
    alloc: Global,
    place: &Place,
    live: &mut Live,
    row: (&str, u32, u32, &str, usize),
) -> Result<Option<u32>, Fail>
    requires { live.old.machines ≡ place.now.roster.machines }
    ensures { live.new.machines ≡ place.now.roster.machines }
{
    let (deed, first, last, want, survivors) = row;
    for session in first..=last {
        let text = text_of(alloc, place, deed, session)?;
        let became = add(alloc, &place.roster, &place.election, live, &text)?;
        if became.as_str() != want {
            return Ok(Some(session));
        }
    }
    Ok(if is_sound(live, survivors) {
        None
    } else {
        Some(last)
    })
}

#[test]
fn a_refused_entry_changes_nothing(rt: HostRuntime) -> Result<(), Fail> {
    let alloc = rt.alloc();
    let place = place_of(alloc)?;
    let mut live = Live::make(alloc, &place.roster, read(alloc, RULES)?)?;
    for &step in STEPS {
        let differs = differs_at(alloc, &place, &mut live, step)?;
        assert!(rt; differs.is_none(), "{step:?}: {differs:?}");
    }
    Ok(())
}
