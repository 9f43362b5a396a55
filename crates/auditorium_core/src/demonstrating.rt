// The command `demo`: what an audit shows of a generated day, of which one log is left, cut.
ghost use Rattle.std.specs.Prelude.{◌≡◌, ℕ, IfOk, codes, map, string_bytes};
ghost use Rattle.election_script.specs.Generated.{generated};
ghost use Rattle.election_script.specs.Lawful.{IsLawful};
ghost use Rattle.polling_world.specs.Keys.{key_of};
ghost use Rattle.auditorium_core.specs.Demonstrated.{IsHalfOf, demonstration_answer};
ghost use Rattle.command_line.specs.Lines.{Answer};
ghost use Rattle.command_line.specs.WordForms.{AreSessions};
ghost use Rattle.auditorium_core.specs.inside.Demonstrating.{IsShown};

use command_line::{Answer, Fault, sessions_of, status_by};
use demonstration::{Demonstration, write_demonstration};
use election_script::Script;
use lms_sign::{LeafWork, LmsSecret};
use polling_world::keys_by;
use std::alloc::{AllocError, Global};

/// Half of the number of sessions, rounded up.
fn half_of(sessions: u32) -> u32
    ensures { IsHalfOf sessions result }
{
    sessions.div_ceil(2)
}

/// The answer of what is shown of this number of sessions.
fn answer_of(alloc: Global, sessions: u32, shown: &Demonstration) -> Result<Answer, AllocError>
    ensures { IfOk result (λ answer. answer ≡ demonstration_answer sessions shown.now) }
{
    let lines = write_demonstration(alloc, sessions, shown)?;
    Ok(Answer::of_text(alloc, status_by(shown.outcome), lines.into_bytes()))
}

/// The answer of what is shown of the script of this number of sessions, whose machines have
/// these keys.
fn answered(
    alloc: Global,
    sessions: u32,
    script: &Script,
    keys: Vec<LmsSecret>,
) -> Result<Answer, Fault>
    requires script { script.now ≡ generated sessions }
    requires lawful { IsLawful script.now }
    requires keys { keys.items ≡ map (key_of script.now) script.now.machines }
    ensures { IsShown sessions result }
{
    match demonstration::demonstrate(alloc, script, keys, half_of(sessions)) {
        Ok(shown) => Ok(answer_of(alloc, sessions, &shown)?),
        Err(fault) => Answer::of_fault(alloc, &fault),
    }
}

/// The answer of `demo` for this many sessions.
pub(crate) fn demonstrate<W: LeafWork>(
    work: &W,
    alloc: Global,
    sessions: u32,
) -> Result<Answer, Fault>
    requires shared { W.may_share work.now }
    requires sessions { AreSessions sessions }
    ensures { IsShown sessions result }
{
    let script = election_script::make(alloc, sessions)?;
    let keys = keys_by(work, alloc, &script)?;
    answered(alloc, sessions, &script, keys)
}
