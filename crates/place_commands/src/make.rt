// The command `make`: the text of a generated script.
ghost use Rattle.std.specs.Prelude.{◌≡◌, IfOk};
ghost use Rattle.place_commands.specs.Made.{made_answer};
ghost use Rattle.command_line.specs.WordForms.{AreSessions};

use command_line::{Answer, Status};
use election_script::write;
use std::alloc::{AllocError, Global};

/// The answer of `make` for this many sessions.
pub fn make(alloc: Global, sessions: u32) -> Result<Answer, AllocError>
    requires { AreSessions sessions }
    ensures { IfOk result (λ answer. answer ≡ made_answer sessions) }
{
    let script = election_script::make(alloc, sessions)?;
    Ok(Answer::of_text(alloc, Status::Done, write(alloc, &script)?))
}
