//! The sessions that haven't ended.
ghost use Rattle.std.specs.Prelude.{◌≡◌, ◌==◌, ◌<◌, ◌≤◌, ◌↔◌, ◌+◌};
ghost use Rattle.std.specs.Prelude.{[], ◌∷◌, ◌++◌, Any, IsTrue, filter, not, length};
ghost use Rattle.std.specs.Prelude.{vec_len, vec_capacity};

/// A session that was authorised and hasn't ended.
#[derive(Clone, Copy)]
pub struct Running {
    /// The booth's place in the roster.
    pub booth: u32,
    pub session: u32,
}

/// Whether the booth has a session.
pub fn is_busy(running: &[Running], booth: u32) -> bool
    ensures { IsTrue result ↔ Any (λ session. session.booth ≡ booth) running.now }
{
    running.iter().any(|session| session.booth == booth)
}

/// Whether a session is left.
pub fn is_any_left(running: &[Running]) -> bool
    ensures { IsTrue result ↔ (0 < length running.now) }
{
    !running.is_empty()
}

/// Takes the session out, at whichever booth it is.
fn take_out(running: &mut Vec<Running>, session: u32)
    ensures items { running.new.items
        ≡ filter (λ one. not (one.session == session)) running.old.items }
    ensures len { vec_len running.new ≤ vec_len running.old }
    ensures capacity { vec_capacity running.new ≡ vec_capacity running.old }
{
    running.retain(|one| one.session != session);
}

/// Notes that the session has ended. It takes no memory.
pub fn end_session(running: &mut Vec<Running>, ended: &mut Vec<u32>, session: u32)
    requires { vec_len ended.old < vec_capacity ended.old }

    // No booth has it any longer.
    ensures running { running.new.items
        ≡ filter (λ one. not (one.session == session)) running.old.items }
    ensures len { vec_len running.new ≤ vec_len running.old }
    ensures capacity { vec_capacity running.new ≡ vec_capacity running.old }

    // It is among those that ended.
    ensures ended { ended.new.items ≡ ended.old.items ++ session ∷ [] }
    ensures ended_len { vec_len ended.new ≡ vec_len ended.old + 1 }
    ensures ended_capacity { vec_capacity ended.old ≤ vec_capacity ended.new }
{
    take_out(running, session);
    ended.push_reserved(session);
}
