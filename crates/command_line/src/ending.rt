// How the program ends with an answer.
ghost use Rattle.command_line.specs.Written.{IsWrittenBy};
ghost use Rattle.command_line.specs.Outside.{outside};
ghost use Rattle.command_line.specs.Ending.{EndsWith};
ghost use Rattle.command_line.specs.Heard.{HasHeard, IsSaid};
ghost use Rattle.command_line.specs.Lines.{refusal_answer};
ghost use Rattle.std.specs.Prelude.{◌≡◌, Ok};

use crate::answer::{Answer, Fault};
use crate::listener::Listener;
use crate::status::Status;
use crate::writing::write_answer;
use hall_outside::{Failed, Sink, Store};

/// Writes the answer, if there is one, and returns how the program ends.
pub fn end_with<S: Store, K: Sink>(
    answer: &Result<Answer, Fault>,
    store: &mut S,
    out: &mut K,
) -> Status
    ensures { EndsWith answer.now
        (λ told ok. IsWrittenBy S.Store K.Sink told store.old out.old ok store.new out.new)
        (outside S.Store K.Sink store.old out.old) result
        (outside S.Store K.Sink store.new out.new) }
{
    match answer {
        Ok(answer) => match write_answer(answer, store, out) {
            Ok(()) => answer.status(),
            Err(Failed) => Status::WriteFault,
        },
        Err(Fault::ReadFault) => Status::ReadFault,
        Err(Fault::Memory) => Status::Memory,
    }
}

/// The same, and the listener hears of the refusal that the answer is, or of the file that isn't
/// there.
pub fn end_heard<S: Store, K: Sink, N: Listener>(
    answer: Result<Answer, Fault>,
    store: &mut S,
    out: &mut K,
    listener: &mut N,
) -> Status
    ensures ended { EndsWith answer
        (λ told ok. IsWrittenBy S.Store K.Sink told store.old out.old ok store.new out.new)
        (outside S.Store K.Sink store.old out.old) result
        (outside S.Store K.Sink store.new out.new) }
    ensures heard { HasHeard N.hears (IsSaid (K.written out.old) result (K.written out.new))
        listener.old listener.new }
{
    let status = end_with(&answer, store, out);
    tell(answer, listener);
    status
}

/// Tells the listener what the answer says of an input, if it says so.
fn tell<N: Listener>(answer: Result<Answer, Fault>, listener: &mut N)
    ensures { HasHeard N.hears (λ refusal. answer ≡ Ok (refusal_answer refusal))
        listener.old listener.new }
{
    if let Ok(answer) = answer {
        if let Some(fault) = answer.into_fault() {
            listener.hear(fault);
        }
    }
}
