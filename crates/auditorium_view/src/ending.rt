//! How the program ends with an answer.
ghost use Rattle.std.specs.Prelude.{map, string_bytes};
ghost use Rattle.auditorium_view.specs.Shown.{HasShown};

use crate::viewing::view;
use command_line::{Answer, Fault, Status, end_with};
use evidence::InputFault;
use hall_outside::{Sink, Store};
use std::alloc::Global;

/// How the program ended, and what it answered, if it did.
#[derive(Drop)]
pub(crate) struct Ended {
    pub status: Status,
    pub answer: Result<Answer, Fault>,
}

/// Does what the words ask for, with these digests of the files.
pub(crate) fn show<S: Store, K: Sink>(
    alloc: Global,
    words: &[String],
    digests: &[Option<[u8; 32]>],
    store: &mut S,
    out: &mut K,
) -> Ended
    ensures { HasShown S.Store K.Sink digests.now (map string_bytes words.now)
        store.old out.old result.status store.new out.new }
{
    let answer = view(alloc, words, digests, store);
    let status = end_with(&answer, store, out);
    Ended { status, answer }
}

impl Ended {
    /// Why an input was refused, or that it isn't there, if the answer says so.
    pub fn fault(&self) -> Option<&InputFault> {
        match &self.answer {
            Ok(answer) => answer.fault(),
            Err(_) => None,
        }
    }
}
