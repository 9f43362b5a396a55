//! What a machine hasn't done of its actions.
ghost use Rattle.std.specs.Prelude.{◌≡◌};
ghost use Rattle.polling_world.specs.CauseWords.{left_why_word};

use booth_core::BoothNot;
use supervisor_core::SupervisorNot;

/// The first action that a machine hasn't done.
#[derive(Clone, Copy)]
pub struct Left {
    /// Its place among the machine's actions, counted from 0.
    pub place: u32,
    /// The first cause against it.
    pub why: LeftWhy,
}

/// Why an action isn't done, the first cause that applies.
#[derive(Clone, Copy)]
pub enum LeftWhy {
    /// The machine has stopped.
    Stopped,
    /// The supervisor's rules refuse it.
    SupervisorNot(SupervisorNot),
    /// The booth's rules refuse it.
    BoothNot(BoothNot),
    /// The log has as many events as it can.
    Full,
    /// An entry is held with the greatest stamp there is.
    StampSpent,
    /// Each index of the key has signed.
    Spent,
    /// Nothing prevents it.
    Ready,
}

impl LeftWhy {
    /// The cause's word in lines of output.
    pub fn word(self) -> &'static str
        ensures { result.now ≡ left_why_word self }
    {
        match self {
            LeftWhy::Stopped => "Stopped",
            LeftWhy::SupervisorNot(why) => why.word(),
            LeftWhy::BoothNot(why) => why.word(),
            LeftWhy::Full => "Full",
            LeftWhy::StampSpent => "StampSpent",
            LeftWhy::Spent => "Spent",
            LeftWhy::Ready => "Ready",
        }
    }
}
