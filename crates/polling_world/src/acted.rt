//! What became of a machine's next action.
use booth_core::BoothNot;
use entry_format::Sealed;
use supervisor_core::SupervisorNot;

/// What became of a machine's next action: the first cause against it, or else its entry. Where
/// there is a cause the machine is as it was.
#[derive(Drop)]
pub enum Acted {
    /// It is done. The entry has this number among the machine's, counted from 0, and these are
    /// equal copies of it, one for each receiver.
    Did { number: u32, copies: Vec<Sealed> },
    /// The machine has stopped.
    Stopped,
    /// No action is left.
    NoMore,
    /// The supervisor's rules refuse the action.
    SupervisorNot(SupervisorNot),
    /// The booth's rules refuse the action.
    BoothNot(BoothNot),
    /// The log has as many events as it can.
    Full,
    /// An entry is held with the greatest stamp there is.
    StampSpent,
    /// Each index of the key has signed.
    Spent,
    /// An entry is held that has the digest of the one to be sent.
    SameDigest,
}
