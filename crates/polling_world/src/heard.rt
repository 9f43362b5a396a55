//! What becomes of an entry that a machine hears.
use entry_format::Sealed;

/// What became of an entry that a machine heard; one that isn't taken comes back.
#[derive(Drop)]
pub enum MachineHeard {
    /// It was appended to the log.
    Taken,
    /// The machine has stopped.
    Stopped(Sealed),
    /// The machine made it.
    Own(Sealed),
    /// An entry with its digest is held.
    Already(Sealed),
    /// The log has as many events as it can.
    Full(Sealed),
}
