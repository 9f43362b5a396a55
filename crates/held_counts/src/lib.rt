//! Whether an entry was held before another was sent, in a world of machines that record what they
//! send and get. It is counted from the histories alone: no digest and no name is looked at.
#![tactic(auto)]

mod counting;
mod recorder;
mod stamps;

pub use counting::held_before;
pub use recorder::Recorder;
pub use stamps::clock;
