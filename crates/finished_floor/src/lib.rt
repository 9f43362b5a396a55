//! What a run in threads comes to. What the threads leave is swept on one thread, and each entry is
//! accounted for: it was heard by each other machine, or is lost on its way there with a cause.
//! In the sweep machines hear what still waits for them, and act until none can.
#![tactic(auto)]

mod filling;
mod finishing;
mod floor;
mod handing;
mod laws;
mod loss;
mod rounds;
mod scripted;
mod sorting;
mod sweeping;

pub use finishing::finish_floor;
pub use floor::{Floor, Gathered};
pub use laws::each_is_heard_or_lost;
pub use loss::{Loss, LossWhy};
pub use scripted::is_scripted;
pub use sweeping::{Waiting, sweep};
