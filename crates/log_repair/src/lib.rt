//! Mending logs before the close: machines ask for the entries that they miss, and one that still
//! runs and holds such an entry answers. Each answer is an ordinary receipt, so what the logs show
//! of the order stays proved. Then the machines finish.
#![tactic(auto)]

mod bearer;
mod finishing;
mod laws;
mod repairing;
mod taking;

pub use finishing::finish;
pub use laws::{
    histories_only_grow, mending_is_a_play, mending_is_short, running_machines_are_mended,
    worlds_are_mended_in_one_way,
};
pub use polling_world::Memory;
pub use repairing::repair;
