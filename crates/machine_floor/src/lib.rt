//! The floor: machines in threads, with links between them. Each machine is in a station, behind
//! a lock; its hand sends what the machine is to do, and its ear hears what came over the links.
//! Nothing that was sent is lost without a cause that the station keeps.
#![tactic(auto)]

mod finishing;
mod gathering;
mod laws;
mod making;
mod news;
mod running;
mod station;
mod work;

pub use finished_floor::{Floor, Loss, LossWhy};
pub use floor_links::Links;
pub use laws::link_accounts_for_all;
pub use making::stations;
pub use running::run_floor;
pub use station::Station;
pub use work::work_all;
