//! Small worlds of machines, computed by the definitions, however slowly: the steps, what was held
//! before, paths of names, frontiers, gaps and strays. Each call's contract is the definition.
#![tactic(auto)]

mod digests;
mod held;
mod history;
mod machine;
mod paths;
mod world;

pub use digests::{ascending, frontier, gaps, is_stray, survivors};
pub use held::held_before;
pub use held_counts::clock;
pub use history::{held_frontier, holds, sent_count};
pub use machine::{Process, Sender};
pub use paths::precedes;
pub use world::{all_sent, play, run, start};
