//! The demonstration: a script is played in memory, the log of its first machine is kept alone and
//! cut after the end of a session, and what the standard rules say of the rest is counted.
#![tactic(auto)]

mod kept;
mod laws;
mod lines;
mod shown;

pub use laws::scripts_are_shown_in_one_way;
pub use lines::write_demonstration;
pub use shown::{Demonstration, demonstrate};
