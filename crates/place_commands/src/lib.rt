//! The commands that play a polling place: `make` writes a script, `play` plays one on one thread, `run`
//! in threads, and `repair` mends the logs before the machines finish. Each answers with what is to be
//! written; nothing is written here.
#![tactic(auto)]

pub mod make;
pub mod play;
pub mod repair;
pub mod run;
mod script_file;
