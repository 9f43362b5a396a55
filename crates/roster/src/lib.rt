//! The roster of a polling place: its machines with their roles and public keys. A roster has one
//! text, and every text that isn't a roster's is refused by the first fault that applies.
#![tactic(auto)]

mod faults;
mod laws;
mod post;
mod reading;
mod rosters;
mod writing;

pub use faults::RosterFault;
pub use laws::{one_reading_is_right, texts_have_one_roster};
pub use post::{Name, Post, Role, is_name};
pub use rosters::{MAX_MACHINES, Memory, Posts, Roster, election};
