//! The machines of a polling place: each keeps its log, and does what its script says where the
//! rules of its role allow it (VoteBox, USENIX Security 2008; Auditorium, EVT 2007).
#![tactic(auto)]

mod acted;
mod heard;
mod keys;
mod laws;
mod left;
mod machine;
mod merging;
mod parts;
mod playing;
mod rules;
mod stepped;
mod steps;
mod world;

pub use acted::Acted;
pub use heard::MachineHeard;
pub use keys::{key_of, keys_by, keys_of, roster_of};
pub use laws::{
    one_function_tells_what_is_sent, scripts_are_played_in_one_way, what_is_left_is_told_in_one_way,
};
pub use left::{Left, LeftWhy};
pub use machine::{Machine, Memory};
pub use merging::merge;
pub use playing::play;
pub use stepped::Stepped;
pub use world::World;
