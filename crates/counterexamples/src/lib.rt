//! Why the definitions, the causes and the standard rules are as they are: a small world in which
//! each definition computes, and worlds at which a weaker definition or rule fails. No program
//! uses this crate. Each example is the contract of a function with an empty body.
#![tactic(auto)]

mod orders;
mod rules;

pub use orders::{
    frontier_by_arrival_fails, naming_own_last_fails, strays_by_others_fail, three_machines,
};
pub use rules::{
    casting_over_gaps_fails, closing_over_sessions_fails, looking_for_its_own_booth_fails,
    naming_none_of_its_own_fails, taking_another_booths_session_fails,
};
