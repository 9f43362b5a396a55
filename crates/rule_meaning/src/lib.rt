//! What a rule says of entries, and what is known of it in Kleene's three values by any knowledge
//! of the survivors' order; the laws that a value is right where the knowledge is, and that less
//! knowledge gives the same value or none; and how wide a rule is.
#![tactic(auto)]

pub mod atoms;
pub mod judging;
pub mod kleene;
pub mod knowledge;
mod laws;
pub mod quantifier;
pub mod scene;
pub mod scope;
pub mod terms;
pub mod width;

pub use laws::{less_is_known, rules_are_settled, values_are_right};
