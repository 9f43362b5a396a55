//! Hints: what may help a user whose command line isn't valid, or whose input was refused or isn't
//! there. They are written to standard error, and change nothing else.
#![tactic(auto)]

mod causes;
mod commands;
mod excerpts;
mod findings;
mod hints;
mod nearest;
mod refusals;
mod rule_words;
mod script_words;
mod slips;

pub use hints::{Hint, hint_on, usage_hint};
pub use refusals::{Absence, Explained, Refusal};
pub use slips::Slip;
