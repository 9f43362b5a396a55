//! Why an input is refused: the causes against each kind of input, and their words in lines of
//! output.
#![tactic(auto)]

mod cause;
mod proof;
mod rules;
mod script;

pub use cause::Cause;
pub use proof::ProofWhy;
pub use rules::RuleWhy;
pub use script::ScriptWhy;
