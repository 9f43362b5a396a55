//! Of the standard rules, unsettled is exact.
#![tactic(auto)]

mod laws;

pub use laws::{p3_has_an_exact_form, standard_rules_are_exact, two_sided_rules_are_exact};
