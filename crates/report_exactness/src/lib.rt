//! Of a report of the standard rules, unsettled is exact.
#![tactic(auto)]

mod laws;

pub use laws::reports_are_exact;
