//! Tests of the public calls of `precedence`, `log_frontier` and `entangled_log`.
//! They are in a crate of their own, so that what they test isn't proved once more with them.
#![tactic(auto)]

#[cfg(test)]
mod entangled_log_tests;
#[cfg(test)]
mod gaps_tests;
#[cfg(test)]
mod log_frontier_tests;
#[cfg(test)]
mod precedence_tests;
#[cfg(test)]
mod shown;
