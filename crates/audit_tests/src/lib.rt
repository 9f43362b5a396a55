//! Tests of the public calls of `entry_graph`, `log_files`, `evidence` and `demonstration`. They
//! are in a crate of their own, so that what they test isn't proved once more with them.
#![tactic(auto)]

#[cfg(test)]
mod demonstration_tests;
#[cfg(test)]
mod entry_graph_tests;
#[cfg(test)]
mod evidence_tests;
#[cfg(test)]
mod log_files_tests;
#[cfg(test)]
mod sealed_tests;
