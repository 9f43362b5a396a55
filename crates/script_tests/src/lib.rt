//! Tests of the public calls of `election_script`. They are in a crate of their own, so that what
//! they test isn't proved once more with them.
#![tactic(auto)]

#[cfg(test)]
mod making_tests;
#[cfg(test)]
mod reading_tests;
#[cfg(test)]
mod writing_tests;
