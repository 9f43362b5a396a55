//! Tests of the public calls of `audit_proof`. They are in a crate of their own, so that what
//! they test isn't proved once more with them.
#![tactic(auto)]

#[cfg(test)]
mod checking_tests;
#[cfg(test)]
mod graphs;
#[cfg(test)]
mod text_tests;
