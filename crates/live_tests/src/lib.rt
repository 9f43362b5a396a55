//! Tests of the public calls of `live_auditor`. They are in a crate of their own, so that what
//! they test isn't proved once more with them.
#![tactic(auto)]

#[cfg(test)]
mod order_tests;
#[cfg(test)]
mod places;
#[cfg(test)]
mod refusal_tests;
