//! Tests of the public calls of `broadcast_queues` and `log_lock`. They are in a crate of their
//! own, so that what they test isn't proved once more with them.
#![tactic(auto)]

#[cfg(test)]
mod broadcast_queues_tests;
#[cfg(test)]
mod compared_ends_tests;
#[cfg(test)]
mod log_lock_tests;
