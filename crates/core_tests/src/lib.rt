//! Tests of the public calls of `supervisor_core` and `booth_core`. They are in a crate of their
//! own, so that what they test isn't proved once more with them.
#![tactic(auto)]

#[cfg(test)]
mod booth_core_tests;
#[cfg(test)]
mod histories;
#[cfg(test)]
mod supervisor_core_tests;
