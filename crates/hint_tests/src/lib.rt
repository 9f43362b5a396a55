//! Tests of the public calls of `command_hints`. They are in a crate of their own, so that what
//! they test isn't proved once more with them.
#![tactic(auto)]

#[cfg(test)]
mod command_hints_tests;
