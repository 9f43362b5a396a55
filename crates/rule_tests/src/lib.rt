//! Tests of the public calls of `rule_language`, `rule_meaning` and `rule_engine`. They are in a crate of their
//! own, so that what they test isn't proved once more with them.
#![tactic(auto)]

#[cfg(test)]
mod rule_engine_tests;
#[cfg(test)]
mod rule_language_tests;
#[cfg(test)]
mod rule_meaning_tests;
