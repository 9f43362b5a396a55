//! Tests of the public calls of `canonical_sexp`, `hall_outside`, `hall_text` and `roster`. They
//! are in a crate of their own, so that what they test isn't proved once more with them.
#![tactic(auto)]

#[cfg(test)]
mod canonical_sexp_tests;
#[cfg(test)]
mod gate_tests;
#[cfg(test)]
mod hall_outside_tests;
#[cfg(test)]
mod hall_text_tests;
#[cfg(test)]
mod roster_tests;
