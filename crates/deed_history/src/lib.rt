//! What a history of entries says was done. A history is the list of the entries that a machine
//! holds, sent or received, in the order in which it came to hold them. The definitions are in
//! `specs/`, and lemmas about them in `proofs/`.
#![tactic(auto)]

mod lists;

pub use lists::two_lists;
