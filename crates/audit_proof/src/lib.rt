//! Proofs of an audit: a text that shows the ancestors of survivors, by which a court checks
//! verdicts without trusting rows, indexes, or whoever made it.
#![tactic(auto)]

mod by_proof;
mod fault;
mod kinds;
mod laws;
mod line;
mod lines;
mod listing;
mod packed;
mod proof;
mod proving;
mod reading;
mod step;
mod steps;
mod tables;
mod whole_text;

pub use by_proof::check;
pub use fault::{CheckFault, ProofFault, Verdict};
pub use input_causes::ProofWhy;
pub use laws::{
    one_text_is_canonical, proofs_are_read_in_one_way, proofs_are_right, proofs_say_no_more,
    texts_of_proofs_are_read, written_proofs_say_all,
};
pub use line::ProofLine;
pub use proof::Proof;
pub use proving::{ProveFault, prove};
pub use step::ProofStep;
pub use whole_text::read_proof;
