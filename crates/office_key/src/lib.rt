//! The keys of election offices: what an office's file says, the office's public key, and its
//! signatures, whose numbers rise by one.
#![tactic(auto)]

mod keys;
mod laws;
mod office;
mod reading;
mod writing;

pub use keys::{endorse, endorse_by, public_key, public_key_by};
pub use laws::{cut_texts_are_no_offices, endorsements_are_good, texts_have_one_office};
pub use office::{MAX_SIGNATURES, Office};
pub use reading::read_office;
pub use writing::write_office;
