//! What a booth of a polling place may do, and the first cause against it. A history is the list
//! of the entries that the booth holds; the causes are sentences over it in `specs/`.
#![tactic(auto)]

mod commitment;
mod laws;
mod state;

pub use laws::{each_deed_has_one_answer, version_1_has_its_own_answers};
pub use state::{BoothNot, BoothState, Memory};
