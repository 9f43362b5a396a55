//! The rows of survivors: what rules see of entries (Querifier, SADFE 2008).
#![tactic(auto)]

mod row;

pub use row::{ShowsSealed, row_of, rows};
