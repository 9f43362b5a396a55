//! An audit that goes on while entries come: after each of them the survivors, the gaps, the
//! strays, the forks and a verdict on each rule, whatever the order in which they came.
#![tactic(auto)]

mod appended;
mod base;
mod borrowed;
mod digests;
mod fresh;
mod growth;
mod late;
mod laws;
mod live;
mod seen;
mod summary;
mod survivors;
mod widths;

pub use digests::same_digest;
pub use fresh::{Fresh, LiveFault};
pub use laws::orders_give_one_summary;
pub use live::{Live, Memory};
