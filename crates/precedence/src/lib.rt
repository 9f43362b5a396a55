//! Which of two nodes of a graph is before the other, at once, after one pass over the graph: the
//! ancestors of each node are a row of bits, united from its parents' rows. What isn't known of the
//! order is `Unknown`, the third of Kleene's values.
#![tactic(auto)]

mod arrows;
mod bits;
mod building;
mod lanes;
mod table;

pub use arrows::Arrows;
pub use entry_order::Three;
pub use lanes::unite;
pub use table::{Memory, Rows};
