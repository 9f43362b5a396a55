//! What the links and the log lock share of the ruled queues below them: which queue it is,
//! and what holds of each view after a step. Definitions and lemmas alone.
#![tactic(auto)]
