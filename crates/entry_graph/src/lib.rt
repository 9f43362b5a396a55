//! The graph of the entries that an auditor goes on: the survivors of those given, numbered, with
//! what each names, and what the auditor reports of them: gaps, strays and forks. The order of
//! entries is Auditorium's (EVT 2007), and rules are judged over such a graph (Querifier, SADFE
//! 2008).
#![tactic(auto)]

mod digest_table;
mod distinct;
mod fault;
mod forks;
mod gaps;
mod graph;
mod links;
mod numbering;
mod set_list;
mod signed_text;
mod strays;

pub use fault::GraphFault;
pub use graph::Graph;
pub use links::Links;
pub use signed_text::SignedText;
