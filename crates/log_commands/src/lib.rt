//! The commands over surviving logs: `audit`, `check`, `gaps`, `order`, `prove` and `watch`, and laws on
//! how their answers agree. Each answers with what is to be written; nothing is written here.
#![tactic(auto)]

pub mod audit;
pub mod check;
mod check_laws;
mod entry_word;
pub mod gaps;
pub mod order;
mod order_word;
mod proof_file;
pub mod prove;
pub mod watch;
mod watch_laws;

pub use check_laws::{checks_agree_with_audits, checks_say_no_more};
pub use watch_laws::{
    honest_watches_break_no_rule, orders_of_logs_end_alike, watches_agree_with_audits,
};
