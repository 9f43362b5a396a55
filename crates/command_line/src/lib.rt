//! What the programs have in common: the forms of words, statuses, answers, how an answer is written,
//! and how a program ends.
#![tactic(auto)]

mod answer;
mod ending;
mod listener;
mod reports;
mod status;
mod word_forms;
mod writing;

pub use answer::{Answer, Fault, OutputFile};
pub use ending::{end_heard, end_with};
pub use listener::{Listener, Nobody};
pub use reports::{rules_from, status_by};
pub use status::Status;
pub use word_forms::{MAX_LOGS, are_logs, have_form, sessions_of};
