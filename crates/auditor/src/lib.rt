//! The auditor: what the logs that survive say of a polling place, with a verdict on each rule
//! (Querifier, SADFE 2008).
#![tactic(auto)]

mod auditing;
mod fault;
mod laws;
mod lines;
mod outcome;
mod report;

pub use auditing::{RulesFrom, audit, audit_by, audit_logs, read_rules};
pub use evidence::InputFault;
pub use fault::AuditFault;
pub use laws::{files_give_one_report, plain_rules};
pub use outcome::{Outcome, outcome_of};
pub use report::{Report, write_report};
pub use survivor_rows::{ShowsSealed, rows};
