//! Laws of honest polling places, where machines follow the rules of their roles. What is left of
//! their logs, cut or removed, is read as what the machines did, and accuses nobody; each log is
//! within the limit of a log's file; each standard rule holds of what the machines sent, whichever
//! entries survive; and no audit accuses anybody. Each law is the contract of a function with an
//! empty body.
#![tactic(auto)]

mod files;
mod lengths;
mod log_laws;
mod report_laws;
mod rule_laws;

pub use files::{
    files_of_a_script_are_honestly_read, left_files_give_their_logs,
    left_logs_give_an_honest_graph, rosters_of_scripts_are_read, whole_logs_show_distinct,
    worlds_of_scripts_are_honest, written_logs_are_of_their_world,
};
pub use lengths::{a_machine_names_each_digest_once, honest_logs_are_within_their_limit};
pub use log_laws::{
    answers_show_distinct, cut_headers_are_none, scripts_lead_to_honest_worlds,
    what_is_left_agrees, what_is_left_is_read,
};
pub use report_laws::{
    honest_audits_are_refused_only_so, honest_places_have_honest_reports,
    honest_places_keep_the_standard_rules, unsettled_rules_of_honest_places_are_open,
    whole_audits_show_distinct,
};
pub use rule_laws::{
    honest_audits_say_kept, honest_entries_have_no_early_end, honest_entries_keep_the_rules,
    honesty_is_of_histories, scripts_lead_to_honest_places, standard_rules_are_narrow,
};
