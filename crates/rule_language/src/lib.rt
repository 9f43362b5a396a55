//! Rules over the order of entries, in the manner of Querifier (Sandler, Derr, Crosby and Wallach,
//! SADFE 2008): formulas with quantifiers over entries, read from a text that an official can write
//! and refused by place and cause, and the standard rules.
#![tactic(auto)]

mod atoms;
mod faults;
mod form;
mod formula;
mod formulas;
mod kind;
mod laws;
mod quantifier;
mod reading;
mod row;
mod rules;
mod scope;
mod standard_text;
mod term;
mod tokens;
mod words;
mod writing;

pub use faults::RuleFault;
pub use form::Form;
pub use formula::{Formula, Rule};
pub use input_causes::RuleWhy;
pub use kind::{Field, Kind};
pub use laws::{one_reading_is_right, texts_of_rules_are_read, written_rules_are_read_back};
pub use row::Row;
pub use rules::read;
pub use standard_text::{STANDARD, standard, the_standard_text_is_written};
pub use term::Term;
pub use writing::{Memory, write};
