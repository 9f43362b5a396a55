//! The page of a report: one HTML document for people who would rather read than parse, with
//! nothing outside itself. It is made in two steps: from a report to rows of cells, section by
//! section, and from these to markup.
#![tactic(auto)]

mod cell;
mod entries;
mod findings;
mod gaps;
mod held;
mod input;
mod machines;
mod names;
mod page;
mod rules;
mod sections;
mod tables;
mod words;

pub use cell::{Cell, TableRow, TableRows, Text};
pub use input::{Input, What};
pub use page::write_page;
pub use rules::Which;
