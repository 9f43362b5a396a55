//! The words and lines of the texts that people write by hand: scripts and rules. Each reader says
//! exactly what it accepts, and what it doesn't.
#![tactic(auto)]

mod spans;
mod words;

pub use spans::{Memory, Span, lines, token_end, tokens};
pub use words::{decimal, digest_hex};
