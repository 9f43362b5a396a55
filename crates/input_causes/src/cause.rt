//! Why an input is refused, by the kind of the input.
ghost use Rattle.std.specs.Prelude.{◌≡◌, IfOk, string_bytes};
ghost use Rattle.input_causes.specs.Causes.{cause_text, cause_word};

use crate::proof::ProofWhy;
use crate::rules::RuleWhy;
use crate::script::ScriptWhy;
use roster::RosterFault;
use std::alloc::{AllocError, Global};

/// Why an input is refused, by the kind of the input.
#[derive(Clone, Copy, Debug, PartialEq, Eq)]
pub enum Cause {
    Script(ScriptWhy),
    Roster(RosterFault),
    Rules(RuleWhy),
    Proof(ProofWhy),
    /// A file doesn't begin with a log's header.
    Header,
    /// A file is over the limit of its kind.
    TooLong,
    /// A rule is too wide.
    TooWide,
    /// There are too many entries in the logs.
    TooMany,
    /// Two entries with different texts have this digest.
    Collision([u8; 32]),
    /// A word means no entry.
    NoEntry,
    /// An office has this name already.
    Exists,
    /// A file isn't an office's.
    Office,
    /// An office's key is used up.
    Spent,
}

impl Cause {
    /// The cause's word in lines of output.
    pub fn word(self) -> &'static str
        ensures { result.now ≡ cause_word self }
    {
        match self {
            Cause::Script(why) => why.word(),
            Cause::Roster(fault) => fault.word(),
            Cause::Rules(why) => why.word(),
            Cause::Proof(why) => why.word(),
            Cause::Header => "Header",
            Cause::TooLong => "TooLong",
            Cause::TooWide => "TooWide",
            Cause::TooMany => "TooMany",
            Cause::Collision(_) => "Collision",
            Cause::NoEntry => "NoEntry",
            Cause::Exists => "Exists",
            Cause::Office => "Office",
            Cause::Spent => "Spent",
        }
    }

    /// The cause as a line of output has it: its word, and after a space the digest of a collision
    /// in hexadecimal digits.
    pub fn text(self, alloc: Global) -> Result<String, AllocError>
        ensures { IfOk result (λ text. string_bytes text ≡ cause_text self) }
    {
        match self {
            Cause::Collision(digest) => {
                let digits = hex::encode(alloc, digest)?;
                format!(in alloc; "Collision {digits}")
            }
            cause => String::from_str(alloc, cause.word()),
        }
    }
}
