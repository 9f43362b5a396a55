//! Why a token of a text of rules isn't allowed.
ghost use Rattle.std.specs.Prelude.{◌≡◌};
ghost use Rattle.input_causes.specs.Causes.{rule_why_word};

use thiserror::Error;

/// Why a token isn't allowed where it is, numbered in this order from 1.
#[derive(Clone, Copy, Debug, PartialEq, Eq, Error)]
pub enum RuleWhy {
    #[error("a byte is no token and separates none")]
    Token,
    #[error("something else has to stand there")]
    Shape,
    #[error("a word names no kind of entries")]
    UnknownKind,
    #[error("a rule has this name already, or the variable is bound already")]
    SameName,
    #[error("the variable is free")]
    Unbound,
    #[error("the kind hasn't this field, or the terms can't be compared")]
    WrongField,
    #[error("over 32 parentheses are open, or over 4 quantifiers")]
    TooDeep,
}

impl RuleWhy {
    /// The cause's word in reports: as the variant is spelt.
    pub fn word(self) -> &'static str
        ensures { result.now ≡ rule_why_word self }
    {
        match self {
            RuleWhy::Token => "Token",
            RuleWhy::Shape => "Shape",
            RuleWhy::UnknownKind => "UnknownKind",
            RuleWhy::SameName => "SameName",
            RuleWhy::Unbound => "Unbound",
            RuleWhy::WrongField => "WrongField",
            RuleWhy::TooDeep => "TooDeep",
        }
    }
}
