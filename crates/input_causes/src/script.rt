//! Why a line of a script is invalid.
ghost use Rattle.std.specs.Prelude.{◌≡◌};
ghost use Rattle.input_causes.specs.Causes.{script_why_word};

use thiserror::Error;

/// Why a line is invalid where it is, numbered in this order from 1.
#[derive(Clone, Copy, Debug, PartialEq, Eq, Error)]
pub enum ScriptWhy {
    #[error("a byte is none from a space to a tilde")]
    NotPlain,
    #[error("a word is none of those that may stand there")]
    UnknownWord,
    #[error("the line comes too early, too late or a second time")]
    OutOfOrder,
    #[error("the line has too few words or too many")]
    WrongCount,
    #[error("a word isn't a number from 0 to 4,294,967,295")]
    BadNumber,
    #[error("a word isn't of lower-case hexadecimal digits, as many as belong there")]
    BadHex,
    #[error("a word hasn't the form of a machine's name")]
    BadName,
    #[error("a machine is named that may not be named again")]
    SameName,
    #[error("no machine has this name")]
    UnknownName,
    #[error("the machine has another role")]
    WrongRole,
    #[error("a number, a seed or the count of such lines is out of its range")]
    OutOfRange,
    #[error("there isn't exactly one supervisor")]
    NotOneSupervisor,
}

impl ScriptWhy {
    /// The cause's word in lines of output.
    pub fn word(self) -> &'static str
        ensures { result.now ≡ script_why_word self }
    {
        match self {
            ScriptWhy::NotPlain => "NotPlain",
            ScriptWhy::UnknownWord => "UnknownWord",
            ScriptWhy::OutOfOrder => "OutOfOrder",
            ScriptWhy::WrongCount => "WrongCount",
            ScriptWhy::BadNumber => "BadNumber",
            ScriptWhy::BadHex => "BadHex",
            ScriptWhy::BadName => "BadName",
            ScriptWhy::SameName => "SameName",
            ScriptWhy::UnknownName => "UnknownName",
            ScriptWhy::WrongRole => "WrongRole",
            ScriptWhy::OutOfRange => "OutOfRange",
            ScriptWhy::NotOneSupervisor => "NotOneSupervisor",
        }
    }
}
