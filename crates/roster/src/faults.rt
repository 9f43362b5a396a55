//! Why a text isn't a roster's.
ghost use Rattle.std.specs.Prelude.{◌≡◌};
ghost use Rattle.roster.specs.Reading.{fault_place, fault_word};

use std::alloc::AllocError;
use thiserror::Error;

/// Why a text isn't a roster's, the first cause that applies.
#[derive(Clone, Copy, Debug, PartialEq, Eq, Error)]
pub enum RosterFault {
    /// The place, counted from 0: that of the first byte that is invalid, the length of the text
    /// that other bytes follow, or the length of the input where it ends inside a text.
    #[error("byte {0}: not exactly one canonical text")]
    NotCanonical(usize),
    #[error("the text hasn't the form of a roster")]
    WrongShape,
    #[error("there are more than 16 machines")]
    TooManyMachines,
    #[error("a machine's name isn't 1 to 16 characters from a to z and 0 to 9")]
    BadName,
    #[error("two machines have one name")]
    SameName,
    #[error("there isn't exactly one supervisor")]
    NotOneSupervisor,
    #[error("out of memory")]
    Memory,
}

impl RosterFault {
    /// The fault's word in lines.
    pub fn word(self) -> &'static str
        ensures { result.now ≡ fault_word self }
    {
        match self {
            RosterFault::NotCanonical(_) => "NotCanonical",
            RosterFault::WrongShape => "WrongShape",
            RosterFault::TooManyMachines => "TooManyMachines",
            RosterFault::BadName => "BadName",
            RosterFault::SameName => "SameName",
            RosterFault::NotOneSupervisor => "NotOneSupervisor",
            RosterFault::Memory => "Memory",
        }
    }

    /// The fault's place in lines, counted from 0.
    pub fn place(self) -> u64
        ensures { result ≡ fault_place self }
    {
        match self {
            RosterFault::NotCanonical(at) => at as u64,
            _ => 0,
        }
    }
}

impl From<AllocError> for RosterFault {
    ghost use Rattle.std.specs.Prelude.{◌≡◌};
    ghost use Rattle.roster.specs.declared.faults.RosterFault.TheVariants.{Memory};

    ghost from_gives = { λ _ e. e ≡ Memory };

    fn from(_refused: AllocError) -> RosterFault {
        RosterFault::Memory
    }
}
