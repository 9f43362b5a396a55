//! Why an audit ends before it has all that it goes on, as the papers have it.
ghost use Rattle.auditor.specs.AuditFaults.{IsSaidAs};

use evidence::InputFault;
use std::alloc::Global;
use thiserror::Error;

/// Why an audit ends before it has all that it goes on.
#[derive(Debug, Drop, Error)]
pub enum AuditFault {
    /// The named file isn't there.
    #[error("there is no file {0}")]
    Absent(String),
    /// A file, or `entries` for what the logs keep together, is refused.
    #[error("{file} is refused at {place}: {cause}")]
    Refused {
        file: String,
        /// The place in the file, counted from 0, where the cause has one, and 0 where it hasn't.
        place: u64,
        /// The word of the cause, maybe with a digest after it.
        cause: String,
    },
    #[error("a read failed")]
    ReadFault,
    #[error("out of memory")]
    Memory,
}

impl AuditFault {
    /// The fault, with its cause as a line of output has it.
    pub fn of(alloc: Global, fault: InputFault) -> AuditFault
        ensures { IsSaidAs fault result }
    {
        match fault {
            InputFault::Absent(file) => AuditFault::Absent(file),
            InputFault::Refused { file, place, cause } => match cause.text(alloc) {
                Ok(cause) => AuditFault::Refused { file, place, cause },
                Err(_) => AuditFault::Memory,
            },
            InputFault::ReadFault => AuditFault::ReadFault,
            InputFault::Memory => AuditFault::Memory,
        }
    }
}
