//! Why the system failed, for the program to report.

use std::alloc::Global;
use std::fmt::{self, Display, Formatter};
use std::io::{self, ErrorKind};

/// A call of the system that failed: what was being done, with which file, and the system's reason.
/// It is displayed as `reading day.sv.log failed: Permission denied (os error 13)`.
#[derive(Drop)]
pub struct Failure {
    doing: &'static str,
    name: String,
    reason: io::Error,
}

impl Failure {
    /// `None` where there is no memory for the name.
    pub(crate) fn new(
        alloc: Global,
        doing: &'static str,
        name: &str,
        reason: io::Error,
    ) -> Option<Failure> {
        match String::from_str(alloc, name) {
            Ok(name) => Some(Failure {
                doing,
                name,
                reason,
            }),
            Err(_) => None,
        }
    }

    /// Whether nobody reads any longer what was being written. Good tools are silent on that.
    pub fn is_broken_pipe(&self) -> bool {
        self.reason.kind() == ErrorKind::BrokenPipe
    }
}

impl Display for Failure {
    fn fmt<W: fmt::Write>(&self, f: &mut Formatter<W>) -> fmt::Result {
        write!(f, "{} {} failed: {}", self.doing, self.name, self.reason)
    }
}
