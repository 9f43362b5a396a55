//! Hints on a command that wasn't carried out.
ghost use Rattle.std.specs.Prelude.{◌≡◌, is_some};
ghost use Rattle.evidence.specs.Refusal.{refusal_of};

use crate::refusals::{Absence, Refusal};
use crate::slips::{Slip, slip_in};
use evidence::InputFault;
use std::alloc::Global;
use std::fmt::{self, Display, Formatter};

/// What may help the user of a command that wasn't carried out. It is displayed in whole lines.
#[derive(Clone, Copy)]
pub enum Hint<'a> {
    /// The command line isn't valid.
    Usage(Slip<'a>),
    /// An input was refused.
    Refused(Refusal<'a>),
    /// A named file isn't there.
    Absent(Absence<'a>),
}

/// The hint on an input that was refused, or isn't there, for the words after the program's name.
/// The words are those of `auditorium`, or of another program as `auditorium` has them. A failed
/// read, and running out of memory, have none.
pub fn hint_on<'a>(
    program: &'static str,
    words: &[String],
    fault: &'a InputFault,
) -> Option<Hint<'a>>
    ensures { is_some result ≡ is_some (refusal_of fault.now) }
{
    match fault {
        InputFault::Absent(file) => Some(Hint::Absent(Absence::of(program, words, file.as_str()))),
        InputFault::Refused { file, place, cause } => Some(Hint::Refused(Refusal::of(
            program,
            words,
            file.as_str(),
            *place,
            *cause,
        ))),
        InputFault::ReadFault | InputFault::Memory => None,
    }
}

/// The hint on a command line that isn't valid, for the words after the program's name, which are
/// `None` where one isn't text.
pub fn usage_hint<'a>(alloc: Global, words: Option<&'a [String]>) -> Hint<'a> {
    Hint::Usage(slip_in(alloc, words))
}

impl<'a> Display for Hint<'a> {
    fn fmt<W: fmt::Write>(&self, f: &mut Formatter<W>) -> fmt::Result {
        match *self {
            Hint::Usage(slip) => write!(f, "{slip}"),
            Hint::Refused(refusal) => write!(f, "{refusal}"),
            Hint::Absent(absence) => write!(f, "{absence}"),
        }
    }
}
