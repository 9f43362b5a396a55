//! The lines of a demonstration.
ghost use Rattle.std.specs.Prelude.{◌≡◌, IfOk, string_bytes};
ghost use Rattle.demonstration.specs.Lines.{demonstration_text};

use crate::shown::Demonstration;
use polling_world::Memory;
use std::alloc::Global;
use std::fmt::Write;

/// The seven lines of a demonstration of that number of sessions.
///
/// # Errors
///
/// Out of memory.
pub fn write_demonstration(
    alloc: Global,
    sessions: u32,
    shown: &Demonstration,
) -> Result<String, Memory>
    ensures { IfOk result (λ lines. string_bytes lines ≡ demonstration_text sessions shown.now) }
{
    let mut lines = String::new(alloc);
    write!(lines, "sessions {sessions}\n")?;
    write!(lines, "entries {}\n", shown.entries)?;
    write!(lines, "survivors {}\n", shown.survivors)?;
    write!(lines, "gaps {}\n", shown.gaps)?;
    write!(lines, "kept {}\n", shown.kept)?;
    write!(lines, "broken {}\n", shown.broken)?;
    write!(lines, "unsettled {}\n", shown.unsettled)?;
    Ok(lines)
}
