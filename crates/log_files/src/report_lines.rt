//! Lines that several reports on logs have: refused records, ends that aren't clean, and gaps. Each
//! call adds its lines after those that are there, and takes memory for them.
ghost use Rattle.std.specs.Prelude.{◌≡◌, ◌++◌, OnOk, string_bytes};
ghost use Rattle.log_files.specs.Lines.{refused_lines, end_line, gap_lines};

use crate::plain_log::End;
use entry_format::EntryFault;
use std::alloc::{AllocError, Global};
use std::fmt::Write;

/// Adds a line for each refused record of the log with this name.
pub fn add_refused(
    lines: &mut String,
    name: &str,
    refused: &[(u32, EntryFault)],
) -> Result<(), AllocError>
    ensures { OnOk result (string_bytes lines.new
        ≡ string_bytes lines.old ++ refused_lines name.now refused.now) }
{
    for (place, fault) in refused {
        let cause = fault.word();
        write!(lines, "refused {name} {place} {cause}\n")?;
    }
    Ok(())
}

/// Adds a line for an end that isn't clean.
pub fn add_end(lines: &mut String, name: &str, end: End) -> Result<(), AllocError>
    ensures { OnOk result
        (string_bytes lines.new ≡ string_bytes lines.old ++ end_line name.now end) }
{
    match end {
        End::Clean => Ok(()),
        End::Torn(at) => write!(lines, "torn {name} {at}\n"),
        End::Malformed(at, why) => {
            let cause = why.word();
            write!(lines, "malformed {name} {at} {cause}\n")
        }
    }
}

/// Adds a line for each gap.
pub fn add_gaps(alloc: Global, lines: &mut String, digests: &[[u8; 32]]) -> Result<(), AllocError>
    ensures { OnOk result
        (string_bytes lines.new ≡ string_bytes lines.old ++ gap_lines digests.now) }
{
    for digest in digests {
        let digits = hex::encode(alloc, *digest)?;
        write!(lines, "gap {digits}\n")?;
    }
    Ok(())
}
