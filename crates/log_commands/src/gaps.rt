// The command `gaps`: what one log says, without its signatures.
ghost use Rattle.std.specs.Prelude.{◌≡◌, IfOk, string_bytes};
ghost use Rattle.log_commands.specs.Gaps.{gaps_log_lines, gaps_parts};
ghost use Rattle.command_line.specs.Promise.{IsAnsweredBy};

use command_line::{Answer, Fault};
use hall_outside::Store;
use input_causes::Cause;
use log_files::{LogFault, PlainLog, add_end, add_gaps, add_refused, read_plain_log};
use std::alloc::{AllocError, Global};

/// The answer of `gaps` for the log in this file.
pub fn gaps<S: Store>(alloc: Global, store: &mut S, log: &str) -> Result<Answer, Fault>
    ensures { IsAnsweredBy S.Store (gaps_parts log.now)
        store.old result store.new }
{
    match read_plain_log(alloc, store, log) {
        Ok(plain) => Ok(Answer::findings(alloc, lines_of(alloc, log, &plain)?)),
        Err(LogFault::Absent) => Ok(Answer::absent(alloc, log)?),
        Err(LogFault::TooLong) => Ok(Answer::refused(alloc, log, 0, Cause::TooLong)?),
        Err(LogFault::Header) => Ok(Answer::refused(alloc, log, 0, Cause::Header)?),
        Err(LogFault::ReadFault) => Err(Fault::ReadFault),
        Err(LogFault::Memory) => Err(Fault::Memory),
    }
}

/// The lines of a log: refused records, an end that isn't clean, and gaps.
fn lines_of(alloc: Global, name: &str, log: &PlainLog) -> Result<String, AllocError>
    ensures { IfOk result (λ lines. string_bytes lines ≡ gaps_log_lines name.now log.now) }
{
    let mut lines = String::new(alloc);
    add_refused(&mut lines, name, log.refused.as_slice())?;
    add_end(&mut lines, name, log.end)?;
    let gaps = log_frontier::gaps(alloc, log.kept.as_slice())?;
    add_gaps(alloc, &mut lines, gaps.as_slice())?;
    Ok(lines)
}
