//! The files of logs.
ghost use Rattle.std.specs.Prelude.{map, string_bytes};
ghost use Rattle.evidence.specs.Logs.{GivesLogs};
ghost use Rattle.evidence.specs.Reading.{IsReadFrom};
ghost use Rattle.evidence.specs.inside.Faults.{IsLogFault};

use crate::fault::InputFault;
use hall_outside::Store;
use input_causes::Cause;
use log_files::{EntryWork, LogFault, LogRead, read_log_by};
use roster::Roster;
use std::alloc::Global;
use ways_of_work::Alone;

/// Reads the logs of these names, in their order, and verifies the signatures of their entries
/// under the roster, of the election. An entry that is in several logs is verified once. The
/// first log that is refused ends it, and no file after it is read. No file changes.
///
/// # Errors
///
/// `Absent` where the store said so, `Refused` with the cause `TooLong` or `Header`, `ReadFault`
/// where a read failed, or `Memory`.
pub fn read_logs<S: Store>(
    alloc: Global,
    store: &mut S,
    names: &[String],
    roster: &Roster,
    election: &[u8; 32],
) -> Result<Vec<LogRead>, InputFault>
    ensures { IsReadFrom S.Store (λ logs. logs.items) (map string_bytes names.now)
        (GivesLogs roster.now.machines election.now (map string_bytes names.now))
        store.old result store.new }
{
    read_logs_by(&Alone, alloc, store, names, roster, election)
}

/// The logs of `read_logs`, whose entries are read in this way of work.
///
/// # Errors
///
/// Those of `read_logs`.
pub fn read_logs_by<W: EntryWork, S: Store>(
    work: &W,
    alloc: Global,
    store: &mut S,
    names: &[String],
    roster: &Roster,
    election: &[u8; 32],
) -> Result<Vec<LogRead>, InputFault>
    requires { W.may_share work.now }
    ensures { IsReadFrom S.Store (λ logs. logs.items) (map string_bytes names.now)
        (GivesLogs roster.now.machines election.now (map string_bytes names.now))
        store.old result store.new }
{
    let mut logs = Vec::new(alloc);
    for name in names {
        match read_log_by(
            work,
            alloc,
            store,
            name.as_str(),
            roster,
            election,
            logs.as_slice(),
        ) {
            Ok(log) => logs.push(log)?,
            Err(why) => return Err(log_fault(alloc, name.as_str(), why)),
        }
    }
    Ok(logs)
}

/// The fault of a log that isn't read, of this name.
fn log_fault(alloc: Global, name: &str, fault: LogFault) -> InputFault
    ensures { IsLogFault name.now fault result }
{
    match fault {
        LogFault::Absent => InputFault::absent(alloc, name),
        LogFault::TooLong => InputFault::refused(alloc, name, 0, Cause::TooLong),
        LogFault::Header => InputFault::refused(alloc, name, 0, Cause::Header),
        LogFault::ReadFault => InputFault::ReadFault,
        LogFault::Memory => InputFault::Memory,
    }
}
