//! A log whose signatures are verified.
ghost use Rattle.std.specs.Prelude.{◌≡◌, ◌≢◌, ◌+◌, ◌≤◌, ℕ, List, length, MatchOption};
ghost use Rattle.std.specs.Prelude.{IfOk, IfErr, IsErrOf};
ghost use Rattle.std.specs.List.{All};
ghost use Rattle.hall_outside.specs.Counts.{HasCause, ComesExactly};
ghost use Rattle.hall_outside.specs.ReadFile.{OnReadFile};
ghost use Rattle.log_files.specs.LogFile.{max_bytes, IsSealedLogOf, IsLogRefused};
ghost use Rattle.log_files.specs.LogText.{AreLog, HasHeader};
ghost use Rattle.log_files.specs.SealedLog.{AreValid, SaysSealed};
ghost use Rattle.log_files.specs.inside.Fed.{IsWithBreak};
ghost use Rattle.log_files.specs.inside.Found.{IsFound};

use crate::breaks::broke_at;
use crate::feed::read_records;
use crate::found::{EntryWork, Finder, Found, firsts_of, read_each, split_found};
use crate::plain_log::{End, LogFault};
use crate::records::{Records, log_of};
use crate::sealed_reader::SealedReader;
use canonical_sexp::Memory;
use entry_format::{EntryFault, Sealed};
use entry_order::Knot;
use hall_outside::Store;
use roster::Roster;
use std::alloc::Global;
use std::marker::Model;
use ways_of_work::Alone;

/// A record whose entry is valid.
#[derive(Drop)]
pub struct Kept {
    /// The record's place, counted from 0 after the header.
    pub place: u32,
    /// Whether the owner of the log sent the entry, or else got it.
    pub sent: bool,
    pub entry: Sealed,
}

impl Knot for Kept {
    ghost use Rattle.log_files.specs.SealedLog.{node_of_kept};

    ghost node = { node_of_kept };

    fn digest(&self) -> &[u8; 32] {
        Knot::digest(&self.entry)
    }

    fn names(&self) -> &[[u8; 32]] {
        self.entry.names()
    }

    fn maker(&self) -> u32 {
        self.entry.maker()
    }

    fn number(&self) -> u32 {
        self.entry.number()
    }

    fn stamp(&self) -> u32 {
        self.entry.stamp()
    }
}

/// What a log's file says under a roster.
#[derive(Drop)]
pub struct LogRead {
    /// The machine whose log it is, by its place in the roster, which may lack it.
    pub owner: u32,
    /// The records whose entries are valid, in the order of the file.
    pub kept: Vec<Kept>,
    /// The other records: the place of each, counted from 0 after the header, and why.
    pub refused: Vec<(u32, EntryFault)>,
    /// How the file ends.
    pub end: End,
    /// The place of the first kept record at which the kept ones stop being a legal history of the
    /// owner.
    pub broke: Option<u32>,
}

impl Model for LogRead {
    ghost use Rattle.log_files.specs.Logs.{LogRead};

    ghost Value = { LogRead };

    ghost view = { λ log. record {
      owner = log.owner;
      kept = log.kept.items;
      refused = log.refused.items;
      end = log.end;
      broke = log.broke;
    } };
}

/// The log with the place at which its records break.
fn with_break(alloc: Global, log: Records<Kept>) -> Result<LogRead, Memory>
    ensures { IfOk result (IsWithBreak log) }
{
    let broke = broke_at(alloc, log.owner, &log.kept)?;
    Ok(LogRead {
        owner: log.owner,
        kept: log.kept,
        refused: log.refused,
        end: log.end,
        broke,
    })
}

/// What the bytes of a log say by the reader, or `None` where they don't begin with a header.
fn sealed_log_by(
    alloc: Global,
    reader: &SealedReader<'_>,
    bytes: &[u8],
) -> Result<Option<LogRead>, Memory>
    requires { length bytes.now ≤ max_bytes }
    ensures { IfOk result (λ found. MatchOption found (HasHeader bytes.now → ⊥)
        (λ log. SaysSealed reader.now.machines reader.now.election bytes.now log)) }
{
    match log_of(alloc, reader, bytes)? {
        Some(log) => Ok(Some(with_break(alloc, log)?)),
        None => Ok(None),
    }
}

/// What the bytes of a log say under the roster, of the election, or `None` where they don't begin
/// with a header. They are at most 67,108,864.
pub fn sealed_log_of(
    alloc: Global,
    roster: &Roster,
    election: &[u8; 32],
    bytes: &[u8],
) -> Result<Option<LogRead>, Memory>
    requires { length bytes.now ≤ max_bytes }
    ensures { IfOk result (λ found. MatchOption found (HasHeader bytes.now → ⊥)
        (λ log. SaysSealed roster.now.machines election.now bytes.now log)) }
{
    let reader = SealedReader::make(alloc, roster, election, &[])?;
    sealed_log_by(alloc, &reader, bytes)
}

/// Reads a log's file, and verifies the signatures of its entries under the roster. No file
/// changes.
///
/// # Errors
///
/// `Absent` and `TooLong` where the store said so, `Header` where the file doesn't begin with a
/// header, `ReadFault` where a read failed, or `Memory`.
pub fn read_log<S: Store>(
    alloc: Global,
    store: &mut S,
    name: &str,
    roster: &Roster,
    election: &[u8; 32],
) -> Result<LogRead, LogFault>
    // The log is what each file says that is such as was read, and so is a refusal. The file is read
    // to its end, or to the first byte past the limit.
    ensures ok { IfOk result (λ log. OnReadFile S.Store name.now max_bytes
        (IsSealedLogOf roster.now.machines election.now log) store.old store.new) }
    ensures err { IfErr result (λ fault. fault ≢ LogFault.Memory →
        OnReadFile S.Store name.now max_bytes (IsLogRefused fault) store.old store.new) }

    // Absent and TooLong come exactly when the store said so in this call, ReadFault only so.
    ensures absent { ComesExactly (S.answered store.old).absences (S.answered store.new).absences
        (IsErrOf result LogFault.Absent) }
    ensures absences { (S.answered store.old).absences ≤ (S.answered store.new).absences }
    ensures too_long { ComesExactly ((S.answered store.old).bytes + max_bytes)
        (S.answered store.new).bytes (IsErrOf result LogFault.TooLong) }
    ensures read_fault { HasCause (S.read_faults store.old) (S.read_faults store.new)
        (IsErrOf result LogFault.ReadFault) }

    ensures unchanged { (S.files store.new ≡ S.files store.old)
        × (S.write_faults store.new ≡ S.write_faults store.old) }
{
    read_log_by(&Alone, alloc, store, name, roster, election, &[])
}

/// Reads a log's file as `read_log` does, its entries in this way of work. The signature of an
/// entry isn't verified again where an entry of the same text was kept of a log that was read
/// before.
///
/// # Errors
///
/// Those of `read_log`.
pub fn read_log_by<W: EntryWork, S: Store>(
    work: &W,
    alloc: Global,
    store: &mut S,
    name: &str,
    roster: &Roster,
    election: &[u8; 32],
    before: &[LogRead],
) -> Result<LogRead, LogFault>
    requires shared { W.may_share work.now }
    requires before { All (λ log. AreValid roster.now.machines election.now log.kept) before.now }
    // The log is what each file says that is such as was read, and so is a refusal. The file is read
    // to its end, or to the first byte past the limit.
    ensures ok { IfOk result (λ log. OnReadFile S.Store name.now max_bytes
        (IsSealedLogOf roster.now.machines election.now log) store.old store.new) }
    ensures err { IfErr result (λ fault. fault ≢ LogFault.Memory →
        OnReadFile S.Store name.now max_bytes (IsLogRefused fault) store.old store.new) }

    // So it may be among those that were read before.
    ensures valid { IfOk result (λ log.
        AreValid roster.now.machines election.now log.kept) }

    // Absent and TooLong come exactly when the store said so in this call, ReadFault only so.
    ensures absent { ComesExactly (S.answered store.old).absences (S.answered store.new).absences
        (IsErrOf result LogFault.Absent) }
    ensures absences { (S.answered store.old).absences ≤ (S.answered store.new).absences }
    ensures too_long { ComesExactly ((S.answered store.old).bytes + max_bytes)
        (S.answered store.new).bytes (IsErrOf result LogFault.TooLong) }
    ensures read_fault { HasCause (S.read_faults store.old) (S.read_faults store.new)
        (IsErrOf result LogFault.ReadFault) }

    ensures unchanged { (S.files store.new ≡ S.files store.old)
        × (S.write_faults store.new ≡ S.write_faults store.old) }
{
    let reader = match SealedReader::make(alloc, roster, election, before) {
        Ok(reader) => reader,
        Err(_) => return Err(LogFault::Memory),
    };
    match read_records(alloc, store, name, &Finder { reader: &reader }) {
        Ok(log) => match unsealed(work, alloc, &reader, log) {
            Ok(log) => Ok(log),
            Err(_) => Err(LogFault::Memory),
        },
        Err(fault) => Err(fault),
    }
}

/// The log whose records were found, with their entries.
fn unsealed<W: EntryWork>(
    work: &W,
    alloc: Global,
    reader: &SealedReader<'_>,
    log: Records<Found>,
) -> Result<LogRead, Memory>
    requires { W.may_share work.now }
    ensures { IfOk result (λ sealed. (bytes : List ℕ) →
        AreLog (IsFound reader.now.machines reader.now.election) bytes log.owner
        log.kept.items log.refused.items log.end →
        SaysSealed reader.now.machines reader.now.election bytes sealed) }
{
    let Records {
        owner,
        kept: mut found,
        refused: early,
        end,
    } = log;
    let firsts = firsts_of(alloc, found.as_slice())?;
    read_each(work, alloc, reader, firsts.as_slice(), found.as_mut_slice());
    let (kept, refused) = split_found(alloc, found, &early)?;
    with_break(
        alloc,
        Records {
            owner,
            kept,
            refused,
            end,
        },
    )
}
