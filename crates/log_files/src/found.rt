//! Reading a log whose records are found first, and whose entries are unsealed then.
ghost use Rattle.std.specs.Prelude.{◌≡◌, ◌≢◌, ◌<◌, ℕ, List, Result, IfOk, IfErr, OnOk, Err};
ghost use Rattle.std.specs.Prelude.{IsTrue, length, slice_index_or};
ghost use Rattle.canonical_sexp.specs.Text.{text_of};
ghost use Rattle.entry_format.specs.declared.plain.EntryFault.{EntryFault};
ghost use Rattle.log_files.specs.declared.sealed_log.Kept.{Kept};
ghost use Rattle.log_files.specs.inside.Found.{
  AddsReading,
  AreReadBy,
  AreSplit,
  IsKnownBy,
  IsReadBy,
  IsWoven,
  RecordText,
  StayReadBy,
};
ghost use Rattle.log_files.specs.SealedLog.{IsReadSealed};
ghost use Rattle.entry_format.specs.Unsealing.{IsValid};
ghost use Rattle.roster.specs.declared.post.Post.{Post};

use crate::places::{Places, digest_of};
use crate::records::ReadEntry;
use crate::sealed_log::Kept;
use crate::sealed_reader::{SealedReader, key_of};
use canonical_sexp::{Memory, Text, whole_text};
use entry_format::{EntryFault, Sealed};
use std::alloc::{AllocError, Global};
use std::mem;
use std::thread::Threads;
use ways_of_work::{Alone, InThreads, Work, each_in_threads, each_in_turn};

// The bytes of the shortest signature, that of W8 at height 5.
const SHORTEST: usize = 1292;

/// The record of an entry, and what the entry's text is read as.
#[derive(Drop)]
pub struct Found {
    /// The record's place, counted from 0 after the header.
    pub(crate) place: u32,
    /// Whether the owner of the log sent the entry.
    pub(crate) sent: bool,
    /// The maker and the number in the entry, if they are there.
    pub(crate) key: Option<(u32, u32)>,
    /// The text of the entry, until it is read. That of a known entry isn't copied.
    pub(crate) text: Vec<u8>,
    /// What the text is read as; running out of memory stands for not yet.
    pub(crate) reading: Result<Kept, EntryFault>,
}

/// Finds the records of entries. A known entry is read at once, and so is a text that is shorter
/// than any signature, so that many short ones, which are all refused, take no room.
#[derive(Clone, Copy)]
pub(crate) struct Finder<'a, 'b> {
    pub(crate) reader: &'b SealedReader<'a>,
}

impl ReadEntry for Finder<'_, '_> {
    type Kept = Found;

    ghost use Rattle.log_files.specs.inside.Found.{IsFound};

    ghost reads = { λ s. IsFound s.reader.now.machines s.reader.now.election };

    fn read(
        &self,
        alloc: Global,
        place: u32,
        sent: bool,
        entry: &Text<'_>,
    ) -> Result<Found, EntryFault> {
        if let Some(known) = self.reader.known(entry) {
            return found_known(alloc, place, sent, known);
        }
        if entry.bytes().len() < SHORTEST {
            match self.reader.read(alloc, place, sent, entry) {
                Ok(_) => {}
                Err(fault) => return Err(fault),
            }
        }
        found_of(alloc, place, sent, entry)
    }
}

/// The record of a known entry.
fn found_known(alloc: Global, place: u32, sent: bool, known: &Sealed) -> Result<Found, EntryFault>
    ensures value { IfOk result (λ found. (machines : List Post) (election text : List ℕ) →
        IsValid machines election text known.now → IsReadBy machines election
        (record { place = place; sent = sent; text = text }) found) }
    ensures memory { IfErr result (λ fault. fault ≡ EntryFault.Memory) }
{
    match kept_again(alloc, place, sent, known) {
        Ok(kept) => Ok(Found {
            place,
            sent,
            key: None,
            text: Vec::new(alloc),
            reading: Ok(kept),
        }),
        Err(fault) => Err(fault),
    }
}

/// The record with a copy of the entry's text, which isn't read.
fn found_of(alloc: Global, place: u32, sent: bool, entry: &Text<'_>) -> Result<Found, EntryFault>
    ensures value { IfOk result (λ found. (found.place ≡ place) × (found.sent ≡ sent)
        × (found.text.items ≡ text_of entry.now) × (found.reading ≡ Err EntryFault.Memory)) }
    ensures memory { IfErr result (λ fault. fault ≡ EntryFault.Memory) }
{
    let mut text = Vec::new(alloc);
    match text.extend_from_slice(entry.bytes()) {
        Ok(()) => Ok(Found {
            place,
            sent,
            key: key_of(entry),
            text,
            reading: Err(EntryFault::Memory),
        }),
        Err(_) => Err(EntryFault::Memory),
    }
}

/// Whether the entry of the record isn't read yet.
fn is_unread(found: &Found) -> bool
    ensures { IsTrue result → found.now.reading ≡ Err EntryFault.Memory }
{
    match &found.reading {
        Ok(_) => false,
        Err(fault) => matches!(fault, EntryFault::Memory),
    }
}

/// Reads the entry of a record, unless it is read or another stands before it with its text.
fn read_first(
    alloc: Global,
    reader: &SealedReader<'_>,
    firsts: &[usize],
    at: usize,
    found: &mut Found,
)
    ensures { (said : RecordText) →
        IsReadBy reader.now.machines reader.now.election said found.old →
        IsReadBy reader.now.machines reader.now.election said found.new }
{
    if !is_unread(found) {
        return;
    }
    match firsts.get(at) {
        Some(first) if *first != at => {}
        _ => read_now(alloc, reader, found),
    }
}

/// Reads the entry of a record that isn't read yet. A valid one takes the record's text.
fn read_now(alloc: Global, reader: &SealedReader<'_>, found: &mut Found)
    requires { found.old.reading ≡ Err EntryFault.Memory }
    ensures { (said : RecordText) →
        IsReadBy reader.now.machines reader.now.election said found.old →
        IsReadBy reader.now.machines reader.now.election said found.new }
{
    let text = mem::replace(&mut found.text, Vec::new(alloc));
    match reader.read_vec(alloc, found.place, found.sent, text) {
        Ok(kept) => found.reading = Ok(kept),
        Err(refused) => {
            found.text = refused.text;
            found.reading = Err(refused.fault);
        }
    }
}

/// Puts down what the text of the entry is read as, and lets the text of a valid one go.
fn put_reading(alloc: Global, found: &mut Found, reading: Result<Kept, EntryFault>)
    ensures same { (found.new.place ≡ found.old.place) × (found.new.sent ≡ found.old.sent) }
    ensures reading { found.new.reading ≡ reading }
    ensures text { IfErr reading (λ _. found.new.text.items ≡ found.old.text.items) }
{
    if reading.is_ok() {
        found.text = Vec::new(alloc);
    }
    found.reading = reading;
}

/// What the text of the entry is read as.
fn reading_of(alloc: Global, reader: &SealedReader<'_>, found: &Found) -> Result<Kept, EntryFault>
    ensures { result ≢ Err EntryFault.Memory → IsReadSealed reader.now.machines
        reader.now.election found.now.place found.now.sent found.now.text.items result }
{
    match whole_text(&found.text) {
        Ok(text) => reader.read(alloc, found.place, found.sent, &text),
        Err(_) => Err(EntryFault::NotCanonical),
    }
}

/// What the text of the entry is read as after that of another record.
fn reading_after(
    alloc: Global,
    reader: &SealedReader<'_>,
    first: &Found,
    found: &Found,
) -> Result<Kept, EntryFault>
    ensures { IsKnownBy reader.now.machines reader.now.election first.now.text.items
        first.now.reading → result ≢ Err EntryFault.Memory → IsReadSealed reader.now.machines
        reader.now.election found.now.place found.now.sent found.now.text.items result }
{
    match &first.reading {
        Ok(kept) if kept.entry.text() == found.text.as_slice() => {
            kept_again(alloc, found.place, found.sent, &kept.entry)
        }
        Err(fault) if first.text.as_slice() == found.text.as_slice() => Err(*fault),
        _ => reading_of(alloc, reader, found),
    }
}

/// The record of an entry that is kept of another record.
fn kept_again(alloc: Global, place: u32, sent: bool, entry: &Sealed) -> Result<Kept, EntryFault>
    ensures value { IfOk result (λ kept.
        (kept.place ≡ place) × (kept.sent ≡ sent) × (kept.entry ≡ entry.now)) }
    ensures memory { IfErr result (λ fault. fault ≡ EntryFault.Memory) }
{
    match entry.copy(alloc) {
        Ok(entry) => Ok(Kept { place, sent, entry }),
        Err(_) => Err(EntryFault::Memory),
    }
}

/// What the text of the record at this place is read as, after the first one with it.
fn reading_at(
    alloc: Global,
    reader: &SealedReader<'_>,
    found: &[Found],
    firsts: &[usize],
    at: usize,
) -> Result<Kept, EntryFault>
    requires { at < length found.now }
    ensures { (said : List RecordText) →
        AreReadBy reader.now.machines reader.now.election said found.now →
        (d : Found) → result ≢ Err EntryFault.Memory → IsReadSealed reader.now.machines
        reader.now.election (slice_index_or found.now at d).place
        (slice_index_or found.now at d).sent (slice_index_or found.now at d).text.items result }
{
    let record = &found[at];
    match firsts.get(at) {
        Some(first) if *first < found.len() => {
            reading_after(alloc, reader, &found[*first], record)
        }
        _ => reading_of(alloc, reader, record),
    }
}

/// Whether the entry of the record at this place isn't read yet.
fn is_unread_at(found: &[Found], at: usize) -> bool
    requires { at < length found.now }
    ensures { (d : Found) → IsTrue result →
        (slice_index_or found.now at d).reading ≡ Err EntryFault.Memory }
{
    is_unread(&found[at])
}

/// Puts down what the text of the record at this place, which wasn't read yet, is read as.
fn put_again(
    alloc: Global,
    reader: &SealedReader<'_>,
    found: &mut [Found],
    at: usize,
    reading: Result<Kept, EntryFault>,
)
    requires within { at < length found.old }
    requires unread { (d : Found) →
        (slice_index_or found.old at d).reading ≡ Err EntryFault.Memory }
    ensures { (said : List RecordText) →
        AreReadBy reader.now.machines reader.now.election said found.old →
        ((d : Found) → reading ≢ Err EntryFault.Memory → IsReadSealed
        reader.now.machines reader.now.election (slice_index_or found.old at d).place
        (slice_index_or found.old at d).sent (slice_index_or found.old at d).text.items reading) →
        AreReadBy reader.now.machines reader.now.election said found.new }
{
    put_reading(alloc, &mut found[at], reading);
}

/// Reads the entries that aren't read yet, each after the first one with its text.
fn read_rest(alloc: Global, reader: &SealedReader<'_>, firsts: &[usize], found: &mut [Found])
    ensures { (said : List RecordText) →
        AreReadBy reader.now.machines reader.now.election said found.old →
        AreReadBy reader.now.machines reader.now.election said found.new }
{
    for at in 0..found.len() {
        if is_unread_at(found, at) {
            let reading = reading_at(alloc, reader, found, firsts, at);
            put_again(alloc, reader, found, at, reading);
        }
    }
}

/// A way to work by which logs are read.
pub trait EntryWork: Work {
    /// Reads the entry of each record where its text stands first.
    fn read_firsts(
        &self,
        alloc: Global,
        reader: &SealedReader<'_>,
        firsts: &[usize],
        found: &mut [Found],
    )
        requires { Self.may_share self.now }
        ensures { StayReadBy reader.now.machines reader.now.election found.old found.new };
}

impl EntryWork for Alone {
    fn read_firsts(
        &self,
        alloc: Global,
        reader: &SealedReader<'_>,
        firsts: &[usize],
        found: &mut [Found],
    ) {
        each_in_turn(
            found,
            &|at: usize, part: &mut Found|
                ensures { (said : RecordText) →
                    IsReadBy reader.entry.now.machines reader.entry.now.election
                    said part.entry.now →
                    IsReadBy reader.entry.now.machines reader.entry.now.election
                    said part.exit.now }
            { read_first(alloc, reader, firsts, at, part) },
        );
    }
}

impl<R: Threads + Sync> EntryWork for InThreads<'_, R> {
    fn read_firsts(
        &self,
        alloc: Global,
        reader: &SealedReader<'_>,
        firsts: &[usize],
        found: &mut [Found],
    ) {
        each_in_threads(
            self.rt,
            alloc,
            found,
            &|at: usize, part: &mut Found|
                ensures { (said : RecordText) →
                    IsReadBy reader.entry.now.machines reader.entry.now.election
                    said part.entry.now →
                    IsReadBy reader.entry.now.machines reader.entry.now.election
                    said part.exit.now }
            { read_first(alloc, reader, firsts, at, part) },
        );
    }
}

/// Reads the entry of each record, in this way of work: a text that comes again is verified once.
pub(crate) fn read_each<W: EntryWork>(
    work: &W,
    alloc: Global,
    reader: &SealedReader<'_>,
    firsts: &[usize],
    found: &mut [Found],
)
    requires { W.may_share work.now }
    ensures { (said : List RecordText) →
        AreReadBy reader.now.machines reader.now.election said found.old →
        AreReadBy reader.now.machines reader.now.election said found.new }
{
    work.read_firsts(alloc, reader, firsts, found);
    read_rest(alloc, reader, firsts, found);
}

/// Where the text of each record stands first.
pub(crate) fn firsts_of(alloc: Global, found: &[Found]) -> Result<Vec<usize>, Memory> {
    let mut places = Places::new(alloc);
    let mut firsts = Vec::with_capacity(alloc, found.len())?;
    for at in 0..found.len() {
        firsts.push(first_of(&mut places, found, at)?)?;
    }
    Ok(firsts)
}

/// Where the text of this record stands first. The record is noted if it is here.
fn first_of(places: &mut Places, found: &[Found], at: usize) -> Result<usize, Memory>
    requires { at < length found.now }
{
    let Some(key) = found[at].key else {
        return Ok(at);
    };
    let text = found[at].text.as_slice();
    match places.first(key) {
        None => {
            places.note_first(key, (0, at))?;
            Ok(at)
        }
        Some((_, first)) if has_text(found, first, text) => Ok(first),
        Some(_) => first_other(places, text, at),
    }
}

/// Where this text, which the first entry with its maker and number doesn't have, stands first.
fn first_other(places: &mut Places, text: &[u8], at: usize) -> Result<usize, Memory> {
    let digest = digest_of(text);
    match places.other(&digest) {
        Some((_, other)) => Ok(other),
        None => {
            places.note_other(digest, (0, at))?;
            Ok(at)
        }
    }
}

/// Whether the record at the place has this text.
fn has_text(found: &[Found], at: usize, text: &[u8]) -> bool {
    match found.get(at) {
        Some(record) => record.text.as_slice() == text,
        None => false,
    }
}

/// The records that are kept and those that are refused: what each record that was found is read
/// as, and the records that were refused before.
pub(crate) fn split_found(
    alloc: Global,
    found: Vec<Found>,
    early: &[(u32, EntryFault)],
) -> Result<(Vec<Kept>, Vec<(u32, EntryFault)>), Memory>
    ensures { IfOk result (λ parts. (readings : List (Result Kept EntryFault)) →
        IsWoven 0 early.now found.items readings →
        AreSplit readings parts.0.items parts.1.items) }
{
    let count = early.len() as u64 + found.as_slice().len() as u64;
    let mut rest = found.into_iter();
    let mut next = 0;
    let mut kept = Vec::new(alloc);
    let mut refused = Vec::new(alloc);
    'places: for place in 0..count {
        if next < early.len() && u64::from(early[next].0) == place {
            refused.push(early[next])?;
            next += 1;
        } else if let Some(found) = rest.next() {
            add_reading(&mut kept, &mut refused, found)?;
        }
    }
    Ok((kept, refused))
}

/// Adds what the entry of a record is read as to what is kept or refused.
fn add_reading(
    kept: &mut Vec<Kept>,
    refused: &mut Vec<(u32, EntryFault)>,
    found: Found,
) -> Result<(), Memory>
    ensures { OnOk result ((found.reading ≢ Err EntryFault.Memory) × AddsReading found.place
        found.reading kept.old.items refused.old.items kept.new.items refused.new.items) }
{
    let Found {
        place,
        sent: _sent,
        key: _key,
        text: _text,
        reading,
    } = found;
    match reading {
        Ok(value) => kept.push(value)?,
        Err(fault) => match fault {
            EntryFault::Memory => return Err(AllocError),
            _ => refused.push((place, fault))?,
        },
    }
    Ok(())
}
