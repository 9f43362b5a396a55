//! The entries that survive.
ghost use Rattle.std.specs.Prelude.{
  ◌≡◌,
  ◌++◌,
  ◌∷◌,
  [],
  ◌<◌,
  ℕ,
  List,
  IfOk,
  OnOk,
  length,
  map,
  string_bytes,
};
ghost use Rattle.auditor.specs.Report.{report_of};
ghost use Rattle.report_page.specs.inside.Held.{has};
ghost use Rattle.report_page.specs.Entries.{
  survivor_row,
  entry_rows,
  held_cells,
  holders,
  is_in_log,
  lost_words,
  number_if,
  said_cells,
  session_words,
};

use crate::cell::{TableRow, TableRows, Text, add_linked, add_number, add_text};
use crate::held::{Held, all_held};
use crate::names::name_of;
use crate::words::A_LOST_ONE;
use auditor::Report;
use entry_format::{Deed, Sealed};
use item_list::Items;
use log_files::LogRead;
use precedence::Arrows;
use std::alloc::{AllocError, Global};
use std::fmt::Write;

/// The deed's session, in words.
fn session_words(alloc: Global, deed: Deed) -> Result<Text, AllocError>
    ensures { IfOk result (λ text. text ≡ session_words deed) }
{
    match deed {
        Deed::Opened | Deed::Closed => Ok(Items::new(alloc)),
        Deed::Authorise { session, .. }
        | Deed::Override { session, .. }
        | Deed::Activate { session }
        | Deed::Commit { session, .. }
        | Deed::Cast { session, .. }
        | Deed::Cancel { session }
        | Deed::Challenge { session, .. } => {
            Ok(Items::from_vec(format!(in alloc; "{session}")?.into_bytes()))
        }
    }
}

/// Adds the number of the log at a place, if it has the digest.
fn add_holder(text: &mut String, place: usize, has: bool) -> Result<(), AllocError>
    ensures { OnOk result (string_bytes text.new ≡ string_bytes text.old ++ number_if has place) }
{
    if has {
        let number = place as u128 + 1;
        write!(text, "{number} ")
    } else {
        Ok(())
    }
}

/// The numbers of the logs that have the digest.
fn holders(
    alloc: Global,
    logs: &[LogRead],
    held: &[Held],
    digest: &[u8; 32],
) -> Result<String, AllocError>
    requires { (d : List ℕ) → map (λ one. has one d) held.now ≡ map (is_in_log d) logs.now }
    ensures { IfOk result (λ text. string_bytes text ≡ holders logs.now digest.now) }
{
    let mut text = String::new(alloc);
    for place in 0..held.len() {
        add_holder(&mut text, place, held[place].has(digest))?;
    }
    Ok(text)
}

/// What is said before the names of a survivor.
fn lost_words(ragged: bool) -> &'static str
    ensures { result.now ≡ lost_words ragged }
{
    if ragged { A_LOST_ONE } else { "" }
}

/// Adds what an entry says.
fn add_said(
    row: &mut TableRow,
    alloc: Global,
    report: &Report,
    sealed: &Sealed,
) -> Result<(), AllocError>
    ensures { OnOk result (row.new ≡ row.old ++ said_cells (report_of report.now) sealed.now) }
{
    let entry = sealed.entry();
    let session = session_words(alloc, entry.deed)?;
    add_text(row, alloc, name_of(report, entry.maker as usize).as_bytes())?;
    add_number(row, alloc, u64::from(entry.number))?;
    add_number(row, alloc, u64::from(entry.stamp))?;
    add_text(row, alloc, entry.deed.word())?;
    add_text(row, alloc, session.as_slice())
}

/// Adds the entry's digest, and the logs that have it.
fn add_held(
    row: &mut TableRow,
    alloc: Global,
    report: &Report,
    held: &[Held],
    sealed: &Sealed,
) -> Result<(), AllocError>
    requires { (d : List ℕ) → map (λ one. has one d) held.now
        ≡ map (is_in_log d) (report_of report.now).logs }
    ensures { OnOk result (row.new ≡ row.old ++ held_cells (report_of report.now) sealed.now) }
{
    let digits = hex::encode(alloc, *sealed.digest())?;
    let holders = holders(alloc, report.logs(), held, sealed.digest())?;
    add_text(row, alloc, digits.as_bytes())?;
    add_text(row, alloc, holders.as_bytes())
}

/// Adds the row of the survivor at a place.
fn add_entry(
    rows: &mut TableRows,
    alloc: Global,
    report: &Report,
    held: &[Held],
    place: usize,
) -> Result<(), AllocError>
    requires within { place < length (report_of report.now).graph.survivors }
    requires held { (d : List ℕ) → map (λ one. has one d) held.now
        ≡ map (is_in_log d) (report_of report.now).logs }
    ensures { OnOk result (rows.new ≡ rows.old ++ survivor_row (report_of report.now) place ∷ []) }
{
    let graph = report.graph();
    let sealed = graph.node(place);
    let lost = lost_words(graph.ragged(place));
    let mut row = TableRow::new(alloc);
    add_said(&mut row, alloc, report, sealed)?;
    add_held(&mut row, alloc, report, held, sealed)?;
    add_linked(&mut row, alloc, lost.as_bytes(), graph.parents(place))?;
    rows.push(row)
}

/// A row for each survivor, by their numbers.
pub(crate) fn entry_rows(alloc: Global, report: &Report) -> Result<TableRows, AllocError>
    ensures { IfOk result (λ rows. rows ≡ entry_rows (report_of report.now)) }
{
    let held = all_held(alloc, report.logs())?;
    let mut rows = TableRows::new(alloc);
    for place in 0..report.graph().count() {
        add_entry(&mut rows, alloc, report, held.as_slice(), place)?;
    }
    Ok(rows)
}
