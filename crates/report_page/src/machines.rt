//! The machines of the roster, and the logs that were given for them.
ghost use Rattle.std.specs.Prelude.{
  ◌≡◌,
  ◌++◌,
  IfOk,
  None,
  OnOk,
  Some,
  codes,
  length,
  map,
  slice_get,
  string_bytes,
};
ghost use Rattle.std.specs.Fmt.{decimal};
ghost use Rattle.std.specs.List.{flat_map, range_with_len, zip};
ghost use Rattle.auditor.specs.Report.{report_of};
ghost use Rattle.report_page.specs.Machines.{
  absent_rows,
  order_words,
  end_words,
  has_log,
  log_cells,
  log_row,
  machine_rows,
  owner_cells,
  rows_of_logs,
  rows_of_seat,
  seat_of,
};

use crate::cell::{TableRow, TableRows, Text, add_number, add_text, text_of};
use crate::words::{NO_LOG, UNBROKEN, UNLISTED, WHOLE};
use auditor::Report;
use item_list::Items;
use log_files::{End, LogRead};
use roster::Post;
use std::alloc::{AllocError, Global};
use std::fmt::Write;

/// The owner's place in a roster of this many machines, or this number if the roster lacks it.
pub(crate) fn seat_of(owner: u32, machines: usize) -> usize
    ensures { result ≡ seat_of machines owner }
{
    if (owner as usize) < machines {
        owner as usize
    } else {
        machines
    }
}

/// Whether one of the logs has this seat.
pub(crate) fn has_log(logs: &[LogRead], machines: usize, seat: usize) -> bool
    ensures { result ≡ has_log machines seat logs.now }
{
    logs.iter().any(|log| seat_of(log.owner, machines) == seat)
}

/// Adds the name and the role of a machine.
fn add_post(row: &mut TableRow, alloc: Global, post: &Post) -> Result<(), AllocError>
    ensures { OnOk result (row.new ≡ row.old ++ owner_cells (Some post.now)) }
{
    add_text(row, alloc, post.name.as_str().as_bytes())?;
    add_text(row, alloc, post.role.word())
}

/// Adds what is said of an owner that the roster lacks.
fn add_unlisted(row: &mut TableRow, alloc: Global) -> Result<(), AllocError>
    ensures { OnOk result (row.new ≡ row.old ++ owner_cells None) }
{
    add_text(row, alloc, UNLISTED.as_bytes())?;
    add_text(row, alloc, b"")
}

/// Adds the name and the role of the machine at the seat.
fn add_owner(
    row: &mut TableRow,
    alloc: Global,
    report: &Report,
    seat: usize,
) -> Result<(), AllocError>
    ensures { OnOk result (row.new
        ≡ row.old ++ owner_cells (slice_get (report_of report.now).machines seat)) }
{
    match report.roster().machines.as_slice().get(seat) {
        Some(post) => add_post(row, alloc, post),
        None => add_unlisted(row, alloc),
    }
}

/// Adds why.
fn add_why(text: &mut String, why: &str) -> Result<(), AllocError>
    ensures { OnOk result (string_bytes text.new
        ≡ string_bytes text.old ++ codes ": " ++ why.now) }
{
    write!(text, ": {why}")
}

/// Where no log has what is there, in words.
fn malformed_words(alloc: Global, at: u64, why: &str) -> Result<String, AllocError>
    ensures { IfOk result (λ text. string_bytes text
        ≡ codes "malformed at byte " ++ decimal at ++ codes ": " ++ why.now) }
{
    let mut text = format!(in alloc; "malformed at byte {at}")?;
    add_why(&mut text, why)?;
    Ok(text)
}

/// The same, as a text.
fn malformed_text(alloc: Global, at: u64, why: &str) -> Result<Text, AllocError>
    ensures { IfOk result (λ text. text
        ≡ codes "malformed at byte " ++ decimal at ++ codes ": " ++ why.now) }
{
    let words = malformed_words(alloc, at, why)?;
    Ok(Items::from_vec(words.into_bytes()))
}

/// How a log's file ends, in words.
fn end_words(alloc: Global, end: End) -> Result<Text, AllocError>
    ensures { IfOk result (λ text. text ≡ end_words end) }
{
    match end {
        End::Clean => text_of(alloc, WHOLE.as_bytes()),
        End::Torn(at) => Ok(Items::from_vec(format!(in alloc; "torn at byte {at}")?.into_bytes())),
        End::Malformed(at, why) => malformed_text(alloc, at, why.word()),
    }
}

/// Where a log's kept records break, in words.
fn order_words(alloc: Global, broke: Option<u32>) -> Result<Text, AllocError>
    ensures { IfOk result (λ text. text ≡ order_words broke) }
{
    match broke {
        None => text_of(alloc, UNBROKEN.as_bytes()),
        Some(place) => Ok(Items::from_vec(format!(in alloc;
            "broken at record {place}"
        )?.into_bytes())),
    }
}

/// Adds what is said of a log.
fn add_log(row: &mut TableRow, alloc: Global, file: &str, log: &LogRead) -> Result<(), AllocError>
    ensures { OnOk result (row.new ≡ row.old ++ log_cells (file.now, log.now)) }
{
    let end = end_words(alloc, log.end)?;
    let broke = order_words(alloc, log.broke)?;
    add_text(row, alloc, file.as_bytes())?;
    add_number(row, alloc, log.kept.len() as u64)?;
    add_number(row, alloc, log.refused.len() as u64)?;
    add_text(row, alloc, end.as_slice())?;
    add_text(row, alloc, broke.as_slice())
}

/// Adds the row of a log, if it has this seat.
fn add_log_row(
    rows: &mut TableRows,
    alloc: Global,
    report: &Report,
    seat: usize,
    file: &str,
    log: &LogRead,
) -> Result<(), AllocError>
    ensures { OnOk result (rows.new ≡ rows.old
        ++ log_row (report_of report.now).machines seat (file.now, log.now)) }
{
    if seat_of(log.owner, report.roster().machines.as_slice().len()) == seat {
        let mut row = TableRow::new(alloc);
        add_owner(&mut row, alloc, report, seat)?;
        add_log(&mut row, alloc, file, log)?;
        rows.push(row)?;
    }
    Ok(())
}

/// Adds the rows of the logs that have this seat.
fn add_rows_of_logs(
    rows: &mut TableRows,
    alloc: Global,
    report: &Report,
    seat: usize,
    files: &[String],
    logs: &[LogRead],
) -> Result<(), AllocError>
    requires { length files.now ≡ length logs.now }
    ensures { OnOk result (rows.new ≡ rows.old
        ++ rows_of_logs (report_of report.now).machines seat
        (zip (map string_bytes files.now) logs.now)) }
{
    for i in 0..files.len() {
        add_log_row(rows, alloc, report, seat, files[i].as_str(), &logs[i])?;
    }
    Ok(())
}

/// Adds the row of the machine at the seat, if no log has it.
fn add_absent(
    rows: &mut TableRows,
    alloc: Global,
    report: &Report,
    seat: usize,
) -> Result<(), AllocError>
    ensures { OnOk result (rows.new ≡ rows.old
        ++ absent_rows (report_of report.now).machines seat (report_of report.now).logs) }
{
    let machines = report.roster().machines.as_slice();
    if seat < machines.len() && !has_log(report.logs(), machines.len(), seat) {
        let mut row = TableRow::new(alloc);
        add_owner(&mut row, alloc, report, seat)?;
        add_text(&mut row, alloc, NO_LOG.as_bytes())?;
        rows.push(row)?;
    }
    Ok(())
}

/// Adds the rows of a seat.
fn add_seat(
    rows: &mut TableRows,
    alloc: Global,
    report: &Report,
    seat: usize,
) -> Result<(), AllocError>
    ensures { OnOk result (rows.new ≡ rows.old ++ rows_of_seat (report_of report.now) seat) }
{
    add_rows_of_logs(rows, alloc, report, seat, report.files(), report.logs())?;
    add_absent(rows, alloc, report, seat)
}

/// Adds the rows of each machine, in the order of the roster.
fn add_seats(
    rows: &mut TableRows,
    alloc: Global,
    report: &Report,
    seats: usize,
) -> Result<(), AllocError>
    ensures { OnOk result (rows.new ≡ rows.old
        ++ flat_map (rows_of_seat (report_of report.now)) (range_with_len 0 seats)) }
{
    for seat in 0..seats {
        add_seat(rows, alloc, report, seat)?;
    }
    Ok(())
}

/// The rows of each machine, and then those of logs whose owner the roster lacks.
pub(crate) fn machine_rows(alloc: Global, report: &Report) -> Result<TableRows, AllocError>
    ensures { IfOk result (λ rows. rows ≡ machine_rows (report_of report.now)) }
{
    let machines = report.roster().machines.as_slice().len();
    let mut rows = TableRows::new(alloc);
    add_seats(&mut rows, alloc, report, machines)?;
    add_seat(&mut rows, alloc, report, machines)?;
    Ok(rows)
}
