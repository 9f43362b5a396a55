//! The gaps: who names each, and whose the lost entries could be.
ghost use Rattle.std.specs.Prelude.{◌≡◌, ◌++◌, ◌∷◌, [], ◌≤◌, IfOk, OnOk, length, slice_get, take};
ghost use Rattle.auditor.specs.Outcomes.{log_has_finding};
ghost use Rattle.auditor.specs.Report.{report_of};
ghost use Rattle.report_page.specs.Gaps.{
  gap_row,
  gap_rows,
  has_damage,
  lost_how,
  maker_row,
  maker_rows,
  most_listed,
  is_namer,
  namers_among,
  place_if,
  ragged_places,
};

use crate::cell::{TableRow, TableRows, add_linked, add_text};
use crate::machines::{has_log, seat_of};
use crate::names::name_of;
use crate::words::{LOG_DAMAGED, LOG_LACKING, LOG_SEEMS_WHOLE};
use auditor::Report;
use entry_graph::Graph;
use entry_order::names_digest;
use log_files::{End, LogRead};
use precedence::Arrows;
use std::alloc::{AllocError, Global};

/// Of how many gaps it is listed who names them: each is looked for among all names.
const MOST_LISTED: usize = 300;

/// Adds the place, if this is so.
fn add_place_if(places: &mut Vec<u32>, so: bool, place: u32) -> Result<(), AllocError>
    ensures { OnOk result (places.new.items ≡ places.old.items ++ place_if so place) }
{
    if so {
        places.push(place)?;
    }
    Ok(())
}

/// The survivors that name a gap.
fn ragged_places(alloc: Global, graph: &Graph) -> Result<Vec<u32>, AllocError>
    requires { length graph.now.survivors ≤ 16384 }
    ensures { IfOk result (λ places. places.items ≡ ragged_places graph.now) }
{
    let mut places = Vec::new(alloc);
    for place in 0..graph.count() {
        add_place_if(&mut places, graph.ragged(place), place as u32)?;
    }
    Ok(places)
}

/// Whether the survivor at a place names the digest.
fn is_namer(graph: &Graph, place: u32, digest: &[u8; 32]) -> bool
    ensures { result ≡ is_namer digest.now (slice_get graph.now.survivors place) }
{
    (place as usize) < graph.count() && names_digest(graph.node(place as usize), digest)
}

/// Of these places, those of survivors that name the digest.
fn namers_among(
    alloc: Global,
    graph: &Graph,
    places: &[u32],
    digest: &[u8; 32],
) -> Result<Vec<u32>, AllocError>
    ensures { IfOk result (λ namers. namers.items
        ≡ namers_among graph.now digest.now places.now) }
{
    let mut namers = Vec::new(alloc);
    for &place in places {
        add_place_if(&mut namers, is_namer(graph, place, digest), place)?;
    }
    Ok(namers)
}

/// Adds the row of a gap.
fn add_gap(
    rows: &mut TableRows,
    alloc: Global,
    graph: &Graph,
    ragged: &[u32],
    digest: &[u8; 32],
) -> Result<(), AllocError>
    requires { ragged.now ≡ ragged_places graph.now }
    ensures { OnOk result (rows.new ≡ rows.old ++ gap_row graph.now digest.now ∷ []) }
{
    let namers = namers_among(alloc, graph, ragged, digest)?;
    let digits = hex::encode(alloc, *digest)?;
    let mut row = TableRow::new(alloc);
    add_text(&mut row, alloc, digits.as_bytes())?;
    add_linked(&mut row, alloc, b"", namers.as_slice())?;
    rows.push(row)
}

/// The first gaps, up to the number that is listed.
fn first_gaps(gaps: &[[u8; 32]]) -> &[[u8; 32]]
    ensures { result.now ≡ take most_listed gaps.now }
{
    if gaps.len() <= MOST_LISTED {
        gaps
    } else {
        &gaps[..MOST_LISTED]
    }
}

/// A row for each gap, up to the number that is listed.
pub(crate) fn gap_rows(alloc: Global, report: &Report) -> Result<TableRows, AllocError>
    ensures { IfOk result (λ rows. rows ≡ gap_rows (report_of report.now)) }
{
    let graph = report.graph();
    let gaps = first_gaps(graph.gaps());
    let ragged = ragged_places(alloc, graph)?;
    let mut rows = TableRows::new(alloc);
    for digest in gaps {
        add_gap(&mut rows, alloc, graph, ragged.as_slice(), digest)?;
    }
    Ok(rows)
}

/// Whether the log has a refused record, an end that isn't clean, or a break.
fn log_has_finding(log: &LogRead) -> bool
    ensures { result ≡ log_has_finding log.now }
{
    !log.refused.is_empty() || !matches!(log.end, End::Clean) || log.broke.is_some()
}

/// Whether a log of the seat is damaged.
fn has_damage(logs: &[LogRead], machines: usize, seat: usize) -> bool
    ensures { result ≡ has_damage machines seat logs.now }
{
    logs.iter().any(|log| seat_of(log.owner, machines) == seat && log_has_finding(log))
}

/// Why a lost entry could be that of the machine at a seat.
fn lost_how(logs: &[LogRead], machines: usize, seat: usize) -> &'static str
    ensures { result.now ≡ lost_how machines logs.now seat }
{
    if has_damage(logs, machines, seat) {
        LOG_DAMAGED
    } else if has_log(logs, machines, seat) {
        LOG_SEEMS_WHOLE
    } else {
        LOG_LACKING
    }
}

/// Adds the row of the machine at a seat.
fn add_maker(
    rows: &mut TableRows,
    alloc: Global,
    report: &Report,
    seat: usize,
) -> Result<(), AllocError>
    ensures { OnOk result (rows.new ≡ rows.old ++ maker_row (report_of report.now) seat ∷ []) }
{
    let machines = report.roster().machines.as_slice().len();
    let how = lost_how(report.logs(), machines, seat);
    let mut row = TableRow::new(alloc);
    add_text(&mut row, alloc, name_of(report, seat).as_bytes())?;
    add_text(&mut row, alloc, how.as_bytes())?;
    rows.push(row)
}

/// A row for each machine, in the order of the roster.
pub(crate) fn maker_rows(alloc: Global, report: &Report) -> Result<TableRows, AllocError>
    ensures { IfOk result (λ rows. rows ≡ maker_rows (report_of report.now)) }
{
    let mut rows = TableRows::new(alloc);
    for seat in 0..report.roster().machines.as_slice().len() {
        add_maker(&mut rows, alloc, report, seat)?;
    }
    Ok(rows)
}
