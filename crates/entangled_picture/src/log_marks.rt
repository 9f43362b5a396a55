//! The lanes of the machines, and what is shown of the logs at their ends.
ghost use Rattle.std.specs.Prelude.{◌≡◌, ◌++◌, ◌<◌, OnOk};
ghost use Rattle.entangled_picture.specs.LogMarks.{
  break_of,
  edge_of,
  ending_of,
  lane_of,
  lanes_of,
  marks_of_log,
  logs_above,
  logs_of,
  refused_marks,
};

use crate::shape::{Shape, Spot};
use crate::shape_list::push_some;
use entry_format::EntryFault;
use log_files::{End, LogRead};
use std::alloc::AllocError;

/// The lane of a log: its owner's, or the one below all machines if the owner isn't listed.
fn lane_of(owner: u32, machines: usize) -> usize
    ensures { result ≡ lane_of owner machines }
{
    if (owner as usize) < machines {
        owner as usize
    } else {
        machines
    }
}

/// How many of these logs have the lane.
fn logs_above(before: &[LogRead], lane: usize, machines: usize) -> usize
    ensures { result ≡ logs_above before.now lane machines }
{
    before
        .iter()
        .filter(|log| lane_of(log.owner, machines) == lane)
        .count()
}

/// Adds the line of each machine.
#[tactic(auto, using(crate::proofs::Grown::growing))]
pub(crate) fn add_lanes(
    shapes: &mut Vec<Shape>,
    logs: &[LogRead],
    machines: usize,
    column: u32,
) -> Result<(), AllocError>
    ensures { OnOk result
        (shapes.new.items ≡ shapes.old.items ++ lanes_of logs.now machines column) }
{
    for lane in 0..machines {
        let given = logs_above(logs, lane, machines);
        let end = Spot {
            column,
            lane,
            level: 0,
        };
        shapes.push(Shape::Lane { end, logs: given })?;
    }
    Ok(())
}

/// Adds a mark for each refused record, side by side.
#[tactic(auto, using(crate::proofs::Grown::growing))]
fn add_refused(
    shapes: &mut Vec<Shape>,
    refused: &[(u32, EntryFault)],
    log: usize,
    edge: Spot,
) -> Result<(), AllocError>
    ensures { OnOk result
        (shapes.new.items ≡ shapes.old.items ++ refused_marks refused.now log edge) }
{
    for order in 0..refused.len() {
        let (place, fault) = refused[order];
        shapes.push(Shape::Refused {
            at: edge,
            order,
            log,
            place,
            fault,
        })?;
    }
    Ok(())
}

/// The mark of an end that isn't clean.
fn ending_of(at: Spot, order: usize, log: usize, end: End) -> Option<Shape>
    ensures { result ≡ ending_of at order log end }
{
    match end {
        End::Clean => None,
        End::Torn(offset) => Some(Shape::Ending {
            at,
            order,
            log,
            end: End::Torn(offset),
        }),
        End::Malformed(offset, why) => Some(Shape::Ending {
            at,
            order,
            log,
            end: End::Malformed(offset, why),
        }),
    }
}

/// The mark of a break.
fn break_of(at: Spot, order: usize, log: usize, broke: Option<u32>) -> Option<Shape>
    ensures { result ≡ break_of at order log broke }
{
    match broke {
        Some(place) => Some(Shape::Break {
            at,
            order,
            log,
            place,
        }),
        None => None,
    }
}

/// Adds what is shown of a log: its line, and after it, side by side, its refused records, its
/// break, and its end.
fn add_log(
    shapes: &mut Vec<Shape>,
    log: &LogRead,
    place: usize,
    edge: Spot,
) -> Result<(), AllocError>
    ensures { OnOk result (shapes.new.items ≡ shapes.old.items ++ marks_of_log log.now place edge) }
{
    let count = log.refused.len();
    let broke = break_of(edge, count, place, log.broke);
    let ending = ending_of(edge, count + 1, place, log.end);
    shapes.push(Shape::Log {
        end: edge,
        log: place,
    })?;
    add_refused(shapes, log.refused.as_slice(), place, edge)?;
    push_some(shapes, broke)?;
    push_some(shapes, ending)
}

/// The spot after which a log's marks are: in the last column, below the logs with the same lane.
fn edge_of(before: &[LogRead], machines: usize, column: u32, log: &LogRead) -> Spot
    ensures { result ≡ edge_of before.now machines column log.now }
{
    let lane = lane_of(log.owner, machines);
    Spot {
        column,
        lane,
        level: logs_above(before, lane, machines),
    }
}

/// Adds what is shown of each log, after the last column.
#[tactic(auto, using(crate::proofs::Grown::growing))]
pub(crate) fn add_logs(
    shapes: &mut Vec<Shape>,
    logs: &[LogRead],
    machines: usize,
    column: u32,
) -> Result<(), AllocError>
    ensures { OnOk result
        (shapes.new.items ≡ shapes.old.items ++ logs_of logs.now machines column) }
{
    for i in 0..logs.len() {
        let log = &logs[i];
        add_log(shapes, log, i, edge_of(&logs[..i], machines, column, log))?;
    }
    Ok(())
}
