//! From a report to the shapes of its picture.
ghost use Rattle.std.specs.Prelude.{◌≡◌, ◌++◌, ◌<◌, ◌^◌, IfOk, OnOk};
ghost use Rattle.auditor.specs.Report.{report_of};
ghost use Rattle.entangled_picture.specs.Places.{placed_of};
ghost use Rattle.entangled_picture.specs.Marks.{arrows_of};
ghost use Rattle.entangled_picture.specs.Shapes.{
  arrow_count,
  graph_shapes,
  last_column,
  shapes_below,
  shapes_beside,
  shapes_of,
};

use crate::bars::add_bars;
use crate::drawn::{MOST_DRAWN, drawn_of, first_ones};
use crate::gap_marks::add_gaps;
use crate::log_marks::{add_lanes, add_logs};
use crate::marks::{add_entries, add_forks, add_lights, add_strays, arrows_of, spot_at};
use crate::placed::{Placed, all_placed};
use crate::seen::all_seen;
use crate::shape::Shape;
use auditor::Report;
use std::alloc::{AllocError, Global};

/// Of the arrows between survivors the first ones up to this number are drawn. An honest entry
/// names at most one other of each machine, so of 300 none is left out.
pub(crate) const MOST_ARROWS: usize = 5000;

/// The survivors of the report with their spots.
#[tactic(auto, using(crate::proofs::Grown::growing))]
fn placed_of(alloc: Global, report: &Report) -> Result<Vec<Placed>, AllocError>
    ensures { IfOk result (λ placed.
        placed.items ≡ placed_of report.now.graph report.now.verdicts) }
{
    let seen = all_seen(alloc, report.graph())?;
    let drawn = drawn_of(alloc, report.graph(), report.verdicts(), seen.as_slice())?;
    all_placed(alloc, seen.as_slice(), drawn.as_slice())
}

/// The column of the last survivor.
fn last_column(placed: &[Placed]) -> u32
    ensures { result ≡ last_column placed.now }
{
    match spot_at(placed, placed.len().saturating_sub(1)) {
        Some(at) => at.column,
        None => 0,
    }
}

/// Adds what is drawn below the entries.
fn add_below(
    shapes: &mut Vec<Shape>,
    report: &Report,
    placed: &[Placed],
    arrows: &[Shape],
) -> Result<(), AllocError>
    requires { arrows.now ≡ arrows_of report.now.graph placed.now }
    ensures { OnOk result (shapes.new.items
        ≡ shapes.old.items ++ shapes_below (report_of report.now) placed.now) }
{
    add_lights(shapes, placed, report.verdicts())?;
    shapes.extend_from_slice(first_ones(arrows, MOST_ARROWS))?;
    add_bars(shapes, placed)
}

/// Adds what is found beside the entries.
fn add_beside(
    alloc: Global,
    shapes: &mut Vec<Shape>,
    report: &Report,
    placed: &[Placed],
    machines: usize,
) -> Result<(), AllocError>
    requires { machines < 2 ^ 63 }
    ensures { OnOk result (shapes.new.items
        ≡ shapes.old.items ++ shapes_beside (report_of report.now) placed.now machines) }
{
    let graph = report.graph();
    add_forks(shapes, placed, first_ones(graph.forks(), MOST_DRAWN))?;
    add_gaps(
        alloc,
        shapes,
        graph,
        first_ones(graph.gaps(), MOST_DRAWN),
        placed,
        machines + 2,
    )?;
    add_strays(shapes, first_ones(graph.strays(), MOST_DRAWN), machines + 1)
}

/// Adds the shapes of the graph, those first over which others are drawn.
fn add_graph(
    alloc: Global,
    shapes: &mut Vec<Shape>,
    report: &Report,
    placed: &[Placed],
    arrows: &[Shape],
    machines: usize,
) -> Result<(), AllocError>
    requires listed { arrows.now ≡ arrows_of report.now.graph placed.now }
    requires few { machines < 2 ^ 63 }
    ensures { OnOk result (shapes.new.items
        ≡ shapes.old.items ++ graph_shapes (report_of report.now) placed.now machines) }
{
    add_below(shapes, report, placed, arrows)?;
    add_beside(alloc, shapes, report, placed, machines)?;
    add_entries(shapes, placed)
}

/// The shapes of the report's picture, and how many arrows there are with those that are left out.
pub(crate) fn drawing_of(alloc: Global, report: &Report) -> Result<(Vec<Shape>, usize), AllocError>
    ensures shapes { IfOk result (λ drawing. drawing.0.items ≡ shapes_of (report_of report.now)) }
    ensures arrows { IfOk result (λ drawing. drawing.1 ≡ arrow_count (report_of report.now)) }
{
    let placed = placed_of(alloc, report)?;
    let arrows = arrows_of(alloc, report.graph(), placed.as_slice())?;
    let machines = report.roster().machines.as_slice().len();
    let column = last_column(placed.as_slice());
    let mut shapes = Vec::new(alloc);
    add_lanes(&mut shapes, report.logs(), machines, column)?;
    add_logs(&mut shapes, report.logs(), machines, column)?;
    add_graph(
        alloc,
        &mut shapes,
        report,
        placed.as_slice(),
        arrows.as_slice(),
        machines,
    )?;
    Ok((shapes, arrows.len()))
}

/// The shapes of the report's picture.
///
/// # Errors
///
/// Out of memory.
pub fn shapes_of(alloc: Global, report: &Report) -> Result<Vec<Shape>, AllocError>
    ensures { IfOk result (λ shapes. shapes.items ≡ shapes_of (report_of report.now)) }
{
    let (shapes, _) = drawing_of(alloc, report)?;
    Ok(shapes)
}
