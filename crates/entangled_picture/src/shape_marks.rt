//! How each shape is drawn.
ghost use Rattle.std.specs.Prelude.{◌≡◌, ◌++◌, IfOk, OnOk, string_bytes};
ghost use Rattle.auditor.specs.Report.{report_of};
ghost use Rattle.entangled_picture.specs.ShapeMarks.{
  arrow_shape,
  bar_shape,
  after_text,
  break_shape,
  count_text,
  drawn_log_mark,
  drawn_shape,
  end_mark,
  ending_shape,
  entry_attributes,
  entry_inner,
  entry_shape,
  fork_path,
  fork_shape,
  fork_text,
  gap_shape,
  lane_path,
  lane_shape,
  level_text,
  light_shape,
  log_shape,
  loss_shape,
  malformed_shape,
  name_text,
  no_log,
  refused_shape,
  shape_line,
  spot_text,
  spots_path,
  stray_shape,
  torn_shape,
};

use crate::drawing::{add_line, add_mark, add_title, add_titled_line, add_words, place_text};
use crate::layout::{x_after, x_of, x_of_gap, y_of};
use crate::names::{
    arrow_words, bar_words, break_words, deed_word, entry_name, file_name, first_digits,
    light_words, machine_name, malformed_words, path_above, path_along, path_between,
    refused_words, row_reference, rule_name, short_name, survivor_words, torn_words, two_words,
};
use crate::shape::{Shape, Spot};
use auditor::Report;
use log_files::End;
use page_markup::{AttributeName, Attributes, Markup, Tag};
use std::alloc::{AllocError, Global};

/// Where a label is that runs down to the right.
const BELOW: &[u8] = b"translate(-5 24) rotate(35)";

/// The circle of an entry.
const CIRCLE: &[u8] = b"M-10 0a10 10 0 1 0 20 0a10 10 0 1 0 -20 0z";

/// The place of a spot.
fn spot_text(alloc: Global, tops: &[u64], at: Spot) -> Result<String, AllocError>
    ensures { IfOk result (λ text. string_bytes text ≡ spot_text tops.now at) }
{
    let x = x_of(at);
    let y = y_of(tops, at);
    place_text(alloc, x, y)
}

/// The place of a mark after a spot, with this number of marks between.
fn after_text(alloc: Global, tops: &[u64], at: Spot, order: usize) -> Result<String, AllocError>
    ensures { IfOk result (λ text. string_bytes text ≡ after_text tops.now at order) }
{
    let x = x_after(at, order);
    let y = y_of(tops, at);
    place_text(alloc, x, y)
}

/// The path between two spots.
fn spots_path(alloc: Global, tops: &[u64], from: Spot, to: Spot) -> Result<String, AllocError>
    ensures { IfOk result (λ text. string_bytes text ≡ spots_path tops.now from to) }
{
    let x = x_of(from);
    let y = y_of(tops, from);
    let to_x = x_of(to);
    let to_y = y_of(tops, to);
    path_between(alloc, x, y, to_x, to_y)
}

/// The path along the lane up to a spot.
fn lane_path(alloc: Global, tops: &[u64], end: Spot) -> Result<String, AllocError>
    ensures { IfOk result (λ text. string_bytes text ≡ lane_path tops.now end) }
{
    let x = x_of(end);
    let y = y_of(tops, end);
    path_along(alloc, y, x)
}

/// The place of a name at the level of a spot.
fn level_text(alloc: Global, tops: &[u64], end: Spot) -> Result<String, AllocError>
    ensures { IfOk result (λ text. string_bytes text ≡ level_text tops.now end) }
{
    let y = y_of(tops, end) + 4;
    place_text(alloc, 8, y)
}

/// The place of a machine's name, above its line.
fn name_text(alloc: Global, tops: &[u64], end: Spot) -> Result<String, AllocError>
    ensures { IfOk result (λ text. string_bytes text ≡ name_text tops.now end) }
{
    let y = y_of(tops, end).saturating_sub(14);
    place_text(alloc, 8, y)
}

/// Adds words for a machine without a log.
fn add_no_log(alloc: Global, out: &mut Markup, logs: usize, place: &[u8]) -> Result<(), AllocError>
    ensures { OnOk result (out.new ≡ out.old ++ no_log logs place.now) }
{
    if logs == 0 {
        add_words(alloc, out, b"none", place, b"no log")
    } else {
        Ok(())
    }
}

/// The place of a bar's number.
fn count_text(alloc: Global, tops: &[u64], from: Spot) -> Result<String, AllocError>
    ensures { IfOk result (λ text. string_bytes text ≡ count_text tops.now from) }
{
    let x = x_of(from) + 13;
    let y = y_of(tops, from).saturating_sub(10);
    place_text(alloc, x, y)
}

/// The place of a fork's label.
fn fork_text(alloc: Global, tops: &[u64], from: Spot) -> Result<String, AllocError>
    ensures { IfOk result (λ text. string_bytes text ≡ fork_text tops.now from) }
{
    let x = x_of(from) - 14;
    let y = y_of(tops, from).saturating_sub(25);
    place_text(alloc, x, y)
}

/// The path above a fork.
fn fork_path(alloc: Global, tops: &[u64], from: Spot, to: Spot) -> Result<String, AllocError>
    ensures { IfOk result (λ text. string_bytes text ≡ fork_path tops.now from to) }
{
    let x = x_of(from);
    let y = y_of(tops, from);
    let to_x = x_of(to);
    path_above(alloc, x, y, to_x)
}

/// What is in a survivor's mark.
fn entry_inner(alloc: Global, text: &[u8], number: u32, kind: &[u8]) -> Result<Markup, AllocError>
    ensures { IfOk result (λ inner. inner ≡ entry_inner text.now number kind.now) }
{
    let digits = number.to_string(alloc)?;
    let mut inner = Markup::new(alloc);
    add_title(alloc, &mut inner, text)?;
    add_line(alloc, &mut inner, b"glyph", CIRCLE)?;
    add_words(
        alloc,
        &mut inner,
        b"number",
        b"translate(0 4)",
        digits.as_bytes(),
    )?;
    add_words(alloc, &mut inner, b"label", BELOW, kind)?;
    Ok(inner)
}

/// The attributes of a survivor's mark.
fn entry_attributes(
    alloc: Global,
    tops: &[u64],
    at: Spot,
    place: usize,
    kind: &[u8],
) -> Result<Attributes, AllocError>
    ensures { IfOk result (λ attributes.
        attributes ≡ entry_attributes tops.now at place kind.now) }
{
    let row = row_reference(alloc, place)?;
    let spot = spot_text(alloc, tops, at)?;
    let mut attributes = Attributes::new(alloc);
    attributes.add(alloc, AttributeName::Class, kind)?;
    attributes.add(alloc, AttributeName::Href, row.as_bytes())?;
    attributes.add(alloc, AttributeName::Transform, spot.as_bytes())?;
    Ok(attributes)
}

/// Adds the mark of an end with these words.
fn add_end(
    alloc: Global,
    out: &mut Markup,
    tops: &[u64],
    at: Spot,
    order: usize,
    text: &[u8],
    label: &[u8],
) -> Result<(), AllocError>
    ensures { OnOk result (out.new ≡ out.old
        ++ end_mark tops.now at order text.now label.now) }
{
    let place = after_text(alloc, tops, at, order)?;
    let path = b"M-6 -10L2 -4L-6 2L2 8";
    add_mark(
        alloc,
        out,
        b"ending",
        place.as_bytes(),
        text,
        path,
        BELOW,
        label,
    )
}

/// Adds the line of a machine, with its name above.
#[tactic(auto, unfolding(crate::specs::ShapeMarks::lane_shape))]
fn add_lane(
    alloc: Global,
    out: &mut Markup,
    report: &Report,
    tops: &[u64],
    end: Spot,
    logs: usize,
) -> Result<(), AllocError>
    ensures { OnOk result (out.new ≡ out.old
        ++ lane_shape (report_of report.now) tops.now end logs) }
{
    let name = machine_name(report, end.lane);
    let path = lane_path(alloc, tops, end)?;
    let text = two_words(alloc, "machine ", name)?;
    let above = name_text(alloc, tops, end)?;
    let beside = level_text(alloc, tops, end)?;
    let mut inner = Markup::new(alloc);
    add_titled_line(alloc, &mut inner, b"lane", path.as_bytes(), text.as_bytes())?;
    add_words(
        alloc,
        &mut inner,
        b"machine",
        above.as_bytes(),
        name.as_bytes(),
    )?;
    add_no_log(alloc, &mut inner, logs, beside.as_bytes())?;
    out.add(&inner)
}

/// Adds the line of a log, with the name of its file before it.
#[tactic(auto, unfolding(crate::specs::ShapeMarks::log_shape))]
fn add_log(
    alloc: Global,
    out: &mut Markup,
    report: &Report,
    tops: &[u64],
    end: Spot,
    log: usize,
) -> Result<(), AllocError>
    ensures { OnOk result (out.new ≡ out.old
        ++ log_shape (report_of report.now) tops.now end log) }
{
    let name = file_name(report, log);
    let path = lane_path(alloc, tops, end)?;
    let text = two_words(alloc, "log ", name)?;
    let beside = level_text(alloc, tops, end)?;
    let short = short_name(alloc, name)?;
    let mut inner = Markup::new(alloc);
    add_titled_line(alloc, &mut inner, b"log", path.as_bytes(), text.as_bytes())?;
    add_words(
        alloc,
        &mut inner,
        b"file",
        beside.as_bytes(),
        short.as_slice(),
    )?;
    out.add(&inner)
}

/// Adds an arrow to an entry.
#[tactic(auto, unfolding(crate::specs::ShapeMarks::arrow_shape))]
fn add_arrow(
    alloc: Global,
    out: &mut Markup,
    report: &Report,
    tops: &[u64],
    from: Spot,
    number: u32,
    to: Spot,
    named: u32,
) -> Result<(), AllocError>
    ensures { OnOk result (out.new ≡ out.old
        ++ arrow_shape (report_of report.now) tops.now from number to named) }
{
    let name = entry_name(alloc, machine_name(report, from.lane), number)?;
    let other = entry_name(alloc, machine_name(report, to.lane), named)?;
    let text = arrow_words(alloc, name.as_str(), other.as_str())?;
    let path = spots_path(alloc, tops, from, to)?;
    add_titled_line(alloc, out, b"names", path.as_bytes(), text.as_bytes())
}

/// Adds a bar, with its number of entries.
#[tactic(auto, unfolding(crate::specs::ShapeMarks::bar_shape))]
fn add_bar(
    alloc: Global,
    out: &mut Markup,
    report: &Report,
    tops: &[u64],
    from: Spot,
    to: Spot,
    entries: usize,
) -> Result<(), AllocError>
    ensures { OnOk result (out.new ≡ out.old
        ++ bar_shape (report_of report.now) tops.now from to entries) }
{
    let text = bar_words(alloc, entries, machine_name(report, from.lane))?;
    let path = spots_path(alloc, tops, from, to)?;
    let place = count_text(alloc, tops, from)?;
    let count = entries.to_string(alloc)?;
    let mut inner = Markup::new(alloc);
    add_titled_line(alloc, &mut inner, b"bar", path.as_bytes(), text.as_bytes())?;
    add_words(
        alloc,
        &mut inner,
        b"count",
        place.as_bytes(),
        count.as_bytes(),
    )?;
    out.add(&inner)
}

/// Adds the light of a broken rule.
#[tactic(auto, unfolding(crate::specs::ShapeMarks::light_shape))]
fn add_light(
    alloc: Global,
    out: &mut Markup,
    report: &Report,
    tops: &[u64],
    at: Spot,
    rule: usize,
) -> Result<(), AllocError>
    ensures { OnOk result (out.new ≡ out.old
        ++ light_shape (report_of report.now) tops.now at rule) }
{
    let place = spot_text(alloc, tops, at)?;
    let text = light_words(alloc, rule_name(report, rule))?;
    let path = b"M-16 0a16 16 0 1 0 32 0a16 16 0 1 0 -32 0z";
    add_mark(
        alloc,
        out,
        b"light",
        place.as_bytes(),
        text.as_bytes(),
        path,
        BELOW,
        b"",
    )
}

/// Adds the mark of a survivor: a reference to its row in the table of entries.
#[tactic(auto, unfolding(crate::specs::ShapeMarks::entry_shape))]
fn add_entry(
    alloc: Global,
    out: &mut Markup,
    report: &Report,
    tops: &[u64],
    at: Spot,
    place: usize,
    number: u32,
    kind: &str,
    digest: &[u8; 32],
) -> Result<(), AllocError>
    ensures { OnOk result (out.new ≡ out.old
        ++ entry_shape (report_of report.now) tops.now at place number kind.now digest.now) }
{
    let name = entry_name(alloc, machine_name(report, at.lane), number)?;
    let digits = first_digits(alloc, digest)?;
    let text = survivor_words(alloc, name.as_str(), kind, digits.as_str())?;
    let inner = entry_inner(alloc, text.as_bytes(), number, kind.as_bytes())?;
    let attributes = entry_attributes(alloc, tops, at, place, kind.as_bytes())?;
    out.add_element(alloc, Tag::A, &attributes, &inner)
}

/// Adds the mark of a gap.
#[tactic(auto, unfolding(crate::specs::ShapeMarks::gap_shape))]
fn add_gap(
    alloc: Global,
    out: &mut Markup,
    tops: &[u64],
    at: Spot,
    digest: &[u8; 32],
) -> Result<(), AllocError>
    ensures { OnOk result (out.new ≡ out.old
        ++ gap_shape tops.now at digest.now) }
{
    let digits = first_digits(alloc, digest)?;
    let text = two_words(alloc, "gap ", digits.as_str())?;
    let x = x_of_gap(at);
    let y = y_of(tops, at);
    let place = place_text(alloc, x, y)?;
    let path = b"M-8 0a8 8 0 1 0 16 0a8 8 0 1 0 -16 0z";
    let beside = b"translate(14 4)";
    let words = text.as_bytes();
    add_mark(
        alloc,
        out,
        b"gap",
        place.as_bytes(),
        words,
        path,
        beside,
        words,
    )
}

/// Adds an arrow to a gap.
#[tactic(auto, unfolding(crate::specs::ShapeMarks::loss_shape))]
fn add_loss(
    alloc: Global,
    out: &mut Markup,
    report: &Report,
    tops: &[u64],
    from: Spot,
    number: u32,
    to: Spot,
) -> Result<(), AllocError>
    ensures { OnOk result (out.new ≡ out.old
        ++ loss_shape (report_of report.now) tops.now from number to) }
{
    let name = entry_name(alloc, machine_name(report, from.lane), number)?;
    let text = two_words(alloc, name.as_str(), " names a gap")?;
    let x = x_of(from);
    let y = y_of(tops, from);
    let to_x = x_of_gap(to);
    let to_y = y_of(tops, to);
    let path = path_between(alloc, x, y, to_x, to_y)?;
    add_titled_line(alloc, out, b"loss", path.as_bytes(), text.as_bytes())
}

/// Adds the mark of a fork.
#[tactic(auto, unfolding(crate::specs::ShapeMarks::fork_shape))]
fn add_fork(
    alloc: Global,
    out: &mut Markup,
    report: &Report,
    tops: &[u64],
    from: Spot,
    to: Spot,
    number: u32,
) -> Result<(), AllocError>
    ensures { OnOk result (out.new ≡ out.old
        ++ fork_shape (report_of report.now) tops.now from to number) }
{
    let name = entry_name(alloc, machine_name(report, from.lane), number)?;
    let text = two_words(alloc, "fork ", name.as_str())?;
    let path = fork_path(alloc, tops, from, to)?;
    let place = fork_text(alloc, tops, from)?;
    let mut inner = Markup::new(alloc);
    add_titled_line(alloc, &mut inner, b"fork", path.as_bytes(), text.as_bytes())?;
    add_words(alloc, &mut inner, b"above", place.as_bytes(), b"fork")?;
    out.add(&inner)
}

/// Adds the mark of a stray.
#[tactic(auto, unfolding(crate::specs::ShapeMarks::stray_shape))]
fn add_stray(
    alloc: Global,
    out: &mut Markup,
    tops: &[u64],
    at: Spot,
    order: usize,
    digest: &[u8; 32],
) -> Result<(), AllocError>
    ensures { OnOk result (out.new ≡ out.old
        ++ stray_shape tops.now at order digest.now) }
{
    let digits = first_digits(alloc, digest)?;
    let text = two_words(alloc, "stray ", digits.as_str())?;
    let place = after_text(alloc, tops, at, order)?;
    let words = text.as_bytes();
    let path = b"M0 -10L10 0L0 10L-10 0z";
    add_mark(
        alloc,
        out,
        b"stray",
        place.as_bytes(),
        words,
        path,
        BELOW,
        words,
    )
}

/// Adds the mark of a refused record.
#[tactic(auto, unfolding(crate::specs::ShapeMarks::refused_shape))]
fn add_refused(
    alloc: Global,
    out: &mut Markup,
    report: &Report,
    tops: &[u64],
    at: Spot,
    order: usize,
    log: usize,
    record_at: u32,
    cause: &str,
) -> Result<(), AllocError>
    ensures { OnOk result (out.new ≡ out.old
        ++ refused_shape (report_of report.now) tops.now at order log record_at cause.now) }
{
    let text = refused_words(alloc, file_name(report, log), record_at, cause)?;
    let place = after_text(alloc, tops, at, order)?;
    let path = b"M-7 -7L7 7M-7 7L7 -7";
    add_mark(
        alloc,
        out,
        b"refused",
        place.as_bytes(),
        text.as_bytes(),
        path,
        BELOW,
        b"",
    )
}

/// Adds the mark of a log that ends inside a record.
fn add_torn(
    alloc: Global,
    out: &mut Markup,
    report: &Report,
    tops: &[u64],
    at: Spot,
    order: usize,
    log: usize,
    offset: u64,
) -> Result<(), AllocError>
    ensures { OnOk result (out.new ≡ out.old
        ++ torn_shape (report_of report.now) tops.now at order log offset) }
{
    let text = torn_words(alloc, file_name(report, log), offset)?;
    add_end(alloc, out, tops, at, order, text.as_bytes(), b"torn")
}

/// Adds the mark of a log that ends at a byte which isn't allowed there.
fn add_malformed(
    alloc: Global,
    out: &mut Markup,
    report: &Report,
    tops: &[u64],
    at: Spot,
    order: usize,
    log: usize,
    offset: u64,
    cause: &str,
) -> Result<(), AllocError>
    ensures { OnOk result (out.new ≡ out.old
        ++ malformed_shape (report_of report.now) tops.now at order log offset cause.now) }
{
    let text = malformed_words(alloc, file_name(report, log), offset, cause)?;
    add_end(alloc, out, tops, at, order, text.as_bytes(), b"malformed")
}

/// Adds the mark of an end that isn't clean.
fn add_ending(
    alloc: Global,
    out: &mut Markup,
    report: &Report,
    tops: &[u64],
    at: Spot,
    order: usize,
    log: usize,
    end: End,
) -> Result<(), AllocError>
    ensures { OnOk result (out.new ≡ out.old
        ++ ending_shape (report_of report.now) tops.now at order log end) }
{
    match end {
        End::Clean => Ok(()),
        End::Torn(offset) => add_torn(alloc, out, report, tops, at, order, log, offset),
        End::Malformed(offset, why) => {
            add_malformed(alloc, out, report, tops, at, order, log, offset, why.word())
        }
    }
}

/// Adds the mark of a break.
#[tactic(auto, unfolding(crate::specs::ShapeMarks::break_shape))]
fn add_break(
    alloc: Global,
    out: &mut Markup,
    report: &Report,
    tops: &[u64],
    at: Spot,
    order: usize,
    log: usize,
    record_at: u32,
) -> Result<(), AllocError>
    ensures { OnOk result (out.new ≡ out.old
        ++ break_shape (report_of report.now) tops.now at order log record_at) }
{
    let text = break_words(alloc, file_name(report, log), record_at)?;
    let place = after_text(alloc, tops, at, order)?;
    let path = b"M-4 -10V10M4 -10V10";
    add_mark(
        alloc,
        out,
        b"break",
        place.as_bytes(),
        text.as_bytes(),
        path,
        BELOW,
        b"break",
    )
}

/// Adds a mark at the end of a log; other shapes are none.
fn add_log_mark(
    alloc: Global,
    out: &mut Markup,
    report: &Report,
    tops: &[u64],
    shape: &Shape,
) -> Result<(), AllocError>
    ensures { OnOk result (out.new ≡ out.old
        ++ drawn_log_mark (report_of report.now) tops.now shape.now) }
{
    match *shape {
        Shape::Refused {
            at,
            order,
            log,
            place,
            fault,
        } => {
            let cause = fault.word();
            add_refused(alloc, out, report, tops, at, order, log, place, cause)
        }
        Shape::Ending {
            at,
            order,
            log,
            end,
        } => add_ending(alloc, out, report, tops, at, order, log, end),
        Shape::Break {
            at,
            order,
            log,
            place,
        } => add_break(alloc, out, report, tops, at, order, log, place),
        _ => Ok(()),
    }
}

/// Adds a shape.
fn add_shape(
    alloc: Global,
    out: &mut Markup,
    report: &Report,
    tops: &[u64],
    shape: &Shape,
) -> Result<(), AllocError>
    ensures { OnOk result (out.new ≡ out.old
        ++ drawn_shape (report_of report.now) tops.now shape.now) }
{
    match *shape {
        Shape::Lane { end, logs } => add_lane(alloc, out, report, tops, end, logs),
        Shape::Log { end, log } => add_log(alloc, out, report, tops, end, log),
        Shape::Arrow {
            from,
            number,
            to,
            named,
        } => add_arrow(alloc, out, report, tops, from, number, to, named),
        Shape::Bar { from, to, entries } => add_bar(alloc, out, report, tops, from, to, entries),
        Shape::Light { at, rule } => add_light(alloc, out, report, tops, at, rule),
        Shape::Entry {
            at,
            place,
            number,
            deed,
            digest,
        } => {
            let kind = deed_word(deed);
            add_entry(alloc, out, report, tops, at, place, number, kind, &digest)
        }
        Shape::Gap { at, digest } => add_gap(alloc, out, tops, at, &digest),
        Shape::Loss { from, number, to } => add_loss(alloc, out, report, tops, from, number, to),
        Shape::Fork { from, to, number } => add_fork(alloc, out, report, tops, from, to, number),
        Shape::Stray { at, order, digest } => add_stray(alloc, out, tops, at, order, &digest),
        _ => add_log_mark(alloc, out, report, tops, shape),
    }
}

/// Adds a shape, and a new line after it.
pub(crate) fn add_shape_line(
    alloc: Global,
    out: &mut Markup,
    report: &Report,
    tops: &[u64],
    shape: &Shape,
) -> Result<(), AllocError>
    ensures { OnOk result (out.new ≡ out.old
        ++ shape_line (report_of report.now) tops.now shape.now) }
{
    let mut inner = Markup::new(alloc);
    add_shape(alloc, &mut inner, report, tops, shape)?;
    inner.add_text(alloc, b"\n")?;
    out.add(&inner)
}
