//! How tables stand in the page.
ghost use Rattle.std.specs.Prelude.{◌≡◌, ◌++◌, [], IfOk, OnOk, Some, slice_get, string_bytes};
ghost use Rattle.std.specs.List.{flat_map};
ghost use Rattle.auditor.specs.Report.{report_of};
ghost use Rattle.page_markup.specs.Elements.{attribute, element};
ghost use Rattle.page_markup.specs.Escaping.{escaped};
ghost use Rattle.report_page.specs.Cells.{passed_texts};
ghost use Rattle.report_page.specs.Tables.{
  cell_markup,
  cells_markup,
  survivor_name,
  head_markup,
  link,
  marked_row,
  marked_rows,
  marked_table,
  paragraph,
  row_markup,
  table,
  table_of,
  title_markup,
  titles_markup,
};

use crate::cell::{Cell, TableRow};
use crate::names::name_of;
use crate::words::NOTHING;
use auditor::Report;
use entry_format::Sealed;
use page_markup::{AttributeName, Attributes, Markup, Tag};
use precedence::Arrows;
use std::alloc::{AllocError, Global};

/// Adds an element without attributes.
pub(crate) fn add_plain(
    out: &mut Markup,
    alloc: Global,
    tag: Tag,
    inner: &Markup,
) -> Result<(), AllocError>
    ensures { OnOk result (out.new ≡ out.old ++ element tag [] inner.now) }
{
    out.add_element(alloc, tag, &Attributes::new(alloc), inner)
}

/// Adds an element with one attribute.
pub(crate) fn add_with(
    out: &mut Markup,
    alloc: Global,
    tag: Tag,
    name: AttributeName,
    value: &[u8],
    inner: &Markup,
) -> Result<(), AllocError>
    ensures { OnOk result (out.new
        ≡ out.old ++ element tag (attribute name value.now) inner.now) }
{
    let mut attributes = Attributes::new(alloc);
    attributes.add(alloc, name, value)?;
    out.add_element(alloc, tag, &attributes, inner)
}

/// Adds an element with a text in it.
pub(crate) fn add_said(
    out: &mut Markup,
    alloc: Global,
    tag: Tag,
    said: &[u8],
) -> Result<(), AllocError>
    ensures { OnOk result (out.new ≡ out.old ++ element tag [] (escaped said.now)) }
{
    let mut inner = Markup::new(alloc);
    inner.add_text(alloc, said)?;
    add_plain(out, alloc, tag, &inner)
}

/// Adds a paragraph.
pub(crate) fn add_paragraph(out: &mut Markup, alloc: Global, said: &str) -> Result<(), AllocError>
    ensures { OnOk result (out.new ≡ out.old ++ paragraph said.now) }
{
    add_said(out, alloc, Tag::P, said.as_bytes())
}

/// The name of a survivor.
fn name_of_sealed(alloc: Global, report: &Report, sealed: &Sealed) -> Result<String, AllocError>
    ensures { IfOk result (λ name. string_bytes name
        ≡ survivor_name (report_of report.now) (Some sealed.now)) }
{
    let entry = sealed.entry();
    let name = name_of(report, entry.maker as usize);
    let number = entry.number;
    Ok(format!(in alloc; "{name}.{number}")?)
}

/// The name of the survivor at a place.
fn survivor_name(alloc: Global, report: &Report, place: u32) -> Result<String, AllocError>
    ensures { IfOk result (λ name. string_bytes name ≡ survivor_name (report_of report.now)
        (slice_get (report_of report.now).graph.survivors place)) }
{
    let graph = report.graph();
    if (place as usize) < graph.count() {
        name_of_sealed(alloc, report, graph.node(place as usize))
    } else {
        Ok(String::new(alloc))
    }
}

/// Adds a link to the row of a survivor, and a space.
fn add_link(out: &mut Markup, alloc: Global, report: &Report, place: u32) -> Result<(), AllocError>
    ensures { OnOk result (out.new ≡ out.old ++ link (report_of report.now) place) }
{
    let name = survivor_name(alloc, report, place)?;
    let to = format!(in alloc; "#e{place}")?;
    let mut inner = Markup::new(alloc);
    inner.add_text(alloc, name.as_bytes())?;
    add_with(
        out,
        alloc,
        Tag::A,
        AttributeName::Href,
        to.as_bytes(),
        &inner,
    )?;
    out.add_text(alloc, b" ")
}

/// Adds the links of a cell.
fn add_links(
    out: &mut Markup,
    alloc: Global,
    report: &Report,
    places: &[u32],
) -> Result<(), AllocError>
    ensures { OnOk result (out.new
        ≡ out.old ++ flat_map (link (report_of report.now)) places.now) }
{
    for &place in places {
        add_link(out, alloc, report, place)?;
    }
    Ok(())
}

/// Adds a cell.
fn add_cell(out: &mut Markup, alloc: Global, report: &Report, cell: &Cell) -> Result<(), AllocError>
    ensures { OnOk result (out.new ≡ out.old ++ cell_markup (report_of report.now) cell.now) }
{
    let mut inner = Markup::new(alloc);
    inner.add_text(alloc, cell.said.as_slice())?;
    add_links(&mut inner, alloc, report, cell.places.as_slice())?;
    add_plain(out, alloc, Tag::Td, &inner)
}

/// The cells of a row.
fn cells_of(alloc: Global, report: &Report, row: &[Cell]) -> Result<Markup, AllocError>
    ensures { IfOk result (λ cells. cells ≡ cells_markup (report_of report.now) row.now) }
{
    let mut cells = Markup::new(alloc);
    for cell in row {
        add_cell(&mut cells, alloc, report, cell)?;
    }
    Ok(cells)
}

/// Adds a row.
fn add_row(out: &mut Markup, alloc: Global, report: &Report, row: &[Cell]) -> Result<(), AllocError>
    ensures { OnOk result (out.new ≡ out.old ++ row_markup (report_of report.now) row.now) }
{
    let cells = cells_of(alloc, report, row)?;
    add_plain(out, alloc, Tag::Tr, &cells)
}

/// Adds a row to which there are links by its number.
fn add_marked_row(
    out: &mut Markup,
    alloc: Global,
    report: &Report,
    number: usize,
    row: &[Cell],
) -> Result<(), AllocError>
    ensures { OnOk result (out.new
        ≡ out.old ++ marked_row (report_of report.now) number row.now) }
{
    let cells = cells_of(alloc, report, row)?;
    let id = format!(in alloc; "e{number}")?;
    add_with(
        out,
        alloc,
        Tag::Tr,
        AttributeName::Id,
        id.as_bytes(),
        &cells,
    )
}

/// Adds the titles of the columns.
fn add_head(out: &mut Markup, alloc: Global, titles: &[&str]) -> Result<(), AllocError>
    ensures { OnOk result (out.new ≡ out.old ++ head_markup (passed_texts titles.now)) }
{
    let mut cells = Markup::new(alloc);
    add_titles(&mut cells, alloc, titles)?;
    let mut row = Markup::new(alloc);
    add_plain(&mut row, alloc, Tag::Tr, &cells)?;
    add_plain(out, alloc, Tag::Thead, &row)
}

/// Adds the title of a column.
fn add_title(out: &mut Markup, alloc: Global, title: &str) -> Result<(), AllocError>
    ensures { OnOk result (out.new ≡ out.old ++ title_markup title.now) }
{
    let mut inner = Markup::new(alloc);
    inner.add_text(alloc, title.as_bytes())?;
    add_with(out, alloc, Tag::Th, AttributeName::Scope, b"col", &inner)
}

/// Adds the titles of columns.
fn add_titles(out: &mut Markup, alloc: Global, titles: &[&str]) -> Result<(), AllocError>
    ensures { OnOk result (out.new ≡ out.old ++ titles_markup (passed_texts titles.now)) }
{
    for title in titles {
        add_title(out, alloc, title)?;
    }
    Ok(())
}

/// Adds a table with these rows.
fn add_table_of(
    out: &mut Markup,
    alloc: Global,
    titles: &[&str],
    rows: &Markup,
) -> Result<(), AllocError>
    ensures { OnOk result (out.new ≡ out.old ++ table_of (passed_texts titles.now) rows.now) }
{
    let mut table = Markup::new(alloc);
    add_head(&mut table, alloc, titles)?;
    add_plain(&mut table, alloc, Tag::Tbody, rows)?;
    let mut inner = Markup::new(alloc);
    add_plain(&mut inner, alloc, Tag::Table, &table)?;
    add_with(out, alloc, Tag::Div, AttributeName::Class, b"wide", &inner)
}

/// The rows of a table.
fn rows_of(alloc: Global, report: &Report, rows: &[TableRow]) -> Result<Markup, AllocError>
    ensures { IfOk result (λ out. out ≡ flat_map (row_markup (report_of report.now)) rows.now) }
{
    let mut out = Markup::new(alloc);
    for row in rows {
        add_row(&mut out, alloc, report, row.as_slice())?;
    }
    Ok(out)
}

/// The rows of a table to which there are links by their numbers.
fn marked_rows_of(alloc: Global, report: &Report, rows: &[TableRow]) -> Result<Markup, AllocError>
    ensures { IfOk result (λ out. out ≡ marked_rows (report_of report.now) rows.now) }
{
    let mut out = Markup::new(alloc);
    for number in 0..rows.len() {
        add_marked_row(&mut out, alloc, report, number, rows[number].as_slice())?;
    }
    Ok(out)
}

/// Adds a table, or that there is nothing in it.
pub(crate) fn add_table(
    out: &mut Markup,
    alloc: Global,
    report: &Report,
    titles: &[&str],
    rows: &[TableRow],
) -> Result<(), AllocError>
    ensures { OnOk result (out.new
        ≡ out.old ++ table (report_of report.now) (passed_texts titles.now) rows.now) }
{
    if rows.is_empty() {
        return add_paragraph(out, alloc, NOTHING);
    }
    let rows = rows_of(alloc, report, rows)?;
    add_table_of(out, alloc, titles, &rows)
}

/// Adds a table to whose rows there are links by their numbers.
pub(crate) fn add_marked_table(
    out: &mut Markup,
    alloc: Global,
    report: &Report,
    titles: &[&str],
    rows: &[TableRow],
) -> Result<(), AllocError>
    ensures { OnOk result (out.new
        ≡ out.old ++ marked_table (report_of report.now) (passed_texts titles.now) rows.now) }
{
    let rows = marked_rows_of(alloc, report, rows)?;
    add_table_of(out, alloc, titles, &rows)
}
