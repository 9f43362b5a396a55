//! The page of a report.
ghost use Rattle.std.specs.Prelude.{◌≡◌, ◌++◌, IfOk, OnOk};
ghost use Rattle.auditor.specs.Report.{report_of};
ghost use Rattle.page_markup.specs.WellFormed.{IsDocument};
ghost use Rattle.report_page.specs.Rules.{is_standard};
ghost use Rattle.report_page.specs.Page.{
  charset_meta,
  first_sections,
  found_sections,
  last_sections,
  page_body,
  page_head,
  page_inner,
  page_text,
  viewport_meta,
};

use crate::input::Input;
use crate::rules::is_standard;
use crate::sections::{
    add_audited, add_drawing, add_entries, add_findings, add_gaps, add_machines, add_report,
    add_rules, add_verdict,
};
use crate::tables::{add_plain, add_said};
use crate::words::{STYLE, TITLE, VIEWPORT};
use auditor::Report;
use page_markup::{AttributeName, Attributes, Markup, Tag, VoidTag, html_document};
use std::alloc::{AllocError, Global};

/// Adds how the text is coded.
fn add_charset(out: &mut Markup, alloc: Global) -> Result<(), AllocError>
    ensures { OnOk result (out.new ≡ out.old ++ charset_meta) }
{
    let mut charset = Attributes::new(alloc);
    charset.add(alloc, AttributeName::Charset, b"utf-8")?;
    out.add_void(alloc, VoidTag::Meta, &charset)
}

/// Adds that the width is the screen's.
fn add_viewport(out: &mut Markup, alloc: Global) -> Result<(), AllocError>
    ensures { OnOk result (out.new ≡ out.old ++ viewport_meta) }
{
    let mut viewport = Attributes::new(alloc);
    viewport.add(alloc, AttributeName::Name, b"viewport")?;
    viewport.add(alloc, AttributeName::Content, VIEWPORT.as_bytes())?;
    out.add_void(alloc, VoidTag::Meta, &viewport)
}

/// Adds the head.
fn add_head(page: &mut Markup, alloc: Global) -> Result<(), AllocError>
    ensures { OnOk result (page.new ≡ page.old ++ page_head) }
{
    let mut head = Markup::new(alloc);
    add_charset(&mut head, alloc)?;
    add_viewport(&mut head, alloc)?;
    add_said(&mut head, alloc, Tag::Title, TITLE.as_bytes())?;
    add_said(&mut head, alloc, Tag::Style, STYLE.as_bytes())?;
    add_plain(page, alloc, Tag::Head, &head)
}

/// Adds what the report comes to, what was audited, and the machines.
fn add_first_sections(
    out: &mut Markup,
    alloc: Global,
    report: &Report,
    inputs: &[Input],
    standard: bool,
) -> Result<(), AllocError>
    requires { standard ≡ is_standard (report_of report.now) }
    ensures { OnOk result (out.new
        ≡ out.old ++ first_sections (report_of report.now) inputs.now) }
{
    add_verdict(out, alloc, report)?;
    add_audited(out, alloc, report, inputs, standard)?;
    add_machines(out, alloc, report)
}

/// Adds what was found.
fn add_found_sections(
    out: &mut Markup,
    alloc: Global,
    report: &Report,
    standard: bool,
) -> Result<(), AllocError>
    requires { standard ≡ is_standard (report_of report.now) }
    ensures { OnOk result (out.new ≡ out.old ++ found_sections (report_of report.now)) }
{
    add_findings(out, alloc, report, standard)?;
    add_gaps(out, alloc, report)?;
    add_rules(out, alloc, report, standard)
}

/// Adds what it was found in: the picture, the entries, and the report.
fn add_last_sections(out: &mut Markup, alloc: Global, report: &Report) -> Result<(), AllocError>
    ensures { OnOk result (out.new ≡ out.old ++ last_sections (report_of report.now)) }
{
    add_drawing(out, alloc, report)?;
    add_entries(out, alloc, report)?;
    add_report(out, alloc, report)
}

/// The title, and all sections.
fn page_inner(alloc: Global, report: &Report, inputs: &[Input]) -> Result<Markup, AllocError>
    ensures { IfOk result (λ inner. inner ≡ page_inner (report_of report.now) inputs.now) }
{
    let standard = is_standard(alloc, report)?;
    let mut inner = Markup::new(alloc);
    add_said(&mut inner, alloc, Tag::H1, TITLE.as_bytes())?;
    add_first_sections(&mut inner, alloc, report, inputs, standard)?;
    add_found_sections(&mut inner, alloc, report, standard)?;
    add_last_sections(&mut inner, alloc, report)?;
    Ok(inner)
}

/// Adds the body.
fn add_body(
    page: &mut Markup,
    alloc: Global,
    report: &Report,
    inputs: &[Input],
) -> Result<(), AllocError>
    ensures { OnOk result (page.new ≡ page.old ++ page_body (report_of report.now) inputs.now) }
{
    let inner = page_inner(alloc, report, inputs)?;
    add_plain(page, alloc, Tag::Body, &inner)
}

/// The page that shows the report on these inputs: an HTML document.
///
/// # Errors
///
/// Out of memory.
pub fn write_page(alloc: Global, report: &Report, inputs: &[Input]) -> Result<Vec<u8>, AllocError>
    ensures value { IfOk result (λ bytes.
        bytes.items ≡ page_text (report_of report.now) inputs.now) }
    ensures well_formed { IfOk result (λ bytes. ∥ IsDocument bytes.items ∥₁) }
{
    let mut page = Markup::new(alloc);
    add_head(&mut page, alloc)?;
    add_body(&mut page, alloc, report, inputs)?;
    let mut attributes = Attributes::new(alloc);
    attributes.add(alloc, AttributeName::Lang, b"en")?;
    html_document(alloc, &attributes, &page)
}
