//! The sections of the page.
ghost use Rattle.std.specs.Prelude.{◌≡◌, ◌++◌, ◌∷◌, [], IfOk, OnOk, map};
ghost use Rattle.auditor.specs.Report.{report_of};
ghost use Rattle.report_page.specs.Cells.{passed_texts};
ghost use Rattle.report_page.specs.Findings.{accusing_rows, loss_rows};
ghost use Rattle.report_page.specs.Rules.{is_standard};
ghost use Rattle.report_page.specs.Sections.{
  audited_section,
  entries_section,
  findings_section,
  gap_table,
  gaps_in,
  gaps_section,
  input_row,
  judged_rules,
  machines_section,
  maker_table,
  paragraphs,
  picture_section,
  report_section,
  titled_rules,
  rules_section,
  rules_words,
  says,
  section,
  some_gaps,
  subtitle,
  titled_findings,
  verdict_section,
};

use crate::cell::{TableRow, TableRows, add_text};
use crate::entries::entry_rows;
use crate::findings::{accusing_rows, loss_rows};
use crate::gaps::{gap_rows, maker_rows};
use crate::input::{Input, digest_words, what_words};
use crate::machines::machine_rows;
use crate::rules::{Which, rule_rows};
use crate::tables::{add_marked_table, add_paragraph, add_plain, add_said, add_table, add_with};
use crate::words::{
    ACCUSES, AUDITED, BROKEN, BROKEN_TITLES, ENTRIES, ENTRIES_SAY, ENTRY_TITLES, FINDING_TITLES,
    FINDINGS, FINDINGS_SAY, GAP_TITLES, GAPS, GAPS_SAY, INPUT_TITLES, KEPT, LIMITS, LOSS,
    MACHINE_TITLES, MACHINES, MACHINES_SAY, MAKER_TITLES, MAKERS_SAY, NO_GAPS, OWN_RULES, PICTURE,
    PICTURE_SAYS, PROGRAM, REPORT, REPORT_SAYS, RULE_TITLES, RULES, RULES_SAY, SAYS_BROKEN,
    SAYS_FINDINGS, SAYS_KEPT, SAYS_UNSETTLED, STANDARD_RULES, UNSETTLED, VERDICT,
};
use auditor::{Outcome, Report, write_report};
use entangled_picture::add_picture;
use page_markup::{AttributeName, Markup, Tag};
use std::alloc::{AllocError, Global};

/// Adds a section with this title.
fn add_section(
    page: &mut Markup,
    alloc: Global,
    id: &str,
    title: &str,
    inner: &Markup,
) -> Result<(), AllocError>
    ensures { OnOk result (page.new ≡ page.old ++ section id.now title.now inner.now) }
{
    let mut all = Markup::new(alloc);
    add_said(&mut all, alloc, Tag::H2, title.as_bytes())?;
    all.add(inner)?;
    add_with(
        page,
        alloc,
        Tag::Section,
        AttributeName::Id,
        id.as_bytes(),
        &all,
    )
}

/// Adds a title within a section.
fn add_subtitle(out: &mut Markup, alloc: Global, said: &str) -> Result<(), AllocError>
    ensures { OnOk result (out.new ≡ out.old ++ subtitle said.now) }
{
    add_said(out, alloc, Tag::H3, said.as_bytes())
}

/// Adds paragraphs.
fn add_paragraphs(out: &mut Markup, alloc: Global, texts: &[&str]) -> Result<(), AllocError>
    ensures { OnOk result (out.new ≡ out.old ++ paragraphs (passed_texts texts.now)) }
{
    for said in texts {
        add_paragraph(out, alloc, said)?;
    }
    Ok(())
}

/// What a report comes to, in a sentence.
fn says(outcome: Outcome) -> &'static str
    ensures { result.now ≡ says outcome }
{
    match outcome {
        Outcome::Kept => SAYS_KEPT,
        Outcome::Findings => SAYS_FINDINGS,
        Outcome::Unsettled => SAYS_UNSETTLED,
        Outcome::Broken => SAYS_BROKEN,
    }
}

/// Adds what the report comes to, and what it doesn't say.
pub(crate) fn add_verdict(
    page: &mut Markup,
    alloc: Global,
    report: &Report,
) -> Result<(), AllocError>
    ensures { OnOk result (page.new ≡ page.old ++ verdict_section (report_of report.now)) }
{
    let said = says(report.outcome());
    let mut strong = Markup::new(alloc);
    add_said(&mut strong, alloc, Tag::Strong, said.as_bytes())?;
    let mut inner = Markup::new(alloc);
    add_plain(&mut inner, alloc, Tag::P, &strong)?;
    add_paragraphs(&mut inner, alloc, LIMITS)?;
    add_section(page, alloc, "verdict", VERDICT, &inner)
}

/// Adds the row of an input.
fn add_input(rows: &mut TableRows, alloc: Global, input: &Input) -> Result<(), AllocError>
    ensures { OnOk result (rows.new ≡ rows.old ++ input_row input.now ∷ []) }
{
    let what = what_words(alloc, input.what)?;
    let digest = digest_words(alloc, input.digest)?;
    let mut row = TableRow::new(alloc);
    add_text(&mut row, alloc, what.as_slice())?;
    add_text(&mut row, alloc, input.name.as_slice())?;
    add_text(&mut row, alloc, digest.as_slice())?;
    rows.push(row)
}

/// The rows of the inputs.
fn input_rows(alloc: Global, inputs: &[Input]) -> Result<TableRows, AllocError>
    ensures { IfOk result (λ rows. rows ≡ map input_row inputs.now) }
{
    let mut rows = TableRows::new(alloc);
    for input in inputs {
        add_input(&mut rows, alloc, input)?;
    }
    Ok(rows)
}

/// Whether the rules are the standard ones, in words.
fn rules_words(standard: bool) -> &'static str
    ensures { result.now ≡ rules_words standard }
{
    if standard { STANDARD_RULES } else { OWN_RULES }
}

/// Adds what was audited, by which rules, and by which program.
pub(crate) fn add_audited(
    page: &mut Markup,
    alloc: Global,
    report: &Report,
    inputs: &[Input],
    standard: bool,
) -> Result<(), AllocError>
    requires { standard ≡ is_standard (report_of report.now) }
    ensures { OnOk result (page.new
        ≡ page.old ++ audited_section (report_of report.now) inputs.now) }
{
    let rows = input_rows(alloc, inputs)?;
    let mut inner = Markup::new(alloc);
    add_table(&mut inner, alloc, report, INPUT_TITLES, rows.as_slice())?;
    add_paragraph(&mut inner, alloc, rules_words(standard))?;
    add_paragraph(&mut inner, alloc, PROGRAM)?;
    add_section(page, alloc, "audited", AUDITED, &inner)
}

/// Adds the machines.
pub(crate) fn add_machines(
    page: &mut Markup,
    alloc: Global,
    report: &Report,
) -> Result<(), AllocError>
    ensures { OnOk result (page.new ≡ page.old ++ machines_section (report_of report.now)) }
{
    let rows = machine_rows(alloc, report)?;
    let mut inner = Markup::new(alloc);
    add_paragraph(&mut inner, alloc, MACHINES_SAY)?;
    add_table(&mut inner, alloc, report, MACHINE_TITLES, rows.as_slice())?;
    add_section(page, alloc, "machines", MACHINES, &inner)
}

/// Adds lines of the report with what to do next, after a title.
fn add_titled_findings(
    out: &mut Markup,
    alloc: Global,
    report: &Report,
    title: &str,
    rows: &[TableRow],
) -> Result<(), AllocError>
    ensures { OnOk result (out.new ≡ out.old
        ++ titled_findings (report_of report.now) title.now rows.now) }
{
    add_subtitle(out, alloc, title)?;
    add_table(out, alloc, report, FINDING_TITLES, rows)
}

/// Adds what accuses.
fn add_accusing(
    out: &mut Markup,
    alloc: Global,
    report: &Report,
    standard: bool,
) -> Result<(), AllocError>
    ensures { OnOk result (out.new ≡ out.old ++ titled_findings (report_of report.now) ACCUSES.now
        (accusing_rows standard (report_of report.now))) }
{
    let rows = accusing_rows(alloc, report, standard)?;
    add_titled_findings(out, alloc, report, ACCUSES, rows.as_slice())
}

/// Adds what may be loss alone.
fn add_loss(out: &mut Markup, alloc: Global, report: &Report) -> Result<(), AllocError>
    ensures { OnOk result (out.new ≡ out.old ++ titled_findings (report_of report.now) LOSS.now
        (loss_rows (report_of report.now))) }
{
    let rows = loss_rows(alloc, report)?;
    add_titled_findings(out, alloc, report, LOSS, rows.as_slice())
}

/// Adds what accuses, and what may be loss alone.
pub(crate) fn add_findings(
    page: &mut Markup,
    alloc: Global,
    report: &Report,
    standard: bool,
) -> Result<(), AllocError>
    requires { standard ≡ is_standard (report_of report.now) }
    ensures { OnOk result (page.new ≡ page.old ++ findings_section (report_of report.now)) }
{
    let mut inner = Markup::new(alloc);
    add_paragraph(&mut inner, alloc, FINDINGS_SAY)?;
    add_accusing(&mut inner, alloc, report, standard)?;
    add_loss(&mut inner, alloc, report)?;
    add_section(page, alloc, "findings", FINDINGS, &inner)
}

/// Adds who names each gap.
fn add_gap_table(out: &mut Markup, alloc: Global, report: &Report) -> Result<(), AllocError>
    ensures { OnOk result (out.new ≡ out.old ++ gap_table (report_of report.now)) }
{
    let rows = gap_rows(alloc, report)?;
    add_paragraph(out, alloc, GAPS_SAY)?;
    add_table(out, alloc, report, GAP_TITLES, rows.as_slice())
}

/// Adds whose the lost entries could be.
fn add_maker_table(out: &mut Markup, alloc: Global, report: &Report) -> Result<(), AllocError>
    ensures { OnOk result (out.new ≡ out.old ++ maker_table (report_of report.now)) }
{
    let rows = maker_rows(alloc, report)?;
    add_paragraph(out, alloc, MAKERS_SAY)?;
    add_table(out, alloc, report, MAKER_TITLES, rows.as_slice())
}

/// What is said of gaps, where there are some.
fn some_gaps(alloc: Global, report: &Report) -> Result<Markup, AllocError>
    ensures { IfOk result (λ inner. inner ≡ some_gaps (report_of report.now)) }
{
    let mut inner = Markup::new(alloc);
    add_gap_table(&mut inner, alloc, report)?;
    add_maker_table(&mut inner, alloc, report)?;
    Ok(inner)
}

/// What is said of gaps.
fn gaps_in(alloc: Global, report: &Report) -> Result<Markup, AllocError>
    ensures { IfOk result (λ inner. inner
        ≡ gaps_in (report_of report.now) (report_of report.now).graph.gaps) }
{
    if report.graph().gaps().is_empty() {
        let mut inner = Markup::new(alloc);
        add_paragraph(&mut inner, alloc, NO_GAPS)?;
        Ok(inner)
    } else {
        some_gaps(alloc, report)
    }
}

/// Adds the gaps.
pub(crate) fn add_gaps(page: &mut Markup, alloc: Global, report: &Report) -> Result<(), AllocError>
    ensures { OnOk result (page.new ≡ page.old ++ gaps_section (report_of report.now)) }
{
    let inner = gaps_in(alloc, report)?;
    add_section(page, alloc, "gaps", GAPS, &inner)
}

/// Adds the rules of which this is answered, after a title.
fn add_titled_rules(
    out: &mut Markup,
    alloc: Global,
    report: &Report,
    standard: bool,
    title: &str,
    which: Which,
    titles: &[&str],
) -> Result<(), AllocError>
    ensures { OnOk result (out.new ≡ out.old
        ++ titled_rules (report_of report.now) standard title.now which (passed_texts titles.now)) }
{
    let rows = rule_rows(alloc, report, which, standard)?;
    add_subtitle(out, alloc, title)?;
    add_table(out, alloc, report, titles, rows.as_slice())
}

/// Adds broken rules, unsettled ones, and kept ones.
fn add_judged_rules(
    out: &mut Markup,
    alloc: Global,
    report: &Report,
    standard: bool,
) -> Result<(), AllocError>
    ensures { OnOk result (out.new ≡ out.old ++ judged_rules (report_of report.now) standard) }
{
    add_titled_rules(
        out,
        alloc,
        report,
        standard,
        BROKEN,
        Which::AreBroken,
        BROKEN_TITLES,
    )?;
    add_titled_rules(
        out,
        alloc,
        report,
        standard,
        UNSETTLED,
        Which::AreUnsettled,
        RULE_TITLES,
    )?;
    add_titled_rules(
        out,
        alloc,
        report,
        standard,
        KEPT,
        Which::AreKept,
        RULE_TITLES,
    )
}

/// Adds the rules.
pub(crate) fn add_rules(
    page: &mut Markup,
    alloc: Global,
    report: &Report,
    standard: bool,
) -> Result<(), AllocError>
    requires { standard ≡ is_standard (report_of report.now) }
    ensures { OnOk result (page.new ≡ page.old ++ rules_section (report_of report.now)) }
{
    let mut inner = Markup::new(alloc);
    add_paragraph(&mut inner, alloc, RULES_SAY)?;
    add_judged_rules(&mut inner, alloc, report, standard)?;
    add_section(page, alloc, "rules", RULES, &inner)
}

/// Adds the entries that survive.
pub(crate) fn add_entries(
    page: &mut Markup,
    alloc: Global,
    report: &Report,
) -> Result<(), AllocError>
    ensures { OnOk result (page.new ≡ page.old ++ entries_section (report_of report.now)) }
{
    let rows = entry_rows(alloc, report)?;
    let mut inner = Markup::new(alloc);
    add_paragraph(&mut inner, alloc, ENTRIES_SAY)?;
    add_marked_table(&mut inner, alloc, report, ENTRY_TITLES, rows.as_slice())?;
    add_section(page, alloc, "entries", ENTRIES, &inner)
}

/// Adds the picture.
pub(crate) fn add_drawing(
    page: &mut Markup,
    alloc: Global,
    report: &Report,
) -> Result<(), AllocError>
    ensures { OnOk result (page.new ≡ page.old ++ picture_section (report_of report.now)) }
{
    let mut drawing = Markup::new(alloc);
    add_picture(alloc, &mut drawing, report)?;
    let mut inner = Markup::new(alloc);
    add_paragraph(&mut inner, alloc, PICTURE_SAYS)?;
    add_with(
        &mut inner,
        alloc,
        Tag::Div,
        AttributeName::Class,
        b"wide",
        &drawing,
    )?;
    add_section(page, alloc, "picture", PICTURE, &inner)
}

/// Adds the report as `audit` prints it.
pub(crate) fn add_report(
    page: &mut Markup,
    alloc: Global,
    report: &Report,
) -> Result<(), AllocError>
    ensures { OnOk result (page.new ≡ page.old ++ report_section (report_of report.now)) }
{
    let text = write_report(alloc, report)?;
    let mut inner = Markup::new(alloc);
    add_paragraph(&mut inner, alloc, REPORT_SAYS)?;
    add_said(&mut inner, alloc, Tag::Pre, text.as_slice())?;
    add_section(page, alloc, "report", REPORT, &inner)
}
