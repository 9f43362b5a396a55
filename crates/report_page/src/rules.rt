//! The rules, by what is answered of them.
ghost use Rattle.std.specs.Prelude.{◌≡◌, ◌++◌, ◌∷◌, [], IfOk, OnOk, Some, slice_get, slice_index_or};
ghost use Rattle.report_page.specs.Cells.{passed_texts};
ghost use Rattle.rule_language.specs.Forms.{rule_tree};
ghost use Rattle.auditor.specs.Report.{report_of};
ghost use Rattle.report_page.specs.Rules.{
  broken_cells,
  is_answered,
  is_standard,
  judged_rows,
  rule_at,
  rule_row,
  rule_rows,
  sentence_of,
};

use crate::cell::{TableRow, TableRows, add_linked, add_text};
use crate::words::SENTENCES;
use auditor::Report;
use rule_engine::Verdict;
use rule_language::{Rule, STANDARD, write};
use std::alloc::{AllocError, Global};
use std::slice;

/// What is answered of rules.
#[derive(Clone, Copy)]
pub enum Which {
    AreKept,
    AreBroken,
    AreUnsettled,
}

/// Whether the rules are the standard ones.
pub(crate) fn is_standard(alloc: Global, report: &Report) -> Result<bool, AllocError>
    ensures { IfOk result (λ standard. standard ≡ is_standard (report_of report.now)) }
{
    let text = write(alloc, report.rules())?;
    Ok(text.as_slice() == STANDARD.as_bytes())
}

/// The text at a place, or nothing.
fn text_at<'a>(texts: &[&'a str], place: usize) -> &'a str
    ensures { result.now ≡ slice_index_or (passed_texts texts.now) place [] }
{
    if place < texts.len() {
        texts[place]
    } else {
        ""
    }
}

/// What the standard rule at a place says, or nothing.
fn sentence_of(standard: bool, place: usize) -> &'static str
    ensures { result.now ≡ sentence_of standard place }
{
    if standard {
        text_at(SENTENCES, place)
    } else {
        ""
    }
}

/// Whether this is answered of a rule.
fn is_answered(which: Which, verdict: &Verdict) -> bool
    ensures { result ≡ is_answered which verdict.now }
{
    matches!(
        (which, verdict),
        (Which::AreKept, Verdict::Kept)
            | (Which::AreBroken, Verdict::Broken(_))
            | (Which::AreUnsettled, Verdict::Unsettled)
    )
}

/// Adds the survivors by which a rule is broken.
fn add_broken(row: &mut TableRow, alloc: Global, verdict: &Verdict) -> Result<(), AllocError>
    ensures { OnOk result (row.new ≡ row.old ++ broken_cells verdict.now) }
{
    match verdict {
        Verdict::Broken(places) => add_linked(row, alloc, b"", places.as_slice()),
        _ => Ok(()),
    }
}

/// Adds the row of a rule.
fn add_rule(
    rows: &mut TableRows,
    alloc: Global,
    standard: bool,
    place: usize,
    rule: &Rule,
    verdict: &Verdict,
) -> Result<(), AllocError>
    ensures { OnOk result (rows.new ≡ rows.old
        ++ rule_row standard place (rule_tree rule.now) verdict.now ∷ []) }
{
    let text = write(alloc, slice::from_ref(rule))?;
    let mut row = TableRow::new(alloc);
    add_text(&mut row, alloc, rule.name.as_str().as_bytes())?;
    add_text(&mut row, alloc, text.as_slice())?;
    add_text(&mut row, alloc, sentence_of(standard, place).as_bytes())?;
    add_broken(&mut row, alloc, verdict)?;
    rows.push(row)
}

/// Adds the row of a rule with its verdict, if this is answered of it.
fn add_judged(
    rows: &mut TableRows,
    alloc: Global,
    which: Which,
    standard: bool,
    place: usize,
    rule: &Rule,
    verdict: &Verdict,
) -> Result<(), AllocError>
    ensures { OnOk result (rows.new ≡ rows.old ++ judged_rows which standard place
        (Some (rule_tree rule.now)) (Some verdict.now)) }
{
    if is_answered(which, verdict) {
        add_rule(rows, alloc, standard, place, rule, verdict)
    } else {
        Ok(())
    }
}

/// Adds the row of a rule, if this is answered of it by the verdict at the place.
fn add_judged_of(
    rows: &mut TableRows,
    alloc: Global,
    report: &Report,
    which: Which,
    standard: bool,
    place: usize,
    rule: &Rule,
) -> Result<(), AllocError>
    ensures { OnOk result (rows.new ≡ rows.old ++ judged_rows which standard place
        (Some (rule_tree rule.now)) (slice_get (report_of report.now).verdicts place)) }
{
    match report.verdicts().get(place) {
        Some(verdict) => add_judged(rows, alloc, which, standard, place, rule, verdict),
        None => Ok(()),
    }
}

/// Adds the row of the rule at a place, if this is answered of it.
fn add_rule_at(
    rows: &mut TableRows,
    alloc: Global,
    report: &Report,
    which: Which,
    standard: bool,
    place: usize,
) -> Result<(), AllocError>
    ensures { OnOk result (rows.new ≡ rows.old
        ++ rule_at which standard (report_of report.now) place) }
{
    match report.rules().get(place) {
        Some(rule) => add_judged_of(rows, alloc, report, which, standard, place, rule),
        None => Ok(()),
    }
}

/// The rows of the rules of which this is answered.
pub(crate) fn rule_rows(
    alloc: Global,
    report: &Report,
    which: Which,
    standard: bool,
) -> Result<TableRows, AllocError>
    ensures { IfOk result (λ rows. rows ≡ rule_rows which standard (report_of report.now)) }
{
    let mut rows = TableRows::new(alloc);
    for place in 0..report.verdicts().len() {
        add_rule_at(&mut rows, alloc, report, which, standard, place)?;
    }
    Ok(rows)
}
