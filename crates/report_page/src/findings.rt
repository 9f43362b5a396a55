//! What accuses, and what may be loss alone.
ghost use Rattle.std.specs.Prelude.{
  ◌≡◌,
  ◌++◌,
  ◌∷◌,
  [],
  IfOk,
  OnOk,
  Some,
  length,
  map,
  slice_get,
  codes,
  string_bytes,
};
ghost use Rattle.std.specs.List.{flat_map, zip};
ghost use Rattle.std.specs.Fmt.{decimal};
ghost use Rattle.log_files.specs.Lines.{refused_line};
ghost use Rattle.rule_language.specs.Forms.{rule_tree};
ghost use Rattle.auditor.specs.Report.{report_of};
ghost use Rattle.report_page.specs.Findings.{
  accusing_rows,
  break_finding,
  break_findings,
  broken_at,
  broken_findings,
  finding,
  digest_finding,
  fork_finding,
  all_broken,
  all_unsettled,
  log_accuses,
  log_torn,
  loss_rows,
  malformed_finding,
  malformed_findings,
  refused_finding,
  torn_finding,
  unsettled_at,
  unsettled_findings,
};

use crate::cell::{TableRow, TableRows, add_linked, add_text};
use crate::names::name_of;
use crate::words::{
    NEXT_BREAK, NEXT_BROKEN, NEXT_FORK, NEXT_GAP, NEXT_MALFORMED, NEXT_OWN, NEXT_REFUSED,
    NEXT_STRAY, NEXT_TORN, NEXT_UNSETTLED,
};
use auditor::Report;
use entry_format::EntryFault;
use log_files::{End, LogRead};
use rule_engine::Verdict;
use rule_language::Rule;
use std::alloc::{AllocError, Global};

/// Adds a row with a line of the report, the survivors that it names, and what to do next.
fn add_finding(
    rows: &mut TableRows,
    alloc: Global,
    said: &str,
    places: &[u32],
    next: &str,
) -> Result<(), AllocError>
    ensures { OnOk result (rows.new ≡ rows.old ++ finding said.now places.now next.now ∷ []) }
{
    let mut row = TableRow::new(alloc);
    add_linked(&mut row, alloc, said.as_bytes(), places)?;
    add_text(&mut row, alloc, next.as_bytes())?;
    rows.push(row)
}

/// The line on a refused record.
fn refused_words(alloc: Global, file: &str, place: u32, fault: &str) -> Result<String, AllocError>
    ensures { IfOk result (λ text. string_bytes text ≡ refused_line file.now place fault.now) }
{
    Ok(format!(in alloc; "refused {file} {place} {fault}")?)
}

/// Adds the row of a refused record.
fn add_refused(
    rows: &mut TableRows,
    alloc: Global,
    file: &str,
    place: u32,
    fault: EntryFault,
) -> Result<(), AllocError>
    ensures { OnOk result (rows.new ≡ rows.old ++ refused_finding file.now (place, fault) ∷ []) }
{
    let said = refused_words(alloc, file, place, fault.word())?;
    add_finding(rows, alloc, said.as_str(), &[], NEXT_REFUSED)
}

/// Adds the rows of a log's refused records.
fn add_all_refused(
    rows: &mut TableRows,
    alloc: Global,
    file: &str,
    refused: &[(u32, EntryFault)],
) -> Result<(), AllocError>
    ensures { OnOk result (rows.new ≡ rows.old ++ map (refused_finding file.now) refused.now) }
{
    for &(place, fault) in refused {
        add_refused(rows, alloc, file, place, fault)?;
    }
    Ok(())
}

/// The line on a byte that no log has at its place.
fn malformed_words(alloc: Global, file: &str, at: u64, why: &str) -> Result<String, AllocError>
    ensures { IfOk result (λ text. string_bytes text
        ≡ codes "malformed " ++ file.now ++ codes " " ++ decimal at ++ codes " " ++ why.now) }
{
    Ok(format!(in alloc; "malformed {file} {at} {why}")?)
}

/// Adds the row of a byte that no log has at its place.
fn add_malformed_at(
    rows: &mut TableRows,
    alloc: Global,
    file: &str,
    at: u64,
    why: &str,
) -> Result<(), AllocError>
    ensures { OnOk result (rows.new ≡ rows.old ++ malformed_finding file.now at why.now ∷ []) }
{
    let said = malformed_words(alloc, file, at, why)?;
    add_finding(rows, alloc, said.as_str(), &[], NEXT_MALFORMED)
}

/// Adds the row of a log's end, if no log has what is there.
fn add_malformed(
    rows: &mut TableRows,
    alloc: Global,
    file: &str,
    end: End,
) -> Result<(), AllocError>
    ensures { OnOk result (rows.new ≡ rows.old ++ malformed_findings file.now end) }
{
    match end {
        End::Malformed(at, why) => add_malformed_at(rows, alloc, file, at, why.word()),
        _ => Ok(()),
    }
}

/// Adds the row of a break at a record.
fn add_break_at(
    rows: &mut TableRows,
    alloc: Global,
    file: &str,
    place: u32,
) -> Result<(), AllocError>
    ensures { OnOk result (rows.new ≡ rows.old ++ break_finding file.now place ∷ []) }
{
    let said = format!(in alloc; "break {file} {place}")?;
    add_finding(rows, alloc, said.as_str(), &[], NEXT_BREAK)
}

/// Adds the row of a log's break, if there is one.
fn add_break(
    rows: &mut TableRows,
    alloc: Global,
    file: &str,
    broke: Option<u32>,
) -> Result<(), AllocError>
    ensures { OnOk result (rows.new ≡ rows.old ++ break_findings file.now broke) }
{
    match broke {
        Some(place) => add_break_at(rows, alloc, file, place),
        None => Ok(()),
    }
}

/// Adds the row of an end inside the record that begins at a byte.
fn add_torn_at(rows: &mut TableRows, alloc: Global, file: &str, at: u64) -> Result<(), AllocError>
    ensures { OnOk result (rows.new ≡ rows.old ++ torn_finding file.now at ∷ []) }
{
    let said = format!(in alloc; "torn {file} {at}")?;
    add_finding(rows, alloc, said.as_str(), &[], NEXT_TORN)
}

/// Adds the row of a log's end, if it is inside a record.
fn add_torn(
    rows: &mut TableRows,
    alloc: Global,
    file: &str,
    log: &LogRead,
) -> Result<(), AllocError>
    ensures { OnOk result (rows.new ≡ rows.old ++ log_torn (file.now, log.now)) }
{
    match log.end {
        End::Torn(at) => add_torn_at(rows, alloc, file, at),
        _ => Ok(()),
    }
}

/// Adds the rows of what loss alone never causes in a log.
fn add_log(rows: &mut TableRows, alloc: Global, file: &str, log: &LogRead) -> Result<(), AllocError>
    ensures { OnOk result (rows.new ≡ rows.old ++ log_accuses (file.now, log.now)) }
{
    add_all_refused(rows, alloc, file, log.refused.as_slice())?;
    add_malformed(rows, alloc, file, log.end)?;
    add_break(rows, alloc, file, log.broke)
}

/// Adds the rows of what loss alone never causes in the logs.
fn add_logs(
    rows: &mut TableRows,
    alloc: Global,
    files: &[String],
    logs: &[LogRead],
) -> Result<(), AllocError>
    requires { length files.now ≡ length logs.now }
    ensures { OnOk result (rows.new ≡ rows.old
        ++ flat_map log_accuses (zip (map string_bytes files.now) logs.now)) }
{
    for i in 0..files.len() {
        add_log(rows, alloc, files[i].as_str(), &logs[i])?;
    }
    Ok(())
}

/// Adds the rows of the torn logs.
fn add_all_torn(
    rows: &mut TableRows,
    alloc: Global,
    files: &[String],
    logs: &[LogRead],
) -> Result<(), AllocError>
    requires { length files.now ≡ length logs.now }
    ensures { OnOk result (rows.new ≡ rows.old
        ++ flat_map log_torn (zip (map string_bytes files.now) logs.now)) }
{
    for i in 0..files.len() {
        add_torn(rows, alloc, files[i].as_str(), &logs[i])?;
    }
    Ok(())
}

/// Adds the row of a digest.
fn add_digest(
    rows: &mut TableRows,
    alloc: Global,
    word: &str,
    digest: &[u8; 32],
    next: &str,
) -> Result<(), AllocError>
    ensures { OnOk result (rows.new
        ≡ rows.old ++ digest_finding word.now next.now digest.now ∷ []) }
{
    let digits = hex::encode(alloc, *digest)?;
    let said = format!(in alloc; "{word} {digits}")?;
    add_finding(rows, alloc, said.as_str(), &[], next)
}

/// Adds the rows of digests that have one word.
fn add_digests(
    rows: &mut TableRows,
    alloc: Global,
    word: &str,
    digests: &[[u8; 32]],
    next: &str,
) -> Result<(), AllocError>
    ensures { OnOk result (rows.new
        ≡ rows.old ++ map (digest_finding word.now next.now) digests.now) }
{
    for digest in digests {
        add_digest(rows, alloc, word, digest, next)?;
    }
    Ok(())
}

/// Adds the row of a fork.
fn add_fork(
    rows: &mut TableRows,
    alloc: Global,
    report: &Report,
    maker: u32,
    number: u32,
) -> Result<(), AllocError>
    ensures { OnOk result (rows.new ≡ rows.old
        ++ fork_finding (report_of report.now) (maker, number) ∷ []) }
{
    let name = name_of(report, maker as usize);
    let said = format!(in alloc; "fork {name} {number}")?;
    add_finding(rows, alloc, said.as_str(), &[], NEXT_FORK)
}

/// Adds the rows of the forks.
fn add_forks(
    rows: &mut TableRows,
    alloc: Global,
    report: &Report,
    forks: &[(u32, u32)],
) -> Result<(), AllocError>
    ensures { OnOk result (rows.new ≡ rows.old
        ++ map (fork_finding (report_of report.now)) forks.now) }
{
    for &(maker, number) in forks {
        add_fork(rows, alloc, report, maker, number)?;
    }
    Ok(())
}

/// Adds the row of a rule, if it is broken.
fn add_broken(
    rows: &mut TableRows,
    alloc: Global,
    rule: &Rule,
    verdict: &Verdict,
    standard: bool,
) -> Result<(), AllocError>
    ensures { OnOk result (rows.new ≡ rows.old
        ++ broken_findings standard (Some (rule_tree rule.now)) (Some verdict.now)) }
{
    match verdict {
        Verdict::Broken(places) => {
            let name = rule.name.as_str();
            let said = format!(in alloc; "broken {name} ")?;
            let next = if standard { NEXT_BROKEN } else { NEXT_OWN };
            add_finding(rows, alloc, said.as_str(), places.as_slice(), next)
        }
        _ => Ok(()),
    }
}

/// Adds the row of a rule, if it is unsettled.
fn add_unsettled(
    rows: &mut TableRows,
    alloc: Global,
    rule: &Rule,
    verdict: &Verdict,
) -> Result<(), AllocError>
    ensures { OnOk result (rows.new ≡ rows.old
        ++ unsettled_findings (Some (rule_tree rule.now)) (Some verdict.now)) }
{
    match verdict {
        Verdict::Unsettled => {
            let name = rule.name.as_str();
            let said = format!(in alloc; "unsettled {name}")?;
            add_finding(rows, alloc, said.as_str(), &[], NEXT_UNSETTLED)
        }
        _ => Ok(()),
    }
}

/// Adds the row of a rule, if its verdict, which is at the place, is that it is broken.
fn add_broken_of(
    rows: &mut TableRows,
    alloc: Global,
    report: &Report,
    place: usize,
    rule: &Rule,
    standard: bool,
) -> Result<(), AllocError>
    ensures { OnOk result (rows.new ≡ rows.old ++ broken_findings standard
        (Some (rule_tree rule.now)) (slice_get (report_of report.now).verdicts place)) }
{
    match report.verdicts().get(place) {
        Some(verdict) => add_broken(rows, alloc, rule, verdict, standard),
        None => Ok(()),
    }
}

/// Adds the row of a rule, if its verdict, which is at the place, is that it is unsettled.
fn add_unsettled_of(
    rows: &mut TableRows,
    alloc: Global,
    report: &Report,
    place: usize,
    rule: &Rule,
) -> Result<(), AllocError>
    ensures { OnOk result (rows.new ≡ rows.old ++ unsettled_findings
        (Some (rule_tree rule.now)) (slice_get (report_of report.now).verdicts place)) }
{
    match report.verdicts().get(place) {
        Some(verdict) => add_unsettled(rows, alloc, rule, verdict),
        None => Ok(()),
    }
}

/// Adds the row of the rule at a place, if it is broken.
fn add_broken_at(
    rows: &mut TableRows,
    alloc: Global,
    report: &Report,
    place: usize,
    standard: bool,
) -> Result<(), AllocError>
    ensures { OnOk result (rows.new ≡ rows.old
        ++ broken_at standard (report_of report.now) place) }
{
    match report.rules().get(place) {
        Some(rule) => add_broken_of(rows, alloc, report, place, rule, standard),
        None => Ok(()),
    }
}

/// Adds the row of the rule at a place, if it is unsettled.
fn add_unsettled_at(
    rows: &mut TableRows,
    alloc: Global,
    report: &Report,
    place: usize,
) -> Result<(), AllocError>
    ensures { OnOk result (rows.new ≡ rows.old
        ++ unsettled_at (report_of report.now) place) }
{
    match report.rules().get(place) {
        Some(rule) => add_unsettled_of(rows, alloc, report, place, rule),
        None => Ok(()),
    }
}

/// Adds the rows of the broken rules.
fn add_all_broken(
    rows: &mut TableRows,
    alloc: Global,
    report: &Report,
    standard: bool,
) -> Result<(), AllocError>
    ensures { OnOk result (rows.new ≡ rows.old
        ++ all_broken standard (report_of report.now)) }
{
    for place in 0..report.verdicts().len() {
        add_broken_at(rows, alloc, report, place, standard)?;
    }
    Ok(())
}

/// Adds the rows of the unsettled rules.
fn add_all_unsettled(rows: &mut TableRows, alloc: Global, report: &Report) -> Result<(), AllocError>
    ensures { OnOk result (rows.new ≡ rows.old ++ all_unsettled (report_of report.now)) }
{
    for place in 0..report.verdicts().len() {
        add_unsettled_at(rows, alloc, report, place)?;
    }
    Ok(())
}

/// The rows of what loss alone never causes.
pub(crate) fn accusing_rows(
    alloc: Global,
    report: &Report,
    standard: bool,
) -> Result<TableRows, AllocError>
    ensures { IfOk result (λ rows. rows ≡ accusing_rows standard (report_of report.now)) }
{
    let graph = report.graph();
    let mut rows = TableRows::new(alloc);
    add_logs(&mut rows, alloc, report.files(), report.logs())?;
    add_digests(&mut rows, alloc, "stray", graph.strays(), NEXT_STRAY)?;
    add_forks(&mut rows, alloc, report, graph.forks())?;
    add_all_broken(&mut rows, alloc, report, standard)?;
    Ok(rows)
}

/// The rows of what may be loss alone.
pub(crate) fn loss_rows(alloc: Global, report: &Report) -> Result<TableRows, AllocError>
    ensures { IfOk result (λ rows. rows ≡ loss_rows (report_of report.now)) }
{
    let mut rows = TableRows::new(alloc);
    add_all_torn(&mut rows, alloc, report.files(), report.logs())?;
    add_digests(&mut rows, alloc, "gap", report.graph().gaps(), NEXT_GAP)?;
    add_all_unsettled(&mut rows, alloc, report)?;
    Ok(rows)
}
