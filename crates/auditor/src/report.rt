//! Reports and their text.
ghost use Rattle.std.specs.Prelude.{◌≡◌, ◌++◌, IfOk, OnOk, map, string_bytes};
ghost use Rattle.auditor.specs.Outcomes.{outcome_of};
ghost use Rattle.auditor.specs.Report.{IsReport, parts_of, report_of};
ghost use Rattle.auditor.specs.ReportText.{main_lines, report_text};

use crate::lines::{add_graph, add_logs, add_rules};
use crate::outcome::{Outcome, outcome_of};
use entry_graph::Graph;
use log_files::LogRead;
use roster::Roster;
use rule_engine::Verdict;
use rule_language::Rule;
use std::alloc::{AllocError, Global};
use std::fmt::Write;
use std::marker::Model;

/// Out of memory.
pub type Memory = AllocError;

/// What the logs that survive say of a polling place, and what is answered of each rule.
#[derive(Drop)]
pub struct Report {
    roster: Roster,
    files: Vec<String>,
    logs: Vec<LogRead>,
    graph: Graph,
    rules: Vec<Rule>,
    verdicts: Vec<Verdict>,
}

impl Model for Report {
    ghost use Rattle.std.specs.Prelude.{map, string_bytes};
    ghost use Rattle.std.specs.Coded.{codes};
    ghost use Rattle.rule_language.specs.contracts.formula.Formula as formula;
    ghost use Rattle.auditor.specs.Report.{ReportParts, IsReport, parts_of, report_of};

    ghost Value = { ReportParts };

    ghost coded = { Prim.hlevel (codes, formula.the_row.coded) };

    ghost view = { λ r. parts_of r.roster.machines (map string_bytes r.files.items) r.logs.items
        r.graph r.rules.items r.verdicts.items };

    ghost invariant = { λ r. IsReport (report_of (parts_of r.roster.machines
        (map string_bytes r.files.items) r.logs.items r.graph r.rules.items r.verdicts.items)) };
}

impl Report {
    /// The report of these parts, which belong together.
    pub(crate) fn new(
        roster: Roster,
        files: Vec<String>,
        logs: Vec<LogRead>,
        graph: Graph,
        rules: Vec<Rule>,
        verdicts: Vec<Verdict>,
    ) -> Report
        requires { IsReport (report_of (parts_of roster.machines (map string_bytes files.items)
            logs.items graph rules.items verdicts.items)) }
        ensures { result ≡ parts_of roster.machines (map string_bytes files.items) logs.items graph
            rules.items verdicts.items }
    {
        Report {
            roster,
            files,
            logs,
            graph,
            rules,
            verdicts,
        }
    }

    /// The roster under which the logs were read.
    pub fn roster(&self) -> &Roster
        ensures value { result.now.machines ≡ self.now.machines }
        ensures kept { IsReport (report_of self.now) }
    {
        &self.roster
    }

    /// The names of the logs, as given.
    pub fn files(&self) -> &[String]
        ensures value { map string_bytes result.now ≡ self.now.files }
        ensures kept { IsReport (report_of self.now) }
    {
        &self.files
    }

    /// The logs, one for each name.
    pub fn logs(&self) -> &[LogRead]
        ensures value { result.now ≡ self.now.logs }
        ensures kept { IsReport (report_of self.now) }
    {
        &self.logs
    }

    /// The graph of the entries that the logs keep.
    pub fn graph(&self) -> &Graph
        ensures value { result.now ≡ self.now.graph }
        ensures kept { IsReport (report_of self.now) }
    {
        &self.graph
    }

    /// The rules, in the order of their text.
    pub fn rules(&self) -> &[Rule]
        ensures value { result.now ≡ self.now.rules }
        ensures kept { IsReport (report_of self.now) }
    {
        &self.rules
    }

    /// What is answered of the rules, one verdict for each.
    pub fn verdicts(&self) -> &[Verdict]
        ensures value { result.now ≡ self.now.verdicts }
        ensures kept { IsReport (report_of self.now) }
    {
        &self.verdicts
    }

    /// What the report comes to.
    pub fn outcome(&self) -> Outcome
        ensures value { result ≡ outcome_of (report_of self.now) }
        ensures kept { IsReport (report_of self.now) }
    {
        outcome_of(&self.logs, &self.graph, &self.verdicts)
    }

    /// Adds the lines of the logs, of the graph, and of the rules.
    fn add_to(&self, alloc: Global, lines: &mut String) -> Result<(), AllocError>
        ensures { OnOk result (string_bytes lines.new
            ≡ string_bytes lines.old ++ main_lines (report_of self.now)) }
    {
        add_logs(lines, &self.files, &self.logs)?;
        add_graph(alloc, lines, &self.roster, &self.graph)?;
        add_rules(
            alloc,
            lines,
            &self.roster,
            &self.graph,
            &self.rules,
            &self.verdicts,
        )
    }
}

/// The report's text.
///
/// # Errors
///
/// Out of memory.
pub fn write_report(alloc: Global, report: &Report) -> Result<Vec<u8>, Memory>
    ensures { IfOk result (λ bytes. bytes.items ≡ report_text (report_of report.now)) }
{
    let mut lines = String::new(alloc);
    report.add_to(alloc, &mut lines)?;
    let outcome = report.outcome().word();
    write!(lines, "verdict {outcome}\n")?;
    Ok(lines.into_bytes())
}
