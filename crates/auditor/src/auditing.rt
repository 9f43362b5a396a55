//! Audits: from the names of files to the report on what they say.
ghost use Rattle.std.specs.Prelude.{
  ◌≡◌,
  ◌≢◌,
  ◌≤◌,
  Err,
  IfErr,
  IfOk,
  IfSome,
  Ok,
  Result,
  Some,
  length,
  map,
  string_bytes,
};
ghost use Rattle.rule_language.specs.Forms.{rule_tree};
ghost use Rattle.evidence.specs.Graphs.{GivesGraph, entries_of};
ghost use Rattle.evidence.specs.Reading.{IsReadFrom, IsReadFromFile};
ghost use Rattle.evidence.specs.Refusal.{IsAbsent, refusal_of};
ghost use Rattle.rule_engine.specs.Judged.{AreJudged, IsUnjudged};
ghost use Rattle.survivor_rows.specs.Rows.{HaveMakers, row_of};
ghost use Rattle.auditor.specs.Nodes.{nodes_of};
ghost use Rattle.auditor.specs.inside.Begun.{AreLogsOf, HasBegun, HasRules, IsEndOf};
ghost use Rattle.auditor.specs.Report.{ReportParts, report_of};
ghost use Rattle.auditor.specs.AuditFaults.{IsReportedAs};
ghost use Rattle.rule_language.specs.Standard.{standard_rules};
ghost use Rattle.auditor.specs.Sources.{source_of, source_word, max_rules, GivesRules};
ghost use Rattle.auditor.specs.Sources.{standard as standard_source};
ghost use Rattle.auditor.specs.Audits.{WithGraph, WithLogs, GivesReport, audit_files};

use crate::fault::AuditFault;
use crate::report::Report;
use entry_graph::Graph;
use evidence::{InputFault, RosterRead, file_fault, graph_of, read_logs_by, read_roster};
use hall_outside::{Store, read_file};
use input_causes::Cause;
use log_files::{EntryWork, LogRead};
use precedence::Rows;
use roster::Roster;
use rule_engine::{Unjudged, Verdict, judge_all};
use rule_language::{Rule, RuleFault, read, standard};
use std::alloc::{AllocError, Global};
use survivor_rows::rows;
use ways_of_work::Alone;

/// Where the rules of an audit come from.
#[derive(Clone, Copy)]
pub enum RulesFrom<'a> {
    /// The standard rules.
    Standard,
    /// The file with this name.
    File(&'a str),
}

impl RulesFrom<'_> {
    /// The word that names the rules in a refusal.
    fn word(&self) -> &str
        ensures { result.now ≡ source_word (source_of self.now) }
    {
        match self {
            RulesFrom::Standard => "standard",
            RulesFrom::File(name) => name,
        }
    }
}

/// The most bytes of a file of rules.
const MAX_RULES: usize = 4_194_304;

/// The rules of these bytes of the named file.
fn rules_of(alloc: Global, name: &str, bytes: &[u8]) -> Result<Vec<Rule>, InputFault>
    requires { length bytes.now ≤ max_rules }
    ensures ok { IfOk result (λ rules.
        GivesRules name.now (Some bytes.now) (Ok (map rule_tree rules.items))) }
    ensures err { IfErr result (λ fault. IfSome (refusal_of fault)
        (λ refusal. GivesRules name.now (Some bytes.now) (Err refusal))) }
    ensures only { IfErr result (λ fault. (fault ≢ InputFault.ReadFault) × (¬ IsAbsent fault)) }
{
    match read(alloc, bytes) {
        Ok(rules) => Ok(rules),
        Err(RuleFault::At { at, why }) => {
            Err(InputFault::refused(alloc, name, at as u64, Cause::Rules(why)))
        }
        Err(RuleFault::Memory) => Err(InputFault::Memory),
    }
}

/// Reads the rules in the named file. No file changes.
///
/// # Errors
///
/// `Absent` where the file isn't there, and the store said so. `Refused` with `TooLong` of a file
/// over 4,194,304 bytes, or with the place and the fault of its rules. `ReadFault` where a read
/// failed, or `Memory`.
pub fn read_rules<S: Store>(
    alloc: Global,
    store: &mut S,
    name: &str,
) -> Result<Vec<Rule>, InputFault>
    ensures { IsReadFromFile S.Store (λ rules. map rule_tree rules.items) name.now
        (GivesRules name.now) store.old result store.new }
{
    match read_file(alloc, store, name, MAX_RULES) {
        Ok(bytes) => rules_of(alloc, name, bytes.as_slice()),
        Err(fault) => Err(file_fault(alloc, name, fault)),
    }
}

/// The names, copied.
fn copies(alloc: Global, names: &[String]) -> Result<Vec<String>, AllocError>
    ensures { IfOk result (λ copies. map string_bytes copies.items ≡ map string_bytes names.now) }
{
    let mut copies = Vec::new(alloc);
    for name in names {
        copies.push(String::from_str(alloc, name.as_str())?)?;
    }
    Ok(copies)
}

// Judges the rules by the survivors of the graph, which were unsealed with this roster.
fn judge_graph(
    alloc: Global,
    roster: &Roster,
    rules: &[Rule],
    graph: &Graph,
) -> Result<Vec<Verdict>, Unjudged>
    requires makers { HaveMakers roster.now.machines graph.now.survivors }
    requires few { length graph.now.survivors ≤ 16384 }
    ensures ok { IfOk result (λ verdicts. AreJudged
        (map (row_of roster.now.machines) graph.now.survivors) (nodes_of graph.now)
        (map rule_tree rules.now) verdicts.items) }
    ensures err { IfErr result (IsUnjudged
        (map (row_of roster.now.machines) graph.now.survivors) (map rule_tree rules.now)) }
{
    let seen = rows(alloc, graph, roster)?;
    let order = Rows::make(alloc, graph)?;
    judge_all(alloc, rules, seen.as_slice(), &order)
}

/// The report on this graph, which is that of the entries that the logs keep.
fn with_graph(
    alloc: Global,
    roster: Roster,
    from: RulesFrom<'_>,
    rules: Vec<Rule>,
    files: Vec<String>,
    logs: Vec<LogRead>,
    graph: Graph,
) -> Result<Report, InputFault>
    requires one_each { length files.items ≡ length logs.items }
    requires makers { HaveMakers roster.machines graph.survivors }
    requires graphed { GivesGraph (entries_of logs.items) (Ok graph) }
    ensures ok { IfOk result (λ report. WithGraph roster.machines (source_of from.entry)
        (map rule_tree rules.items) (map string_bytes files.items) logs.items graph
        (Ok (report_of report))) }
    ensures err { IfErr result (λ fault. IfSome (refusal_of fault) (λ refusal.
        WithGraph roster.machines (source_of from.entry) (map rule_tree rules.items)
        (map string_bytes files.items) logs.items graph (Err refusal))) }
    ensures only { IfErr result (λ fault. (fault ≢ InputFault.ReadFault) × (¬ IsAbsent fault)) }
{
    match judge_graph(alloc, &roster, rules.as_slice(), &graph) {
        Ok(verdicts) => Ok(Report::new(roster, files, logs, graph, rules, verdicts)),
        Err(Unjudged::TooWide { place }) => {
            Err(InputFault::refused(alloc, from.word(), place as u64, Cause::TooWide))
        }
        Err(Unjudged::Memory) => Err(InputFault::Memory),
    }
}

/// The report on these logs, which have these names and were read under the roster.
fn with_logs(
    alloc: Global,
    roster: Roster,
    from: RulesFrom<'_>,
    rules: Vec<Rule>,
    names: &[String],
    logs: Vec<LogRead>,
) -> Result<Report, InputFault>
    requires one_each { length names.now ≡ length logs.items }
    requires makers { HaveMakers roster.machines (entries_of logs.items) }
    ensures ok { IfOk result (λ report. WithLogs roster.machines (source_of from.entry)
        (map rule_tree rules.items) (map string_bytes names.now) logs.items
        (Ok (report_of report))) }
    ensures err { IfErr result (λ fault. IfSome (refusal_of fault) (λ refusal.
        WithLogs roster.machines (source_of from.entry) (map rule_tree rules.items)
        (map string_bytes names.now) logs.items (Err refusal))) }
    ensures only { IfErr result (λ fault. (fault ≢ InputFault.ReadFault) × (¬ IsAbsent fault)) }
{
    let files = copies(alloc, names)?;
    match graph_of(alloc, logs.as_slice()) {
        Ok(graph) => with_graph(alloc, roster, from, rules, files, logs, graph),
        Err(fault) => Err(fault),
    }
}

/// The report by the standard rules on these logs, which have these names and were read under the
/// roster.
///
/// # Errors
///
/// `Refused` of the file `entries` with what the graph is refused for, or of `standard` with
/// `TooWide` and the place of the rule from 0; or `Memory`.
pub fn audit_logs(
    alloc: Global,
    roster: Roster,
    names: &[String],
    logs: Vec<LogRead>,
) -> Result<Report, InputFault>
    requires one_each { length names.now ≡ length logs.items }
    requires makers { HaveMakers roster.machines (entries_of logs.items) }
    ensures ok { IfOk result (λ report. WithLogs roster.machines standard_source standard_rules
        (map string_bytes names.now) logs.items (Ok (report_of report))) }
    ensures err { IfErr result (λ fault. IfSome (refusal_of fault) (λ refusal.
        WithLogs roster.machines standard_source standard_rules
        (map string_bytes names.now) logs.items (Err refusal))) }
    ensures only { IfErr result (λ fault. (fault ≢ InputFault.ReadFault) × (¬ IsAbsent fault)) }
{
    match standard(alloc) {
        Ok(rules) => with_logs(alloc, roster, RulesFrom::Standard, rules, names, logs),
        Err(_) => Err(InputFault::Memory),
    }
}

/// What an audit reads before the logs.
#[derive(Drop)]
pub(crate) struct Begun {
    read: RosterRead,
    rules: Vec<Rule>,
}

/// Reads the rules, of which `read` is the roster.
fn with_roster<S: Store>(
    alloc: Global,
    store: &mut S,
    read: RosterRead,
    from: RulesFrom<'_>,
) -> Result<Begun, InputFault>
    ensures { HasRules S.Store read (source_of from.entry) store.old result store.new }
{
    match from {
        RulesFrom::Standard => match standard(alloc) {
            Ok(rules) => Ok(Begun { read, rules }),
            Err(_) => Err(InputFault::Memory),
        },
        RulesFrom::File(name) => match read_rules(alloc, store, name) {
            Ok(rules) => Ok(Begun { read, rules }),
            Err(fault) => Err(fault),
        },
    }
}

/// Reads the roster and the rules.
fn begin<S: Store>(
    alloc: Global,
    store: &mut S,
    roster: &str,
    from: RulesFrom<'_>,
) -> Result<Begun, InputFault>
    ensures { HasBegun S.Store roster.now (source_of from.entry) store.old result store.new }
{
    match read_roster(alloc, store, roster) {
        Ok(read) => with_roster(alloc, store, read, from),
        Err(fault) => Err(fault),
    }
}

/// The report on the logs of these names, as they were read.
fn finish<S: Store>(
    alloc: Global,
    begun: Begun,
    from: RulesFrom<'_>,
    names: &[String],
    logs: Result<Vec<LogRead>, InputFault>,
) -> Result<Report, InputFault>
    requires { (before : S) × (after : S)
        × AreLogsOf S.Store begun (map string_bytes names.now) before logs after }
    ensures { (before after : S) →
        AreLogsOf S.Store begun (map string_bytes names.now) before logs after →
        IsEndOf S.Store begun (source_of from.entry) (map string_bytes names.now)
        before result after }
{
    match logs {
        Ok(read) => with_logs(alloc, begun.read.roster, from, begun.rules, names, read),
        Err(fault) => Err(fault),
    }
}

/// Reads the roster, the rules and the logs, in this order, makes the graph of the entries that the
/// logs keep, and judges the rules over it. The first refusal ends it, and no file after it is
/// read. No file changes.
///
/// # Errors
///
/// `Absent` with the name of a file that isn't there, where the store said so. `Refused` with the
/// file, the place and the cause: `TooLong` of a roster or rules over 4,194,304 bytes and of a log
/// over 67,108,864; the fault of a roster or of rules; `Header` of a log; of the file `entries`
/// what the graph is refused for; and `TooWide`, with the place of the rule from 0 and the name of
/// the rules' file, or `standard`. `ReadFault` where a read failed, or `Memory`.
pub fn audit<S: Store>(
    alloc: Global,
    store: &mut S,
    roster: &str,
    rules: RulesFrom<'_>,
    logs: &[String],
) -> Result<Report, AuditFault>
    ensures { (found : Result ReportParts InputFault) × (IsReadFrom S.Store report_of
        (audit_files roster.now (source_of rules.entry) (map string_bytes logs.now))
        (GivesReport roster.now (source_of rules.entry) (map string_bytes logs.now))
        store.old found store.new × IsReportedAs found result) }
{
    match audit_by(&Alone, alloc, store, roster, rules, logs) {
        Ok(report) => Ok(report),
        Err(fault) => Err(AuditFault::of(alloc, fault)),
    }
}

/// The audit of `audit`, for which the logs are read in this way of work, and whose refusals name
/// their causes by their types.
///
/// # Errors
///
/// Those of `audit`.
pub fn audit_by<W: EntryWork, S: Store>(
    work: &W,
    alloc: Global,
    store: &mut S,
    roster: &str,
    rules: RulesFrom<'_>,
    logs: &[String],
) -> Result<Report, InputFault>
    requires { W.may_share work.now }
    ensures { IsReadFrom S.Store report_of
        (audit_files roster.now (source_of rules.entry) (map string_bytes logs.now))
        (GivesReport roster.now (source_of rules.entry) (map string_bytes logs.now))
        store.old result store.new }
{
    match begin(alloc, store, roster, rules) {
        Ok(begun) => {
            let election = &begun.read.election;
            let read = read_logs_by(work, alloc, store, logs, &begun.read.roster, election);
            finish::<S>(alloc, begun, rules, logs, read)
        }
        Err(fault) => Err(fault),
    }
}
