// The command `check`: what rules come to by a proof, whoever made it.
ghost use Rattle.std.specs.Prelude.{◌≡◌, ◌≢◌, ◌<◌, ◌++◌, ◌∷◌, [], map, length, slice_get};
ghost use Rattle.std.specs.Prelude.{Err, IfErr, IfOk, IfSome, Ok, OnOk, Some, string_bytes};
ghost use Rattle.std.specs.List.{flat_map, list_any, zip};
ghost use Rattle.entry_format.specs.Nodes.{node_of_sealed};
ghost use Rattle.entry_graph.specs.EntryGraph.{IsEntryGraph};
ghost use Rattle.rule_language.specs.Forms.{rule_tree};
ghost use Rattle.audit_proof.specs.Lines.{IsProofOf};
ghost use Rattle.evidence.specs.Graphs.{entries_of};
ghost use Rattle.evidence.specs.Reading.{IsReadFrom, IsReadFromFile};
ghost use Rattle.evidence.specs.Refusal.{IsAbsent, refusal_of};
ghost use Rattle.auditor.specs.Nodes.{nodes_of};
ghost use Rattle.survivor_rows.specs.Rows.{HaveMakers, row_of};
ghost use Rattle.auditor.specs.Sources.{rule_files};
ghost use Rattle.command_line.specs.Reports.{source_named};
ghost use Rattle.log_commands.specs.Check.{
  AreChecked,
  GivesCheck,
  check_answer,
  check_files,
  checked_line,
  checked_status,
  checked_text,
  checked_word,
  says_broken,
  says_unsettled,
  verdict_on_all,
  check_parts,
};
ghost use Rattle.log_commands.specs.inside.Checking.{
  ChecksFiles,
  ChecksLines,
  ChecksLogs,
  ChecksProof,
  ChecksRules,
  IsUnchecked,
  report_by,
};
ghost use Rattle.command_line.specs.Promise.{IsAnsweredBy};

use crate::proof_file::read_proof_file;
use audit_proof::{CheckFault, Proof, Verdict};
use auditor::{RulesFrom, read_rules, rows};
use command_line::{Answer, Fault, Status, rules_from};
use entry_graph::Graph;
use evidence::{InputFault, RosterRead, graph_from, read_logs_by, read_roster};
use hall_outside::Store;
use input_causes::Cause;
use log_files::{EntryWork, LogRead};
use roster::Roster;
use rule_language::{Row, Rule, standard};
use std::alloc::{AllocError, AllocFailed, Global};
use std::fmt::Write;

/// The roster, the graph of the entries that the logs keep, and the rules with a verdict for each.
#[derive(Drop)]
struct Checked {
    roster: Roster,
    graph: Graph,
    rules: Vec<Rule>,
    verdicts: Vec<Verdict>,
}

/// Why rules aren't checked.
#[derive(Clone, Copy)]
enum Unchecked {
    /// The rule at this place, counted from 0, is the first that is too wide.
    TooWide(usize),
    Memory,
}

impl From<AllocError> for Unchecked {
    ghost use Rattle.std.specs.Prelude.{◌≡◌};
    ghost use Rattle.log_commands.specs.declared.check.Unchecked.TheVariants.{Memory};

    ghost from_gives = { λ _ e. e ≡ Memory };

    fn from(_refused: AllocError) -> Unchecked {
        Unchecked::Memory
    }
}

impl<T: Drop> From<AllocFailed<T>> for Unchecked {
    ghost use Rattle.std.specs.Prelude.{◌≡◌};
    ghost use Rattle.log_commands.specs.declared.check.Unchecked.TheVariants.{Memory};

    ghost from_gives = { λ _ e. e ≡ Memory };

    fn from(_refused: AllocFailed<T>) -> Unchecked {
        Unchecked::Memory
    }
}

/// Checks the rules in their order by the proof, up to the first that is too wide.
fn check_each(
    alloc: Global,
    rules: &[Rule],
    rows: &[Row],
    graph: &Graph,
    proof: &Proof,
) -> Result<Vec<Verdict>, Unchecked>
    requires rows { length rows.now ≡ length graph.now.survivors }
    requires proof { IsProofOf (nodes_of graph.now) proof.now }
    ensures ok { IfOk result (λ verdicts.
        AreChecked rows.now (nodes_of graph.now) proof.now (map rule_tree rules.now)
        verdicts.items) }
    ensures err { IfErr result (IsUnchecked rows.now (map rule_tree rules.now)) }
{
    let mut verdicts = Vec::new(alloc);
    for place in 0..rules.len() {
        match audit_proof::check(alloc, &rules[place], rows, graph, proof) {
            Ok(verdict) => verdicts.push(verdict)?,
            Err(CheckFault::TooWide) => return Err(Unchecked::TooWide(place)),
            Err(CheckFault::Memory) => return Err(Unchecked::Memory),
        }
    }
    Ok(verdicts)
}

/// Checks the rules by the survivors' rows.
fn check_rows(
    alloc: Global,
    roster: &Roster,
    rules: &[Rule],
    graph: &Graph,
    proof: &Proof,
) -> Result<Vec<Verdict>, Unchecked>
    requires makers { HaveMakers roster.now.machines graph.now.survivors }
    requires proof { IsProofOf (nodes_of graph.now) proof.now }
    ensures ok { IfOk result (λ verdicts.
        AreChecked (map (row_of roster.now.machines) graph.now.survivors) (nodes_of graph.now)
        proof.now (map rule_tree rules.now) verdicts.items) }
    ensures err { IfErr result (IsUnchecked
        (map (row_of roster.now.machines) graph.now.survivors) (map rule_tree rules.now)) }
{
    let seen = rows(alloc, graph, roster)?;
    check_each(alloc, rules, &seen, graph, proof)
}

/// Checks the rules, which this word names, by the proof.
fn check_by(
    alloc: Global,
    roster: Roster,
    word: &str,
    rules: Vec<Rule>,
    graph: Graph,
    proof: &Proof,
) -> Result<Checked, InputFault>
    requires makers { HaveMakers roster.machines graph.survivors }
    requires proof { IsProofOf (nodes_of graph) proof.now }
    ensures ok { IfOk result (λ checked. ChecksLines roster.machines (source_named word.now)
        (map rule_tree rules.items) graph proof.now (Ok (report_by checked))) }
    ensures err { IfErr result (λ fault. IfSome (refusal_of fault) (λ refusal. ChecksLines
        roster.machines (source_named word.now) (map rule_tree rules.items) graph proof.now
        (Err refusal))) }
    ensures only { IfErr result (λ fault. (fault ≢ InputFault.ReadFault) × (¬ IsAbsent fault)) }
{
    match check_rows(alloc, &roster, rules.as_slice(), &graph, proof) {
        Ok(verdicts) => Ok(Checked {
            roster,
            graph,
            rules,
            verdicts,
        }),
        Err(Unchecked::TooWide(place)) => {
            Err(InputFault::refused(alloc, word, place as u64, Cause::TooWide))
        }
        Err(Unchecked::Memory) => Err(InputFault::Memory),
    }
}

/// Reads the proof for this graph, and checks the rules by it.
fn check_graph<S: Store>(
    alloc: Global,
    store: &mut S,
    roster: Roster,
    word: &str,
    rules: Vec<Rule>,
    proof: &str,
    graph: Graph,
) -> Result<Checked, InputFault>
    requires kept { IsEntryGraph node_of_sealed graph }
    requires makers { HaveMakers roster.machines graph.survivors }
    ensures { IsReadFromFile S.Store report_by proof.now
        (λ file. ChecksProof roster.machines (source_named word.now) (map rule_tree rules.items)
        proof.now file graph)
        store.old result store.new }
{
    match read_proof_file(alloc, store, proof, &graph) {
        Ok(lines) => check_by(alloc, roster, word, rules, graph, &lines),
        Err(fault) => Err(fault),
    }
}

/// Makes the graph of the entries that the logs keep, and checks the rules by the proof for it.
fn check_logs<S: Store>(
    alloc: Global,
    store: &mut S,
    roster: Roster,
    word: &str,
    rules: Vec<Rule>,
    proof: &str,
    logs: Vec<LogRead>,
) -> Result<Checked, InputFault>
    requires makers { HaveMakers roster.machines (entries_of logs.items) }
    ensures { IsReadFromFile S.Store report_by proof.now
        (λ file. ChecksLogs roster.machines (source_named word.now) (map rule_tree rules.items)
        proof.now file logs.items)
        store.old result store.new }
{
    match graph_from(alloc, logs) {
        Ok(graph) => check_graph(alloc, store, roster, word, rules, proof, graph),
        Err(fault) => Err(fault),
    }
}

/// Reads the logs, and checks the rules by the proof for what they keep.
fn check_rules<W: EntryWork, S: Store>(
    work: &W,
    alloc: Global,
    store: &mut S,
    read: RosterRead,
    word: &str,
    rules: Vec<Rule>,
    proof: &str,
    logs: &[String],
) -> Result<Checked, InputFault>
    requires { W.may_share work.now }
    ensures { IsReadFrom S.Store report_by (map string_bytes logs.now ++ proof.now ∷ [])
        (ChecksFiles read (source_named word.now) (map rule_tree rules.items) proof.now
        (map string_bytes logs.now))
        store.old result store.new }
{
    match read_logs_by(work, alloc, store, logs, &read.roster, &read.election) {
        Ok(logs) => check_logs(alloc, store, read.roster, word, rules, proof, logs),
        Err(fault) => Err(fault),
    }
}

/// Reads the rules that the word names, and then the logs and the proof.
fn check_under<W: EntryWork, S: Store>(
    work: &W,
    alloc: Global,
    store: &mut S,
    read: RosterRead,
    word: &str,
    proof: &str,
    logs: &[String],
) -> Result<Checked, InputFault>
    requires { W.may_share work.now }
    ensures { IsReadFrom S.Store report_by
        (rule_files (source_named word.now) ++ (map string_bytes logs.now ++ proof.now ∷ []))
        (ChecksRules read (source_named word.now) proof.now (map string_bytes logs.now))
        store.old result store.new }
{
    match rules_from(word) {
        RulesFrom::Standard => match standard(alloc) {
            Ok(rules) => check_rules(work, alloc, store, read, word, rules, proof, logs),
            Err(_) => Err(InputFault::Memory),
        },
        RulesFrom::File(name) => match read_rules(alloc, store, name) {
            Ok(rules) => check_rules(work, alloc, store, read, word, rules, proof, logs),
            Err(fault) => Err(fault),
        },
    }
}

/// Reads all files in order, and checks the rules by the proof.
fn check_all<W: EntryWork, S: Store>(
    work: &W,
    alloc: Global,
    store: &mut S,
    roster: &str,
    word: &str,
    proof: &str,
    logs: &[String],
) -> Result<Checked, InputFault>
    requires { W.may_share work.now }
    ensures { IsReadFrom S.Store report_by
        (check_files roster.now (source_named word.now) proof.now (map string_bytes logs.now))
        (GivesCheck roster.now (source_named word.now) proof.now (map string_bytes logs.now))
        store.old result store.new }
{
    match read_roster(alloc, store, roster) {
        Ok(read) => check_under(work, alloc, store, read, word, proof, logs),
        Err(fault) => Err(fault),
    }
}

/// Whether some rule is broken.
fn some_are_broken(verdicts: &[Verdict]) -> bool
    ensures { result ≡ list_any says_broken verdicts.now }
{
    verdicts
        .iter()
        .any(|verdict| matches!(verdict, Verdict::Broken))
}

/// Whether some rule is unsettled.
fn some_are_unsettled(verdicts: &[Verdict]) -> bool
    ensures { result ≡ list_any says_unsettled verdicts.now }
{
    verdicts
        .iter()
        .any(|verdict| matches!(verdict, Verdict::Unsettled))
}

/// The verdict on all rules: broken where one is, else unsettled where one is.
fn verdict_on_all(verdicts: &[Verdict]) -> Verdict
    ensures { result ≡ verdict_on_all verdicts.now }
{
    if some_are_broken(verdicts) {
        Verdict::Broken
    } else if some_are_unsettled(verdicts) {
        Verdict::Unsettled
    } else {
        Verdict::Kept
    }
}

/// The verdict's status.
fn status_of(verdict: Verdict) -> Status
    ensures { result ≡ checked_status verdict }
{
    match verdict {
        Verdict::Kept => Status::Done,
        Verdict::Broken => Status::Broken,
        Verdict::Unsettled => Status::Unsettled,
    }
}

/// The verdict's word.
fn word_of(verdict: Verdict) -> &'static str
    ensures { result.now ≡ checked_word verdict }
{
    match verdict {
        Verdict::Kept => "kept",
        Verdict::Broken => "broken",
        Verdict::Unsettled => "unsettled",
    }
}

/// Adds the line of a rule.
fn add_rule(lines: &mut String, rule: &Rule, verdict: Verdict) -> Result<(), AllocError>
    ensures { OnOk result (string_bytes lines.new
        ≡ string_bytes lines.old ++ checked_line (rule_tree rule.now, verdict)) }
{
    let word = word_of(verdict);
    let name = rule.name.as_str();
    write!(lines, "{word} {name}\n")
}

/// The verdict at a place.
fn verdict_at(verdicts: &[Verdict], i: usize) -> Verdict
    requires { i < length verdicts.now }
    ensures { slice_get verdicts.now i ≡ Some result }
{
    verdicts[i]
}

/// Adds the line of each rule.
fn add_rules(lines: &mut String, rules: &[Rule], verdicts: &[Verdict]) -> Result<(), AllocError>
    requires { length rules.now ≡ length verdicts.now }
    ensures { OnOk result (string_bytes lines.new ≡ string_bytes lines.old
        ++ flat_map checked_line (zip (map rule_tree rules.now) verdicts.now)) }
{
    for i in 0..rules.len() {
        add_rule(lines, &rules[i], verdict_at(verdicts, i))?;
    }
    Ok(())
}

/// The lines of rules with their verdicts, and the line of all.
fn text_of(alloc: Global, rules: &[Rule], verdicts: &[Verdict]) -> Result<String, AllocError>
    requires { length rules.now ≡ length verdicts.now }
    ensures { IfOk result (λ text.
        string_bytes text ≡ checked_text (map rule_tree rules.now) verdicts.now) }
{
    let mut lines = String::new(alloc);
    add_rules(&mut lines, rules, verdicts)?;
    let word = word_of(verdict_on_all(verdicts));
    write!(lines, "verdict {word}\n")?;
    Ok(lines)
}

/// The answer of what was checked.
fn answer_of(alloc: Global, checked: &Checked) -> Result<Answer, AllocError>
    requires { length checked.now.rules.items ≡ length checked.now.verdicts.items }
    ensures told { IfOk result (λ answer.
        answer ≡ check_answer (map rule_tree checked.now.rules.items) checked.now.verdicts.items) }
    ensures status { IfOk result (λ answer. answer.status ≢ Status.Absent) }
{
    let text = text_of(alloc, &checked.rules, &checked.verdicts)?;
    let status = status_of(verdict_on_all(&checked.verdicts));
    Ok(Answer::of_text(alloc, status, text.into_bytes()))
}

/// The answer of `check` for the roster, the rules, the proof and the logs in these files.
pub fn check<W: EntryWork, S: Store>(
    work: &W,
    alloc: Global,
    store: &mut S,
    roster: &str,
    rules: &str,
    proof: &str,
    logs: &[String],
) -> Result<Answer, Fault>
    requires { W.may_share work.now }
    ensures { IsAnsweredBy S.Store (check_parts roster.now rules.now proof.now (map string_bytes logs.now))
        store.old result store.new }
{
    match check_all(work, alloc, store, roster, rules, proof, logs) {
        Ok(checked) => Ok(answer_of(alloc, &checked)?),
        Err(fault) => Answer::of_fault(alloc, &fault),
    }
}
