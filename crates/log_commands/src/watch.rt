// The command `watch`: what an audit says after each entry that the logs keep.
ghost use Rattle.std.specs.Prelude.{◌≡◌, ◌≢◌, ◌<◌, ◌≤◌, ◌||◌, ◌++◌, ◌↔◌, [], All, IsTrue};
ghost use Rattle.std.specs.Prelude.{List, ℕ, Err, IfErr, IfNone, IfOk, IfSome, Ok, OnOk, length};
ghost use Rattle.std.specs.Prelude.{count_by, map, string_bytes};
ghost use Rattle.std.specs.List.{list_any};
ghost use Rattle.std.specs.Str.{bytes_eq};
ghost use Rattle.entry_format.specs.Nodes.{node_of_sealed};
ghost use Rattle.entry_graph.specs.Given.{HasNoCollision};
ghost use Rattle.entry_order.specs.Naming.{IsNew};
ghost use Rattle.rule_language.specs.Forms.{rule_tree};
ghost use Rattle.evidence.specs.Graphs.{GivesGraph, entries_of, entries_of_records};
ghost use Rattle.evidence.specs.Reading.{IsReadFrom};
ghost use Rattle.evidence.specs.Refusal.{IsAbsent, refusal_of};
ghost use Rattle.evidence.specs.inside.Copies.{StandFor, text_of_sealed};
ghost use Rattle.auditor.specs.Audits.{audit_files};
ghost use Rattle.auditor.specs.Outcomes.{graph_has_finding, is_broken, is_unsettled};
ghost use Rattle.auditor.specs.Outcomes.{log_has_finding, outcome_by};
ghost use Rattle.auditor.specs.Sources.{rule_files};
ghost use Rattle.live_auditor.specs.Adding.{Collides, IsOfSameAudit, IsTooWideOver};
ghost use Rattle.live_auditor.specs.Live.{IsLive, IsOfMachine, max_added};
ghost use Rattle.demonstration.specs.Shown.{is_kept};
ghost use Rattle.command_line.specs.Reports.{source_named, status_by};
ghost use Rattle.log_commands.specs.Watch.{
  AreFewDistinct,
  GivesEvidence,
  GivesWatch,
  IsTooWideAfter,
  Watches,
  watch_line,
  watch_parts,
};
ghost use Rattle.command_line.specs.Promise.{IsAnsweredBy};
ghost use Rattle.log_commands.specs.inside.Watching.{
  AddsTo,
  AreLinesOf,
  IsUnadded,
  IsUnwatched,
  ReadsLogs,
  ReadsRules,
  evidence_by,
  evidence_of,
  first_half,
  second_half,
};

use auditor::{RulesFrom, outcome_of, read_rules, rows};
use command_line::{Answer, Fault, Status, rules_from, status_by};
use entry_format::Sealed;
use entry_graph::Graph;
use evidence::{
    InputFault, RosterRead, entries_give_one_graph, graph_of, read_logs_by, read_roster,
};
use hall_outside::Store;
use input_causes::Cause;
use live_auditor::{Live, LiveFault, same_digest};
use log_files::{EntryWork, Kept, LogRead};
use roster::Roster;
use rule_engine::Verdict;
use rule_language::{Rule, standard};
use rule_meaning::width::is_too_wide;
use std::alloc::{AllocError, Global};
use std::fmt::Write;

/// What an audit goes on: the roster, the rules and the logs.
#[derive(Drop)]
struct EvidenceRead {
    roster: Roster,
    rules: Vec<Rule>,
    logs: Vec<LogRead>,
}

/// Reads the logs.
fn read_with_rules<W: EntryWork, S: Store>(
    work: &W,
    alloc: Global,
    store: &mut S,
    read: RosterRead,
    rules: Vec<Rule>,
    names: &[String],
) -> Result<EvidenceRead, InputFault>
    requires { W.may_share work.now }
    ensures { IsReadFrom S.Store evidence_of (map string_bytes names.now)
        (ReadsLogs read (map rule_tree rules.items) (map string_bytes names.now))
        store.old result store.new }
{
    match read_logs_by(work, alloc, store, names, &read.roster, &read.election) {
        Ok(logs) => Ok(EvidenceRead {
            roster: read.roster,
            rules,
            logs,
        }),
        Err(fault) => Err(fault),
    }
}

/// Reads the rules that the word names, and then the logs.
fn read_with_roster<W: EntryWork, S: Store>(
    work: &W,
    alloc: Global,
    store: &mut S,
    read: RosterRead,
    word: &str,
    names: &[String],
) -> Result<EvidenceRead, InputFault>
    requires { W.may_share work.now }
    ensures { IsReadFrom S.Store evidence_of
        (rule_files (source_named word.now) ++ map string_bytes names.now)
        (ReadsRules read (source_named word.now) (map string_bytes names.now))
        store.old result store.new }
{
    match rules_from(word) {
        RulesFrom::Standard => match standard(alloc) {
            Ok(rules) => read_with_rules(work, alloc, store, read, rules, names),
            Err(_) => Err(InputFault::Memory),
        },
        RulesFrom::File(name) => match read_rules(alloc, store, name) {
            Ok(rules) => read_with_rules(work, alloc, store, read, rules, names),
            Err(fault) => Err(fault),
        },
    }
}

/// Reads the roster, the rules and the logs.
fn read_evidence<W: EntryWork, S: Store>(
    work: &W,
    alloc: Global,
    store: &mut S,
    roster: &str,
    word: &str,
    names: &[String],
) -> Result<EvidenceRead, InputFault>
    requires { W.may_share work.now }
    ensures { IsReadFrom S.Store evidence_of
        (audit_files roster.now (source_named word.now) (map string_bytes names.now))
        (GivesEvidence roster.now (source_named word.now) (map string_bytes names.now))
        store.old result store.new }
{
    match read_roster(alloc, store, roster) {
        Ok(read) => read_with_roster(work, alloc, store, read, word, names),
        Err(fault) => Err(fault),
    }
}

/// Adds the entries of these records.
fn add_kept<'a>(entries: &mut Vec<&'a Sealed>, kept: &'a [Kept]) -> Result<(), AllocError>
    ensures { OnOk result (map (λ e. e.now) entries.new.items
        ≡ map (λ e. e.now) entries.old.items ++ entries_of_records kept.now) }
{
    for record in kept {
        entries.push(&record.entry)?;
    }
    Ok(())
}

/// The entries that the logs keep, in the order of the logs and of their records.
fn entries_in<'a>(alloc: Global, logs: &'a [LogRead]) -> Result<Vec<&'a Sealed>, AllocError>
    ensures { IfOk result (λ entries. map (λ e. e.now) entries.items ≡ entries_of logs.now) }
{
    let mut entries = Vec::new(alloc);
    for log in logs {
        add_kept(&mut entries, log.kept.as_slice())?;
    }
    Ok(entries)
}

/// The most different entries.
const MOST_WATCHED: usize = 1_024;

/// Whether one of the entries has the digest.
fn some_has(entries: &[&Sealed], digest: &[u8; 32]) -> bool
    ensures { result ≡ list_any (λ e. bytes_eq e.now.digest digest.now) entries.now }
{
    entries
        .iter()
        .any(|entry| same_digest(entry.digest(), digest))
}

/// Whether at most 1,024 of the entries are different.
fn are_few_distinct(alloc: Global, entries: &[&Sealed]) -> Result<bool, AllocError>
    ensures { IfOk result (λ few.
        IsTrue few ↔ AreFewDistinct (map (λ e. e.now) entries.now)) }
{
    let mut different: Vec<&Sealed> = Vec::new(alloc);
    for k in 0..entries.len() {
        let entry = entries[k];
        if !some_has(different.as_slice(), entry.digest()) {
            if different.len() == MOST_WATCHED {
                return Ok(false);
            }
            different.push(entry)?;
        }
    }
    Ok(true)
}

/// Why entries aren't watched.
#[derive(Clone, Copy)]
enum Unwatched {
    /// The rule at this place, counted from 0, is the first that is too wide.
    TooWide(usize),
    Memory,
}

impl From<AllocError> for Unwatched {
    ghost use Rattle.std.specs.Prelude.{◌≡◌};
    ghost use Rattle.log_commands.specs.declared.watch.Unwatched.TheVariants.{Memory};

    ghost from_gives = { λ _ e. e ≡ Memory };

    fn from(_refused: AllocError) -> Unwatched {
        Unwatched::Memory
    }
}

/// Adds a copy of the entry, for which there is room, and which collides with none.
fn add_entry(alloc: Global, live: &mut Live, entry: &Sealed) -> Result<(), Unwatched>
    requires live { IsLive live.old }
    requires machine { IsOfMachine live.old.machines entry.now }
    requires apart { ¬ Collides live.old.added entry.now }
    requires room { IsNew node_of_sealed live.old.added entry.now →
        length live.old.added < max_added }
    ensures ok { OnOk result (AddsTo live.old.added entry.now live.new.added) }
    ensures err { IfErr result (IsUnadded live.old entry.now) }
    ensures same { IsOfSameAudit live.old live.new }
    ensures kept { IsLive live.new }
{
    let copy = entry.copy(alloc)?;
    match live.add(alloc, copy) {
        Ok(_) => Ok(()),
        Err(LiveFault::TooWide(_, place)) => Err(Unwatched::TooWide(place)),
        Err(LiveFault::Memory) => Err(Unwatched::Memory),
        Err(LiveFault::Collision(_)) => unreachable!(),
        Err(LiveFault::TooMany(_)) => unreachable!(),
    }
}

/// How many of the verdicts are that a rule is kept.
fn kept_in(verdicts: &[Verdict]) -> usize
    ensures { result ≡ count_by is_kept verdicts.now }
{
    let kept = verdicts
        .iter()
        .filter(|verdict| matches!(verdict, Verdict::Kept));
    kept.count()
}

/// How many are that one is broken.
fn broken_in(verdicts: &[Verdict]) -> usize
    ensures { result ≡ count_by is_broken verdicts.now }
{
    let broken = verdicts
        .iter()
        .filter(|verdict| matches!(verdict, Verdict::Broken(_)));
    broken.count()
}

/// How many are that one is unsettled.
fn unsettled_in(verdicts: &[Verdict]) -> usize
    ensures { result ≡ count_by is_unsettled verdicts.now }
{
    let unsettled = verdicts
        .iter()
        .filter(|verdict| matches!(verdict, Verdict::Unsettled));
    unsettled.count()
}

/// Adds the first half of a line.
fn add_first_half(
    lines: &mut String,
    number: usize,
    survivors: usize,
    gaps: usize,
) -> Result<(), AllocError>
    ensures { OnOk result (string_bytes lines.new
        ≡ string_bytes lines.old ++ first_half number survivors gaps) }
{
    write!(lines, "{number} {survivors} gaps {gaps}")
}

/// Adds the second half.
fn add_second_half(
    lines: &mut String,
    kept: usize,
    broken: usize,
    unsettled: usize,
) -> Result<(), AllocError>
    ensures { OnOk result (string_bytes lines.new
        ≡ string_bytes lines.old ++ second_half kept broken unsettled) }
{
    write!(
        lines,
        " kept {kept} broken {broken} unsettled {unsettled}\n"
    )
}

/// Adds the line after the entry of this number.
fn add_line(lines: &mut String, number: usize, live: &Live) -> Result<(), AllocError>
    ensures { OnOk result (string_bytes lines.new
        ≡ string_bytes lines.old ++ watch_line number live.now.summary) }
{
    let survivors = live.survivors();
    let gaps = live.gaps().len();
    let kept = kept_in(live.verdicts());
    let broken = broken_in(live.verdicts());
    let unsettled = unsettled_in(live.verdicts());
    add_first_half(lines, number, survivors, gaps)?;
    add_second_half(lines, kept, broken, unsettled)
}

/// Adds a copy of the entry, as `add_entry` does, and answers the place of the first of these rules
/// that is too wide then. The audit may be by others.
fn add_narrow(
    alloc: Global,
    live: &mut Live,
    rules: &[Rule],
    entry: &Sealed,
) -> Result<Option<usize>, Unwatched>
    requires live { IsLive live.old }
    requires machine { IsOfMachine live.old.machines entry.now }
    requires apart { ¬ Collides live.old.added entry.now }
    requires room { IsNew node_of_sealed live.old.added entry.now →
        length live.old.added < max_added }
    ensures ok { OnOk result (AddsTo live.old.added entry.now live.new.added) }
    ensures some { IfOk result (λ found. IfSome found
        (IsTooWideOver live.new.machines (map rule_tree rules.now) live.new.added)) }
    ensures none { IfOk result (λ found. IfNone found ((place : ℕ) →
        ¬ IsTooWideOver live.new.machines (map rule_tree rules.now) live.new.added place)) }
    ensures same { IsOfSameAudit live.old live.new }
    ensures kept { IsLive live.new }
{
    match add_entry(alloc, live, entry) {
        Ok(()) => Ok(live.first_too_wide(rules)),
        Err(why) => Err(why),
    }
}

/// The place of the first rule that is too wide after one of the entries, which are added to an
/// audit by no rule, so that none is judged. If there is none, nothing is said.
fn wide_after(
    alloc: Global,
    live: &mut Live,
    rules: &[Rule],
    entries: &[&Sealed],
) -> Result<Option<usize>, AllocError>
    requires live { IsLive live.old }
    requires empty { live.old.added ≡ [] }
    requires machines { All (IsOfMachine live.old.machines) (map (λ e. e.now) entries.now) }
    requires apart { HasNoCollision node_of_sealed text_of_sealed (map (λ e. e.now) entries.now) }
    requires few { AreFewDistinct (map (λ e. e.now) entries.now) }
    ensures { IfOk result (λ found. IfSome found (λ place. IsTooWideAfter live.old.machines
        (map rule_tree rules.now) (map (λ e. e.now) entries.now) place)) }
{
    entries_give_one_graph();
    for k in 0..entries.len() {
        match add_narrow(alloc, live, rules, entries[k]) {
            Ok(None) => {}
            Ok(Some(place)) => return Ok(Some(place)),
            Err(Unwatched::TooWide(_)) => return Ok(None),
            Err(Unwatched::Memory) => return Err(AllocError),
        }
    }
    Ok(None)
}

/// The place of the first rule that is too wide after one of the entries, which have this graph,
/// before anything is judged. Where no entry is a stray and no rule is too wide over all, each rule
/// is narrow after each entry.
fn wide_among(
    alloc: Global,
    roster: &Roster,
    rules: &[Rule],
    graph: &Graph,
    entries: &[&Sealed],
) -> Result<Option<usize>, AllocError>
    requires graphed { GivesGraph (map (λ e. e.now) entries.now) (Ok graph.now) }
    requires machines { All (IsOfMachine roster.now.machines) (map (λ e. e.now) entries.now) }
    requires few { AreFewDistinct (map (λ e. e.now) entries.now) }
    ensures { IfOk result (λ found. IfSome found (λ place. IsTooWideAfter roster.now.machines
        (map rule_tree rules.now) (map (λ e. e.now) entries.now) place)) }
{
    if graph.strays().is_empty() {
        let seen = rows(alloc, graph, roster)?;
        if !rules
            .iter()
            .any(|rule| is_too_wide(&rule.body, 1, seen.as_slice()))
        {
            return Ok(None);
        }
    }
    let mut live = Live::make(alloc, roster, Vec::new(alloc))?;
    wide_after(alloc, &mut live, rules, entries)
}

/// Adds the entries one after another, and a line after each.
fn watch_entries(alloc: Global, live: &mut Live, entries: &[&Sealed]) -> Result<String, Unwatched>
    requires live { IsLive live.old }
    requires empty { live.old.added ≡ [] }
    requires machines { All (IsOfMachine live.old.machines) (map (λ e. e.now) entries.now) }
    requires apart { HasNoCollision node_of_sealed text_of_sealed (map (λ e. e.now) entries.now) }
    requires few { AreFewDistinct (map (λ e. e.now) entries.now) }
    ensures ok { IfOk result (λ lines. AreLinesOf live.old.machines (map rule_tree live.old.rules)
        (map (λ e. e.now) entries.now) (string_bytes lines)) }
    ensures added { OnOk result (StandFor node_of_sealed text_of_sealed live.new.added
        (map (λ e. e.now) entries.now)) }
    ensures err { IfErr result (IsUnwatched live.old.machines (map rule_tree live.old.rules)
        (map (λ e. e.now) entries.now)) }
    ensures same { IsOfSameAudit live.old live.new }
    ensures kept { IsLive live.new }
{
    entries_give_one_graph();
    let mut lines = String::new(alloc);
    for k in 0..entries.len() {
        match add_entry(alloc, live, entries[k]) {
            Ok(()) => add_line(&mut lines, k + 1, live)?,
            Err(why) => return Err(why),
        }
    }
    Ok(lines)
}

/// The answer of these lines, with the status of what the report comes to.
fn answer_of(alloc: Global, logs: &[LogRead], graph: &Graph, live: &Live, lines: String) -> Answer
    ensures { result ≡ record {
      status = status_by (outcome_by (list_any is_broken live.now.summary.verdicts)
          (list_any is_unsettled live.now.summary.verdicts)
          (list_any log_has_finding logs.now || graph_has_finding graph.now));
      files = [];
      ahead = 0;
      output = string_bytes lines;
    } }
{
    let outcome = outcome_of(logs, graph, live.verdicts());
    Answer::of_text(alloc, status_by(outcome), lines.into_bytes())
}

/// What these entries give, which the logs keep, and of which at most 1,024 are different.
fn watch_few(
    alloc: Global,
    roster: &Roster,
    word: &str,
    rules: Vec<Rule>,
    logs: &[LogRead],
    graph: &Graph,
    entries: &[&Sealed],
) -> Result<Answer, InputFault>
    requires entries { map (λ e. e.now) entries.now ≡ entries_of logs.now }
    requires machines { All (IsOfMachine roster.now.machines) (entries_of logs.now) }
    requires graphed { GivesGraph (entries_of logs.now) (Ok graph.now) }
    requires few { AreFewDistinct (entries_of logs.now) }
    ensures ok { (names : List (List ℕ)) → IfOk result (λ answer. Watches (source_named word.now)
        names (evidence_by roster.now.machines rules.items logs.now) (Ok answer)) }
    ensures err { (names : List (List ℕ)) → IfErr result (λ fault. IfSome (refusal_of fault)
        (λ refusal. Watches (source_named word.now) names
        (evidence_by roster.now.machines rules.items logs.now) (Err refusal))) }
    ensures only { IfErr result (λ fault. (fault ≢ InputFault.ReadFault) × (¬ IsAbsent fault)) }
    ensures status { IfOk result (λ answer. answer.status ≢ Status.Absent) }
{
    entries_give_one_graph();
    if let Some(place) = wide_among(alloc, roster, rules.as_slice(), graph, entries)? {
        return Err(InputFault::refused(alloc, word, place as u64, Cause::TooWide));
    }
    let mut live = Live::make(alloc, roster, rules)?;
    match watch_entries(alloc, &mut live, entries) {
        Ok(lines) => Ok(answer_of(alloc, logs, graph, &live, lines)),
        Err(Unwatched::TooWide(place)) => {
            Err(InputFault::refused(alloc, word, place as u64, Cause::TooWide))
        }
        Err(Unwatched::Memory) => Err(InputFault::Memory),
    }
}

/// What the entries that the logs keep give, which have this graph.
fn watch_graph(
    alloc: Global,
    roster: &Roster,
    word: &str,
    rules: Vec<Rule>,
    logs: &[LogRead],
    graph: &Graph,
) -> Result<Answer, InputFault>
    requires machines { All (IsOfMachine roster.now.machines) (entries_of logs.now) }
    requires graphed { GivesGraph (entries_of logs.now) (Ok graph.now) }
    ensures ok { (names : List (List ℕ)) → IfOk result (λ answer. Watches (source_named word.now)
        names (evidence_by roster.now.machines rules.items logs.now) (Ok answer)) }
    ensures err { (names : List (List ℕ)) → IfErr result (λ fault. IfSome (refusal_of fault)
        (λ refusal. Watches (source_named word.now) names
        (evidence_by roster.now.machines rules.items logs.now) (Err refusal))) }
    ensures only { IfErr result (λ fault. (fault ≢ InputFault.ReadFault) × (¬ IsAbsent fault)) }
    ensures status { IfOk result (λ answer. answer.status ≢ Status.Absent) }
{
    let entries = entries_in(alloc, logs)?;
    if are_few_distinct(alloc, entries.as_slice())? {
        watch_few(alloc, roster, word, rules, logs, graph, entries.as_slice())
    } else {
        Err(InputFault::refused(alloc, "entries", 0, Cause::TooMany))
    }
}

/// What the evidence gives.
fn watch_evidence(alloc: Global, found: EvidenceRead, word: &str) -> Result<Answer, InputFault>
    requires { All (IsOfMachine found.roster.machines) (entries_of found.logs.items) }
    ensures ok { (names : List (List ℕ)) → IfOk result
        (λ answer. Watches (source_named word.now) names (evidence_of found) (Ok answer)) }
    ensures err { (names : List (List ℕ)) → IfErr result (λ fault. IfSome (refusal_of fault)
        (λ refusal. Watches (source_named word.now) names (evidence_of found) (Err refusal))) }
    ensures only { IfErr result (λ fault. (fault ≢ InputFault.ReadFault) × (¬ IsAbsent fault)) }
    ensures status { IfOk result (λ answer. answer.status ≢ Status.Absent) }
{
    let EvidenceRead {
        roster,
        rules,
        logs,
    } = found;
    match graph_of(alloc, logs.as_slice()) {
        Ok(graph) => watch_graph(alloc, &roster, word, rules, logs.as_slice(), &graph),
        Err(fault) => Err(fault),
    }
}

/// Reads all files in order, and watches what the logs keep.
fn watch_all<W: EntryWork, S: Store>(
    work: &W,
    alloc: Global,
    store: &mut S,
    roster: &str,
    word: &str,
    logs: &[String],
) -> Result<Answer, InputFault>
    requires { W.may_share work.now }
    ensures read { IsReadFrom S.Store (λ answer. answer)
        (audit_files roster.now (source_named word.now) (map string_bytes logs.now))
        (GivesWatch roster.now (source_named word.now) (map string_bytes logs.now))
        store.old result store.new }
    ensures status { IfOk result (λ answer. answer.status ≢ Status.Absent) }
{
    match read_evidence(work, alloc, store, roster, word, logs) {
        Ok(found) => watch_evidence(alloc, found, word),
        Err(fault) => Err(fault),
    }
}

/// The answer of `watch` for the roster, the rules and the logs in these files.
pub fn watch<W: EntryWork, S: Store>(
    work: &W,
    alloc: Global,
    store: &mut S,
    roster: &str,
    rules: &str,
    logs: &[String],
) -> Result<Answer, Fault>
    requires { W.may_share work.now }
    ensures { IsAnsweredBy S.Store (watch_parts roster.now rules.now (map string_bytes logs.now))
        store.old result store.new }
{
    match watch_all(work, alloc, store, roster, rules, logs) {
        Ok(answer) => Ok(answer),
        Err(fault) => Answer::of_fault(alloc, &fault),
    }
}
