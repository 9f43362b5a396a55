//! What a demonstration shows.
ghost use Rattle.std.specs.Prelude.{
  ◌≡◌,
  ◌≢◌,
  ◌<◌,
  ◌≤◌,
  ◌∷◌,
  [],
  IfErr,
  IfOk,
  IfSome,
  count_by,
  length,
  map,
};
ghost use Rattle.std.specs.Prelude.{Err, Ok, Some, slice_get};
ghost use Rattle.canonical_sexp.specs.Text.{text_of};
ghost use Rattle.entry_order.specs.World.{history, sent_in};
ghost use Rattle.roster.specs.Machines.{HaveText, max_machines};
ghost use Rattle.roster.specs.RosterText.{roster_tree};
ghost use Rattle.election_script.specs.Lawful.{IsLawful};
ghost use Rattle.log_files.specs.LogFile.{IsSealedLogOf};
ghost use Rattle.log_files.specs.LogText.{HasHeader};
ghost use Rattle.sha2.specs.Sha256.{sha256};
ghost use Rattle.polling_world.specs.Keys.{key_of};
ghost use Rattle.polling_world.specs.Machines.{MachineState};
ghost use Rattle.polling_world.specs.Worlds.{world_of};
ghost use Rattle.rule_language.specs.Standard.{standard_rules};
ghost use Rattle.evidence.specs.Graphs.{entries_of};
ghost use Rattle.evidence.specs.Logs.{IsLogRefusal};
ghost use Rattle.evidence.specs.Refusal.{IsAbsent, refusal_of};
ghost use Rattle.evidence.specs.RosterFile.{max_roster};
ghost use Rattle.auditor.specs.Audits.{WithLogs};
ghost use Rattle.survivor_rows.specs.Rows.{HaveMakers};
ghost use Rattle.auditor.specs.Sources.{standard};
ghost use Rattle.auditor.specs.Outcomes.{is_broken, is_unsettled};
ghost use Rattle.auditor.specs.Report.{report_of};
ghost use Rattle.demonstration.specs.Kept.{IsKeptOf};
ghost use Rattle.demonstration.specs.Shown.{GivesAudit, IsCounted, IsDemonstrationOf, IsRefusedSo};
ghost use Rattle.demonstration.specs.Shown.{is_kept, log_name};

use crate::kept::kept_text;
use auditor::{InputFault, Outcome, Report, audit_logs};
use election_script::Script;
use input_causes::Cause;
use lms_sign::LmsSecret;
use log_files::{LogRead, MAX_BYTES, sealed_log_of};
use polling_world::{Machine, play};
use precedence::Arrows;
use roster::{Roster, election};
use rule_engine::Verdict;
use std::alloc::{AllocError, Global};

/// The name of the log in a refusal.
const LOG: &str = "log";

/// What a demonstration shows.
#[derive(Clone, Copy, Debug, PartialEq, Eq)]
pub struct Demonstration {
    /// How many entries all machines sent.
    pub entries: usize,
    /// How many of them survive in the log that is kept.
    pub survivors: usize,
    /// How many digests a survivor names and none has.
    pub gaps: usize,
    /// How many of the standard rules hold, whatever was lost.
    pub kept: usize,
    /// How many don't hold, whatever turns up.
    pub broken: usize,
    /// Of how many neither is known.
    pub unsettled: usize,
    /// What the report on the log comes to.
    pub outcome: Outcome,
}

/// How many entries the machines sent.
fn count_sent(machines: &[Machine]) -> usize
    requires { length machines.now ≤ max_machines }
    ensures { result ≡ length (sent_in (world_of machines.now)) }
{
    let mut count = 0;
    for machine in machines {
        count += machine.sent_count() as usize;
    }
    count
}

/// How many of the verdicts are that a rule is kept.
fn count_kept(verdicts: &[Verdict]) -> usize
    ensures { result ≡ count_by is_kept verdicts.now }
{
    let kept = verdicts
        .iter()
        .filter(|verdict| matches!(verdict, Verdict::Kept));
    kept.count()
}

/// How many are that one is broken.
fn count_broken(verdicts: &[Verdict]) -> usize
    ensures { result ≡ count_by is_broken verdicts.now }
{
    let broken = verdicts
        .iter()
        .filter(|verdict| matches!(verdict, Verdict::Broken(_)));
    broken.count()
}

/// How many are that one is unsettled.
fn count_unsettled(verdicts: &[Verdict]) -> usize
    ensures { result ≡ count_by is_unsettled verdicts.now }
{
    let unsettled = verdicts
        .iter()
        .filter(|verdict| matches!(verdict, Verdict::Unsettled));
    unsettled.count()
}

/// What is shown of the report, where `entries` entries were sent.
fn shown_of(entries: usize, report: &Report) -> Demonstration
    ensures { IsCounted entries (report_of report.now) result }
{
    let graph = report.graph();
    let verdicts = report.verdicts();
    Demonstration {
        entries,
        survivors: graph.count(),
        gaps: graph.gaps().len(),
        kept: count_kept(verdicts),
        broken: count_broken(verdicts),
        unsettled: count_unsettled(verdicts),
        outcome: report.outcome(),
    }
}

/// What the bytes of the log say under the roster.
fn log_of(alloc: Global, roster: &Roster, bytes: &[u8]) -> Result<LogRead, InputFault>
    requires roster { HaveText roster.now.machines }
    requires header { HasHeader bytes.now }
    ensures ok { IfOk result (λ log. IsSealedLogOf roster.now.machines
        (sha256 (text_of (roster_tree roster.now.machines))) log (Some bytes.now)) }
    ensures err { IfErr result (λ fault. IfSome (refusal_of fault)
        (λ refusal. IsLogRefusal log_name (Some bytes.now) refusal)) }
    ensures only { IfErr result (λ fault. (fault ≢ InputFault.ReadFault) × (¬ IsAbsent fault)) }
{
    if bytes.len() > MAX_BYTES {
        return Err(InputFault::refused(alloc, LOG, 0, Cause::TooLong));
    }
    let text = roster.write(alloc)?;
    match sealed_log_of(alloc, roster, &election(&text), bytes)? {
        Some(log) => Ok(log),
        None => unreachable!(),
    }
}

/// The report by the standard rules on the log.
fn audit_log(alloc: Global, roster: Roster, log: LogRead) -> Result<Report, InputFault>
    requires { HaveMakers roster.machines (entries_of (log ∷ [])) }
    ensures ok { IfOk result (λ report. WithLogs roster.machines standard standard_rules
        (log_name ∷ []) (log ∷ []) (Ok (report_of report))) }
    ensures err { IfErr result (λ fault. IfSome (refusal_of fault)
        (λ refusal. WithLogs roster.machines standard standard_rules (log_name ∷ []) (log ∷ [])
        (Err refusal))) }
    ensures only { IfErr result (λ fault. (fault ≢ InputFault.ReadFault) × (¬ IsAbsent fault)) }
{
    let mut names = Vec::new(alloc);
    names.push(String::from_str(alloc, LOG)?)?;
    let mut logs = Vec::new(alloc);
    logs.push(log)?;
    audit_logs(alloc, roster, names.as_slice(), logs)
}

/// The report by the standard rules on the bytes of the log.
fn report_on(alloc: Global, roster: Roster, bytes: &[u8]) -> Result<Report, InputFault>
    requires roster { HaveText roster.machines }
    requires short { length (text_of (roster_tree roster.machines)) ≤ max_roster }
    requires header { HasHeader bytes.now }
    ensures ok { IfOk result (λ report.
        GivesAudit roster.machines bytes.now (Ok (report_of report))) }
    ensures err { IfErr result (λ fault. IfSome (refusal_of fault)
        (λ refusal. GivesAudit roster.machines bytes.now (Err refusal))) }
    ensures only { IfErr result (λ fault. (fault ≢ InputFault.ReadFault) × (¬ IsAbsent fault)) }
{
    match log_of(alloc, &roster, bytes) {
        Ok(log) => audit_log(alloc, roster, log),
        Err(fault) => Err(fault),
    }
}

/// What is kept of the log of the first machine.
fn first_kept(alloc: Global, machines: &[Machine], session: u32) -> Result<Vec<u8>, AllocError>
    requires some { 0 < length machines.now }
    requires number { (first : MachineState) → slice_get machines.now 0 ≡ Some first →
        first.config.number ≡ 0 }
    ensures { IfOk result (λ bytes.
        IsKeptOf session 0 (history (world_of machines.now) 0) bytes.items) }
{
    kept_text(alloc, machines[0].log(), session)
}

/// Plays the script in memory on machines with these keys, and keeps the log of its first machine
/// alone, cut one byte after the record of the last Cast, Challenge or Cancel of the session, or
/// whole where it has none or nothing follows it. What is shown is counted of the report on
/// that log by the standard rules.
///
/// # Errors
///
/// `Refused` of `standard` with `TooWide`, of `entries` with what the graph is refused for, or of
/// `log` with `TooLong` where what is kept is over 67,108,864 bytes; or `Memory`.
pub fn demonstrate(
    alloc: Global,
    script: &Script,
    keys: Vec<LmsSecret>,
    session: u32,
) -> Result<Demonstration, InputFault>
    requires lawful { IsLawful script.now }
    requires keys { keys.items ≡ map (key_of script.now) script.now.machines }
    ensures ok { IfOk result (IsDemonstrationOf script.now session) }
    ensures err { IfErr result (λ fault.
        IfSome (refusal_of fault) (IsRefusedSo script.now session)) }
    ensures only { IfErr result (λ fault. (fault ≢ InputFault.ReadFault) × (¬ IsAbsent fault)) }
{
    let world = play(alloc, script, keys)?;
    let machines = world.machines.as_slice();
    let entries = count_sent(machines);
    let bytes = first_kept(alloc, machines, session)?;
    match report_on(alloc, world.roster, bytes.as_slice()) {
        Ok(report) => Ok(shown_of(entries, &report)),
        Err(fault) => Err(fault),
    }
}
