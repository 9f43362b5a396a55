// The command `audit`: the report on a polling place from whatever logs survive.
ghost use Rattle.std.specs.Prelude.{◌≡◌, ◌≢◌, map, IfOk, string_bytes};
ghost use Rattle.auditor.specs.Report.{report_of};
ghost use Rattle.log_commands.specs.Audit.{audit_parts};
ghost use Rattle.log_commands.specs.ReportAnswers.{report_answer};
ghost use Rattle.command_line.specs.Promise.{IsAnsweredBy};

use auditor::{Report, write_report};
use command_line::{Answer, Fault, Status, rules_from, status_by};
use hall_outside::Store;
use log_files::EntryWork;
use std::alloc::{AllocError, Global};

/// The answer of a report.
fn answer_of(alloc: Global, report: &Report) -> Result<Answer, AllocError>
    ensures told { IfOk result (λ answer. answer ≡ report_answer (report_of report.now)) }
    ensures status { IfOk result (λ answer. answer.status ≢ Status.Absent) }
{
    let text = write_report(alloc, report)?;
    let outcome = report.outcome();
    Ok(Answer::of_text(alloc, status_by(outcome), text))
}

/// The answer of `audit` for the roster, the rules and the logs in these files.
pub fn audit<W: EntryWork, S: Store>(
    work: &W,
    alloc: Global,
    store: &mut S,
    roster: &str,
    rules: &str,
    logs: &[String],
) -> Result<Answer, Fault>
    requires { W.may_share work.now }
    ensures { IsAnsweredBy S.Store (audit_parts roster.now rules.now (map string_bytes logs.now))
        store.old result store.new }
{
    match auditor::audit_by(work, alloc, store, roster, rules_from(rules), logs) {
        Ok(report) => Ok(answer_of(alloc, &report)?),
        Err(fault) => Answer::of_fault(alloc, &fault),
    }
}
