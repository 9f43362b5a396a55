//! What a report comes to.
ghost use Rattle.std.specs.Prelude.{◌≡◌, ◌||◌};
ghost use Rattle.std.specs.List.{list_any};
ghost use Rattle.auditor.specs.Outcomes.{outcome_word, log_has_finding, graph_has_finding};
ghost use Rattle.auditor.specs.Outcomes.{is_broken, is_unsettled, outcome_by};

use entry_graph::Graph;
use log_files::{End, LogRead};
use rule_engine::Verdict;

/// What a report comes to, the last that applies.
#[derive(Clone, Copy, Debug, PartialEq, Eq)]
pub enum Outcome {
    /// Every rule is kept, and nothing was found.
    Kept,
    /// Every rule is kept; a refused record, an end that isn't clean, a break, a stray, a fork or a
    /// gap was found.
    Findings,
    /// No rule is broken, and some rule is unsettled.
    Unsettled,
    /// Some rule is broken.
    Broken,
}

impl Outcome {
    /// The outcome's word in reports.
    pub fn word(self) -> &'static str
        ensures { result.now ≡ outcome_word self }
    {
        match self {
            Outcome::Kept => "kept",
            Outcome::Findings => "findings",
            Outcome::Unsettled => "unsettled",
            Outcome::Broken => "broken",
        }
    }
}

/// Whether the log has a refused record, an end that isn't clean, or a break.
fn log_has_finding(log: &LogRead) -> bool
    ensures { result ≡ log_has_finding log.now }
{
    !log.refused.is_empty() || !matches!(log.end, End::Clean) || log.broke.is_some()
}

/// Whether the graph has a stray, a fork or a gap.
fn graph_has_finding(graph: &Graph) -> bool
    ensures { result ≡ graph_has_finding graph.now }
{
    !graph.strays().is_empty() || !graph.forks().is_empty() || !graph.gaps().is_empty()
}

fn is_broken(verdict: &Verdict) -> bool
    ensures { result ≡ is_broken verdict.now }
{
    matches!(verdict, Verdict::Broken(_))
}

fn is_unsettled(verdict: &Verdict) -> bool
    ensures { result ≡ is_unsettled verdict.now }
{
    matches!(verdict, Verdict::Unsettled)
}

/// Whether one of the logs has a finding.
fn logs_have_finding(logs: &[LogRead]) -> bool
    ensures { result ≡ list_any log_has_finding logs.now }
{
    logs.iter().any(|log| log_has_finding(log))
}

/// Whether some rule is broken.
fn some_are_broken(verdicts: &[Verdict]) -> bool
    ensures { result ≡ list_any is_broken verdicts.now }
{
    verdicts.iter().any(|verdict| is_broken(verdict))
}

/// Whether some rule is unsettled.
fn some_are_unsettled(verdicts: &[Verdict]) -> bool
    ensures { result ≡ list_any is_unsettled verdicts.now }
{
    verdicts.iter().any(|verdict| is_unsettled(verdict))
}

/// What these logs, this graph and these verdicts come to.
pub fn outcome_of(logs: &[LogRead], graph: &Graph, verdicts: &[Verdict]) -> Outcome
    ensures { result ≡ outcome_by (list_any is_broken verdicts.now)
        (list_any is_unsettled verdicts.now)
        (list_any log_has_finding logs.now || graph_has_finding graph.now) }
{
    if some_are_broken(verdicts) {
        Outcome::Broken
    } else if some_are_unsettled(verdicts) {
        Outcome::Unsettled
    } else if logs_have_finding(logs) || graph_has_finding(graph) {
        Outcome::Findings
    } else {
        Outcome::Kept
    }
}
