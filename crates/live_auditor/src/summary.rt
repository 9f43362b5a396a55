//! What is said of entries.
ghost use Rattle.std.specs.Prelude.{◌≡◌, ◌+◌, ◌<◌, ◌≤◌, length, map, IfOk, IfErr};
ghost use Rattle.rule_language.specs.Forms.{rule_tree};
ghost use Rattle.rule_engine.specs.Judged.{AreJudged, IsUnjudged};
ghost use Rattle.auditor.specs.Nodes.{nodes_of};
ghost use Rattle.survivor_rows.specs.Rows.{HaveMakers, row_of};
ghost use Rattle.live_auditor.specs.inside.Kept.{IsSummed};
ghost use Rattle.live_auditor.specs.inside.KeptOf.{IsSummedBy, kept_of};
ghost use Rattle.live_auditor.specs.inside.Unsummed.{IsUnsummed};

use crate::borrowed::Borrowed;
use crate::survivors::Survivors;
use auditor::rows;
use entry_graph::Graph;
use precedence::{Arrows, Rows};
use roster::Roster;
use rule_engine::{Unjudged, Verdict, judge_all};
use rule_language::{Row, Rule};
use std::alloc::{AllocError, Global};
use std::marker::Model;

/// What is said of entries.
#[derive(Drop)]
pub(crate) struct Summary {
    pub(crate) survivors: usize,
    pub(crate) gaps: Vec<[u8; 32]>,
    pub(crate) strays: Vec<[u8; 32]>,
    pub(crate) forks: Vec<(u32, u32)>,
    pub(crate) verdicts: Vec<Verdict>,
}

impl Model for Summary {
    ghost use Rattle.live_auditor.specs.Summary.{Summary};

    ghost Value = { Summary };

    ghost view = { λ s. record {
      survivors = s.survivors;
      gaps = s.gaps.items;
      strays = s.strays.items;
      forks = s.forks.items;
      verdicts = s.verdicts.items;
    } };
}

impl Summary {
    /// The gaps.
    pub(crate) fn gaps(&self) -> &[[u8; 32]]
        ensures { result.now ≡ self.now.gaps }
    {
        &self.gaps
    }

    /// The verdicts.
    pub(crate) fn verdicts(&self) -> &[Verdict]
        ensures { result.now ≡ self.now.verdicts }
    {
        &self.verdicts
    }
}

/// Judges the rules by the survivors' rows and the graph.
fn judge_over(
    alloc: Global,
    rules: &[Rule],
    rows: &[Row],
    graph: &Graph<Borrowed<'_>>,
) -> Result<Vec<Verdict>, Unjudged>
    requires one_each { length rows.now ≡ length graph.now.survivors }
    requires few { length graph.now.survivors ≤ 16384 }
    requires linked { length graph.now.links ≡ length graph.now.survivors }
    ensures ok { IfOk result (λ verdicts. AreJudged rows.now (nodes_of graph.now)
        (map rule_tree rules.now) verdicts.items) }
    ensures err { IfErr result (IsUnjudged rows.now (map rule_tree rules.now)) }
{
    // Without rules the order of the rows isn't needed.
    if rules.is_empty() {
        return Ok(Vec::new(alloc));
    }
    let order = Rows::make(alloc, graph)?;
    judge_all(alloc, rules, rows, &order)
}

/// What is said of entries, and their survivors.
#[derive(Drop)]
pub(crate) struct Summed {
    pub(crate) summary: Summary,
    pub(crate) survivors: Survivors,
}

/// The summary of the entries that have this graph, by these verdicts.
fn summary_by(
    alloc: Global,
    graph: &Graph<Borrowed<'_>>,
    verdicts: Vec<Verdict>,
) -> Result<Summary, AllocError>
    ensures { IfOk result (λ summary. summary ≡ record {
      survivors = length graph.now.survivors;
      gaps = graph.now.gaps;
      strays = graph.now.strays;
      forks = graph.now.forks;
      verdicts = verdicts.items;
    }) }
{
    Ok(Summary {
        survivors: graph.count(),
        gaps: Vec::from_slice(alloc, graph.gaps())?,
        strays: Vec::from_slice(alloc, graph.strays())?,
        forks: Vec::from_slice(alloc, graph.forks())?,
        verdicts,
    })
}

/// The summary of the entries that have this graph, and their survivors: the rules are judged.
fn summed_by(
    alloc: Global,
    roster: &Roster,
    rules: &[Rule],
    graph: &Graph<Borrowed<'_>>,
) -> Result<Summed, Unjudged>
    requires makers { HaveMakers roster.now.machines graph.now.survivors }
    requires few { length graph.now.survivors ≤ 16384 }
    requires linked { length graph.now.links ≡ length graph.now.survivors }
    ensures ok { IfOk result (λ summed.
        IsSummedBy roster.now.machines (map rule_tree rules.now) graph.now summed) }
    ensures err { IfErr result (IsUnjudged (map (row_of roster.now.machines) graph.now.survivors)
        (map rule_tree rules.now)) }
{
    let seen = rows(alloc, graph, roster)?;
    let verdicts = match judge_over(alloc, rules, seen.as_slice(), graph) {
        Ok(verdicts) => verdicts,
        Err(fault) => return Err(fault),
    };
    Ok(Summed {
        summary: summary_by(alloc, graph, verdicts)?,
        survivors: Survivors::of_graph(alloc, graph, seen)?,
    })
}

/// What is said of these entries, and their survivors. Entries with different digests have a graph.
pub(crate) fn summed_of(
    alloc: Global,
    roster: &Roster,
    rules: &[Rule],
    entries: Vec<Borrowed<'_>>,
) -> Result<Summed, Unjudged>
    requires { HaveMakers roster.now.machines entries.items }
    ensures ok { IfOk result (λ summed. IsSummed roster.now.machines (map rule_tree rules.now)
        entries.entry.items summed.summary (kept_of summed.survivors)) }
    ensures err { IfErr result (IsUnsummed roster.now.machines (map rule_tree rules.now)
        entries.entry.items) }
{
    match Graph::make(alloc, entries) {
        Ok(graph) => summed_by(alloc, roster, rules, &graph),
        Err(_) => Err(Unjudged::Memory),
    }
}
