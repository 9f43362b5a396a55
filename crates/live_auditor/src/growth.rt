//! The verdicts where survivors come after those that were judged.
ghost use Rattle.std.specs.Prelude.{◌≡◌, ◌<◌, ◌≤◌, ◌++◌, length, map, take};
ghost use Rattle.std.specs.Prelude.{IfOk, IfSome};
ghost use Rattle.entry_order.specs.Ascending.{ascending as ascending_of};
ghost use Rattle.precedence.specs.Graph.{Graph as PathGraph};
ghost use Rattle.precedence.specs.Known.{IsKnownOf, known_before, known_whole};
ghost use Rattle.rule_language.specs.Forms.{rule_tree};
ghost use Rattle.rule_engine.specs.Growth.{ComesBeforeNone};
ghost use Rattle.rule_engine.specs.Judged.{AreJudged};
ghost use Rattle.live_auditor.specs.inside.Grown.{AreJudgedOver, IsGrowth};
ghost use Rattle.live_auditor.specs.inside.Kept.{nodes_by};

use crate::survivors::{Grown, Link};
use log_frontier::ascending;
use precedence::Rows;
use rule_engine::{Judge, JudgeFault, Verdict};
use rule_language::{Row, Rule};
use std::alloc::{AllocError, Global};

/// Judges the rules in their order by their verdicts over the first rows, if none is too wide.
fn judge_each(
    alloc: Global,
    rules: &[Rule],
    judge: &Judge<'_>,
    count: usize,
    before: &[Verdict],
) -> Result<Option<Vec<Verdict>>, AllocError>
    requires first { count ≤ length judge.now.rows }
    requires later { ComesBeforeNone count (known_before judge.now.known) }
    requires before { AreJudgedOver (take count judge.now.rows) (known_before judge.now.known)
        (known_whole judge.now.known) (map rule_tree rules.now) before.now }
    ensures { IfOk result (λ found. IfSome found (λ verdicts. (graph : PathGraph) →
        IsKnownOf graph judge.now.known →
        AreJudged judge.now.rows graph (map rule_tree rules.now) verdicts.items)) }
{
    let mut verdicts = Vec::with_capacity(alloc, rules.len())?;
    for place in 0..rules.len() {
        match judge.judge_grown(alloc, &rules[place], count, &before[place]) {
            Ok(verdict) => verdicts.push(verdict)?,
            Err(JudgeFault::TooWide) => return Ok(None),
            Err(JudgeFault::Memory) => return Err(AllocError),
        }
    }
    Ok(Some(verdicts))
}

/// The verdicts by the rows of survivors with these links, by those on the first of them, if no
/// rule is too wide.
pub(crate) fn verdicts_by(
    alloc: Global,
    rules: &[Rule],
    rows: &[Row],
    links: &[Link],
    count: usize,
    before: &[Verdict],
) -> Result<Option<Vec<Verdict>>, AllocError>
    requires { IsGrowth rows.now links.now count (map rule_tree rules.now) before.now }
    ensures { IfOk result (λ found. IfSome found (λ verdicts.
        AreJudged rows.now (nodes_by links.now) (map rule_tree rules.now) verdicts.items)) }
{
    // Without rules the order of the rows isn't needed.
    if rules.is_empty() {
        return Ok(Some(Vec::new(alloc)));
    }
    let grown = Grown::over(links);
    let order = Rows::make(alloc, &grown)?;
    let judge = Judge::over(alloc, rows, &order)?;
    judge_each(alloc, rules, &judge, count, before)
}

/// The gaps where these digests, too, are named and no survivor has them.
pub(crate) fn gaps_with(
    alloc: Global,
    gaps: &[[u8; 32]],
    missing: &[[u8; 32]],
) -> Result<Vec<[u8; 32]>, AllocError>
    ensures { IfOk result (λ found. found.items ≡ ascending_of (gaps.now ++ missing.now)) }
{
    let mut all = Vec::from_slice(alloc, gaps)?;
    all.extend_from_slice(missing)?;
    let found = ascending(alloc, all)?;
    Ok(found.into_vec())
}
