//! Rows that are made ready, so that one rule after another is judged over them.
ghost use Rattle.std.specs.Prelude.{◌≡◌, ◌≤◌, Ok, length, take, IfOk};
ghost use Rattle.precedence.specs.Graph.{Graph};
ghost use Rattle.precedence.specs.Known.{IsKnownOf, known_before, known_count, known_whole};
ghost use Rattle.rule_language.specs.Forms.{tree_of};
ghost use Rattle.rule_engine.specs.Growth.{ComesBeforeNone};
ghost use Rattle.rule_engine.specs.Verdicts.{IsJudgeAnswer, IsJudged};
ghost use Rattle.rule_engine.specs.inside.Growth.{value_said};
ghost use Rattle.rule_engine.specs.inside.Index.{AreIndexesOf};

use crate::growth::grown_value;
use crate::index::Indexes;
use crate::tables::{Survivors, Tables};
use crate::verdict::{JudgeFault, Verdict, answer_over, verdict_by, verdict_of};
use entry_order::Three;
use precedence::Rows;
use rule_language::{Formula, Row, Rule};
use rule_meaning::scene::Scene;
use rule_meaning::width::{Counted, is_too_wide_over};
use std::alloc::{AllocError, Global};
use std::marker::Model;

/// Survivors' rows and their order, ready for rules to be judged over them.
#[derive(Drop)]
pub struct Judge<'a> {
    survivors: Survivors<'a>,
    counted: Counted<'a>,
}

impl<'a> Model for Judge<'a> {
    ghost use Rattle.std.specs.Prelude.{◌≡◌, length};
    ghost use Rattle.precedence.specs.Known.{known_count};
    ghost use Rattle.rule_engine.specs.Growth.{Ready};
    ghost use Rattle.rule_engine.specs.inside.Index.{AreIndexesOf};

    ghost Value = { Ready };

    ghost view = { λ judge. record {
      rows = judge.survivors.rows.now;
      known = judge.survivors.known.order.now;
    } };

    ghost invariant = { λ judge.
        (length judge.survivors.rows.now ≡ known_count judge.survivors.known.order.now)
        × AreIndexesOf judge.survivors.rows.now judge.survivors.known.indexes
        × (judge.counted ≡ judge.survivors.rows.now) };
}

impl<'a> Judge<'a> {
    /// Makes these rows ready: counts them, and takes memory for three indexes of them.
    pub fn over(alloc: Global, rows: &'a [Row], order: &'a Rows) -> Result<Judge<'a>, AllocError>
        requires { length rows.now ≡ known_count order.now }
        ensures { IfOk result (λ judge. judge ≡ record { rows = rows.now; known = order.now }) }
    {
        let indexes = Indexes::all(alloc, rows, order)?;
        Ok(Judge {
            survivors: Scene {
                rows,
                known: Tables { order, indexes },
            },
            counted: Counted::of(rows),
        })
    }

    /// Judges a rule.
    pub fn judge(&self, alloc: Global, rule: &Rule) -> Result<Verdict, JudgeFault>
        ensures { (graph : Graph) → IsKnownOf graph self.now.known →
            IsJudged self.now.rows graph (tree_of rule.now.body) result }
    {
        answer_over(alloc, &rule.body, &self.survivors, &self.counted)
    }

    /// Judges a rule by its verdict over the first rows. Where no later row can change it, or only
    /// by what the rule says of that row itself, little else is evaluated.
    pub fn judge_grown(
        &self,
        alloc: Global,
        rule: &Rule,
        count: usize,
        before: &Verdict,
    ) -> Result<Verdict, JudgeFault>
        requires first { count ≤ length self.now.rows }
        requires later { ComesBeforeNone count (known_before self.now.known) }
        requires before { IsJudgeAnswer (take count self.now.rows) (known_before self.now.known)
            (known_whole self.now.known) (tree_of rule.now.body) (Ok before.now) }
        ensures { (graph : Graph) → IsKnownOf graph self.now.known →
            IsJudged self.now.rows graph (tree_of rule.now.body) result }
    {
        answer_grown(
            alloc,
            &rule.body,
            count,
            before,
            &self.survivors,
            &self.counted,
        )
    }
}

/// The answer on a rule that says this, by its verdict over the first rows.
fn answer_grown(
    alloc: Global,
    body: &Formula,
    count: usize,
    before: &Verdict,
    survivors: &Survivors<'_>,
    counted: &Counted<'_>,
) -> Result<Verdict, JudgeFault>
    requires same { length survivors.now.rows.now ≡ known_count survivors.now.known.order.now }
    requires indexed { AreIndexesOf survivors.now.rows.now survivors.now.known.indexes }
    requires counted { counted.now ≡ survivors.now.rows.now }
    requires first { count ≤ length survivors.now.rows.now }
    requires later { ComesBeforeNone count (known_before survivors.now.known.order.now) }
    requires before { IsJudgeAnswer (take count survivors.now.rows.now)
        (known_before survivors.now.known.order.now)
        (known_whole survivors.now.known.order.now) (tree_of body.now)
        (Ok before.now) }
    ensures { IsJudgeAnswer survivors.now.rows.now (known_before survivors.now.known.order.now)
        (known_whole survivors.now.known.order.now) (tree_of body.now) result }
{
    if is_too_wide_over(body, 1, counted) {
        return Err(JudgeFault::TooWide);
    }
    match grown_value(body, count, value_said(before), survivors) {
        Some(value) => verdict_by(alloc, value, body, survivors),
        None => verdict_of(alloc, body, survivors),
    }
}

/// The value that the verdict says.
fn value_said(verdict: &Verdict) -> Three
    ensures { result ≡ value_said verdict.now }
{
    match verdict {
        Verdict::Kept => Three::True,
        Verdict::Broken(_) => Three::False,
        Verdict::Unsettled => Three::Unknown,
    }
}
