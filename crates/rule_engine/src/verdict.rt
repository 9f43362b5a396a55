//! What is answered of a rule.
ghost use Rattle.std.specs.Prelude.{◌≡◌, ◌++◌, ◌<◌, length, IfErr, IfOk, OnOk, IfSome};
ghost use Rattle.precedence.specs.Graph.{Graph};
ghost use Rattle.precedence.specs.Known.{IsKnownOf, known_before, known_count, known_whole};
ghost use Rattle.rule_meaning.specs.Meaning.{bind, unbound};
ghost use Rattle.rule_engine.specs.Verdicts.{IsJudgeAnswer, IsJudged, IsVerdict, broken};
ghost use Rattle.rule_engine.specs.Verdicts.{first_false};
ghost use Rattle.rule_engine.specs.inside.Index.{AreIndexesOf};
ghost use Rattle.rule_meaning.specs.Judging.{value_of};
ghost use Rattle.rule_meaning.specs.Scopes.{BindsRows, env_of};
ghost use Rattle.rule_language.specs.Forms.{tree_of};

use crate::index::Indexes;
use crate::tables::{Survivors, Tables};
use entry_order::Three;
use precedence::Rows;
use rule_language::{Formula, Kind, Row, Rule};
use rule_meaning::atoms::has_kind;
use rule_meaning::judging::value;
use rule_meaning::kleene::is_false;
use rule_meaning::scene::Scene;
use rule_meaning::scope::Scope;
use rule_meaning::width::{Counted, is_too_wide_over};
use std::alloc::{AllocError, Global};
use thiserror::Error;

/// What is answered of a rule.
#[derive(Drop)]
pub enum Verdict {
    /// It holds, whatever was lost.
    Kept,
    /// It doesn't hold, whatever turns up: by the places of the first survivors for which the
    /// leading `every` fails, one for each of the quantifiers over survivors that the rule begins
    /// with.
    Broken(Vec<u32>),
    /// Neither is known.
    Unsettled,
}

/// Why a rule isn't judged.
#[derive(Clone, Copy, Debug, PartialEq, Eq, Error)]
pub enum JudgeFault {
    #[error("quantifiers go over more than 268,435,456 entries together")]
    TooWide,
    #[error("out of memory")]
    Memory,
}

impl From<AllocError> for JudgeFault {
    ghost use Rattle.std.specs.Prelude.{◌≡◌};
    ghost use Rattle.rule_engine.specs.declared.verdict.JudgeFault.TheVariants.{Memory};

    ghost from_gives = { λ _ e. e ≡ Memory };

    fn from(_refused: AllocError) -> JudgeFault {
        JudgeFault::Memory
    }
}

/// Judges a rule by the survivors' rows and their order.
pub fn judge(alloc: Global, rule: &Rule, rows: &[Row], order: &Rows) -> Result<Verdict, JudgeFault>
    requires { length rows.now ≡ known_count order.now }
    ensures { (graph : Graph) → IsKnownOf graph order.now →
        IsJudged rows.now graph (tree_of rule.now.body) result }
{
    answer(alloc, &rule.body, rows, order)
}

/// The answer on a rule that says this.
fn answer(alloc: Global, body: &Formula, rows: &[Row], order: &Rows) -> Result<Verdict, JudgeFault>
    requires { length rows.now ≡ known_count order.now }
    ensures { IsJudgeAnswer rows.now (known_before order.now) (known_whole order.now)
        (tree_of body.now) result }
{
    let indexes = Indexes::make(alloc, body, rows, order)?;
    let survivors = Scene {
        rows,
        known: Tables { order, indexes },
    };
    answer_over(alloc, body, &survivors, &Counted::of(rows))
}

/// The answer on a rule over these survivors, whose rows are counted.
pub(crate) fn answer_over(
    alloc: Global,
    body: &Formula,
    survivors: &Survivors<'_>,
    counted: &Counted<'_>,
) -> Result<Verdict, JudgeFault>
    requires same { length survivors.now.rows.now ≡ known_count survivors.now.known.order.now }
    requires indexed { AreIndexesOf survivors.now.rows.now survivors.now.known.indexes }
    requires counted { counted.now ≡ survivors.now.rows.now }
    ensures { IsJudgeAnswer survivors.now.rows.now (known_before survivors.now.known.order.now)
        (known_whole survivors.now.known.order.now) (tree_of body.now) result }
{
    if is_too_wide_over(body, 1, counted) {
        return Err(JudgeFault::TooWide);
    }
    verdict_of(alloc, body, survivors)
}

/// The verdict on a rule that says this.
pub(crate) fn verdict_of(
    alloc: Global,
    body: &Formula,
    survivors: &Survivors<'_>,
) -> Result<Verdict, JudgeFault>
    requires same { length survivors.now.rows.now ≡ known_count survivors.now.known.order.now }
    requires indexed { AreIndexesOf survivors.now.rows.now survivors.now.known.indexes }
    ensures ok { IfOk result
        (IsVerdict survivors.now.rows.now (known_before survivors.now.known.order.now)
        (known_whole survivors.now.known.order.now) (tree_of body.now)) }
    ensures err { IfErr result (λ fault. fault ≡ JudgeFault.Memory) }
{
    verdict_by(
        alloc,
        value(body, &Scope::Empty, survivors),
        body,
        survivors,
    )
}

/// The verdict on a rule that says this, by its value.
pub(crate) fn verdict_by(
    alloc: Global,
    value: Three,
    body: &Formula,
    survivors: &Survivors<'_>,
) -> Result<Verdict, JudgeFault>
    requires same { length survivors.now.rows.now ≡ known_count survivors.now.known.order.now }
    requires indexed { AreIndexesOf survivors.now.rows.now survivors.now.known.indexes }
    requires value { value ≡ value_of survivors.now.rows.now (known_before survivors.now.known.order.now)
        (known_whole survivors.now.known.order.now) body.now unbound }
    ensures ok { IfOk result
        (IsVerdict survivors.now.rows.now (known_before survivors.now.known.order.now)
        (known_whole survivors.now.known.order.now) (tree_of body.now)) }
    ensures err { IfErr result (λ fault. fault ≡ JudgeFault.Memory) }
{
    match value {
        Three::True => Ok(Verdict::Kept),
        Three::Unknown => Ok(Verdict::Unsettled),
        Three::False => {
            let mut places = Vec::new(alloc);
            push_broken(body, &Scope::Empty, survivors, &mut places)?;
            Ok(Verdict::Broken(places))
        }
    }
}

/// Appends the places of the first rows for which the leading quantifiers over all rows fail.
fn push_broken(
    formula: &Formula,
    scope: &Scope<'_>,
    survivors: &Survivors<'_>,
    places: &mut Vec<u32>,
) -> Result<(), AllocError>
    requires same { length survivors.now.rows.now ≡ known_count survivors.now.known.order.now }
    requires within { BindsRows (length survivors.now.rows.now) scope.now }
    requires indexed { AreIndexesOf survivors.now.rows.now survivors.now.known.indexes }
    ensures { OnOk result (places.new.items ≡ places.old.items
        ++ broken survivors.now.rows.now (known_before survivors.now.known.order.now)
        (known_whole survivors.now.known.order.now) (tree_of formula.now) (env_of scope.now)) }
{
    match formula {
        Formula::ForEvery { v, kind, body } => {
            match first_broken(body, *v, *kind, scope, survivors) {
                None => Ok(()),
                Some(place) => {
                    places.push(place)?;
                    let inner = Scope::With {
                        v: *v,
                        place: place as usize,
                        outer: &*scope,
                    };
                    push_broken(body, &inner, survivors, places)
                }
            }
        }
        _ => Ok(()),
    }
}

/// The first row of the kind at which the value is false.
fn first_broken(
    body: &Formula,
    v: u8,
    kind: Kind,
    scope: &Scope<'_>,
    survivors: &Survivors<'_>,
) -> Option<u32>
    requires same { length survivors.now.rows.now ≡ known_count survivors.now.known.order.now }
    requires within { BindsRows (length survivors.now.rows.now) scope.now }
    requires indexed { AreIndexesOf survivors.now.rows.now survivors.now.known.indexes }
    ensures first { result ≡ first_false survivors.now.rows.now
        (known_before survivors.now.known.order.now) (known_whole survivors.now.known.order.now) kind
        (λ i. value_of survivors.now.rows.now (known_before survivors.now.known.order.now)
        (known_whole survivors.now.known.order.now) body.now (bind v i (env_of scope.now)))
        0 (length survivors.now.rows.now) }
    ensures within { IfSome result (λ place. place < length survivors.now.rows.now) }
{
    for i in 0..survivors.known.order.count() {
        let inner = Scope::With {
            v,
            place: i,
            outer: &*scope,
        };
        if has_kind(kind, Some(survivors.rows[i])) && is_false(value(body, &inner, survivors)) {
            return Some(i as u32);
        }
    }
    None
}
