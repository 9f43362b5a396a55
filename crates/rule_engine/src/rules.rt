//! Judging rules one after another.
ghost use Rattle.std.specs.Prelude.{◌≡◌, IfErr, IfOk, length, map};
ghost use Rattle.precedence.specs.Graph.{Graph};
ghost use Rattle.precedence.specs.Known.{IsKnownOf, known_count};
ghost use Rattle.rule_language.specs.Forms.{rule_tree};
ghost use Rattle.rule_engine.specs.Judged.{AreJudged, IsUnjudged};

use crate::ready::Judge;
use crate::verdict::{JudgeFault, Verdict};
use precedence::Rows;
use rule_language::{Row, Rule};
use std::alloc::{AllocError, AllocFailed, Global};
use thiserror::Error;

/// Why rules aren't judged.
#[derive(Clone, Copy, Debug, PartialEq, Eq, Error)]
pub enum Unjudged {
    #[error("rule {place}: quantifiers go over more than 268,435,456 entries together")]
    TooWide {
        /// The place of the first rule that is too wide, counted from 0.
        place: usize,
    },
    #[error("out of memory")]
    Memory,
}

impl From<AllocError> for Unjudged {
    ghost use Rattle.std.specs.Prelude.{◌≡◌};
    ghost use Rattle.rule_engine.specs.declared.rules.Unjudged.TheVariants.{Memory};

    ghost from_gives = { λ _ e. e ≡ Memory };

    fn from(_refused: AllocError) -> Unjudged {
        Unjudged::Memory
    }
}

impl<T: Drop> From<AllocFailed<T>> for Unjudged {
    ghost use Rattle.std.specs.Prelude.{◌≡◌};
    ghost use Rattle.rule_engine.specs.declared.rules.Unjudged.TheVariants.{Memory};

    ghost from_gives = { λ _ e. e ≡ Memory };

    fn from(_refused: AllocFailed<T>) -> Unjudged {
        Unjudged::Memory
    }
}

/// Judges the rules in their order by the survivors' rows and their order.
///
/// # Errors
///
/// `TooWide` of the first rule that is too wide, after which none is judged; or `Memory`.
pub fn judge_all(
    alloc: Global,
    rules: &[Rule],
    rows: &[Row],
    order: &Rows,
) -> Result<Vec<Verdict>, Unjudged>
    requires { length rows.now ≡ known_count order.now }
    ensures ok { IfOk result (λ verdicts. (graph : Graph) → IsKnownOf graph order.now →
        AreJudged rows.now graph (map rule_tree rules.now) verdicts.items) }
    ensures err { IfErr result (λ fault. (graph : Graph) → IsKnownOf graph order.now →
        IsUnjudged rows.now (map rule_tree rules.now) fault) }
{
    let judge = Judge::over(alloc, rows, order)?;
    let mut verdicts = Vec::with_capacity(alloc, rules.len())?;
    for place in 0..rules.len() {
        match judge.judge(alloc, &rules[place]) {
            Ok(verdict) => verdicts.push(verdict)?,
            Err(JudgeFault::TooWide) => return Err(Unjudged::TooWide { place }),
            Err(JudgeFault::Memory) => return Err(Unjudged::Memory),
        }
    }
    Ok(verdicts)
}
