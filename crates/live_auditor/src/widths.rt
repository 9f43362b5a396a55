//! The first rule that is too wide.
ghost use Rattle.std.specs.Prelude.{ℕ, map, IfNone, IfSome};
ghost use Rattle.rule_engine.specs.Judged.{IsFirstTooWide};
ghost use Rattle.rule_language.specs.Forms.{rule_tree};

use rule_language::{Row, Rule};
use rule_meaning::width::{Counted, is_too_wide_over};

/// The place, counted from 0, of the first of the rules that is too wide over the rows.
pub(crate) fn first_too_wide(rules: &[Rule], rows: &[Row]) -> Option<usize>
    ensures some { IfSome result (IsFirstTooWide rows.now (map rule_tree rules.now)) }
    ensures none { IfNone result ((place : ℕ) →
        ¬ IsFirstTooWide rows.now (map rule_tree rules.now) place) }
{
    let counted = Counted::of(rows);
    for place in 0..rules.len() {
        if is_too_wide_over(&rules[place].body, 1, &counted) {
            return Some(place);
        }
    }
    None
}
