//! The laws of rules. Each is the contract of a function with an empty body.
ghost use Rattle.rule_language.specs.declared.row.Row.{Row as RowOf};
ghost use Rattle.rule_meaning.specs.Sound.{
  GraphsAreTrue,
  LessIsKnown,
  RulesAreSettled,
  UnknownOnlyByGaps,
  ValuesAreRight,
};

use entry_order::Knot;

/// By any knowledge that is right of some entries, a rule whose value is true holds of them, and
/// one whose value is false doesn't, whatever rows the survivors have.
pub fn values_are_right<T: Knot>()
    ensures { (row : T → RowOf) → ValuesAreRight T.node row }
{}

/// By less knowledge a rule has the same value, or none.
pub fn less_is_known()
    ensures { LessIsKnown }
{}

/// What the survivors' graph says is right of every completion. So a rule that is known to be true
/// of some survivors, whatever rows they have, holds in every completion of them, and one that is
/// known to be false holds in none. Nothing is unknown where no survivor names a gap.
pub fn rules_are_settled<T: Knot>()
    ensures graphs { GraphsAreTrue T.node }
    ensures settled { (row : T → RowOf) → RulesAreSettled T.node row }
    ensures unknown { (row : T → RowOf) → UnknownOnlyByGaps T.node row }
{}
