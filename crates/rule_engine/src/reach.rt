//! Over which rows the quantifiers of a formula go that go over all survivors.
ghost use Rattle.std.specs.Prelude.{◌≡◌};
ghost use Rattle.std.specs.List.{list_any};
ghost use Rattle.rule_language.specs.Forms.{tree_of, trees_of};
ghost use Rattle.rule_engine.specs.inside.Reach.{reaches_row};

use rule_language::{Formula, Row};
use rule_meaning::atoms::is_kind;

/// Whether some quantifier over all survivors goes over the row.
#[cycle(reaching)]
pub(crate) fn reaches(formula: &Formula, row: &Row) -> bool
    ensures { result ≡ reaches_row row.now (tree_of formula.now) }
{
    match formula {
        Formula::ForEvery { kind, body, .. } => is_kind(*kind, row.kind) || reaches(body, row),
        Formula::ForSome { kind, body, .. } => is_kind(*kind, row.kind) || reaches(body, row),
        Formula::EveryBefore { body, .. } => reaches(body, row),
        Formula::SomeBefore { body, .. } => reaches(body, row),
        Formula::And(parts) => some_reach(parts.as_slice(), row),
        Formula::Or(parts) => some_reach(parts.as_slice(), row),
        Formula::Not(body) => reaches(body, row),
        Formula::Implies(first, second) => {
            let first = reaches(first, row);
            let second = reaches(second, row);
            first || second
        }
        _ => false,
    }
}

/// Whether a quantifier over all survivors in some of the formulas goes over the row.
#[cycle(reaching)]
fn some_reach(parts: &[Formula], row: &Row) -> bool
    ensures { result ≡ reaches_row row.now (trees_of parts.now) }
{
    for part in parts {
        if reaches(part, row) {
            return true;
        }
    }
    false
}

/// Whether some quantifier over all survivors goes over one of the rows.
pub(crate) fn reaches_some(formula: &Formula, rows: &[Row]) -> bool
    ensures { result ≡ list_any (λ row. reaches_row row (tree_of formula.now)) rows.now }
{
    rows.iter().any(|row| reaches(formula, row))
}
