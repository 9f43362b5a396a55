//! What a row has to have, or else a quantifier's body has a value that leaves the quantifier's as
//! it is: a body that requires an equality with what is bound already.
ghost use Rattle.std.specs.Prelude.{◌≡◌, ℕ, Bool, false, IfSome, Some};
ghost use Rattle.entry_order.specs.declared.three.Three.{Three as ThreeOf};
ghost use Rattle.entry_order.specs.declared.three.Three.TheVariants.{False as KnownFalse};
ghost use Rattle.rule_meaning.specs.Kleene.{as_three};
ghost use Rattle.rule_meaning.specs.Meaning.{bind};
ghost use Rattle.rule_meaning.specs.Tests.{are_equal as are_equal_terms, is_next};
ghost use Rattle.rule_language.specs.declared.row.Row.{Row as RowOf};
ghost use Rattle.rule_meaning.specs.Judging.{value_of, over};
ghost use Rattle.rule_meaning.specs.Scopes.{env_of};
ghost use Rattle.rule_engine.specs.inside.Wanted.{
  IsEquality,
  IsFixed,
  SettledWithout,
  has_wanted,
  row_with,
  term_with,
};

use rule_language::{Field, Formula, Row, Term};
use rule_meaning::atoms::Value;
use rule_meaning::scope::Scope;
use rule_meaning::terms::{row_at, term_value};

/// The number that the row of the variable has to have in the field, or else the formula is true,
/// or false, as asked.
#[cycle(wanting)]
pub(crate) fn wanted_for(
    formula: &Formula,
    truth: bool,
    field: Field,
    v: u8,
    scope: &Scope<'_>,
    rows: &[Row],
) -> Option<u32>
    ensures { (order : ℕ → ℕ → ThreeOf) (wholes : ℕ → Bool) → SettledWithout rows.now field result
        (λ j. value_of rows.now order wholes formula.now (bind v j (env_of scope.now)))
        (as_three truth) }
{
    match formula {
        Formula::Not(body) => wanted_for(body, !truth, field, v, scope, rows),
        Formula::And(parts) => {
            if truth {
                None
            } else {
                wanted_for_some(parts.as_slice(), false, field, v, scope, rows)
            }
        }
        Formula::Or(parts) => {
            if truth {
                wanted_for_some(parts.as_slice(), true, field, v, scope, rows)
            } else {
                None
            }
        }
        Formula::Implies(first, _) => {
            if truth {
                wanted_for(first, false, field, v, scope, rows)
            } else {
                None
            }
        }
        Formula::Equal(t, s) => {
            if truth {
                None
            } else {
                equality(*t, *s, field, v, scope, rows)
            }
        }
        Formula::Next(first, second) => {
            if truth {
                None
            } else {
                following(*first, *second, field, v, scope, rows)
            }
        }
        _ => None,
    }
}

/// What is wanted for some of these formulas: of the first one that wants a number.
#[cycle(wanting)]
fn wanted_for_some(
    parts: &[Formula],
    truth: bool,
    field: Field,
    v: u8,
    scope: &Scope<'_>,
    rows: &[Row],
) -> Option<u32>
    ensures { (order : ℕ → ℕ → ThreeOf) (wholes : ℕ → Bool) → SettledWithout rows.now field result
        (λ j. over rows.now order wholes truth parts.now (bind v j (env_of scope.now))) KnownFalse }
{
    for part in parts {
        let wanted = wanted_for(part, truth, field, v, scope, rows);
        if wanted.is_some() {
            return wanted;
        }
    }
    None
}

/// What the row has to have for the two terms to be equal.
fn equality(t: Term, s: Term, field: Field, v: u8, scope: &Scope<'_>, rows: &[Row]) -> Option<u32>
    ensures { SettledWithout rows.now field result
        (λ j. as_three (are_equal_terms (term_with rows.now (env_of scope.now) v j t)
        (term_with rows.now (env_of scope.now) v j s))) KnownFalse }
{
    match one_way(t, s, field, v, scope, rows) {
        Some(number) => Some(number),
        None => one_way(s, t, field, v, scope, rows),
    }
}

/// The number of the second term, if it is fixed and the first is the field of the row.
fn one_way(t: Term, s: Term, field: Field, v: u8, scope: &Scope<'_>, rows: &[Row]) -> Option<u32>
    ensures { IfSome result (IsEquality rows.now (env_of scope.now) v t s field) }
{
    match t {
        Term::Of {
            v: bound,
            field: other,
        } => {
            if bound == v && other == field {
                fixed(s, v, scope, rows)
            } else {
                None
            }
        }
        Term::Number(_) => None,
    }
}

/// The number that the term is, whatever the variable stands for.
fn fixed(term: Term, v: u8, scope: &Scope<'_>, rows: &[Row]) -> Option<u32>
    ensures { IfSome result (IsFixed rows.now (env_of scope.now) v term) }
{
    match term {
        Term::Number(number) => Some(number),
        Term::Of { v: other, .. } => {
            if other == v {
                None
            } else {
                number_of(term_value(term, scope, rows))
            }
        }
    }
}

/// The number, if it is one.
fn number_of(value: Option<Value>) -> Option<u32>
    ensures { IfSome result (λ number. value ≡ Some (Value.Number number)) }
{
    match value {
        Some(Value::Number(number)) => Some(number),
        _ => None,
    }
}

/// What the row has to have for the second variable's row to be its maker's next after the first's.
fn following(
    first: u8,
    second: u8,
    field: Field,
    v: u8,
    scope: &Scope<'_>,
    rows: &[Row],
) -> Option<u32>
    ensures { SettledWithout rows.now field result
        (λ j. as_three (is_next (row_with rows.now (env_of scope.now) v j first)
        (row_with rows.now (env_of scope.now) v j second))) KnownFalse }
{
    if first == v && second != v {
        before(row_at(rows, scope.place_of(second)), field)
    } else if second == v && first != v {
        after(row_at(rows, scope.place_of(first)), field)
    } else {
        None
    }
}

/// What a row has to have for the other to be its maker's next.
fn before(next: Option<Row>, field: Field) -> Option<u32>
    ensures { (row : RowOf) → has_wanted field result row ≡ false
        → is_next (Some row) next ≡ false }
{
    let next = next?;
    match field {
        Field::Maker => Some(next.maker),
        Field::Number => next.number.checked_sub(1),
        _ => None,
    }
}

/// What a row has to have to be its maker's next after the other.
fn after(last: Option<Row>, field: Field) -> Option<u32>
    ensures { (row : RowOf) → has_wanted field result row ≡ false
        → is_next last (Some row) ≡ false }
{
    let last = last?;
    match field {
        Field::Maker => Some(last.maker),
        Field::Number => last.number.checked_add(1),
        _ => None,
    }
}
