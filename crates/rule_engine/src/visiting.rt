//! The rows that a quantifier has to go over, found by what its body requires.
ghost use Rattle.std.specs.Prelude.{ℕ, Bool, IfSome};
ghost use Rattle.entry_order.specs.declared.three.Three.{Three as ThreeOf};
ghost use Rattle.rule_meaning.specs.Scopes.{env_of};
ghost use Rattle.rule_meaning.specs.Visited.{IsVisitedFor};
ghost use Rattle.rule_engine.specs.inside.Index.{AreIndexesOf};

use crate::index::{Indexes, entry_group};
use crate::wanted::wanted_for;
use rule_language::{Field, Formula, Kind, Row};
use rule_meaning::quantifier::Quantifier;
use rule_meaning::scope::Scope;

/// How many rows of a kind are visited one by one rather than searched for those that are wanted.
const FEW: usize = 4;

/// The rows at which the quantifier's body isn't settled, if an index serves.
pub(crate) fn visited_for<'a>(
    quantifier: Quantifier,
    body: &Formula,
    scope: &Scope<'_>,
    rows: &[Row],
    indexes: &'a Indexes,
) -> Option<&'a [usize]>
    requires { AreIndexesOf rows.now indexes.now }
    ensures { (order : ℕ → ℕ → ThreeOf) (wholes : ℕ → Bool) → IfSome result
        (λ places. IsVisitedFor rows.now order wholes quantifier body.now (env_of scope.now)
        places.now) }
{
    let of_kind = by_kind(quantifier, body, scope, rows, indexes);
    if are_few(of_kind) {
        return of_kind;
    }
    let session = by_session(quantifier, body, scope, rows, indexes);
    if session.is_some() {
        return session;
    }
    let entry = by_entry(quantifier, body, scope, rows, indexes);
    if entry.is_some() {
        return entry;
    }
    of_kind
}

/// Whether there are so few of them that a search costs more than visiting each.
fn are_few(places: Option<&[usize]>) -> bool {
    match places {
        None => false,
        Some(places) => places.len() <= FEW,
    }
}

/// The rows of the kind in the session that the body requires.
fn by_session<'a>(
    quantifier: Quantifier,
    body: &Formula,
    scope: &Scope<'_>,
    rows: &[Row],
    indexes: &'a Indexes,
) -> Option<&'a [usize]>
    requires { AreIndexesOf rows.now indexes.now }
    ensures { (order : ℕ → ℕ → ThreeOf) (wholes : ℕ → Bool) → IfSome result
        (λ places. IsVisitedFor rows.now order wholes quantifier body.now (env_of scope.now)
        places.now) }
{
    let index = indexes.sessions.as_ref()?;
    let truth = !quantifier.some;
    let session = wanted_for(body, truth, Field::Session, quantifier.v, scope, rows)?;
    Some(index.places_of(session as u64, quantifier.kind))
}

/// The rows of the kind with the maker and the number that the body requires.
fn by_entry<'a>(
    quantifier: Quantifier,
    body: &Formula,
    scope: &Scope<'_>,
    rows: &[Row],
    indexes: &'a Indexes,
) -> Option<&'a [usize]>
    requires { AreIndexesOf rows.now indexes.now }
    ensures { (order : ℕ → ℕ → ThreeOf) (wholes : ℕ → Bool) → IfSome result
        (λ places. IsVisitedFor rows.now order wholes quantifier body.now (env_of scope.now)
        places.now) }
{
    let index = indexes.entries.as_ref()?;
    let truth = !quantifier.some;
    let maker = wanted_for(body, truth, Field::Maker, quantifier.v, scope, rows)?;
    let number = wanted_for(body, truth, Field::Number, quantifier.v, scope, rows)?;
    Some(index.places_of(entry_group(maker, number), quantifier.kind))
}

/// The rows of the kind, if it isn't any.
fn by_kind<'a>(
    quantifier: Quantifier,
    body: &Formula,
    scope: &Scope<'_>,
    rows: &[Row],
    indexes: &'a Indexes,
) -> Option<&'a [usize]>
    requires { AreIndexesOf rows.now indexes.now }
    ensures { (order : ℕ → ℕ → ThreeOf) (wholes : ℕ → Bool) → IfSome result
        (λ places. IsVisitedFor rows.now order wholes quantifier body.now (env_of scope.now)
        places.now) }
{
    if matches!(quantifier.kind, Kind::Any) {
        return None;
    }
    Some(indexes.kinds.places_of(quantifier.kind))
}
