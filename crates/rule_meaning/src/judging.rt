//! The value of a formula by what is known, by recursion over the rows.
ghost use Rattle.std.specs.Prelude.{◌≡◌, ◌<◌, ◌&&◌, List, length, slice_get, IfSome};
ghost use Rattle.rule_language.specs.declared.row.Row.{Row as RowOf};
ghost use Rattle.rule_meaning.specs.Kleene.{either, opposite};
ghost use Rattle.rule_meaning.specs.Tests.{has_kind};
ghost use Rattle.rule_meaning.specs.Values.{order_of};
ghost use Rattle.rule_meaning.specs.Judging.{
  value_of,
  over,
  over_rows,
  over_before,
  if_meant,
  is_in,
  unless_ragged,
};
ghost use Rattle.rule_meaning.specs.Visited.{IsVisitedFor};
ghost use Rattle.rule_meaning.specs.Scopes.{BindsRows, env_of};

use crate::atoms::{are_equal, has_kind, has_role, is_less, is_next, same_place};
use crate::kleene::{as_three, both, either, is_false, opposite, signed};
use crate::knowledge::Knowledge;
use crate::quantifier::{Quantifier, quantifier_over};
use crate::scene::Scene;
use crate::scope::Scope;
use crate::terms::{row_at, term_value};
use entry_order::Three;
use rule_language::Formula;

/// The value of the formula where the variables of the scope are bound.
#[cycle(judging)]
pub fn value<K: Knowledge>(formula: &Formula, scope: &Scope<'_>, scene: &Scene<'_, K>) -> Three
    requires many { length scene.now.rows.now ≡ K.count scene.now.known }
    requires within { BindsRows (length scene.now.rows.now) scope.now }
    requires serves { K.serves scene.now.known scene.now.rows.now }
    ensures { result ≡ value_of scene.now.rows.now (K.order scene.now.known)
        (K.wholes scene.now.known) formula.now (env_of scope.now) }
{
    let rows = scene.rows;
    match formula {
        Formula::True => Three::True,
        Formula::ForEvery { v, kind, body } => {
            over_rows(quantifier_over(false, *v, *kind), body, scope, scene)
        }
        Formula::ForSome { v, kind, body } => {
            opposite(over_rows(quantifier_over(true, *v, *kind), body, scope, scene))
        }
        Formula::EveryBefore { v, kind, u, body } => {
            over_before(quantifier_over(false, *v, *kind), *u, body, scope, scene)
        }
        Formula::SomeBefore { v, kind, u, body } => {
            opposite(over_before(quantifier_over(true, *v, *kind), *u, body, scope, scene))
        }
        Formula::And(parts) => over(false, parts.as_slice(), scope, scene),
        Formula::Or(parts) => opposite(over(true, parts.as_slice(), scope, scene)),
        Formula::Not(body) => opposite(value(body, scope, scene)),
        Formula::Implies(first, second) => {
            implied(value(first, scope, scene), second, scope, scene)
        }
        Formula::Same(v, u) => same_place(scope.place_of(*v), scope.place_of(*u)),
        Formula::Before(v, u) => order_of(*v, *u, scope, &scene.known),
        Formula::Next(v, u) => as_three(is_next(
            row_at(rows, scope.place_of(*v)),
            row_at(rows, scope.place_of(*u)),
        )),
        Formula::Is(v, role) => as_three(has_role(*role, row_at(rows, scope.place_of(*v)))),
        Formula::OfKind(v, kind) => as_three(has_kind(*kind, row_at(rows, scope.place_of(*v)))),
        Formula::Equal(t, s) => as_three(are_equal(
            term_value(*t, scope, rows),
            term_value(*s, scope, rows),
        )),
        Formula::Less(t, s) => as_three(is_less(
            term_value(*t, scope, rows),
            term_value(*s, scope, rows),
        )),
    }
}

/// The value of an implication. The second formula isn't evaluated where the first is false.
#[cycle(judging)]
fn implied<K: Knowledge>(
    first: Three,
    second: &Formula,
    scope: &Scope<'_>,
    scene: &Scene<'_, K>,
) -> Three
    requires many { length scene.now.rows.now ≡ K.count scene.now.known }
    requires within { BindsRows (length scene.now.rows.now) scope.now }
    requires serves { K.serves scene.now.known scene.now.rows.now }
    ensures { result ≡ either (opposite first) (value_of scene.now.rows.now
        (K.order scene.now.known) (K.wholes scene.now.known) second.now
        (env_of scope.now)) }
{
    if is_false(first) {
        Three::True
    } else {
        either(opposite(first), value(second, scope, scene))
    }
}

/// The least value of formulas, or of their opposites.
#[cycle(judging)]
fn over<K: Knowledge>(
    some: bool,
    parts: &[Formula],
    scope: &Scope<'_>,
    scene: &Scene<'_, K>,
) -> Three
    requires many { length scene.now.rows.now ≡ K.count scene.now.known }
    requires within { BindsRows (length scene.now.rows.now) scope.now }
    requires serves { K.serves scene.now.known scene.now.rows.now }
    ensures { result ≡ over scene.now.rows.now (K.order scene.now.known)
        (K.wholes scene.now.known) some parts.now (env_of scope.now) }
{
    let mut least = Three::True;
    for part in parts {
        least = both(least, signed(some, value(part, scope, scene)));
        if is_false(least) {
            return Three::False;
        }
    }
    least
}

/// The least of a formula's values, or of their opposites, at the rows that a quantifier goes over.
#[cycle(judging)]
pub fn over_rows<K: Knowledge>(
    quantifier: Quantifier,
    body: &Formula,
    scope: &Scope<'_>,
    scene: &Scene<'_, K>,
) -> Three
    requires many { length scene.now.rows.now ≡ K.count scene.now.known }
    requires within { BindsRows (length scene.now.rows.now) scope.now }
    requires serves { K.serves scene.now.known scene.now.rows.now }
    requires node { IfSome quantifier.within (λ u. u < length scene.now.rows.now) }
    ensures { result ≡ over_rows scene.now.rows.now (K.order scene.now.known)
        (K.wholes scene.now.known) quantifier.some body.now quantifier.v
        quantifier.kind quantifier.within (env_of scope.now) }
{
    match scene.known.visited(quantifier, body, scope, scene.rows) {
        Some(places) => over_visited(places, quantifier, body, scope, scene),
        None => over_each(quantifier, body, scope, scene),
    }
}

/// The least over a quantifier's rows from these only, as at all others the formula is settled.
#[cycle(judging)]
fn over_visited<K: Knowledge>(
    places: &[usize],
    quantifier: Quantifier,
    body: &Formula,
    scope: &Scope<'_>,
    scene: &Scene<'_, K>,
) -> Three
    requires many { length scene.now.rows.now ≡ K.count scene.now.known }
    requires within { BindsRows (length scene.now.rows.now) scope.now }
    requires serves { K.serves scene.now.known scene.now.rows.now }
    requires node { IfSome quantifier.within (λ u. u < length scene.now.rows.now) }
    requires visited { IsVisitedFor scene.now.rows.now (K.order scene.now.known)
        (K.wholes scene.now.known) quantifier body.now (env_of scope.now) places.now }
    ensures { result ≡ over_rows scene.now.rows.now (K.order scene.now.known)
        (K.wholes scene.now.known) quantifier.some body.now quantifier.v
        quantifier.kind quantifier.within (env_of scope.now) }
{
    let mut least = Three::True;
    for place in places {
        least = both(least, value_at(*place, quantifier, body, scope, scene));
        if is_false(least) {
            return Three::False;
        }
    }
    least
}

/// The least over a quantifier's rows, found row by row.
#[cycle(judging)]
fn over_each<K: Knowledge>(
    quantifier: Quantifier,
    body: &Formula,
    scope: &Scope<'_>,
    scene: &Scene<'_, K>,
) -> Three
    requires many { length scene.now.rows.now ≡ K.count scene.now.known }
    requires within { BindsRows (length scene.now.rows.now) scope.now }
    requires serves { K.serves scene.now.known scene.now.rows.now }
    requires node { IfSome quantifier.within (λ u. u < length scene.now.rows.now) }
    ensures { result ≡ over_rows scene.now.rows.now (K.order scene.now.known)
        (K.wholes scene.now.known) quantifier.some body.now quantifier.v
        quantifier.kind quantifier.within (env_of scope.now) }
{
    let mut least = Three::True;
    for i in 0..scene.rows.len() {
        least = both(least, value_at(i, quantifier, body, scope, scene));
        if is_false(least) {
            return Three::False;
        }
    }
    least
}

/// The value at a row that is meant, or its opposite, and true at any other.
#[cycle(judging)]
pub fn value_at<K: Knowledge>(
    i: usize,
    quantifier: Quantifier,
    body: &Formula,
    scope: &Scope<'_>,
    scene: &Scene<'_, K>,
) -> Three
    requires many { length scene.now.rows.now ≡ K.count scene.now.known }
    requires within { BindsRows (length scene.now.rows.now) scope.now }
    requires serves { K.serves scene.now.known scene.now.rows.now }
    requires node { IfSome quantifier.within (λ u. u < length scene.now.rows.now) }
    requires row { i < length scene.now.rows.now }
    ensures { result ≡ if_meant scene.now.rows.now (K.order scene.now.known)
        (K.wholes scene.now.known) quantifier.some body.now quantifier.v
        quantifier.kind quantifier.within (env_of scope.now) i }
{
    if is_meant(quantifier, i, scene) {
        let inner = Scope::With {
            v: quantifier.v,
            place: i,
            outer: &*scope,
        };
        signed(quantifier.some, value(body, &inner, scene))
    } else {
        Three::True
    }
}

/// The least over those of a quantifier's rows that come before a variable's row.
#[cycle(judging)]
fn over_before<K: Knowledge>(
    quantifier: Quantifier,
    u: u8,
    body: &Formula,
    scope: &Scope<'_>,
    scene: &Scene<'_, K>,
) -> Three
    requires many { length scene.now.rows.now ≡ K.count scene.now.known }
    requires within { BindsRows (length scene.now.rows.now) scope.now }
    requires serves { K.serves scene.now.known scene.now.rows.now }
    ensures { result ≡ over_before scene.now.rows.now (K.order scene.now.known)
        (K.wholes scene.now.known) quantifier.some body.now quantifier.v
        quantifier.kind (env_of scope.now) (env_of scope.now u) }
{
    match scope.place_of(u) {
        None => Three::True,
        Some(place) => {
            let within = Quantifier {
                within: Some(place),
                ..quantifier
            };
            both(
                over_rows(within, body, scope, scene),
                unless_ragged(&scene.known, place),
            )
        }
    }
}

/// True where the row is whole, and else unknown.
fn unless_ragged<K: Knowledge>(known: &K, u: usize) -> Three
    requires serves { (rows : List RowOf) × K.serves known.now rows }
    requires place { u < K.count known.now }
    ensures { result ≡ unless_ragged (K.wholes known.now) u }
{
    if known.whole(u) {
        Three::True
    } else {
        Three::Unknown
    }
}

/// The order of what two variables stand for.
fn order_of<K: Knowledge>(v: u8, u: u8, scope: &Scope<'_>, known: &K) -> Three
    requires serves { (rows : List RowOf) × K.serves known.now rows }
    requires within { BindsRows (K.count known.now) scope.now }
    ensures { result ≡ order_of (K.order known.now) (env_of scope.now v) (env_of scope.now u) }
{
    match (scope.place_of(v), scope.place_of(u)) {
        (Some(y), Some(x)) => known.before(y, x),
        _ => Three::False,
    }
}

/// Whether the quantifier goes over the row: it is of the kind, and comes before the other, if
/// there is one.
fn is_meant<K: Knowledge>(quantifier: Quantifier, i: usize, scene: &Scene<'_, K>) -> bool
    requires serves { K.serves scene.now.known scene.now.rows.now }
    requires row { i < length scene.now.rows.now }
    requires node { IfSome quantifier.within (λ u. u < K.count scene.now.known) }
    ensures { result ≡ (has_kind quantifier.kind (slice_get scene.now.rows.now i)
        && is_in (K.order scene.now.known) quantifier.within i) }
{
    has_kind(quantifier.kind, Some(scene.rows[i])) && is_before(&scene.known, i, quantifier.within)
}

/// Whether the row comes before the other, if there is one.
fn is_before<K: Knowledge>(known: &K, i: usize, within: Option<usize>) -> bool
    requires serves { (rows : List RowOf) × K.serves known.now rows }
    requires node { IfSome within (λ u. u < K.count known.now) }
    ensures { result ≡ is_in (K.order known.now) within i }
{
    match within {
        None => true,
        Some(u) => matches!(known.before(i, u), Three::True),
    }
}
