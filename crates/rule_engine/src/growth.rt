//! The value of a rule where rows come after those that it was judged by.
ghost use Rattle.std.specs.Prelude.{◌≡◌, ◌<◌, ◌≤◌, ◌-◌, ℕ, length, slice_get, take, IfSome, IsTrue};
ghost use Rattle.std.specs.Prelude.{false, true, None};
ghost use Rattle.entry_order.specs.declared.three.Three.TheVariants.{True as KnownTrue};
ghost use Rattle.precedence.specs.Known.{known_before, known_count, known_whole};
ghost use Rattle.rule_meaning.specs.Kleene.{is_true};
ghost use Rattle.rule_meaning.specs.Judging.{over_from, over_rows, value_of};
ghost use Rattle.rule_meaning.specs.Meaning.{bind, unbound};
ghost use Rattle.rule_meaning.specs.Scopes.{BindsRows, env_of};
ghost use Rattle.rule_meaning.specs.Tests.{has_kind};
ghost use Rattle.rule_engine.specs.Growth.{ComesBeforeNone};
ghost use Rattle.rule_engine.specs.inside.Index.{AreIndexesOf};

use crate::reach::reaches_some;
use crate::tables::Survivors;
use entry_order::Three;
use rule_language::{Formula, Kind};
use rule_meaning::atoms::has_kind;
use rule_meaning::judging::{over_rows, value_at};
use rule_meaning::kleene::{both, is_false};
use rule_meaning::quantifier::{Quantifier, quantifier_over};
use rule_meaning::scope::Scope;

/// The value of a rule by its value over the first rows: it is the same where no quantifier over
/// all rows goes over a later one, and where only the outer `every` does, it falls to the least of
/// the body's values at those. There is none where the rule has to be judged anew.
pub(crate) fn grown_value(
    formula: &Formula,
    count: usize,
    before: Three,
    survivors: &Survivors<'_>,
) -> Option<Three>
    requires same { length survivors.now.rows.now ≡ known_count survivors.now.known.order.now }
    requires indexed { AreIndexesOf survivors.now.rows.now survivors.now.known.indexes }
    requires first { count ≤ length survivors.now.rows.now }
    requires later { ComesBeforeNone count (known_before survivors.now.known.order.now) }
    requires before { before ≡ value_of (take count survivors.now.rows.now)
        (known_before survivors.now.known.order.now)
        (known_whole survivors.now.known.order.now) formula.now unbound }
    ensures { IfSome result (λ value. value ≡ value_of survivors.now.rows.now
        (known_before survivors.now.known.order.now)
        (known_whole survivors.now.known.order.now) formula.now unbound) }
{
    let later = &survivors.rows[count..];
    if !reaches_some(formula, later) {
        return Some(before);
    }
    match formula {
        Formula::ForEvery { v, kind, body } => {
            every_grown(*v, *kind, body, count, before, survivors)
        }
        _ => None,
    }
}

/// The value of an `every` over all rows by its value over the first ones, if that decides it.
fn every_grown(
    v: u8,
    kind: Kind,
    body: &Formula,
    count: usize,
    before: Three,
    survivors: &Survivors<'_>,
) -> Option<Three>
    requires same { length survivors.now.rows.now ≡ known_count survivors.now.known.order.now }
    requires indexed { AreIndexesOf survivors.now.rows.now survivors.now.known.indexes }
    requires first { count ≤ length survivors.now.rows.now }
    requires later { ComesBeforeNone count (known_before survivors.now.known.order.now) }
    requires before { before ≡ over_rows (take count survivors.now.rows.now)
        (known_before survivors.now.known.order.now)
        (known_whole survivors.now.known.order.now) false body.now v kind None
        unbound }
    ensures { IfSome result (λ value. value ≡ over_rows survivors.now.rows.now
        (known_before survivors.now.known.order.now)
        (known_whole survivors.now.known.order.now) false body.now v kind None
        unbound) }
{
    if !reaches_some(body, &survivors.rows[count..]) {
        let quantifier = quantifier_over(false, v, kind);
        let later = over_later(quantifier, body, count, &Scope::Empty, survivors);
        return Some(both(before, later));
    }
    if is_true(before) && pairs_are_true(v, kind, body, count, survivors) {
        return Some(Three::True);
    }
    None
}

/// Whether the value is true.
fn is_true(value: Three) -> bool
    ensures { result ≡ is_true value }
{
    matches!(value, Three::True)
}

/// Whether the body is an `every` over all rows, and what is in it is true of each two rows of
/// which one is a later one.
fn pairs_are_true(
    v: u8,
    kind: Kind,
    body: &Formula,
    count: usize,
    survivors: &Survivors<'_>,
) -> bool
    requires same { length survivors.now.rows.now ≡ known_count survivors.now.known.order.now }
    requires indexed { AreIndexesOf survivors.now.rows.now survivors.now.known.indexes }
    requires first { count ≤ length survivors.now.rows.now }
    requires later { ComesBeforeNone count (known_before survivors.now.known.order.now) }
    ensures { IsTrue result → over_rows (take count survivors.now.rows.now)
        (known_before survivors.now.known.order.now)
        (known_whole survivors.now.known.order.now) false body.now v kind None
        unbound ≡ KnownTrue → over_rows survivors.now.rows.now
        (known_before survivors.now.known.order.now)
        (known_whole survivors.now.known.order.now) false body.now v kind None
        unbound ≡ KnownTrue }
{
    match body {
        Formula::ForEvery {
            v: u,
            kind: other,
            body: inner,
        } => {
            if v == *u || reaches_some(inner, &survivors.rows[count..]) {
                return false;
            }
            let quantifier = quantifier_over(false, v, kind);
            is_true(over_later(quantifier, body, count, &Scope::Empty, survivors))
                && are_true_with(quantifier, *u, *other, inner, count, survivors)
        }
        _ => false,
    }
}

/// Whether the formula is true of each row that the quantifier goes over, with each later row of
/// the kind for the variable.
fn are_true_with(
    quantifier: Quantifier,
    u: u8,
    kind: Kind,
    formula: &Formula,
    count: usize,
    survivors: &Survivors<'_>,
) -> bool
    requires same { length survivors.now.rows.now ≡ known_count survivors.now.known.order.now }
    requires indexed { AreIndexesOf survivors.now.rows.now survivors.now.known.indexes }
    requires all { quantifier.within ≡ None }
    ensures { IsTrue result → (j : ℕ) → count ≤ j → j < length survivors.now.rows.now →
        has_kind kind (slice_get survivors.now.rows.now j) ≡ true →
        over_rows survivors.now.rows.now (known_before survivors.now.known.order.now)
        (known_whole survivors.now.known.order.now) quantifier.some formula.now quantifier.v
        quantifier.kind quantifier.within (bind u j unbound) ≡ KnownTrue }
{
    for j in count..survivors.rows.len() {
        let scope = Scope::With {
            v: u,
            place: j,
            outer: &Scope::Empty,
        };
        if has_kind(kind, Some(survivors.rows[j]))
            && !is_true(over_rows(quantifier, formula, &scope, survivors))
        {
            return false;
        }
    }
    true
}

/// The least value of the formula at the rows from this one on that a quantifier goes over.
fn over_later(
    quantifier: Quantifier,
    body: &Formula,
    count: usize,
    scope: &Scope<'_>,
    survivors: &Survivors<'_>,
) -> Three
    requires same { length survivors.now.rows.now ≡ known_count survivors.now.known.order.now }
    requires indexed { AreIndexesOf survivors.now.rows.now survivors.now.known.indexes }
    requires within { BindsRows (length survivors.now.rows.now) scope.now }
    requires node { IfSome quantifier.within (λ u. u < length survivors.now.rows.now) }
    ensures { result ≡ over_from survivors.now.rows.now (known_before survivors.now.known.order.now)
        (known_whole survivors.now.known.order.now) quantifier.some body.now quantifier.v
        quantifier.kind quantifier.within (env_of scope.now) count
        (length survivors.now.rows.now - count) }
{
    let mut least = Three::True;
    for i in count..survivors.rows.len() {
        least = both(least, value_at(i, quantifier, body, scope, survivors));
        if is_false(least) {
            return Three::False;
        }
    }
    least
}
