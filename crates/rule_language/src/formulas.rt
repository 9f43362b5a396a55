//! Reading formulas. They nest at most 32 parentheses deep, and so does the recursion.
ghost use Rattle.std.specs.Prelude.{◌≡◌, ◌≢◌, Err};
ghost use Rattle.rule_language.specs.declared.form.Head.TheVariants as heads;
ghost use Rattle.rule_language.specs.Forms.{tree_of, trees_of};
ghost use Rattle.rule_language.specs.Steps.{viewed, closed, made_into};
ghost use Rattle.rule_language.specs.Reader.{formula, inside, after_head, quantified};
ghost use Rattle.rule_language.specs.Reader.{several, quantified_tree};
ghost use Rattle.rule_language.specs.inside.Unread.{IsNext, unread, bindings};

use crate::atoms::{read_of_kind, read_of_role, read_pair, read_terms};
use crate::faults::RuleFault;
use crate::form::Head;
use crate::formula::Formula;
use crate::quantifier::{quantifier, read_range};
use crate::reading::{read_head, read_kind, read_new_variable, read_start};
use crate::scope::Scope;
use crate::tokens::{is_word, read_only};
use hall_text::Span;
use std::alloc::Global;

/// How many formulas an `and` or an `or` has at most.
const MAX_PARTS: usize = 64;

/// Takes a formula, in which `levels` more parentheses may open.
#[cycle(formulas)]
#[tactic(auto, using(crate::proofs::Steps::formula_at, crate::proofs::Views::views))]
pub(crate) fn read_formula(
    alloc: Global,
    text: &[u8],
    token: &mut Span,
    scope: &Scope<'_>,
    levels: usize,
) -> Result<Formula, RuleFault>
    requires { IsNext text.now token.old }
    ensures value { result ≢ Err RuleFault.Memory →
        viewed tree_of result (unread text.now token.new)
        ≡ formula levels (bindings scope.now) (unread text.now token.old) }
    ensures next { IsNext text.now token.new }
{
    let opened = read_start(text, token, levels)?;
    if levels == 0 || !opened {
        return Ok(Formula::True);
    }
    read_inside(alloc, text, token, scope, levels - 1)
}

/// Takes the rest of a formula after its left parenthesis, in which `levels` more may open.
#[cycle(formulas)]
#[tactic(auto, unfolding(crate::specs::Reader::inside))]
fn read_inside(
    alloc: Global,
    text: &[u8],
    token: &mut Span,
    scope: &Scope<'_>,
    levels: usize,
) -> Result<Formula, RuleFault>
    requires { IsNext text.now token.old }
    ensures value { result ≢ Err RuleFault.Memory →
        viewed tree_of result (unread text.now token.new)
        ≡ inside (formula levels) (bindings scope.now) (unread text.now token.old) }
    ensures next { IsNext text.now token.new }
{
    let begun = read_head(text, token, scope)?;
    read_headed(alloc, text, token, scope, levels, begun)
}

/// Takes the rest of a formula after its left parenthesis and first word.
#[cycle(formulas)]
#[tactic(auto, unfolding(crate::specs::Reader::after_head, crate::specs::Steps::made_into,), using(crate::proofs::Views::views),)]
fn read_headed(
    alloc: Global,
    text: &[u8],
    token: &mut Span,
    scope: &Scope<'_>,
    levels: usize,
    begun: Head,
) -> Result<Formula, RuleFault>
    requires { IsNext text.now token.old }
    ensures value { result ≢ Err RuleFault.Memory →
        viewed tree_of result (unread text.now token.new)
        ≡ after_head (formula levels) (bindings scope.now) begun (unread text.now token.old) }
    ensures next { IsNext text.now token.new }
{
    match begun {
        Head::ForEvery => read_quantified(alloc, text, token, scope, levels, true),
        Head::ForSome => read_quantified(alloc, text, token, scope, levels, false),
        Head::And => {
            let parts = read_parts(alloc, text, token, scope, levels)?;
            Ok(Formula::And(parts))
        }
        Head::Or => {
            let parts = read_parts(alloc, text, token, scope, levels)?;
            Ok(Formula::Or(parts))
        }
        Head::Not => {
            let body = read_body(alloc, text, token, scope, levels)?;
            Ok(Formula::Not(body))
        }
        Head::Implies => read_implies(alloc, text, token, scope, levels),
        Head::Same => {
            let (v, u) = read_pair(text, token, scope)?;
            Ok(Formula::Same(v, u))
        }
        Head::Before => {
            let (v, u) = read_pair(text, token, scope)?;
            Ok(Formula::Before(v, u))
        }
        Head::Next => {
            let (v, u) = read_pair(text, token, scope)?;
            Ok(Formula::Next(v, u))
        }
        Head::Is => {
            let (v, role) = read_of_role(text, token, scope)?;
            Ok(Formula::Is(v, role))
        }
        Head::OfKind => {
            let (v, kind) = read_of_kind(text, token, scope)?;
            Ok(Formula::OfKind(v, kind))
        }
        Head::Equal => {
            let (first, second) = read_terms(text, token, scope, false)?;
            Ok(Formula::Equal(first.0, second.0))
        }
        Head::Less => {
            let (first, second) = read_terms(text, token, scope, true)?;
            Ok(Formula::Less(first.0, second.0))
        }
    }
}

/// Takes a formula and the parenthesis after it.
#[cycle(formulas)]
#[tactic(auto, unfolding(crate::specs::Steps::closed))]
fn read_body(
    alloc: Global,
    text: &[u8],
    token: &mut Span,
    scope: &Scope<'_>,
    levels: usize,
) -> Result<Box<Formula>, RuleFault>
    requires { IsNext text.now token.old }
    ensures value { result ≢ Err RuleFault.Memory →
        viewed (λ body. tree_of body.value) result (unread text.now token.new)
        ≡ closed (formula levels (bindings scope.now)) (unread text.now token.old) }
    ensures next { IsNext text.now token.new }
{
    let body = read_formula(alloc, text, token, scope, levels)?;
    read_only(text, token, b")")?;
    Ok(Box::new(alloc, body)?)
}

/// Takes the two formulas of an `implies` and the parenthesis.
#[cycle(formulas)]
#[tactic(auto, unfolding(crate::specs::Reader::after_head, crate::specs::Reader::row, crate::specs::Steps::made_into,), using(crate::proofs::Views::views),)]
fn read_implies(
    alloc: Global,
    text: &[u8],
    token: &mut Span,
    scope: &Scope<'_>,
    levels: usize,
) -> Result<Formula, RuleFault>
    requires { IsNext text.now token.old }
    ensures value { result ≢ Err RuleFault.Memory →
        viewed tree_of result (unread text.now token.new)
        ≡ after_head (formula levels) (bindings scope.now) heads.Implies
        (unread text.now token.old) }
    ensures next { IsNext text.now token.new }
{
    let first = read_formula(alloc, text, token, scope, levels)?;
    let second = read_body(alloc, text, token, scope, levels)?;
    let first = Box::new(alloc, first)?;
    Ok(Formula::Implies(first, second))
}

/// Takes the rest of a quantifier.
#[cycle(formulas)]
#[tactic(auto, unfolding(crate::specs::Reader::quantified, crate::specs::Steps::made_into, crate::specs::Steps::in_turn,),)]
fn read_quantified(
    alloc: Global,
    text: &[u8],
    token: &mut Span,
    scope: &Scope<'_>,
    levels: usize,
    every: bool,
) -> Result<Formula, RuleFault>
    requires { IsNext text.now token.old }
    ensures value { result ≢ Err RuleFault.Memory →
        viewed tree_of result (unread text.now token.new)
        ≡ made_into (quantified_tree every) (quantified (formula levels) (bindings scope.now))
        (unread text.now token.old) }
    ensures next { IsNext text.now token.new }
{
    let v = read_new_variable(text, token, scope)?;
    let kind = read_kind(text, token)?;
    let u = read_range(text, token, scope)?;
    let inner = Scope::With {
        v,
        kind,
        outer: &*scope,
    };
    let body = read_body(alloc, text, token, &inner, levels)?;
    Ok(quantifier(every, v, kind, u, body))
}

/// Takes 1 to 64 formulas and the parenthesis after them.
#[cycle(formulas)]
#[tactic(auto, unfolding(crate::specs::Reader::row), using(crate::proofs::Steps::parts_first))]
fn read_parts(
    alloc: Global,
    text: &[u8],
    token: &mut Span,
    scope: &Scope<'_>,
    levels: usize,
) -> Result<Vec<Formula>, RuleFault>
    requires { IsNext text.now token.old }
    ensures value { result ≢ Err RuleFault.Memory →
        viewed (λ parts. trees_of parts.items) result (unread text.now token.new)
        ≡ several (formula levels (bindings scope.now)) (unread text.now token.old) }
    ensures next { IsNext text.now token.new }
{
    let mut parts = Vec::new(alloc);
    let part = read_formula(alloc, text, token, scope, levels)?;
    parts.push(part)?;
    'parts: while parts.len() < MAX_PARTS && !is_word(text, *token, b")") {
        let part = read_formula(alloc, text, token, scope, levels)?;
        parts.push(part)?;
    }
    read_only(text, token, b")")?;
    Ok(parts)
}
