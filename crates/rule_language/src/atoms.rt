//! Reading the formulas that have no others in them, after their first words.
ghost use Rattle.std.specs.Prelude.{◌≡◌};
ghost use Rattle.rule_language.specs.Steps.{as_read};
ghost use Rattle.rule_language.specs.Reader.{pair, variable_and_role, variable_and_kind, terms};
ghost use Rattle.rule_language.specs.inside.Unread.{IsNext, unread, bindings};

use crate::faults::RuleFault;
use crate::kind::{Kind, Sort};
use crate::reading::{read_first, read_kind, read_role, read_second, read_variable};
use crate::scope::Scope;
use crate::term::Term;
use crate::tokens::read_only;
use hall_text::Span;
use roster::Role;

/// Takes two variables and the parenthesis.
#[tactic(auto, unfolding(crate::specs::Steps::in_turn, crate::specs::Steps::closed))]
pub(crate) fn read_pair(
    text: &[u8],
    token: &mut Span,
    scope: &Scope<'_>,
) -> Result<(u8, u8), RuleFault>
    requires { IsNext text.now token.old }
    ensures value { as_read result (unread text.now token.new)
        ≡ pair (bindings scope.now) (unread text.now token.old) }
    ensures next { IsNext text.now token.new }
{
    let v = read_variable(text, token, scope)?;
    let u = read_variable(text, token, scope)?;
    read_only(text, token, b")")?;
    Ok((v, u))
}

/// Takes a variable, a role and the parenthesis.
#[tactic(auto, unfolding(crate::specs::Steps::in_turn, crate::specs::Steps::closed))]
pub(crate) fn read_of_role(
    text: &[u8],
    token: &mut Span,
    scope: &Scope<'_>,
) -> Result<(u8, Role), RuleFault>
    requires { IsNext text.now token.old }
    ensures value { as_read result (unread text.now token.new)
        ≡ variable_and_role (bindings scope.now) (unread text.now token.old) }
    ensures next { IsNext text.now token.new }
{
    let v = read_variable(text, token, scope)?;
    let role = read_role(text, token)?;
    read_only(text, token, b")")?;
    Ok((v, role))
}

/// Takes a variable, a kind and the parenthesis.
#[tactic(auto, unfolding(crate::specs::Steps::in_turn, crate::specs::Steps::closed))]
pub(crate) fn read_of_kind(
    text: &[u8],
    token: &mut Span,
    scope: &Scope<'_>,
) -> Result<(u8, Kind), RuleFault>
    requires { IsNext text.now token.old }
    ensures value { as_read result (unread text.now token.new)
        ≡ variable_and_kind (bindings scope.now) (unread text.now token.old) }
    ensures next { IsNext text.now token.new }
{
    let v = read_variable(text, token, scope)?;
    let kind = read_kind(text, token)?;
    read_only(text, token, b")")?;
    Ok((v, kind))
}

/// Takes two terms of one sort, each with its sort, and the parenthesis.
#[tactic(auto, unfolding(crate::specs::Steps::in_turn, crate::specs::Steps::closed))]
pub(crate) fn read_terms(
    text: &[u8],
    token: &mut Span,
    scope: &Scope<'_>,
    ordered: bool,
) -> Result<((Term, Sort), (Term, Sort)), RuleFault>
    requires { IsNext text.now token.old }
    ensures value { as_read result (unread text.now token.new)
        ≡ terms ordered (bindings scope.now) (unread text.now token.old) }
    ensures next { IsNext text.now token.new }
{
    let first = read_first(text, token, scope, ordered)?;
    let second = read_second(text, token, scope, first.1)?;
    read_only(text, token, b")")?;
    Ok((first, second))
}
