//! Reading formulas: a function for each thing that is allowed at a place. Each looks at the token
//! that is there, and once.
ghost use Rattle.std.specs.Prelude.{◌≡◌};
ghost use Rattle.rule_language.specs.Words.{head_for, opening};
ghost use Rattle.rule_language.specs.Steps.{take, as_read};
ghost use Rattle.rule_language.specs.Reader.{new_variable, a_variable, a_kind, a_role};
ghost use Rattle.rule_language.specs.Reader.{first_term, second_term};
ghost use Rattle.rule_language.specs.inside.Unread.{IsNext, unread, bindings};

use crate::faults::RuleFault;
use crate::form::Head;
use crate::kind::{Kind, Sort};
use crate::scope::Scope;
use crate::term::Term;
use crate::tokens::{take, word_of};
use crate::words::{
    first_term_in, head_in, kind_in, new_variable_in, opening, role_in, second_term_in, variable_in,
};
use hall_text::Span;
use roster::Role;

/// Takes what a formula begins with, in which `levels` more parentheses may open.
#[tactic(auto, unfolding(crate::specs::Steps::take))]
pub(crate) fn read_start(text: &[u8], token: &mut Span, levels: usize) -> Result<bool, RuleFault>
    requires { IsNext text.now token.old }
    ensures value { as_read result (unread text.now token.new)
        ≡ take (opening levels) (unread text.now token.old) }
    ensures next { IsNext text.now token.new }
{
    let found = opening(word_of(text, *token), levels);
    take(text, token, found)
}

/// Takes the word of a formula's head.
#[tactic(auto, unfolding(crate::specs::Steps::take))]
pub(crate) fn read_head(text: &[u8], token: &mut Span, scope: &Scope<'_>) -> Result<Head, RuleFault>
    requires { IsNext text.now token.old }
    ensures value { as_read result (unread text.now token.new)
        ≡ take (head_for (bindings scope.now)) (unread text.now token.old) }
    ensures next { IsNext text.now token.new }
{
    let found = head_in(word_of(text, *token), scope);
    take(text, token, found)
}

/// Takes the variable that a quantifier binds.
#[tactic(auto, unfolding(crate::specs::Steps::take))]
pub(crate) fn read_new_variable(
    text: &[u8],
    token: &mut Span,
    scope: &Scope<'_>,
) -> Result<u8, RuleFault>
    requires { IsNext text.now token.old }
    ensures value { as_read result (unread text.now token.new)
        ≡ new_variable (bindings scope.now) (unread text.now token.old) }
    ensures next { IsNext text.now token.new }
{
    let found = new_variable_in(word_of(text, *token), scope);
    take(text, token, found)
}

/// Takes a variable that is bound.
#[tactic(auto, unfolding(crate::specs::Steps::take))]
pub(crate) fn read_variable(
    text: &[u8],
    token: &mut Span,
    scope: &Scope<'_>,
) -> Result<u8, RuleFault>
    requires { IsNext text.now token.old }
    ensures value { as_read result (unread text.now token.new)
        ≡ a_variable (bindings scope.now) (unread text.now token.old) }
    ensures next { IsNext text.now token.new }
{
    let found = variable_in(word_of(text, *token), scope);
    take(text, token, found)
}

/// Takes a kind.
#[tactic(auto, unfolding(crate::specs::Steps::take))]
pub(crate) fn read_kind(text: &[u8], token: &mut Span) -> Result<Kind, RuleFault>
    requires { IsNext text.now token.old }
    ensures value { as_read result (unread text.now token.new)
        ≡ a_kind (unread text.now token.old) }
    ensures next { IsNext text.now token.new }
{
    let found = kind_in(word_of(text, *token));
    take(text, token, found)
}

/// Takes a role.
#[tactic(auto, unfolding(crate::specs::Steps::take))]
pub(crate) fn read_role(text: &[u8], token: &mut Span) -> Result<Role, RuleFault>
    requires { IsNext text.now token.old }
    ensures value { as_read result (unread text.now token.new)
        ≡ a_role (unread text.now token.old) }
    ensures next { IsNext text.now token.new }
{
    let found = role_in(word_of(text, *token));
    take(text, token, found)
}

/// Takes a first term, which has to have an order where one is asked for.
#[tactic(auto, unfolding(crate::specs::Steps::take))]
pub(crate) fn read_first(
    text: &[u8],
    token: &mut Span,
    scope: &Scope<'_>,
    ordered: bool,
) -> Result<(Term, Sort), RuleFault>
    requires { IsNext text.now token.old }
    ensures value { as_read result (unread text.now token.new)
        ≡ first_term ordered (bindings scope.now) (unread text.now token.old) }
    ensures next { IsNext text.now token.new }
{
    let found = first_term_in(word_of(text, *token), scope, ordered);
    take(text, token, found)
}

/// Takes a second term, which has to have the sort of the first.
#[tactic(auto, unfolding(crate::specs::Steps::take))]
pub(crate) fn read_second(
    text: &[u8],
    token: &mut Span,
    scope: &Scope<'_>,
    sort: Sort,
) -> Result<(Term, Sort), RuleFault>
    requires { IsNext text.now token.old }
    ensures value { as_read result (unread text.now token.new)
        ≡ second_term sort (bindings scope.now) (unread text.now token.old) }
    ensures next { IsNext text.now token.new }
{
    let found = second_term_in(word_of(text, *token), scope, sort);
    take(text, token, found)
}
