//! Quantifiers.
ghost use Rattle.std.specs.Prelude.{◌≡◌};
ghost use Rattle.rule_language.specs.Forms.{tree_of};
ghost use Rattle.rule_language.specs.Steps.{as_read};
ghost use Rattle.rule_language.specs.Reader.{range, quantified_tree};
ghost use Rattle.rule_language.specs.inside.Unread.{IsNext, unread, bindings};

use crate::faults::RuleFault;
use crate::formula::Formula;
use crate::kind::Kind;
use crate::reading::read_variable;
use crate::scope::Scope;
use crate::tokens::{is_word, read_only};
use hall_text::Span;

/// The formula that a quantifier makes of its body.
#[tactic(auto, using(crate::proofs::Views::views))]
pub(crate) fn quantifier(
    every: bool,
    v: u8,
    kind: Kind,
    u: Option<u8>,
    body: Box<Formula>,
) -> Formula
    ensures { tree_of result ≡ quantified_tree every (v, (kind, (u, tree_of body.value))) }
{
    match u {
        None => {
            if every {
                Formula::ForEvery { v, kind, body }
            } else {
                Formula::ForSome { v, kind, body }
            }
        }
        Some(u) => {
            if every {
                Formula::EveryBefore { v, kind, u, body }
            } else {
                Formula::SomeBefore { v, kind, u, body }
            }
        }
    }
}

/// Takes `before` and a variable, if they are there.
#[tactic(auto, unfolding(crate::specs::Steps::after, crate::specs::Steps::made_into))]
pub(crate) fn read_range(
    text: &[u8],
    token: &mut Span,
    scope: &Scope<'_>,
) -> Result<Option<u8>, RuleFault>
    requires { IsNext text.now token.old }
    ensures value { as_read result (unread text.now token.new)
        ≡ range (bindings scope.now) (unread text.now token.old) }
    ensures next { IsNext text.now token.new }
{
    if !is_word(text, *token, b"before") {
        return Ok(None);
    }
    read_only(text, token, b"before")?;
    let u = read_variable(text, token, scope)?;
    Ok(Some(u))
}
