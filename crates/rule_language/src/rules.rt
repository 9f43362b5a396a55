//! Reading rules.
ghost use Rattle.std.specs.Prelude.{◌≡◌, ◌≢◌, true, string_bytes, IfOk, Err};
ghost use Rattle.rule_language.specs.Forms.{rule_tree};
ghost use Rattle.rule_language.specs.Lawful.{is_name};
ghost use Rattle.rule_language.specs.Words.{name_in};
ghost use Rattle.rule_language.specs.Steps.{take, viewed};
ghost use Rattle.rule_language.specs.Reader.{rule};
ghost use Rattle.rule_language.specs.Reading.{Reads, answered};
ghost use Rattle.rule_language.specs.inside.Unread.{IsNext, unread, rule_names};

use crate::faults::RuleFault;
use crate::formula::Rule;
use crate::formulas::read_formula;
use crate::scope::Scope;
use crate::tokens::{is_at_end, read_end, read_only, take, token_from, word_of};
use crate::words::check_name;
use hall_text::Span;
use std::alloc::{AllocError, Global};

/// How many rules a text has.
const MAX_RULES: usize = 256;

/// How many parentheses nest in that of a rule.
const MAX_LEVELS: usize = 31;

/// The name that the word is.
#[tactic(auto, using(crate::proofs::WrittenTexts::name_is_text))]
fn name_from(alloc: Global, word: &[u8]) -> Result<String, AllocError>
    requires { is_name word.now ≡ true }
    ensures { IfOk result (λ name. string_bytes name ≡ word.now) }
{
    String::from_utf8_lossy(alloc, word)
}

/// Takes the name of a rule after these.
#[tactic(auto, unfolding(crate::specs::Steps::take))]
fn read_name(
    alloc: Global,
    text: &[u8],
    token: &mut Span,
    rules: &[Rule],
) -> Result<String, RuleFault>
    requires { IsNext text.now token.old }
    ensures value { result ≢ Err RuleFault.Memory →
        viewed string_bytes result (unread text.now token.new)
        ≡ take (name_in (rule_names rules.now)) (unread text.now token.old) }
    ensures next { IsNext text.now token.new }
{
    let word = word_of(text, *token);
    take(text, token, check_name(word, rules))?;
    Ok(name_from(alloc, word)?)
}

/// Takes a rule after these.
#[tactic(auto, unfolding(crate::specs::Reader::rule, crate::specs::Steps::after, crate::specs::Steps::made_into, crate::specs::Steps::in_turn, crate::specs::Steps::closed,),)]
fn read_rule(
    alloc: Global,
    text: &[u8],
    token: &mut Span,
    rules: &[Rule],
) -> Result<Rule, RuleFault>
    requires { IsNext text.now token.old }
    ensures value { result ≢ Err RuleFault.Memory →
        viewed rule_tree result (unread text.now token.new)
        ≡ rule (rule_names rules.now) (unread text.now token.old) }
    ensures next { IsNext text.now token.new }
{
    read_only(text, token, b"(")?;
    read_only(text, token, b"rule")?;
    let name = read_name(alloc, text, token, rules)?;
    let body = read_formula(alloc, text, token, &Scope::Empty, MAX_LEVELS)?;
    read_only(text, token, b")")?;
    Ok(Rule { name, body })
}

/// Reads a text of rules.
///
/// # Errors
///
/// `At` with the first byte of the first token that isn't allowed where it is, and the first cause
/// against it; or with the text's length where the text ends too early. `Memory` otherwise.
#[tactic(auto, using(crate::proofs::Steps::rule_steps))]
pub fn read(alloc: Global, text: &[u8]) -> Result<Vec<Rule>, RuleFault>
    ensures { result ≢ Err RuleFault.Memory → Reads text.now (answered result) }
{
    let mut token = token_from(text, 0);
    let mut rules = Vec::new(alloc);
    let rule = read_rule(alloc, text, &mut token, rules.as_slice())?;
    rules.push(rule)?;
    'rules: while rules.len() < MAX_RULES && !is_at_end(text, token) {
        let rule = read_rule(alloc, text, &mut token, rules.as_slice())?;
        rules.push(rule)?;
    }
    read_end(text, &mut token)?;
    Ok(rules)
}
