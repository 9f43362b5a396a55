//! Writing the text of rules.
ghost use Rattle.std.specs.Prelude.{◌≡◌, ◌∷◌, ◌++◌, [], map, codes, IfOk, OnOk};
ghost use Rattle.rule_language.specs.Kinds.{kind_word};
ghost use Rattle.rule_language.specs.Trees.{no_trees, tree_then};
ghost use Rattle.rule_language.specs.Forms.{tree_of, trees_of, rule_tree};
ghost use Rattle.rule_language.specs.Spelling.{variable, term_word, form_words};
ghost use Rattle.rule_language.specs.Written.{spaced, with_spaces, row_text, rule_text, rules_text};
ghost use Rattle.rule_language.specs.inside.Parts.{parts_of};

use crate::form::Form;
use crate::formula::{Formula, Rule};
use crate::kind::Kind;
use crate::term::Term;
use std::alloc::{AllocError, Global};

/// Out of memory.
pub type Memory = AllocError;

/// Appends a space and the word.
fn push_word(out: &mut Vec<u8>, word: &[u8]) -> Result<(), Memory>
    ensures { OnOk result (out.new.items ≡ out.old.items ++ spaced (word.now ∷ [])) }
{
    out.push(b' ')?;
    out.extend_from_slice(word)
}

/// Appends a space and the letter of a variable.
fn push_variable(out: &mut Vec<u8>, v: u8) -> Result<(), Memory>
    ensures { OnOk result (out.new.items ≡ out.old.items ++ spaced (variable v ∷ [])) }
{
    push_word(out, &[v])
}

/// Appends a space and a term.
fn push_term(alloc: Global, out: &mut Vec<u8>, term: Term) -> Result<(), Memory>
    ensures { OnOk result (out.new.items ≡ out.old.items ++ spaced (term_word term ∷ [])) }
{
    match term {
        Term::Of { v, field } => {
            push_word(out, &[v, b'.'])?;
            out.extend_from_slice(field.word())
        }
        Term::Number(number) => {
            let digits = number.to_string(alloc)?;
            push_word(out, digits.as_bytes())
        }
    }
}

/// Appends the words of a quantifier after its first.
fn push_binder(out: &mut Vec<u8>, v: u8, kind: Kind) -> Result<(), Memory>
    ensures { OnOk result
        (out.new.items ≡ out.old.items ++ spaced (variable v ∷ kind_word kind ∷ [])) }
{
    push_variable(out, v)?;
    push_word(out, kind.word())
}

/// Appends `before` and a variable.
fn push_range(out: &mut Vec<u8>, u: u8) -> Result<(), Memory>
    ensures { OnOk result
        (out.new.items ≡ out.old.items ++ spaced (codes "before" ∷ variable u ∷ [])) }
{
    push_word(out, b"before")?;
    push_variable(out, u)
}

/// Appends the first word of a form and two variables.
fn push_pair(out: &mut Vec<u8>, word: &[u8], v: u8, u: u8) -> Result<(), Memory>
    ensures { OnOk result
        (out.new.items ≡ out.old.items ++ with_spaces (word.now ∷ variable v ∷ variable u ∷ [])) }
{
    out.extend_from_slice(word)?;
    push_variable(out, v)?;
    push_variable(out, u)
}

/// Appends the first word of a form, a variable and a word.
fn push_said(out: &mut Vec<u8>, word: &[u8], v: u8, said: &[u8]) -> Result<(), Memory>
    ensures { OnOk result
        (out.new.items ≡ out.old.items ++ with_spaces (word.now ∷ variable v ∷ said.now ∷ [])) }
{
    out.extend_from_slice(word)?;
    push_variable(out, v)?;
    push_word(out, said)
}

/// Appends the first word of a form and two terms.
fn push_terms(alloc: Global, out: &mut Vec<u8>, word: &[u8], t: Term, u: Term) -> Result<(), Memory>
    ensures { OnOk result
        (out.new.items ≡ out.old.items ++ with_spaces (word.now ∷ term_word t ∷ term_word u ∷ [])) }
{
    out.extend_from_slice(word)?;
    push_term(alloc, out, t)?;
    push_term(alloc, out, u)
}

/// Appends the first word of a quantifier and what it binds.
fn push_quantifier(out: &mut Vec<u8>, word: &[u8], v: u8, kind: Kind) -> Result<(), Memory>
    ensures { OnOk result
        (out.new.items ≡ out.old.items ++ with_spaces
        (word.now ∷ variable v ∷ kind_word kind ∷ [])) }
{
    out.extend_from_slice(word)?;
    push_binder(out, v, kind)
}

/// Appends the words of a quantifier with `before` and a variable.
fn push_preceding(out: &mut Vec<u8>, word: &[u8], v: u8, kind: Kind, u: u8) -> Result<(), Memory>
    ensures { OnOk result (out.new.items ≡ out.old.items
        ++ with_spaces
        (word.now ∷ variable v ∷ kind_word kind ∷ codes "before" ∷ variable u ∷ [])) }
{
    push_quantifier(out, word, v, kind)?;
    push_range(out, u)
}

/// Appends a form of one word.
fn push_alone(out: &mut Vec<u8>, word: &[u8]) -> Result<(), Memory>
    ensures { OnOk result (out.new.items ≡ out.old.items ++ with_spaces (word.now ∷ [])) }
{
    out.extend_from_slice(word)
}

/// Appends the words of a form.
fn push_form(alloc: Global, out: &mut Vec<u8>, form: Form) -> Result<(), Memory>
    ensures { OnOk result (out.new.items ≡ out.old.items ++ with_spaces (form_words form)) }
{
    match form {
        Form::True => push_alone(out, b"true"),
        Form::ForEvery { v, kind } => push_quantifier(out, b"every", v, kind),
        Form::ForSome { v, kind } => push_quantifier(out, b"some", v, kind),
        Form::EveryBefore { v, kind, u } => push_preceding(out, b"every", v, kind, u),
        Form::SomeBefore { v, kind, u } => push_preceding(out, b"some", v, kind, u),
        Form::And => push_alone(out, b"and"),
        Form::Or => push_alone(out, b"or"),
        Form::Not => push_alone(out, b"not"),
        Form::Implies => push_alone(out, b"implies"),
        Form::Same(v, u) => push_pair(out, b"same", v, u),
        Form::Before(v, u) => push_pair(out, b"before", v, u),
        Form::Next(v, u) => push_pair(out, b"next", v, u),
        Form::Is(v, role) => push_said(out, b"is", v, role.word()),
        Form::OfKind(v, kind) => push_said(out, b"kind", v, kind.word()),
        Form::Equal(t, u) => push_terms(alloc, out, b"=", t, u),
        Form::Less(t, u) => push_terms(alloc, out, b"<", t, u),
    }
}

/// The form of a formula.
#[tactic(auto, using(crate::proofs::Views::views))]
fn form_of(formula: &Formula) -> Form
    ensures { tree_of formula.now ≡ tree_then result (parts_of (tree_of formula.now)) no_trees }
{
    match formula {
        Formula::True => Form::True,
        Formula::ForEvery { v, kind, .. } => Form::ForEvery { v: *v, kind: *kind },
        Formula::ForSome { v, kind, .. } => Form::ForSome { v: *v, kind: *kind },
        Formula::EveryBefore { v, kind, u, .. } => Form::EveryBefore {
            v: *v,
            kind: *kind,
            u: *u,
        },
        Formula::SomeBefore { v, kind, u, .. } => Form::SomeBefore {
            v: *v,
            kind: *kind,
            u: *u,
        },
        Formula::And(_) => Form::And,
        Formula::Or(_) => Form::Or,
        Formula::Not(_) => Form::Not,
        Formula::Implies(_, _) => Form::Implies,
        Formula::Same(v, u) => Form::Same(*v, *u),
        Formula::Before(v, u) => Form::Before(*v, *u),
        Formula::Next(v, u) => Form::Next(*v, *u),
        Formula::Is(v, role) => Form::Is(*v, *role),
        Formula::OfKind(v, kind) => Form::OfKind(*v, *kind),
        Formula::Equal(t, u) => Form::Equal(*t, *u),
        Formula::Less(t, u) => Form::Less(*t, *u),
    }
}

/// Appends a space and the formula.
#[cycle(writing)]
#[tactic(auto, using(crate::proofs::WrittenForms::row_of_form))]
fn push_formula(alloc: Global, out: &mut Vec<u8>, formula: &Formula) -> Result<(), Memory>
    ensures { OnOk result (out.new.items ≡ out.old.items ++ row_text (tree_of formula.now)) }
{
    let form = form_of(formula);
    if let Form::True = form {
        return push_word(out, b"true");
    }
    out.extend_from_slice(b" (")?;
    push_form(alloc, out, form)?;
    push_parts(alloc, out, formula)?;
    out.push(b')')?;
    Ok(())
}

/// Appends the formulas in it, with a space before each.
#[cycle(writing)]
fn push_parts(alloc: Global, out: &mut Vec<u8>, formula: &Formula) -> Result<(), Memory>
    ensures { OnOk result
        (out.new.items ≡ out.old.items ++ row_text (parts_of (tree_of formula.now))) }
{
    match formula {
        Formula::ForEvery { body, .. } => push_formula(alloc, out, body),
        Formula::ForSome { body, .. } => push_formula(alloc, out, body),
        Formula::EveryBefore { body, .. } => push_formula(alloc, out, body),
        Formula::SomeBefore { body, .. } => push_formula(alloc, out, body),
        Formula::And(parts) => push_row(alloc, out, parts.as_slice()),
        Formula::Or(parts) => push_row(alloc, out, parts.as_slice()),
        Formula::Not(body) => push_formula(alloc, out, body),
        Formula::Implies(first, second) => {
            push_formula(alloc, out, first)?;
            push_formula(alloc, out, second)
        }
        _ => Ok(()),
    }
}

/// Appends formulas with a space before each.
#[cycle(writing)]
fn push_row(alloc: Global, out: &mut Vec<u8>, formulas: &[Formula]) -> Result<(), Memory>
    ensures { OnOk result (out.new.items ≡ out.old.items ++ row_text (trees_of formulas.now)) }
{
    for formula in formulas {
        push_formula(alloc, out, formula)?;
    }
    Ok(())
}

/// Appends the line of a rule.
fn push_rule(alloc: Global, out: &mut Vec<u8>, rule: &Rule) -> Result<(), Memory>
    ensures { OnOk result (out.new.items ≡ out.old.items ++ rule_text (rule_tree rule.now)) }
{
    out.extend_from_slice(b"(rule ")?;
    out.extend_from_slice(rule.name.as_bytes())?;
    push_formula(alloc, out, &rule.body)?;
    out.extend_from_slice(b")\n")
}

/// The text of rules: a rule on a line, one space between tokens, none after `(` or before `)`.
///
/// # Errors
///
/// Out of memory.
pub fn write(alloc: Global, rules: &[Rule]) -> Result<Vec<u8>, Memory>
    ensures { IfOk result (λ text. text.items ≡ rules_text (map rule_tree rules.now)) }
{
    let mut text = Vec::new(alloc);
    for rule in rules {
        push_rule(alloc, &mut text, rule)?;
    }
    Ok(text)
}
