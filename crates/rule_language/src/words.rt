//! The words of rules, each by what is allowed at its place.
ghost use Rattle.std.specs.Prelude.{◌≡◌};
ghost use Rattle.rule_language.specs.Kinds.{role_named, is_same_sort};
ghost use Rattle.rule_language.specs.Lawful.{is_name, is_among};
ghost use Rattle.rule_language.specs.Scopes.{is_letter};
ghost use Rattle.rule_language.specs.Words.{
  or_cause,
  letter_in,
  unbound_in,
  bound_in,
  kind_for,
  of_field,
  of_variable,
  dotted_in,
  term_in,
  whose_sort,
  may_begin,
  name_in,
  head_for,
  opening,
};
ghost use Rattle.rule_language.specs.inside.Unread.{bindings, rule_names, checked};

use crate::form::Head;
use crate::formula::Rule;
use crate::kind::{Field, Kind, Sort};
use crate::scope::Scope;
use crate::term::Term;
use hall_text::decimal;
use input_causes::RuleWhy;
use roster::Role;

/// Whether the byte is a lower-case letter.
fn is_letter(byte: u8) -> bool
    ensures { result ≡ is_letter byte }
{
    byte >= b'a' && byte <= b'z'
}

/// The letter of the variable that the word is.
fn letter_in(word: &[u8]) -> Option<u8>
    ensures { result ≡ letter_in word.now }
{
    if word.len() == 1 && is_letter(word[0]) {
        Some(word[0])
    } else {
        None
    }
}

/// The variable that the word is and that isn't bound yet.
pub(crate) fn new_variable_in(word: &[u8], scope: &Scope<'_>) -> Result<u8, RuleWhy>
    ensures { result ≡ unbound_in (bindings scope.now) (letter_in word.now) }
{
    let Some(v) = letter_in(word) else {
        return Err(RuleWhy::Shape);
    };
    if scope.kind_of(v).is_some() {
        return Err(RuleWhy::SameName);
    }
    Ok(v)
}

/// The variable that the word is and that is bound.
pub(crate) fn variable_in(word: &[u8], scope: &Scope<'_>) -> Result<u8, RuleWhy>
    ensures { result ≡ bound_in (bindings scope.now) (letter_in word.now) }
{
    let Some(v) = letter_in(word) else {
        return Err(RuleWhy::Shape);
    };
    if scope.kind_of(v).is_none() {
        return Err(RuleWhy::Unbound);
    }
    Ok(v)
}

/// The kind that the word names.
pub(crate) fn kind_in(word: &[u8]) -> Result<Kind, RuleWhy>
    ensures { result ≡ kind_for word.now }
{
    if word == b"(".as_slice() || word == b")".as_slice() {
        return Err(RuleWhy::Shape);
    }
    Kind::of_word(word).ok_or(RuleWhy::UnknownKind)
}

/// The role that the word names.
fn role_named(word: &[u8]) -> Option<Role>
    ensures { result ≡ role_named word.now }
{
    if word == b"supervisor".as_slice() {
        Some(Role::Supervisor)
    } else if word == b"booth".as_slice() {
        Some(Role::Booth)
    } else {
        None
    }
}

/// The role that the word names, or the cause against it.
pub(crate) fn role_in(word: &[u8]) -> Result<Role, RuleWhy>
    ensures { result ≡ or_cause RuleWhy.Shape (role_named word.now) }
{
    role_named(word).ok_or(RuleWhy::Shape)
}

/// A field of entries of the kind.
fn field_of(v: u8, kind: Kind, field: Option<Field>) -> Result<(Term, Sort), RuleWhy>
    ensures { result ≡ of_field v kind field }
{
    let Some(field) = field else {
        return Err(RuleWhy::WrongField);
    };
    if !kind.has(field) {
        return Err(RuleWhy::WrongField);
    }
    Ok((Term::Of { v, field }, field.sort()))
}

/// A field of what a variable stands for that a quantifier over the kind binds, if one does.
fn field_named(v: u8, kind: Option<Kind>, name: &[u8]) -> Result<(Term, Sort), RuleWhy>
    ensures { result ≡ of_variable v kind name.now }
{
    match kind {
        None => Err(RuleWhy::Unbound),
        Some(kind) => field_of(v, kind, Field::of_word(name)),
    }
}

/// The variable and field that the word names, with a dot between them.
fn dotted_in(word: &[u8], scope: &Scope<'_>) -> Result<(Term, Sort), RuleWhy>
    ensures { result ≡ dotted_in (bindings scope.now) word.now }
{
    if word.len() < 2 || !is_letter(word[0]) || word[1] != b'.' {
        return Err(RuleWhy::Shape);
    }
    field_named(word[0], scope.kind_of(word[0]), &word[2..])
}

/// The term that the word is, and its sort.
fn term_in(word: &[u8], scope: &Scope<'_>) -> Result<(Term, Sort), RuleWhy>
    ensures { result ≡ term_in (bindings scope.now) word.now }
{
    match decimal(word) {
        Some(number) => Ok((Term::Number(number), Sort::Count)),
        None => dotted_in(word, scope),
    }
}

/// A first term, which has to have an order where one is asked for.
pub(crate) fn first_term_in(
    word: &[u8],
    scope: &Scope<'_>,
    ordered: bool,
) -> Result<(Term, Sort), RuleWhy>
    ensures { result ≡ whose_sort (may_begin ordered) (term_in (bindings scope.now) word.now) }
{
    let term = term_in(word, scope)?;
    if ordered && !term.1.is_ordered() {
        return Err(RuleWhy::WrongField);
    }
    Ok(term)
}

/// A second term, which has to have the sort of the first.
pub(crate) fn second_term_in(
    word: &[u8],
    scope: &Scope<'_>,
    sort: Sort,
) -> Result<(Term, Sort), RuleWhy>
    ensures { result ≡ whose_sort (is_same_sort sort) (term_in (bindings scope.now) word.now) }
{
    let term = term_in(word, scope)?;
    if !sort.is(term.1) {
        return Err(RuleWhy::WrongField);
    }
    Ok(term)
}

/// Whether the word begins a formula in parentheses, of which so many more may open; otherwise it
/// is `true`.
pub(crate) fn opening(word: &[u8], levels: usize) -> Result<bool, RuleWhy>
    ensures { result ≡ opening levels word.now }
{
    if word == b"true".as_slice() {
        return Ok(false);
    }
    if word != b"(".as_slice() {
        return Err(RuleWhy::Shape);
    }
    if levels == 0 {
        return Err(RuleWhy::TooDeep);
    }
    Ok(true)
}

/// What the word begins in parentheses, where these variables are bound: at most 4 quantifiers
/// nest.
pub(crate) fn head_in(word: &[u8], scope: &Scope<'_>) -> Result<Head, RuleWhy>
    ensures { result ≡ head_for (bindings scope.now) word.now }
{
    let Some(head) = Head::of_word(word) else {
        return Err(RuleWhy::Shape);
    };
    if head.is_quantifier() && scope.has(4) {
        return Err(RuleWhy::TooDeep);
    }
    Ok(head)
}

/// Whether the word is a name of a rule: 1 to 16 letters and digits.
fn is_name(word: &[u8]) -> bool
    ensures { result ≡ is_name word.now }
{
    if word.is_empty() || word.len() > 16 {
        return false;
    }
    for byte in word {
        if !byte.is_ascii_alphanumeric() {
            return false;
        }
    }
    true
}

/// Whether a rule has the name.
fn is_among(name: &[u8], rules: &[Rule]) -> bool
    ensures { result ≡ is_among name.now (rule_names rules.now) }
{
    for rule in rules {
        if name == rule.name.as_bytes() {
            return true;
        }
    }
    false
}

/// Whether the word is allowed as the name of a rule after these.
pub(crate) fn check_name(word: &[u8], rules: &[Rule]) -> Result<(), RuleWhy>
    ensures { result ≡ checked (name_in (rule_names rules.now) word.now) }
{
    if !is_name(word) {
        return Err(RuleWhy::Shape);
    }
    if is_among(word, rules) {
        return Err(RuleWhy::SameName);
    }
    Ok(())
}
