//! Which word of a text of rules is to blame for a refusal.

use crate::findings::{Finding, Saying};
use crate::nearest::nearest_in;
use rule_language::RuleWhy;
use std::alloc::Global;
use std::fmt::{self, Formatter, Write};

/// The kinds of entries.
const KINDS: &str = "entry, opened, authorise, override, forced, closed, activate, commit, cast, \
                     cancel, challenge";

/// The fields of entries of this kind.
fn fields_of(kind: &str) -> &'static str {
    match kind {
        "entry" | "opened" | "closed" => "maker, number",
        "authorise" => "maker, number, session, booth",
        "commit" | "cast" | "challenge" => "maker, number, session, ballot",
        _ => "maker, number, session",
    }
}

/// Whether a word ends before the byte.
fn ends_word(byte: u8) -> bool {
    matches!(byte, b' ' | b'\t' | b'\n' | b'\r' | b'(' | b')')
}

/// The token with which the bytes begin; nothing where it isn't text.
fn first_token(bytes: &[u8]) -> Option<&str> {
    let token = match bytes.first() {
        Some(b'(' | b')') => bytes.get(..1)?,
        _ => bytes.split(|byte| ends_word(*byte)).next()?,
    };
    str::from_utf8(token).ok()
}

/// The word after so many others.
fn word_after(bytes: &[u8], others: usize) -> Option<&str> {
    let word = bytes
        .split(|byte| ends_word(*byte))
        .filter(|word| !word.is_empty())
        .nth(others)?;
    str::from_utf8(word).ok()
}

/// A quantifier.
#[derive(Clone, Copy)]
struct Binder<'a> {
    variable: &'a str,
    kind: &'a str,
}

/// The quantifier whose opening parenthesis is before these bytes, if it is one.
fn binder_in(bytes: &[u8]) -> Option<Binder<'_>> {
    match word_after(bytes, 0)? {
        "every" | "some" => Some(Binder {
            variable: word_after(bytes, 1)?,
            kind: word_after(bytes, 2)?,
        }),
        _ => None,
    }
}

/// The bytes up to the last parenthesis that they open and don't close, and those after it.
fn last_open(bytes: &[u8]) -> Option<(&[u8], &[u8])> {
    let mut closed = 0_usize;
    let mut place = bytes.len();
    for byte in bytes.iter().rev() {
        place = place.saturating_sub(1);
        match *byte {
            b')' => closed = closed.saturating_add(1),
            b'(' if closed == 0 => {
                return Some((bytes.get(..place)?, bytes.get(place..)?.get(1..)?));
            }
            b'(' => closed = closed.saturating_sub(1),
            _ => {}
        }
    }
    None
}

/// The bytes without the quantifier that isn't finished at their end: after `before` its own
/// variable isn't bound.
fn without_unfinished(front: &[u8]) -> &[u8] {
    match last_open(front) {
        Some((outer, inner)) if word_after(inner, 3) == Some("before") => match binder_in(inner) {
            Some(_) if word_after(inner, 4).is_none() => outer,
            _ => front,
        },
        _ => front,
    }
}

/// The kind of the variable after these bytes.
fn kind_of<'a>(front: &'a [u8], variable: &str) -> Option<&'a str> {
    let mut rest = without_unfinished(front);
    for _ in 0..MAX_OPEN {
        let (outer, inner) = last_open(rest)?;
        if let Some(binder) = binder_in(inner) {
            if binder.variable == variable {
                return Some(binder.kind);
            }
        }
        rest = outer;
    }
    None
}

/// The most parentheses that nest.
const MAX_OPEN: usize = 32;

/// Writes which variables are bound after these bytes.
pub(crate) fn write_bound<W: fmt::Write>(f: &mut Formatter<W>, front: &[u8]) -> fmt::Result {
    let mut rest = without_unfinished(front);
    let mut before = "; bound here: ";
    for _ in 0..MAX_OPEN {
        let Some((outer, inner)) = last_open(rest) else {
            break;
        };
        if let Some(binder) = binder_in(inner) {
            let variable = binder.variable;
            write!(f, "{before}{variable:?}")?;
            before = ", ";
        }
        rest = outer;
    }
    Ok(())
}

/// What is said of a field that a variable can't have here, or of terms that can't be compared.
fn field_saying<'a>(alloc: Global, front: &'a [u8], term: &'a str) -> Option<Saying<'a>> {
    let (variable, field) = term.split_once('.')?;
    let kind = kind_of(front, variable)?;
    let fields = fields_of(kind);
    if fields.split(", ").any(|other| other == field) {
        return None;
    }
    Some(Saying::NoField {
        field,
        kind,
        fields,
        nearest: nearest_in(alloc, field, fields),
    })
}

/// What is said of the token after these bytes, which is refused for the cause.
fn saying_of<'a>(alloc: Global, why: RuleWhy, front: &'a [u8], token: &'a str) -> Saying<'a> {
    match why {
        RuleWhy::UnknownKind => Saying::NoKind(token, nearest_in(alloc, token, KINDS)),
        RuleWhy::Unbound => {
            let variable = token.split('.').next().unwrap_or(token);
            Saying::Unbound(variable, front)
        }
        RuleWhy::WrongField => { field_saying(alloc, front, token).unwrap_or(Saying::Word(token)) }
        _ => Saying::Word(token),
    }
}

/// What is found at the place of the rules that are refused for the cause.
pub(crate) fn find_at(alloc: Global, why: RuleWhy, text: &[u8], at: usize) -> Option<Finding<'_>> {
    let front = text.get(..at)?;
    let back = text.get(at..)?;
    let token = match why {
        RuleWhy::Token => "",
        _ => first_token(back).unwrap_or(""),
    };
    let saying = if token.is_empty() {
        Saying::Nothing
    } else {
        saying_of(alloc, why, front, token)
    };
    Some(Finding {
        saying,
        at,
        count: token.len(),
    })
}
