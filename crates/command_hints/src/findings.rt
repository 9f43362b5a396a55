//! What the text of a refused file shows: the bytes that are to blame, and what was expected there.

use crate::rule_words::write_bound;
use std::fmt::{self, Formatter};

/// What a refused text shows.
#[derive(Clone, Copy)]
pub(crate) struct Finding<'a> {
    pub(crate) saying: Saying<'a>,
    /// How many bytes are to blame, from `at` on; of a script `at` counts in the line.
    pub(crate) at: usize,
    pub(crate) count: usize,
}

/// What is said of the bytes that are to blame, more than the sentence on the cause.
#[derive(Clone, Copy)]
pub(crate) enum Saying<'a> {
    /// Nothing more.
    Nothing,
    /// The sentence is on this word.
    Word(&'a str),
    /// No machine has this name; the nearest that one has, if one is near.
    NoMachine(&'a str, Option<&'a str>),
    /// The word isn't one of these.
    NoneOf(&'a str, &'static str),
    /// The number isn't in this range.
    Range(&'a str, u32, u32),
    /// There are more lines that begin so than this.
    Lines(&'a str, &'static str),
    /// The line has this many words, and its form is this.
    Count(usize, &'static str),
    /// The word is no kind; the nearest that is, if one is near.
    NoKind(&'a str, Option<&'static str>),
    /// Nothing binds this variable after these bytes.
    Unbound(&'a str, &'a [u8]),
    /// Entries of the kind don't have this field, but these; the nearest, if one is near.
    NoField {
        field: &'a str,
        kind: &'a str,
        fields: &'static str,
        nearest: Option<&'static str>,
    },
    /// The log is empty, and others are given.
    EmptyLog,
    /// The proof gives this number of survivors; the logs have that one, if it is known.
    Survivors(&'a str, Option<u32>),
}

/// Writes which name is the nearest, if one is near.
fn write_nearest<W: fmt::Write>(f: &mut Formatter<W>, nearest: Option<&str>) -> fmt::Result {
    match nearest {
        Some(name) => write!(f, "; the nearest is {name}"),
        None => Ok(()),
    }
}

impl<'a> Saying<'a> {
    /// Writes what is said, or the sentence on the cause.
    pub(crate) fn write<W: fmt::Write>(&self, f: &mut Formatter<W>, sentence: &str) -> fmt::Result {
        match *self {
            Saying::Nothing => f.write_str(sentence),
            Saying::Word(word) => { write!(f, "{word:?}: {sentence}") }
            Saying::NoMachine(word, nearest) => {
                write!(f, "no machine line has the name {word:?}")?;
                write_nearest(f, nearest)
            }
            Saying::NoneOf(word, list) => write!(f, "{word:?} isn't one of {list}"),
            Saying::Range(word, least, most) => {
                write!(f, "{word:?} isn't a number from {least} to {most}")
            }
            Saying::Lines(word, most) => {
                write!(
                    f,
                    "a script has at most {most} lines that begin with {word}"
                )
            }
            Saying::Count(count, form) => write_count(f, count, form),
            Saying::Survivors(stated, count) => write_survivors(f, stated, count),
            _ => self.write_of_rules(f, sentence),
        }
    }

    /// Writes what is said of a text of rules, or of a log.
    fn write_of_rules<W: fmt::Write>(&self, f: &mut Formatter<W>, sentence: &str) -> fmt::Result {
        match *self {
            Saying::NoKind(word, nearest) => {
                write!(f, "{word:?} is no kind")?;
                write_nearest(f, nearest)?;
                write!(f, "; {sentence}")
            }
            Saying::Unbound(variable, front) => {
                write!(f, "no every or some around this place binds {variable:?}")?;
                write_bound(f, front)
            }
            Saying::NoField {
                field,
                kind,
                fields,
                nearest,
            } => {
                write!(f, "entries of the kind {kind} have no field {field:?}")?;
                write_nearest(f, nearest)?;
                write!(f, "; they have {fields}")
            }
            Saying::EmptyLog => {
                f.write_str("the file is empty; the audit can be made without it, so leave it out")
            }
            _ => f.write_str(sentence),
        }
    }
}

/// Writes how many entries survive, by the proof and by the logs.
fn write_survivors<W: fmt::Write>(
    f: &mut Formatter<W>,
    stated: &str,
    count: Option<u32>,
) -> fmt::Result {
    write!(f, "surviving entries: {stated} by the proof, ")?;
    match count {
        Some(count) => write!(f, "{count} by the logs"),
        None => f.write_str("another number by the logs"),
    }
}

/// Writes how many words the line has, and how many its form. A form that ends with a word for
/// others has at least so many.
fn write_count<W: fmt::Write>(
    f: &mut Formatter<W>,
    count: usize,
    form: &'static str,
) -> fmt::Result {
    let wanted = form.split(' ').count();
    let least = if form.ends_with("DEED") || form.ends_with("STEP") {
        "at least "
    } else {
        ""
    };
    write!(f, "words of the line: {count}; {form} has {least}{wanted}")?;
    f.write_str(", with one space between two, and none at an end")
}
