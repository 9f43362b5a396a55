//! What is wrong with a command line.

use crate::commands::{
    COMMANDS, command_line, meaning_of, meant_by, words_after, write_help, write_names, write_usage,
};
use crate::nearest::Nearest;
use hall_text::{decimal, digest_hex};
use roster::is_name;
use std::alloc::{AllocError, Global};
use std::fmt::{self, Display, Formatter};

/// The most bytes of a word.
const MAX_BYTES: usize = 1024;

/// The most logs of a command.
const MAX_LOGS: usize = 16;

/// What is wrong with a command line. It is displayed with the usage line of the command that was
/// meant.
#[derive(Clone, Copy)]
pub struct Slip<'a> {
    wrong: Wrong<'a>,
    /// The command that was meant, if that is known.
    meant: &'a str,
}

/// What is wrong: the first that applies, where the form of each word comes before what the words
/// say.
#[derive(Clone, Copy)]
enum Wrong<'a> {
    /// A word isn't text, so that the command line counts as one without words.
    NotText,
    /// Help is asked for, or the version.
    Help,
    /// There are no words.
    NoWords,
    /// The word at this place, counted from 1, where the command is, has no byte.
    Empty(usize),
    /// The word at this place has this many bytes, which are too many.
    TooLong(usize, usize),
    /// The word begins with `-`.
    Option(&'a str),
    /// The word has a byte outside `!` to `~`.
    NotPlain(&'a str),
    /// The word is no command; the other is what may have been meant.
    NoCommand(&'a str, Option<&'static str>),
    /// This many words follow the command, which wants these.
    Count(&'a str, &'static str, usize),
    /// This many logs are given to the command, which are too many.
    TooManyLogs(&'a str, usize),
    /// The word isn't what the help says of the other.
    Meaning(&'a str, &'static str),
    /// Nothing is known to be wrong.
    Unknown,
}

/// What is wrong with the words, if anything is; they are `None` where one isn't text.
pub(crate) fn slip_in(alloc: Global, words: Option<&[String]>) -> Slip<'_> {
    let Some(words) = words else {
        return Slip {
            wrong: Wrong::NotText,
            meant: "",
        };
    };
    let wrong = wrong_in(alloc, words);
    let meant = match wrong {
        Wrong::NoCommand(_, Some(name)) => name,
        _ => words.first().map(|word| word.as_str()).unwrap_or(""),
    };
    Slip { wrong, meant }
}

fn wrong_in(alloc: Global, words: &[String]) -> Wrong<'_> {
    if asks_for_help(words) {
        return Wrong::Help;
    }
    match wrong_form(words) {
        Some(wrong) => wrong,
        None => wrong_command(alloc, words),
    }
}

fn asks_for_help(words: &[String]) -> bool {
    words.iter().any(|word| { matches!(word.as_str(), "--help" | "-h" | "--version" | "-V") })
}

/// The first word that doesn't have the form of a word.
fn wrong_form(words: &[String]) -> Option<Wrong<'_>> {
    for (before, word) in words.iter().enumerate() {
        let word = word.as_str();
        let place = before.saturating_add(1);
        if word.is_empty() {
            return Some(Wrong::Empty(place));
        }
        if word.len() > MAX_BYTES {
            return Some(Wrong::TooLong(place, word.len()));
        }
        if word.starts_with('-') {
            return Some(Wrong::Option(word));
        }
        if !word.bytes().all(|byte| byte >= b'!' && byte <= b'~') {
            return Some(Wrong::NotPlain(word));
        }
    }
    None
}

/// What is wrong with words that have their form.
fn wrong_command(alloc: Global, words: &[String]) -> Wrong<'_> {
    match words {
        [] => Wrong::NoWords,
        [command, others @ ..] => match words_after(command.as_str()) {
            Some(wanted) => wrong_words(command.as_str(), wanted, others),
            None => match meant_by(command.as_str()) {
                Some(name) => Wrong::NoCommand(command.as_str(), Some(name)),
                None => Wrong::NoCommand(command.as_str(), near(alloc, command.as_str())),
            },
        },
    }
}

/// The place of the command whose name is nearest to the word, if one is near.
fn nearest_row(alloc: Global, word: &str) -> Result<Option<usize>, AllocError> {
    let mut nearest = Nearest::to(word);
    for (place, &row) in COMMANDS.iter().enumerate() {
        nearest = nearest.or(alloc, word, command_line(row).command, place)?;
    }
    Ok(nearest.place())
}

/// The command whose name is nearest to the word, if one is near.
fn near(alloc: Global, word: &str) -> Option<&'static str> {
    let place = nearest_row(alloc, word).ok()??;
    let &row = COMMANDS.get(place)?;
    Some(command_line(row).command)
}

/// What is wrong with the words after the command.
fn wrong_words<'a>(command: &'a str, wanted: &'static str, words: &'a [String]) -> Wrong<'a> {
    if let Some(wrong) = wrong_count(command, wanted, words.len()) {
        return wrong;
    }
    for (word, name) in words.iter().zip(wanted.split(' ')) {
        if !has_meaning(name, word.as_str()) {
            return Wrong::Meaning(word.as_str(), name);
        }
    }
    Wrong::Unknown
}

/// What is wrong with this number of words after the command, if anything is.
fn wrong_count<'a>(command: &'a str, wanted: &'static str, count: usize) -> Option<Wrong<'a>> {
    let least = wanted.split(' ').count();
    if count < least || (count > least && !wanted.ends_with("..")) {
        return Some(Wrong::Count(command, wanted, count));
    }
    let logs = (count - least).saturating_add(1);
    if logs > MAX_LOGS {
        return Some(Wrong::TooManyLogs(command, logs));
    }
    None
}

/// Whether the word is allowed where the help has this name. Any word may be a file's name.
fn has_meaning(name: &str, word: &str) -> bool {
    match name {
        "N" => matches!(decimal(word.as_bytes()), Some(1..=800)),
        "SEED" => digest_hex(word.as_bytes()).is_some(),
        "X" | "Y" => digest_hex(word.as_bytes()).is_some() || has_number(word),
        _ => true,
    }
}

/// Whether the word is a machine's name, a dot and a number.
fn has_number(word: &str) -> bool {
    match word.split_once('.') {
        Some((name, number)) => { is_name(name.as_bytes()) && decimal(number.as_bytes()).is_some() }
        None => false,
    }
}

impl<'a> Wrong<'a> {
    /// Writes the sentence on what is wrong.
    fn write<W: fmt::Write>(&self, f: &mut Formatter<W>) -> fmt::Result {
        match *self {
            Wrong::NotText => write!(f, "a word isn't text in UTF-8"),
            Wrong::NoWords => {
                f.write_str("a command is wanted: ")?;
                write_names(f)
            }
            Wrong::Empty(place) => write!(f, "word {place} is empty"),
            Wrong::TooLong(place, bytes) => write!(
                f,
                "word {place} has {bytes} bytes; a word has at most {MAX_BYTES}"
            ),
            Wrong::Option(word) => write!(f, "{word:?} begins with -, and there are no options"),
            Wrong::NotPlain(word) => {
                write!(
                    f,
                    "{word:?} has a space or another byte outside ! to ~; a word has none"
                )
            }
            Wrong::NoCommand(word, Some(name)) => {
                write!(f, "{word:?} is no command; did you mean {name}?")
            }
            Wrong::NoCommand(word, None) => {
                write!(f, "{word:?} is no command; there are ")?;
                write_names(f)
            }
            Wrong::Count(command, wanted, count) => {
                write!(f, "{command} wants {wanted}; words given: {count}")
            }
            Wrong::TooManyLogs(command, logs) => {
                write!(
                    f,
                    "{command} takes at most {MAX_LOGS} logs; logs given: {logs}"
                )
            }
            Wrong::Meaning(word, name) => write_meaning(f, word, name),
            Wrong::Help | Wrong::Unknown => write!(f, "the command line isn't valid"),
        }
    }
}

/// Writes what the word must be. A seed is secret, so only its length is shown.
fn write_meaning<W: fmt::Write>(f: &mut Formatter<W>, word: &str, name: &str) -> fmt::Result {
    let meaning = meaning_of(name);
    write!(f, "{name} must be {meaning}; ")?;
    if name == "SEED" {
        let count = word.len();
        write!(f, "got {count} characters")
    } else {
        write!(f, "got {word:?}")
    }
}

impl<'a> Display for Slip<'a> {
    fn fmt<W: fmt::Write>(&self, f: &mut Formatter<W>) -> fmt::Result {
        if let Wrong::Help = self.wrong {
            return write_help(f);
        }
        f.write_str("auditorium: ")?;
        self.wrong.write(f)?;
        f.write_str("\n")?;
        write_usage(f, self.meant)?;
        f.write_str("auditorium --help has all\n")
    }
}
