//! Inputs that were refused, and files that aren't there.

use crate::causes::sentence;
use crate::commands::{meaning_of, words_after};
use crate::excerpts::{Excerpt, line_of};
use crate::findings::{Finding, Saying};
use crate::rule_words::find_at;
use crate::script_words::find_in_line;
use hall_text::decimal;
use input_causes::{Cause, ProofWhy};
use roster::RosterFault;
use std::alloc::Global;
use std::fmt::{self, Display, Formatter, Write};

/// An input that was refused.
#[derive(Clone, Copy)]
pub struct Refusal<'a> {
    /// The program that refused it.
    program: &'static str,
    /// The file, the word for an entry, or `entries` for what the logs hold together.
    name: &'a str,
    /// What it counts is said by the cause.
    place: u64,
    cause: Cause,
    /// What the help calls the file, if the words name it.
    role: Option<&'static str>,
    /// Whether the words name several logs.
    has_logs: bool,
    /// How many entries survive in the logs, if they were counted once more.
    survivors: Option<u32>,
}

/// An input that was refused, and what its text shows.
#[derive(Clone, Copy)]
pub struct Explained<'a> {
    refusal: Refusal<'a>,
    saying: Saying<'a>,
    excerpt: Option<Excerpt<'a>>,
}

/// A file that isn't there.
#[derive(Clone, Copy)]
pub struct Absence<'a> {
    /// The program that wanted it.
    program: &'static str,
    name: &'a str,
    /// What the help calls the file, if the words name it.
    role: Option<&'static str>,
}

/// What the help calls the word at this place after the command: a last name with `..` is that of
/// all words from there on.
fn role_at(wanted: &'static str, place: usize) -> &'static str {
    let mut role = "";
    for name in wanted.split(' ').take(place.saturating_add(1)) {
        role = name.strip_suffix("..").unwrap_or(name);
    }
    role
}

/// What the help calls the file of this name.
fn role_of_file(words: &[String], name: &str) -> Option<&'static str> {
    let (command, others) = words.split_first()?;
    let wanted = words_after(command.as_str())?;
    for (place, other) in others.iter().enumerate() {
        let role = role_at(wanted, place);
        if is_file_of(role, other.as_str(), name) {
            return Some(role);
        }
    }
    None
}

/// Whether a word that the help calls so names this file.
fn is_file_of(role: &str, word: &str, name: &str) -> bool {
    match role {
        "LOG" | "SCRIPT" | "ROSTER" | "RULES" => word == name,
        "PROOF" | "FILE" | "KEY" | "SIG" => word == name,
        "NAME" => name.strip_suffix(".office") == Some(word),
        _ => false,
    }
}

/// Whether the words name more than one log.
fn has_logs(words: &[String]) -> bool {
    match words {
        [command, others @ ..] => match words_after(command.as_str()) {
            Some(wanted) => wanted.ends_with("..") && others.len() > wanted.split(' ').count(),
            None => false,
        },
        [] => false,
    }
}

/// What is found in the line of a proof that gives another number of survivors: that number. It
/// isn't the other one, unless a file has changed since.
fn find_count<'a>(line: &'a [u8], survivors: Option<u32>) -> Option<Finding<'a>> {
    let line = str::from_utf8(line).ok()?;
    let (first, rest) = line.split_once(' ')?;
    let stated = rest.split(' ').next()?;
    let others = survivors.filter(|count| decimal(stated.as_bytes()) != Some(*count));
    Some(Finding {
        saying: Saying::Survivors(stated, others),
        at: first.len().saturating_add(1),
        count: stated.len(),
    })
}

/// The limit of a file that the help calls so.
fn limit_of(role: &str) -> Option<&'static str> {
    match role {
        "SCRIPT" => Some("a script has at most 4,194,304 bytes"),
        "ROSTER" => Some("a roster has at most 4,194,304 bytes"),
        "RULES" => Some("a file of rules has at most 4,194,304 bytes"),
        "LOG" => Some("a log has at most 67,108,864 bytes"),
        "PROOF" => Some("a proof has at most 67,108,864 bytes"),
        "FILE" => Some("a file that is signed has at most 67,108,864 bytes"),
        "NAME" => Some("an office's file has at most 65,536 bytes"),
        "KEY" => Some("a public key has at most 65,536 bytes"),
        "SIG" => Some("a signature has at most 65,536 bytes"),
        _ => None,
    }
}

impl<'a> Absence<'a> {
    /// The absence of the file of this name, which the program wanted.
    pub(crate) fn of(program: &'static str, words: &[String], name: &'a str) -> Absence<'a> {
        Absence {
            program,
            name,
            role: role_of_file(words, name),
        }
    }
}

impl<'a> Refusal<'a> {
    /// The program's refusal of the input with this name.
    pub(crate) fn of(
        program: &'static str,
        words: &[String],
        name: &'a str,
        place: u64,
        cause: Cause,
    ) -> Refusal<'a> {
        Refusal {
            program,
            name,
            place,
            cause,
            role: role_of_file(words, name),
            has_logs: has_logs(words),
            survivors: None,
        }
    }

    /// The file whose text shows more: a script, a text of rules, a file that is no log, or a proof
    /// for another number of survivors.
    pub fn text_file(&self) -> Option<&'a str> {
        match self.cause {
            Cause::Script(_) | Cause::Rules(_) | Cause::Header => Some(self.name),
            Cause::Proof(ProofWhy::WrongCount) => Some(self.name),
            _ => None,
        }
    }

    /// Whether a proof is refused because it is for another number of survivors.
    pub fn is_of_count(&self) -> bool {
        matches!(self.cause, Cause::Proof(ProofWhy::WrongCount))
    }

    /// The refusal, where so many entries survive in the logs.
    pub fn with_survivors(self, survivors: u32) -> Refusal<'a> {
        Refusal {
            survivors: Some(survivors),
            ..self
        }
    }

    /// The refusal with what its text shows, if that could be read.
    pub fn explained(self, alloc: Global, text: Option<&'a [u8]>) -> Explained<'a> {
        let (saying, excerpt) = match text {
            Some(text) => self.shown(alloc, text).unwrap_or((Saying::Nothing, None)),
            None => (Saying::Nothing, None),
        };
        Explained {
            refusal: self,
            saying,
            excerpt,
        }
    }

    /// What the text shows, with the line in which it is shown.
    fn shown(self, alloc: Global, text: &'a [u8]) -> Option<(Saying<'a>, Option<Excerpt<'a>>)> {
        let place = usize::try_from(self.place).ok()?;
        match self.cause {
            Cause::Script(why) => {
                let line = line_of(text, place)?;
                let Finding { saying, at, count } = find_in_line(alloc, why, text, line)?;
                Some((saying, Excerpt::of_line(line, place, at, count)))
            }
            Cause::Rules(why) => {
                let Finding { saying, at, count } = find_at(alloc, why, text, place)?;
                Some((saying, Excerpt::of_byte(text, at, count)))
            }
            Cause::Proof(ProofWhy::WrongCount) => {
                let line = line_of(text, place)?;
                let Finding { saying, at, count } = find_count(line, self.survivors)?;
                Some((saying, Excerpt::of_line(line, place, at, count)))
            }
            Cause::Header if text.is_empty() && self.has_logs => Some((Saying::EmptyLog, None)),
            _ => None,
        }
    }

    /// The sentence on the cause.
    fn sentence(&self) -> &'static str {
        let limit = match self.cause {
            Cause::TooLong => self.role.and_then(|role| limit_of(role)),
            _ => None,
        };
        limit.unwrap_or(sentence(self.cause))
    }

    /// Writes what the place counts, if it counts anything.
    fn write_place<W: fmt::Write>(&self, f: &mut Formatter<W>) -> fmt::Result {
        let place = self.place;
        match self.cause {
            Cause::Script(_) | Cause::Proof(_) => write!(f, ", line {place}"),
            Cause::Rules(_) | Cause::Roster(RosterFault::NotCanonical(_)) => {
                write!(f, ", byte {place}, counted from 0")
            }
            Cause::TooWide => write!(f, ", rule {place}, counted from 0"),
            _ => Ok(()),
        }
    }

    /// Writes the line on the refusal, with what is said of its text.
    fn write<W: fmt::Write>(&self, f: &mut Formatter<W>, saying: Saying<'_>) -> fmt::Result {
        let program = self.program;
        let name = self.name;
        let cause = self.cause;
        let word = cause.word();
        write!(f, "{program}: {name}")?;
        self.write_place(f)?;
        write!(f, ", {word}: ")?;
        if let Cause::NoEntry = self.cause {
            write!(f, "no surviving entry is {name}")?;
        } else {
            saying.write(f, self.sentence())?;
        }
        if let Cause::Collision(digest) = cause {
            f.write_str(", ")?;
            for byte in digest {
                write!(f, "{byte:02x}")?;
            }
        }
        f.write_str("\n")
    }
}

impl<'a> Display for Refusal<'a> {
    fn fmt<W: fmt::Write>(&self, f: &mut Formatter<W>) -> fmt::Result {
        self.write(f, Saying::Nothing)
    }
}

impl<'a> Display for Explained<'a> {
    fn fmt<W: fmt::Write>(&self, f: &mut Formatter<W>) -> fmt::Result {
        self.refusal.write(f, self.saying)?;
        match self.excerpt {
            Some(excerpt) => write!(f, "{excerpt}"),
            None => Ok(()),
        }
    }
}

impl<'a> Display for Absence<'a> {
    fn fmt<W: fmt::Write>(&self, f: &mut Formatter<W>) -> fmt::Result {
        let program = self.program;
        let name = self.name;
        write!(f, "{program}: there is no file {name}")?;
        if let Some(role) = self.role {
            let meaning = meaning_of(role);
            write!(f, ", which is named as {role}: {meaning}")?;
        }
        write!(f, "\n")
    }
}
