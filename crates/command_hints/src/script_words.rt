//! Which word of a script's line is to blame for a refusal.

use crate::excerpts::is_plain;
use crate::findings::{Finding, Saying};
use crate::nearest::Nearest;
use election_script::ScriptWhy;
use hall_text::{decimal, digest_hex};
use roster::is_name;
use std::alloc::{AllocError, Global};

/// The forms of lines, in both versions: a word in small letters stands for itself.
const FORMS: &[&str] = &[
    "version VERSION",
    "seed SEED",
    "key KIND HEIGHT",
    "log EVENTS",
    "link ENTRIES",
    "machine NAME ROLE",
    "do NAME open",
    "do NAME authorise BOOTH SESSION",
    "do NAME close",
    "do NAME activate SESSION",
    "do NAME commit SESSION BALLOT",
    "do NAME cast SESSION BALLOT",
    "do NAME cancel SESSION",
    "lose FROM NUMBER TO",
    "stop NAME COUNT",
    "step act NAME",
    "step hear NAME FROM NUMBER",
    "step stop NAME",
    "step STEP",
];

/// The forms of lines in version 1 alone.
const FIRST_FORMS: &[&str] = &["do NAME override SESSION", "do NAME DEED"];

/// The forms of lines in version 2 alone.
const SECOND_FORMS: &[&str] = &[
    "do NAME override SESSION HOW",
    "do NAME challenge SESSION BALLOT",
    "do NAME LATER_DEED",
];

/// The words with which a line can begin.
const BEGINNINGS: &str = "version, seed, key, log, link, machine, do, lose, stop, step";

/// A refused line of a script.
#[derive(Clone, Copy)]
struct Scene<'a> {
    /// The lines of the script.
    text: &'a [u8],
    line: &'a str,
    form: &'static str,
}

/// Whether a word of a form stands for itself.
fn is_fixed(name: &str) -> bool {
    name.bytes().all(|byte| byte >= b'a' && byte <= b'z')
}

/// Whether the line has the words of the form that stand for themselves.
fn fits(form: &str, line: &str) -> bool {
    let mut words = line.split(' ');
    for name in form.split(' ') {
        let word = words.next();
        if is_fixed(name) && word != Some(name) {
            return false;
        }
    }
    true
}

/// The first of these forms that the line fits.
fn fitting(forms: &[&'static str], line: &str) -> Option<&'static str> {
    for &form in forms {
        if fits(form, line) {
            return Some(form);
        }
    }
    None
}

/// Whether the script says that it is of version 2.
fn is_second(text: &[u8]) -> bool {
    text.split(|byte| *byte == b'\n')
        .any(|line| line == b"version 2".as_slice())
}

/// The form that the line is meant to have.
fn form_of(text: &[u8], line: &str) -> Option<&'static str> {
    let later = if is_second(text) {
        SECOND_FORMS
    } else {
        FIRST_FORMS
    };
    match fitting(FORMS, line) {
        Some(form) => Some(form),
        None => fitting(later, line),
    }
}

/// The least and the greatest number that may stand where a form has this name.
fn range_of(name: &str) -> Option<(u32, u32)> {
    match name {
        "VERSION" => Some((1, 2)),
        "EVENTS" | "ENTRIES" => Some((1, 4096)),
        "NUMBER" => Some((0, 4095)),
        "COUNT" => Some((0, 4096)),
        "SESSION" => Some((1, 4_294_967_295)),
        _ => None,
    }
}

/// The words that may stand where a form has this name, if they are fixed.
fn choices_of(name: &str) -> Option<&'static str> {
    match name {
        "KIND" => Some("w1, w2, w4, w8"),
        "HEIGHT" => Some("h5, h10"),
        "ROLE" => Some("supervisor, booth"),
        "HOW" => Some("cancel, cast"),
        "STEP" => Some("act, hear, stop"),
        "DEED" => Some("open, authorise, override, close, activate, commit, cast, cancel"),
        "LATER_DEED" => {
            Some("open, authorise, override, close, activate, commit, cast, cancel, challenge")
        }
        _ => None,
    }
}

/// How many lines may begin with this word.
fn most_lines(word: &str) -> Option<&'static str> {
    match word {
        "machine" => Some("16"),
        "do" => Some("4,096"),
        "lose" => Some("65,536"),
        "step" => Some("131,072"),
        _ => None,
    }
}

/// Whether a form has a machine's name here.
fn is_machine(name: &str) -> bool {
    matches!(name, "NAME" | "BOOTH" | "FROM" | "TO")
}

/// The name and the role that a `machine` line has.
fn machine_of(line: &[u8]) -> Option<(&str, &str)> {
    let rest = str::from_utf8(line).ok()?.strip_prefix("machine ")?;
    let (name, role) = rest.split_once(' ')?;
    if is_name(name.as_bytes()) {
        Some((name, role))
    } else {
        None
    }
}

impl<'a> Scene<'a> {
    /// The role of the machine of this name.
    fn role_of(&self, name: &str) -> Option<&'a str> {
        for line in self.text.split(|byte| *byte == b'\n') {
            if let Some((other, role)) = machine_of(line) {
                if other == name {
                    return Some(role);
                }
            }
        }
        None
    }

    /// The place of the line with the machine's name that is nearest to the word, if one is near.
    fn nearest_line(&self, alloc: Global, word: &str) -> Result<Option<usize>, AllocError> {
        let mut nearest = Nearest::to(word);
        for (place, line) in self.text.split(|byte| *byte == b'\n').enumerate() {
            // No name is near to an empty one.
            let (name, _) = machine_of(line).unwrap_or(("", ""));
            nearest = nearest.or(alloc, word, name, place)?;
        }
        Ok(nearest.place())
    }

    /// The machine's name that is nearest to the word, if one is near.
    fn nearest(&self, alloc: Global, word: &str) -> Option<&'a str> {
        let place = self.nearest_line(alloc, word).ok()??;
        let line = self.text.split(|byte| *byte == b'\n').nth(place)?;
        let (name, _) = machine_of(line)?;
        Some(name)
    }

    /// Whether a deed of this name isn't one of the line's machine.
    fn is_wrong_deed(&self, deed: &str) -> bool {
        let owner = self.line.split(' ').nth(1).unwrap_or("");
        match deed {
            "open" | "authorise" | "override" | "close" => { self.role_of(owner) == Some("booth") }
            "activate" | "commit" | "cast" | "cancel" | "challenge" => {
                self.role_of(owner) == Some("supervisor")
            }
            _ => false,
        }
    }

    /// Whether the word, where the form has this name, is refused for the cause.
    fn is_refused(&self, why: ScriptWhy, name: &str, word: &str) -> bool {
        let bytes = word.as_bytes();
        match why {
            ScriptWhy::UnknownWord => match choices_of(name) {
                Some(choices) => !choices.split(", ").any(|choice| choice == word),
                None => false,
            },
            ScriptWhy::BadNumber => range_of(name).is_some() && decimal(bytes).is_none(),
            ScriptWhy::OutOfRange => match range_of(name) {
                Some((least, most)) => !is_between(bytes, least, most),
                None => name == "SEED",
            },
            ScriptWhy::BadHex => name == "SEED" || is_no_ballot(name, bytes),
            ScriptWhy::BadName => is_machine(name) && !is_name(bytes),
            ScriptWhy::UnknownName => is_machine(name) && self.role_of(word).is_none(),
            ScriptWhy::SameName => name == "NAME" || name == "TO",
            ScriptWhy::WrongRole => name == "BOOTH" || self.is_wrong_deed(name),
            _ => false,
        }
    }

    /// What is said of the word, where the form has this name.
    fn saying(
        &self,
        alloc: Global,
        why: ScriptWhy,
        name: &'static str,
        word: &'a str,
    ) -> Saying<'a> {
        match why {
            ScriptWhy::UnknownWord => match choices_of(name) {
                Some(choices) => Saying::NoneOf(word, choices),
                None => Saying::Word(word),
            },
            ScriptWhy::OutOfRange => match range_of(name) {
                Some((least, most)) => Saying::Range(word, least, most),
                None => Saying::Word(word),
            },
            ScriptWhy::UnknownName => Saying::NoMachine(word, self.nearest(alloc, word)),
            _ => Saying::Word(word),
        }
    }

    /// What is found of the first word that is refused for the cause.
    fn word(&self, alloc: Global, why: ScriptWhy) -> Option<Finding<'a>> {
        let mut at = 0_usize;
        for (name, word) in self.form.split(' ').zip(self.line.split(' ')) {
            if self.is_refused(why, name, word) {
                let saying = self.saying(alloc, why, name, word);
                let count = word.len();
                return Some(Finding { saying, at, count });
            }
            at = at.saturating_add(word.len()).saturating_add(1);
        }
        None
    }

    /// What is found where the line has too few or too many words: the first empty word is marked,
    /// or those too many, or the line's end.
    fn count(&self) -> Finding<'a> {
        let wanted = self.form.split(' ').count();
        let saying = Saying::Count(self.line.split(' ').count(), self.form);
        let mut words = 0_usize;
        let mut at = 0_usize;
        for word in self.line.split(' ') {
            if word.is_empty() {
                return Finding {
                    saying,
                    at,
                    count: 1,
                };
            }
            if words == wanted {
                break;
            }
            words = words.saturating_add(1);
            at = at.saturating_add(word.len()).saturating_add(1);
        }
        let end = self.line.len();
        let count = end.saturating_sub(at);
        let at = at.min(end);
        Finding { saying, at, count }
    }
}

/// Whether the word is a number in this range.
fn is_between(word: &[u8], least: u32, most: u32) -> bool {
    match decimal(word) {
        Some(number) => number >= least && number <= most,
        None => false,
    }
}

/// Whether a form has a ballot here, and the word is none.
fn is_no_ballot(name: &str, word: &[u8]) -> bool {
    name == "BALLOT" && digest_hex(word).is_none()
}

/// What is found of the line's first word alone.
fn first_word(why: ScriptWhy, line: &str) -> Finding<'_> {
    let word = line.split(' ').next().unwrap_or("");
    let saying = match why {
        ScriptWhy::UnknownWord => Saying::NoneOf(word, BEGINNINGS),
        ScriptWhy::OutOfRange => match most_lines(word) {
            Some(most) => Saying::Lines(word, most),
            None => Saying::Nothing,
        },
        _ => Saying::Word(word),
    };
    let count = word.len();
    Finding {
        saying,
        at: 0,
        count,
    }
}

/// What is found in a line that has a byte outside space to `~`: that byte.
fn odd_byte(line: &[u8]) -> Option<Finding<'_>> {
    let at = line.iter().position(|byte| !is_plain(*byte))?;
    let saying = Saying::Nothing;
    Some(Finding {
        saying,
        at,
        count: 1,
    })
}

/// What is found in the line of the script that is refused for the cause.
pub(crate) fn find_in_line<'a>(
    alloc: Global,
    why: ScriptWhy,
    text: &'a [u8],
    line: &'a [u8],
) -> Option<Finding<'a>> {
    if let ScriptWhy::NotPlain = why {
        return odd_byte(line);
    }
    let line = str::from_utf8(line).ok()?;
    let Some(form) = form_of(text, line) else {
        return Some(first_word(why, line));
    };
    let scene = Scene { text, line, form };
    match why {
        ScriptWhy::WrongCount => Some(scene.count()),
        _ => match scene.word(alloc, why) {
            Some(finding) => Some(finding),
            None => Some(first_word(why, line)),
        },
    }
}
