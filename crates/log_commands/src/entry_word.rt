// The words for entries.
ghost use Rattle.std.specs.Prelude.{◌↔◌, ℕ, IfNone, IfSome, IsTrue, List};
ghost use Rattle.log_commands.specs.EntryWords.{IsEntryWord, IsSpelt, by_number};
ghost use Rattle.log_commands.specs.inside.EntryNames.{IsFirstDot, name_of};

use hall_text::{decimal, digest_hex};
use roster::is_name;

/// What a word for an entry says.
#[derive(Clone, Copy)]
pub(crate) enum Read<'a> {
    /// The entry's digest.
    Digest([u8; 32]),
    /// The name of the machine that sent it, and its number there.
    Number(&'a [u8], u32),
}

/// What the word says: 64 lower-case hexadecimal digits, or `NAME.NUMBER`. `None` for any other.
pub fn read_word(word: &[u8]) -> Option<Read<'_>>
    ensures found { IfSome result (λ read. IsSpelt (name_of read) word.now) }
    ensures none { IfNone result (¬ IsEntryWord word.now) }
{
    match digest_hex(word) {
        Some(digest) => Some(Read::Digest(digest)),
        None => read_number(word),
    }
}

/// Whether the word is one for an entry.
pub fn is_entry_word(word: &str) -> bool
    ensures { IsTrue result ↔ IsEntryWord word.now }
{
    read_word(word.as_bytes()).is_some()
}

/// The name and the number that the word says with a dot between them.
fn read_number(word: &[u8]) -> Option<Read<'_>>
    ensures found { IfSome result (λ read. IsSpelt (name_of read) word.now) }
    ensures none { IfNone result ((machine : List ℕ) (number : ℕ) →
        ¬ IsSpelt (by_number machine number) word.now) }
{
    let dot = first_dot(word)?;
    let machine = &word[..dot];
    let Some(number) = decimal(&word[dot + 1..]) else {
        return None;
    };
    if !is_name(machine) {
        return None;
    }
    Some(Read::Number(machine, number))
}

/// The place of the first dot.
fn first_dot(word: &[u8]) -> Option<usize>
    ensures { IsFirstDot word.now result }
{
    for at in 0..word.len() {
        if word[at] == b'.' {
            return Some(at);
        }
    }
    None
}
