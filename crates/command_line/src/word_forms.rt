// The forms of words that several commands share.
ghost use Rattle.std.specs.Prelude.{
  ◌≡◌,
  ◌≢◌,
  ◌↔◌,
  ◌&&◌,
  ℕ,
  nat_le,
  map,
  string_bytes,
  IsTrue,
  IfSome,
  IfNone,
};
ghost use Rattle.std.specs.List.{list_all};
ghost use Rattle.std.specs.Fmt.{decimal};
ghost use Rattle.command_line.specs.WordForms.{AreLogs, AreSessions, have_form, is_command_word};

use hall_text::decimal;

/// The most logs of a command.
pub const MAX_LOGS: usize = 16;

/// How many sessions the word says: 1 to 800, in decimal. Of any other word `None`.
pub fn sessions_of(word: &str) -> Option<u32>
    ensures found { IfSome result (λ n. AreSessions n × (word.now ≡ decimal n)) }
    ensures none { IfNone result ((n : ℕ) → AreSessions n → word.now ≢ decimal n) }
{
    match decimal(word.as_bytes()) {
        Some(sessions) if sessions >= 1 && sessions <= 800 => Some(sessions),
        _ => None,
    }
}

/// Whether there are 1 to 16 logs.
pub fn are_logs(logs: &[String]) -> bool
    ensures { IsTrue result ↔ AreLogs (map string_bytes logs.now) }
{
    !logs.is_empty() && logs.len() <= MAX_LOGS
}

/// Whether each of the words has the form of a word.
pub fn have_form(words: &[String]) -> bool
    ensures { result ≡ have_form (map string_bytes words.now) }
{
    are_words(words)
}

/// The same, of the words' texts.
fn are_words(words: &[String]) -> bool
    ensures { result ≡ list_all (λ word. is_command_word (string_bytes word)) words.now }
{
    words.iter().all(|word| is_word(word.as_str()))
}

/// Whether each byte is one from `!` to `~`.
fn are_printing(bytes: &[u8]) -> bool
    ensures { result ≡ list_all (λ byte. nat_le 33 byte && nat_le byte 126) bytes.now }
{
    bytes.iter().all(|byte| *byte >= b'!' && *byte <= b'~')
}

/// Whether the word has the form of a word: there are no options, so none begins with `-`.
fn is_word(word: &str) -> bool
    ensures { result ≡ is_command_word word.now }
{
    let bytes = word.as_bytes();
    !bytes.is_empty() && bytes.len() <= 1024 && bytes[0] != b'-' && are_printing(bytes)
}
