//! The tokens of a text, one after another.
ghost use Rattle.std.specs.Prelude.{◌≡◌, ◌≤◌, ◌<◌, false, length, drop, slice_index};
ghost use Rattle.std.specs.Str.{bytes_eq};
ghost use Rattle.hall_text.specs.Places.{CutsNoWord};
ghost use Rattle.rule_language.specs.Tokens.{is_separator, row_from};
ghost use Rattle.rule_language.specs.Words.{only};
ghost use Rattle.rule_language.specs.Steps.{next, accept, take, as_read, end, is_end};
ghost use Rattle.rule_language.specs.inside.Unread.{IsNext, unread};

use crate::faults::RuleFault;
use hall_text::{Span, token_end};
use input_causes::RuleWhy;

/// Whether the byte separates tokens.
fn is_separator(byte: u8) -> bool
    ensures { result ≡ is_separator byte }
{
    byte == b' ' || byte == b'\t' || byte == b'\n' || byte == b'\r'
}

/// Where the separators from the place on end.
#[tactic(auto, using(crate::proofs::Rows::separators))]
fn skip_separators(text: &[u8], from: usize) -> usize
    requires inside { from ≤ length text.now }
    requires between { CutsNoWord text.now from }
    ensures inside { result ≤ length text.now }
    ensures between { CutsNoWord text.now result }
    ensures row { row_from result (drop result text.now) ≡ row_from from (drop from text.now) }
    ensures stops { result < length text.now → is_separator (slice_index text.now result) ≡ false }
{
    let mut start = from;
    while start < text.len() && is_separator(text[start]) {
        start += 1;
    }
    start
}

/// What follows the separators from the place on: a token, or an empty span at a bad byte or at
/// the text's end.
#[tactic(auto, unfolding(crate::specs::inside::Unread::unread))]
pub(crate) fn token_from(text: &[u8], from: usize) -> Span
    requires inside { from ≤ length text.now }
    requires between { CutsNoWord text.now from }
    ensures row { unread text.now result ≡ row_from from (drop from text.now) }
    ensures next { IsNext text.now result }
{
    let start = skip_separators(text, from);
    if start < text.len() {
        let end = token_end(text, start);
        Span { start, end }
    } else {
        Span { start, end: start }
    }
}

/// The bytes of the token.
pub(crate) fn word_of<'a>(text: &'a [u8], token: Span) -> &'a [u8]
    requires { IsNext text.now token }
    ensures { result.now ≡ next (unread text.now token) }
{
    &text[token.start..token.end]
}

/// Whether the token is the wanted word.
pub(crate) fn is_word(text: &[u8], token: Span, wanted: &[u8]) -> bool
    requires { IsNext text.now token }
    ensures { result ≡ bytes_eq (next (unread text.now token)) wanted.now }
{
    word_of(text, token) == wanted
}

/// Whether the text ends there.
pub(crate) fn is_at_end(text: &[u8], token: Span) -> bool
    requires { IsNext text.now token }
    ensures { result ≡ is_end (unread text.now token) }
{
    token.start >= text.len()
}

/// Takes the token where what it is was found, and refuses it otherwise.
pub(crate) fn take<T: Copy>(
    text: &[u8],
    token: &mut Span,
    found: Result<T, RuleWhy>,
) -> Result<T, RuleFault>
    requires { IsNext text.now token.old }
    ensures value { as_read result (unread text.now token.new)
        ≡ accept (unread text.now token.old) found }
    ensures next { IsNext text.now token.new }
{
    let at = token.start;
    if token.end <= at {
        let why = if at == text.len() {
            RuleWhy::Shape
        } else {
            RuleWhy::Token
        };
        return Err(RuleFault::At { at, why });
    }
    match found {
        Ok(value) => {
            *token = token_from(text, token.end);
            Ok(value)
        }
        Err(why) => Err(RuleFault::At { at, why }),
    }
}

/// Whether the word is the wanted one.
fn only(word: &[u8], wanted: &[u8]) -> Result<(), RuleWhy>
    ensures { result ≡ only wanted.now word.now }
{
    if word == wanted {
        Ok(())
    } else {
        Err(RuleWhy::Shape)
    }
}

/// Takes the one word that is allowed there.
#[tactic(auto, unfolding(crate::specs::Steps::take))]
pub(crate) fn read_only(text: &[u8], token: &mut Span, wanted: &[u8]) -> Result<(), RuleFault>
    requires { IsNext text.now token.old }
    ensures value { as_read result (unread text.now token.new)
        ≡ take (only wanted.now) (unread text.now token.old) }
    ensures next { IsNext text.now token.new }
{
    let found = only(word_of(text, *token), wanted);
    take(text, token, found)
}

/// Refuses a token where the text has to end.
pub(crate) fn read_end(text: &[u8], token: &mut Span) -> Result<(), RuleFault>
    requires { IsNext text.now token.old }
    ensures value { as_read result (unread text.now token.new) ≡ end (unread text.now token.old) }
    ensures next { IsNext text.now token.new }
{
    if is_at_end(text, *token) {
        return Ok(());
    }
    take(text, token, Err(RuleWhy::Shape))
}
