//! Where the tokens and the lines of a text are.
ghost use Rattle.std.specs.Prelude.{◌≡◌, ℕ, ◌<◌, ◌≤◌, length, drop, slice_index, IfOk};
ghost use Rattle.hall_text.specs.Spans.{IsWordByte, IsToken};
ghost use Rattle.hall_text.specs.Places.{CutsNoWord, BeginsToken};
ghost use Rattle.hall_text.specs.Lines.{line_spans};
ghost use Rattle.hall_text.specs.Tokens.{
  is_parenthesis,
  is_word_byte,
  word_end,
  token_end,
  token_spans,
};

use std::alloc::{AllocError, Global};

/// An allocation failed.
pub type Memory = AllocError;

/// The bytes of a text from `start` up to and without `end`, both counted from 0.
#[derive(Clone, Copy, Debug, PartialEq, Eq)]
pub struct Span {
    pub start: usize,
    pub end: usize,
}

/// Whether the byte is a parenthesis.
fn is_parenthesis(byte: u8) -> bool
    ensures { result ≡ is_parenthesis byte }
{
    byte == b'(' || byte == b')'
}

/// Whether the byte belongs to a word.
fn is_word_byte(byte: u8) -> bool
    ensures { result ≡ is_word_byte byte }
{
    byte >= b'!' && byte <= b'~' && byte != b'(' && byte != b')'
}

/// Where the word bytes from `at` on end.
fn word_end(text: &[u8], at: usize) -> usize
    requires { at ≤ length text.now }
    ensures value { result ≡ word_end at (drop at text.now) }
    ensures within { (at ≤ result) × (result ≤ length text.now) }
    ensures bytes { (i : ℕ) → at ≤ i → i < result → IsWordByte (slice_index text.now i) }
    ensures stops { result < length text.now → ¬ (IsWordByte (slice_index text.now result)) }
{
    let mut end = at;
    while end < text.len() && is_word_byte(text[end]) {
        end += 1;
    }
    end
}

/// Where the token that begins at `at` ends, or `at` where none begins there. No word continues
/// across `at`.
pub fn token_end(text: &[u8], at: usize) -> usize
    requires within { at < length text.now }
    requires between { CutsNoWord text.now at }
    ensures value { result ≡ token_end at (drop at text.now) }
    ensures token { at < result → IsToken text.now (record { start = at; end = result }) }
    ensures none { result ≤ at → (result ≡ at) × ¬ (BeginsToken text.now at) }
{
    if is_parenthesis(text[at]) {
        at + 1
    } else {
        word_end(text, at)
    }
}

/// The tokens of the text: its longest runs of bytes from `!` to `~` without a parenthesis, and
/// each parenthesis alone.
pub fn tokens(alloc: Global, text: &[u8]) -> Result<Vec<Span>, Memory>
    ensures { IfOk result (λ spans. spans.items ≡ token_spans text.now) }
{
    let mut spans = Vec::new(alloc);
    let mut at = 0;
    while at < text.len() {
        let end = token_end(text, at);
        if at < end {
            spans.push(Span { start: at, end })?;
            at = end;
        } else {
            at += 1;
        }
    }
    Ok(spans)
}

/// The lines of the text, each without the newline that ends it. Bytes after the last newline are a
/// line too.
pub fn lines(alloc: Global, text: &[u8]) -> Result<Vec<Span>, Memory>
    ensures { IfOk result (λ spans. spans.items ≡ line_spans text.now) }
{
    let mut spans = Vec::new(alloc);
    let mut start = 0;
    for at in 0..text.len() {
        if text[at] == b'\n' {
            spans.push(Span { start, end: at })?;
            start = at + 1;
        }
    }
    if start < text.len() {
        let end = text.len();
        spans.push(Span { start, end })?;
    }
    Ok(spans)
}
