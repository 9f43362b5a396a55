//! Reading the words of a proof's text.
ghost use Rattle.std.specs.Prelude.{
  ◌≡◌,
  ◌+◌,
  ◌-◌,
  ◌<◌,
  ◌≤◌,
  ◌==◌,
  length,
  take,
  drop,
  ok_or,
  IfSome,
  Ok,
};
ghost use Rattle.std.specs.List.{list_any, position_or_len};
ghost use Rattle.std.specs.Str.{bytes_eq};
ghost use Rattle.audit_proof.specs.Reading.{number_after, step_of_word, words_on};
ghost use Rattle.audit_proof.specs.inside.Bytes.{first_from};
ghost use Rattle.audit_proof.specs.inside.Begun.{IsWordsAnswer, numbered, step_tests};

use crate::step::ProofStep;
use hall_text::decimal;
use input_causes::ProofWhy;
use precedence::Arrows;
use std::alloc::{AllocError, AllocFailed, Global};

/// Where the byte is first, or the length where it isn't.
pub(crate) fn find_byte(bytes: &[u8], byte: u8) -> usize
    ensures within { result ≤ length bytes.now }
    ensures is { result ≡ position_or_len (λ other. other == byte) bytes.now }
{
    for i in 0..bytes.len() {
        if bytes[i] == byte {
            return i;
        }
    }
    bytes.len()
}

/// The bytes before a place.
pub(crate) fn front(word: &[u8], place: usize) -> &[u8]
    requires { place ≤ length word.now }
    ensures { result.now ≡ take place word.now }
{
    &word[..place]
}

/// The bytes after a place.
fn after(word: &[u8], place: usize) -> &[u8]
    requires { place < length word.now }
    ensures { result.now ≡ drop (place + 1) word.now }
{
    &word[place + 1..]
}

/// The step that a word is.
#[tactic(auto, using(crate::proofs::ReadTexts::no_colon), unfolding(crate::specs::Reading::step_of_word))]
pub(crate) fn read_step(word: &[u8]) -> Option<ProofStep>
    ensures { ok_or result ProofWhy.Form ≡ step_of_word word.now }
{
    let colon = find_byte(word, b':');
    if colon == word.len() {
        return None;
    }
    match decimal(front(word, colon)) {
        None => None,
        Some(ancestor) => match decimal(after(word, colon)) {
            None => None,
            Some(via) => Some(ProofStep { ancestor, via }),
        },
    }
}

/// Tries a step on a line of which this is reached, and whose last ancestor is the bound.
#[tactic(auto, unfolding(crate::specs::inside::Begun::step_tests))]
fn try_step<A: Arrows>(
    graph: &A,
    reached: &[bool],
    bound: usize,
    step: ProofStep,
) -> Result<(), ProofWhy>
    requires { length reached.now ≡ (A.graph graph.now).count }
    ensures is { result ≡ step_tests (A.graph graph.now) reached.now bound step }
    ensures below { result ≡ Ok tt → step.ancestor < step.via }
{
    let ancestor = step.ancestor as usize;
    let via = step.via as usize;
    if ancestor >= graph.count() || via >= graph.count() {
        return Err(ProofWhy::OutOfRange);
    }
    if ancestor >= bound {
        return Err(ProofWhy::NotFalling);
    }
    if !reached[via] {
        return Err(ProofWhy::NotReached);
    }
    if !has(graph.parents(via), step.ancestor) {
        return Err(ProofWhy::NotParent);
    }
    Ok(())
}

/// Whether the number is one of these.
fn has(numbers: &[u32], number: u32) -> bool
    ensures { result ≡ list_any (λ other. other == number) numbers.now }
{
    numbers.contains(&number)
}

/// Where the word that begins at a place ends: at the next space, or with the words.
pub(crate) fn word_end(words: &[u8], start: usize) -> usize
    requires { start ≤ length words.now }
    ensures within { (start ≤ result) × (result ≤ length words.now) }
    ensures is { result ≡ first_from 32 start words.now }
{
    start + find_byte(rest_from(words, start), b' ')
}

/// The bytes from a place on.
pub(crate) fn rest_from(words: &[u8], start: usize) -> &[u8]
    requires { start ≤ length words.now }
    ensures { result.now ≡ drop start words.now }
{
    &words[start..]
}

/// The bytes from a place up to another.
pub(crate) fn piece(words: &[u8], start: usize, end: usize) -> &[u8]
    requires { (start ≤ end) × (end ≤ length words.now) }
    ensures { result.now ≡ take (end - start) (drop start words.now) }
{
    &words[start..end]
}

/// Whether the bytes are this word.
pub(crate) fn is_word(bytes: &[u8], word: &[u8]) -> bool
    ensures { result ≡ bytes_eq bytes.now word.now }
{
    bytes == word
}

/// The number after a line's first word, and where it ends.
#[derive(Clone, Copy)]
pub(crate) struct Numbered {
    pub(crate) number: u32,
    pub(crate) end: usize,
}

/// The number after the first word of a line, which is to be this.
#[tactic(auto, using(crate::proofs::LinesRead::one_word, crate::proofs::LinesRead::two_words))]
pub(crate) fn read_number_after(line: &[u8], first: &[u8]) -> Option<Numbered>
    ensures within { IfSome result (λ found. found.end ≤ length line.now) }
    ensures is { number_after first.now (words_on line.now) ≡ numbered line.now result }
{
    let space = find_byte(line, b' ');
    if space == line.len() {
        return None;
    }
    if !is_word(front(line, space), first) {
        return None;
    }
    let end = word_end(line, space + 1);
    match decimal(piece(line, space + 1, end)) {
        None => None,
        Some(number) => Some(Numbered { number, end }),
    }
}

/// Why words are no line's, or out of memory.
#[derive(Clone, Copy)]
pub(crate) enum Unread {
    Why(ProofWhy),
    Memory,
}

impl From<AllocError> for Unread {
    ghost use Rattle.std.specs.Prelude.{◌≡◌};
    ghost use Rattle.audit_proof.specs.declared.reading.Unread.TheVariants.{Memory};

    ghost from_gives = { λ _ e. e ≡ Memory };

    fn from(_refused: AllocError) -> Unread {
        Unread::Memory
    }
}

impl<X: Drop> From<AllocFailed<X>> for Unread {
    ghost use Rattle.std.specs.Prelude.{◌≡◌};
    ghost use Rattle.audit_proof.specs.declared.reading.Unread.TheVariants.{Memory};

    ghost from_gives = { λ _ e. e ≡ Memory };

    fn from(_refused: AllocFailed<X>) -> Unread {
        Unread::Memory
    }
}

/// The steps of a line, and for each survivor whether they list it.
#[derive(Drop)]
pub(crate) struct LineSteps {
    pub(crate) steps: Vec<ProofStep>,
    pub(crate) listed: Vec<bool>,
}

/// The steps that the words after a line's entry are.
#[tactic(auto, using(crate::proofs::LinesRead::fits_below))]
pub(crate) fn read_words<A: Arrows>(
    alloc: Global,
    graph: &A,
    entry: usize,
    words: &[u8],
) -> Result<LineSteps, Unread>
    requires few { (A.graph graph.now).count ≤ 16384 }
    requires entry { entry < (A.graph graph.now).count }
    ensures { IsWordsAnswer (A.graph graph.now) entry words.now result }
{
    let mut steps = Vec::new(alloc);
    let mut reached = vec![in alloc; false; graph.count()]?;
    reached[entry] = true;
    let mut bound = graph.count();
    let mut at = 0;
    'words: while at < words.len() {
        let end = word_end(words, at + 1);
        let word = piece(words, at + 1, end);
        let step = match read_step(word) {
            None => return Err(Unread::Why(ProofWhy::Form)),
            Some(step) => step,
        };
        match try_step(graph, &reached, bound, step) {
            Err(why) => return Err(Unread::Why(why)),
            Ok(()) => {}
        }
        steps.push(step)?;
        bound = step.ancestor as usize;
        reached[bound] = true;
        at = end;
    }
    // What is reached but isn't listed is the entry.
    reached[entry] = false;
    Ok(LineSteps {
        steps,
        listed: reached,
    })
}
