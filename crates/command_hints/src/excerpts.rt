//! Lines of texts with a mark below, as compilers show them.

use std::fmt::{self, Display, Formatter, Write};

/// The most bytes that are shown before the mark, and from it on.
const MOST: usize = 60;

/// A line of a text, of which some bytes are marked.
#[derive(Clone, Copy)]
pub(crate) struct Excerpt<'a> {
    /// The number of the line, counted from 1.
    number: usize,
    /// The line's bytes before the mark, and those from it on.
    front: &'a [u8],
    back: &'a [u8],
    /// How many bytes of `back` are marked; one place at least is.
    marked: usize,
}

/// The line with this number, counted from 1, if it has a byte.
pub(crate) fn line_of(text: &[u8], number: usize) -> Option<&[u8]> {
    let line = text
        .split(|byte| *byte == b'\n')
        .nth(number.checked_sub(1)?)?;
    if line.is_empty() { None } else { Some(line) }
}

impl<'a> Excerpt<'a> {
    /// The line with this number, of which `marked` bytes from the place on are marked.
    pub(crate) fn of_line(
        line: &'a [u8],
        number: usize,
        at: usize,
        marked: usize,
    ) -> Option<Excerpt<'a>> {
        Some(Excerpt {
            number,
            front: line.get(..at)?,
            back: line.get(at..)?,
            marked,
        })
    }

    /// The line in which the byte at this place is, or after whose end the text ends too early.
    pub(crate) fn of_byte(text: &'a [u8], at: usize, marked: usize) -> Option<Excerpt<'a>> {
        let front = text.get(..at)?;
        let back = text.get(at..)?;
        let ends = front.iter().filter(|byte| **byte == b'\n').count();
        Some(Excerpt {
            number: ends.saturating_add(1),
            front: front.rsplit(|byte| *byte == b'\n').next()?,
            back: back.split(|byte| *byte == b'\n').next()?,
            marked,
        })
    }
}

/// Whether the byte is one from space to `~`.
pub(crate) fn is_plain(byte: u8) -> bool {
    byte >= b' ' && byte <= b'~'
}

/// At most `MOST` bytes at the end, and whether that is all.
fn last_of(bytes: &[u8]) -> (&[u8], bool) {
    match bytes.get(bytes.len().saturating_sub(MOST)..) {
        Some(last) => (last, last.len() == bytes.len()),
        None => (bytes, true),
    }
}

/// At most `MOST` bytes at the beginning, and whether that is all.
fn first_of(bytes: &[u8]) -> (&[u8], bool) {
    match bytes.get(..MOST) {
        Some(first) => (first, first.len() == bytes.len()),
        None => (bytes, true),
    }
}

/// Writes the bytes, with a question mark for each that isn't plain.
pub(crate) fn write_bytes<W: fmt::Write>(f: &mut Formatter<W>, bytes: &[u8]) -> fmt::Result {
    for byte in bytes {
        let shown = if is_plain(*byte) {
            char::from(*byte)
        } else {
            '?'
        };
        f.write_char(shown)?;
    }
    Ok(())
}

/// Writes `count` of these characters.
fn write_row<W: fmt::Write>(f: &mut Formatter<W>, shown: char, count: usize) -> fmt::Result {
    for _ in 0..count {
        f.write_char(shown)?;
    }
    Ok(())
}

impl<'a> Display for Excerpt<'a> {
    fn fmt<W: fmt::Write>(&self, f: &mut Formatter<W>) -> fmt::Result {
        let (front, is_all) = last_of(self.front);
        let (back, is_end) = first_of(self.back);
        let number = self.number;
        let before = if is_all { "" } else { ".." };
        write!(f, "{number:>6} | {before}")?;
        write_bytes(f, front)?;
        write_bytes(f, back)?;
        f.write_str(if is_end { "\n" } else { "..\n" })?;
        write!(f, "{:>6} | ", "")?;
        write_row(f, ' ', before.len())?;
        write_row(f, ' ', front.len())?;
        write_row(f, '^', self.marked.min(back.len()).max(1))?;
        f.write_str("\n")
    }
}
