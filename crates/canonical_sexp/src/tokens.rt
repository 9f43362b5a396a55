//! The beginning of a token: a parenthesis, or the length of an atom.
ghost use Rattle.std.specs.Prelude.{◌≡◌, ◌<◌, length, slice_index, IsTrue};
ghost use Rattle.canonical_sexp.specs.Causes.{is_digit, token_fault};
ghost use Rattle.canonical_sexp.specs.inside.Tokens.{IsLength};

use crate::limits::{MAX_DEPTH, MAX_MEMBERS, MAX_OCTETS};
use crate::read::Why;

/// What is read where a length begins.
#[derive(Clone, Copy)]
pub(crate) enum Length {
    Whole { octets: usize, used: usize },
    Cut,
    Bad { at: usize, why: Why },
}

/// Why no token begins with the byte in `depth` open lists, the innermost with `members` members.
pub(crate) fn fault_of(byte: u8, depth: usize, members: usize) -> Option<Why>
    ensures { result ≡ token_fault depth members byte }
{
    match byte {
        b'[' => Some(Why::Hint),
        b')' => {
            if depth == 0 {
                Some(Why::NotAToken)
            } else {
                None
            }
        }
        b'(' | b'0'..=b'9' => {
            if members >= MAX_MEMBERS {
                Some(Why::TooMany)
            } else if byte == b'(' && depth >= MAX_DEPTH {
                Some(Why::TooDeep)
            } else {
                None
            }
        }
        _ => Some(Why::NotAToken),
    }
}

/// Reads an atom's length and its colon, the first digit being there.
pub(crate) fn read_length(bytes: &[u8]) -> Length
    requires some { 0 < length bytes.now }
    requires digit { IsTrue (is_digit (slice_index bytes.now 0)) }
    ensures { IsLength bytes.now result }
{
    let mut value = (bytes[0] - b'0') as usize;
    let mut at = 1;
    while at < bytes.len() {
        let byte = bytes[at];
        if byte == b':' {
            return Length::Whole {
                octets: value,
                used: at + 1,
            };
        }
        if !byte.is_ascii_digit() {
            return Length::Bad {
                at,
                why: Why::NotAToken,
            };
        }
        if value == 0 {
            return Length::Bad {
                at,
                why: Why::LeadingZero,
            };
        }
        let next = 10 * value + (byte - b'0') as usize;
        if next > MAX_OCTETS {
            return Length::Bad {
                at,
                why: Why::AtomTooLong,
            };
        }
        value = next;
        at += 1;
    }
    Length::Cut
}
