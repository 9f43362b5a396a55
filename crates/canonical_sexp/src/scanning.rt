//! Finding the text at the front of some bytes, without memory.
ghost use Rattle.std.specs.Prelude.{◌≡◌, ◌≢◌, ◌<◌, ◌≤◌, ℕ, List, length, slice_index};
ghost use Rattle.std.specs.Prelude.{IsTrue, IfSome, IfNone};
ghost use Rattle.canonical_sexp.specs.Text.{text_of, Fits, max_octets};
ghost use Rattle.canonical_sexp.specs.declared.sexp.Sexp.{Sexp};
ghost use Rattle.canonical_sexp.specs.declared.sexp.Sexp.TheVariants.{Atom};
ghost use Rattle.canonical_sexp.specs.Causes.{is_digit};
ghost use Rattle.canonical_sexp.specs.inside.Scanning.{Scans, IsAtomScan};

use crate::limits::MAX_DEPTH;
use crate::read::Why;
use crate::tokens::{Length, fault_of, read_length};

/// What is at the front of some bytes.
#[derive(Clone, Copy)]
pub(crate) enum Extent {
    /// A complete text with this number of bytes.
    Whole { used: usize },
    /// The bytes end before a text does.
    Cut,
    /// No text begins with the bytes up to and with the place `at`, counted from 0.
    Bad { at: usize, why: Why },
}

/// Finds an atom's text, its first digit being there.
fn scan_atom(bytes: &[u8]) -> Extent
    requires some { 0 < length bytes.now }
    requires digit { IsTrue (is_digit (slice_index bytes.now 0)) }
    ensures { IsAtomScan bytes.now result }
{
    match read_length(bytes) {
        Length::Whole { octets, used } => {
            if bytes.len() - used < octets {
                return Extent::Cut;
            }
            Extent::Whole {
                used: used + octets,
            }
        }
        Length::Cut => Extent::Cut,
        Length::Bad { at, why } => Extent::Bad { at, why },
    }
}

/// The octets of the atom whose text the bytes are.
pub(crate) fn octets_in(bytes: &[u8]) -> Option<&[u8]>
    requires { (tree : Sexp) × (Fits tree × (bytes.now ≡ text_of tree)) }
    ensures found { IfSome result (λ octets.
        (length octets.now ≤ max_octets) × (bytes.now ≡ text_of (Atom octets.now))) }
    ensures none { IfNone result ((octets : List ℕ) →
        Fits (Atom octets) → bytes.now ≢ text_of (Atom octets)) }
{
    if bytes[0] == b'(' {
        return None;
    }
    match read_length(bytes) {
        Length::Whole { used, .. } => Some(&bytes[used..]),
        Length::Cut => None,
        Length::Bad { .. } => None,
    }
}

/// Finds the text at the front of the bytes, in one pass. It takes no memory.
pub(crate) fn scan(bytes: &[u8]) -> Extent
    ensures { Scans bytes.now result }
{
    if bytes.is_empty() {
        return Extent::Cut;
    }
    if let Some(why) = fault_of(bytes[0], 0, 0) {
        return Extent::Bad { at: 0, why };
    }
    if bytes[0] == b'(' {
        return scan_list(bytes);
    }
    scan_atom(bytes)
}

/// Finds a list's text, its first parenthesis being there. The lists that are open around the
/// innermost are given as the counts of their members.
fn scan_list(bytes: &[u8]) -> Extent
    requires some { 0 < length bytes.now }
    requires open { slice_index bytes.now 0 ≡ 40 }
    ensures { Scans bytes.now result }
{
    let mut counts = [0; MAX_DEPTH];
    let mut outer = 0;
    let mut members = 0;
    let mut at = 1;
    while at < bytes.len() {
        if let Some(why) = fault_of(bytes[at], outer + 1, members) {
            return Extent::Bad { at, why };
        }
        match bytes[at] {
            b'(' => {
                counts[outer] = members;
                outer += 1;
                members = 0;
                at += 1;
            }
            b')' => {
                at += 1;
                if outer == 0 {
                    return Extent::Whole { used: at };
                }
                outer -= 1;
                members = counts[outer] + 1;
            }
            _ => match scan_atom(&bytes[at..]) {
                Extent::Whole { used } => {
                    members += 1;
                    at += used;
                }
                Extent::Cut => return Extent::Cut,
                Extent::Bad { at: place, why } => {
                    return Extent::Bad {
                        at: at + place,
                        why,
                    };
                }
            },
        }
    }
    Extent::Cut
}
