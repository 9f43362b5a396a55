//! Reading an office's text.
ghost use Rattle.std.specs.Prelude.{◌≡◌, ◌≢◌, ◌≤◌, IfSome, IfNone, length};
ghost use Rattle.canonical_sexp.specs.Forms.{Finds, number_atom};
ghost use Rattle.canonical_sexp.specs.declared.sexp.Sexp.TheVariants.{Atom};
ghost use Rattle.office_key.specs.Offices.{IsOffice, HasSeed, max_signatures, office_tree};
ghost use Rattle.office_key.specs.declared.office.Office.{Office};

use crate::office::{MAX_SIGNATURES, Office};
use canonical_sexp::{Text, whole_text};

/// The office whose text the bytes are, with a number of at most 32,768. Of other bytes `None`, and
/// so of a proper prefix of an office's text. It takes no memory.
pub fn read_office(bytes: &[u8]) -> Option<Office>
    ensures { Finds (IsOffice bytes.now) result }
{
    match whole_text(bytes) {
        Ok(text) => office_in(&text),
        Err(_) => None,
    }
}

/// The office that the text is of.
fn office_in(text: &Text<'_>) -> Option<Office>
    ensures found { IfSome result (λ office. HasSeed office × (office.next ≤ max_signatures)
        × (text.now ≡ office_tree office)) }
    ensures none { IfNone result ((office : Office) → HasSeed office →
        office.next ≤ max_signatures → text.now ≢ office_tree office) }
{
    let mut members = text.as_list()?;
    let word = members.take_next()?;
    let version = members.take_next()?;
    let seed = members.take_next()?;
    let number = members.take_next()?;
    if !members.is_empty() || !word.is_word(b"office") || !version.is_word(b"1") {
        return None;
    }
    Some(Office {
        seed: seed_of(&seed)?,
        next: number_of(&number)?,
    })
}

/// The seed that the text is the atom of: 32 octets.
fn seed_of(text: &Text<'_>) -> Option<[u8; 32]>
    ensures { Finds (λ seed. (length seed ≡ 32) × (text.now ≡ Atom seed)) result }
{
    let octets = text.as_atom()?;
    if octets.len() != 32 {
        return None;
    }
    let mut seed = [0; 32];
    seed.copy_from_slice(octets);
    Some(seed)
}

/// The number of a signature that the text is the atom of, or the one after the last.
fn number_of(text: &Text<'_>) -> Option<u32>
    ensures { Finds (λ number. (number ≤ max_signatures) × (text.now ≡ number_atom number)) result }
{
    let number = text.as_number()?;
    if number > MAX_SIGNATURES {
        return None;
    }
    Some(number)
}
