//! Members of a list that are taken one after another, each as a value. None of it takes memory.
ghost use Rattle.std.specs.Prelude.{◌≡◌, ◌≢◌, ℕ, List, IfSome, IfNone};
ghost use Rattle.canonical_sexp.specs.Forest.{Forest, no_trees, atom_then};
ghost use Rattle.canonical_sexp.specs.Forms.{Finds, IsU32, number_atom};
ghost use Rattle.canonical_sexp.specs.declared.sexp.Sexp.TheVariants.{Atom};
ghost use Rattle.entry_format.specs.EntryText.{IsDigest};
ghost use Rattle.entry_format.specs.inside.Parts.{Takes};

use canonical_sexp::{Rest, number_of};

/// The digest that the octets are: 32 of them.
pub(crate) fn digest_from(octets: &[u8]) -> Option<[u8; 32]>
    ensures { Finds (λ digest. IsDigest digest × (octets.now ≡ digest)) result }
{
    if octets.len() != 32 {
        return None;
    }
    let mut digest = [0; 32];
    digest.copy_from_slice(octets);
    Some(digest)
}

/// Takes the next member, if it is an atom, and returns a reference to its octets.
pub(crate) fn take_atom<'a>(members: &mut Rest<'a>) -> Option<&'a [u8]>
    ensures found { IfSome result (λ octets. members.old ≡ atom_then octets.now members.new) }
    ensures none { IfNone result ((octets : List ℕ) (rest : Forest) →
        members.old ≢ atom_then octets rest) }
{
    match members.take_next() {
        Some(member) => member.as_atom(),
        None => None,
    }
}

/// Takes the last member, if it is an atom, and returns a reference to its octets.
pub(crate) fn last_atom<'a>(members: &mut Rest<'a>) -> Option<&'a [u8]>
    ensures found { IfSome result (λ octets. members.old ≡ atom_then octets.now no_trees) }
    ensures none { IfNone result ((octets : List ℕ) → members.old ≢ atom_then octets no_trees) }
{
    let octets = take_atom(members)?;
    if members.is_empty() {
        Some(octets)
    } else {
        None
    }
}

/// Takes the next member, if it is the word.
pub(crate) fn take_word(members: &mut Rest<'_>, word: &[u8]) -> Option<()>
    ensures found { IfSome result (λ _. members.old ≡ atom_then word.now members.new) }
    ensures none { IfNone result ((rest : Forest) → members.old ≢ atom_then word.now rest) }
{
    if take_atom(members)? == word {
        Some(())
    } else {
        None
    }
}

/// Takes the next member, if it is a digest.
pub(crate) fn take_digest(members: &mut Rest<'_>) -> Option<[u8; 32]>
    ensures { Takes IsDigest Atom result members.old members.new }
{
    match take_atom(members) {
        Some(octets) => digest_from(octets),
        None => None,
    }
}

/// Takes the next member, if it is a number.
pub(crate) fn take_number(members: &mut Rest<'_>) -> Option<u32>
    ensures { Takes IsU32 number_atom result members.old members.new }
{
    match take_atom(members) {
        Some(octets) => number_of(octets),
        None => None,
    }
}
