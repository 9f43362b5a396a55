//! Reading deeds in place. A deed is its word and what its table row says; the word
//! is looked up by what the members after it can be.
ghost use Rattle.std.specs.Prelude.{◌≡◌, ◌≢◌, ◌∷◌, ◌^◌, ◌<◌, ℕ, [], IfSome, IfNone};
ghost use Rattle.std.specs.Fmt.{decimal};
ghost use Rattle.canonical_sexp.specs.Forest.{no_trees, atom_then};
ghost use Rattle.canonical_sexp.specs.Forms.{Finds, list_of, number_atom};
ghost use Rattle.canonical_sexp.specs.Sexp.{in_front};
ghost use Rattle.canonical_sexp.specs.declared.sexp.Sexp.TheVariants.{Atom, List as Branch};
ghost use Rattle.entry_format.specs.declared.deed.Deed.{Deed};
ghost use Rattle.entry_format.specs.EntryText.{IsVersion, IsDigest, deed_word, deed_tree};
ghost use Rattle.entry_format.specs.inside.Parts.{IsVersionDeed};

use crate::deed::{Deed, How};
use crate::taking::{digest_from, last_atom, take_atom, take_number};
use canonical_sexp::{Rest, Text, number_of};

/// The deed, if the word is its own.
fn named(word: &[u8], deed: Deed) -> Option<Deed>
    ensures found { IfSome result (λ found. (found ≡ deed) × (word.now ≡ deed_word deed)) }
    ensures none { IfNone result (word.now ≢ deed_word deed) }
{
    if word == deed.word() {
        Some(deed)
    } else {
        None
    }
}

/// The deed of a word alone.
fn bare_deed(version: u32, word: &[u8]) -> Option<Deed>
    ensures { Finds (λ deed. IsVersionDeed version deed
        × (list_of (Atom word.now ∷ []) ≡ deed_tree version deed)) result }
{
    named(word, Deed::Opened).or(named(word, Deed::Closed))
}

/// The deed of a word and a session. An override that says no more is one of version 1, and
/// cancels.
fn session_deed(version: u32, word: &[u8], session: u32) -> Option<Deed>
    ensures { Finds (λ deed. IsVersionDeed version deed
        × (list_of (Atom word.now ∷ number_atom session ∷ []) ≡ deed_tree version deed)) result }
{
    let how = How::Cancel;
    if version == 1 {
        if let Some(deed) = named(word, Deed::Override { session, how }) {
            return Some(deed);
        }
    }
    named(word, Deed::Activate { session }).or(named(word, Deed::Cancel { session }))
}

/// The deed of a word, a session and a ballot.
fn ballot_deed(version: u32, word: &[u8], session: u32, ballot: [u8; 32]) -> Option<Deed>
    requires { IsDigest ballot }
    ensures { Finds (λ deed. IsVersionDeed version deed × (list_of
        (Atom word.now ∷ number_atom session ∷ Atom ballot ∷ []) ≡ deed_tree version deed)) result }
{
    let commit = Deed::Commit { session, ballot };
    let cast = Deed::Cast { session, ballot };
    let challenge = Deed::Challenge { session, ballot };
    if version == 2 {
        if let Some(deed) = named(word, challenge) {
            return Some(deed);
        }
    }
    named(word, commit).or(named(word, cast))
}

/// The override of a word, a session and what the booth is to do.
fn override_deed(version: u32, word: &[u8], session: u32, further: &[u8]) -> Option<Deed>
    requires version { IsVersion version }
    requires no_digest { ¬ IsDigest further.now }
    requires no_number { (number : ℕ) → number < 2 ^ 32 → further.now ≢ decimal number }
    ensures { Finds (λ deed. IsVersionDeed version deed
        × (list_of (Atom word.now ∷ number_atom session ∷ Atom further.now ∷ [])
        ≡ deed_tree version deed)) result }
{
    let how = How::of_word(further)?;
    if version != 2 {
        return None;
    }
    named(word, Deed::Override { session, how })
}

/// The deed of a word, a number and further octets, which are a number, a ballot or what a booth is
/// to do: none is two of them.
fn longer_deed(version: u32, word: &[u8], first: u32, second: &[u8]) -> Option<Deed>
    requires { IsVersion version }
    ensures { Finds (λ deed. IsVersionDeed version deed
        × (list_of (Atom word.now ∷ number_atom first ∷ Atom second.now ∷ [])
        ≡ deed_tree version deed)) result }
{
    if let Some(session) = number_of(second) {
        let booth = first;
        return named(word, Deed::Authorise { booth, session });
    }
    if let Some(ballot) = digest_from(second) {
        return ballot_deed(version, word, first, ballot);
    }
    override_deed(version, word, first, second)
}

/// The deed of a word and the members after it, of which there are some.
fn argued_deed(version: u32, word: &[u8], members: &mut Rest<'_>) -> Option<Deed>
    requires version { IsVersion version }
    requires some { members.old ≢ no_trees }
    ensures { Finds (λ deed. IsVersionDeed version deed
        × (Branch (atom_then word.now members.old) ≡ deed_tree version deed)) result }
{
    let first = take_number(members)?;
    if members.is_empty() {
        return session_deed(version, word, first);
    }
    longer_deed(version, word, first, last_atom(members)?)
}

/// The deed that the tree is in the version.
fn deed_of(version: u32, tree: &Text<'_>) -> Option<Deed>
    requires { IsVersion version }
    ensures { Finds (λ deed. IsVersionDeed version deed
        × (tree.now ≡ deed_tree version deed)) result }
{
    let mut members = tree.as_list()?;
    let word = take_atom(&mut members)?;
    if members.is_empty() {
        bare_deed(version, word)
    } else {
        argued_deed(version, word, &mut members)
    }
}

/// Takes the last member, if it is a deed of the version.
pub(crate) fn last_deed(version: u32, members: &mut Rest<'_>) -> Option<Deed>
    requires { IsVersion version }
    ensures found { IfSome result (λ deed. IsVersionDeed version deed
        × (members.old ≡ in_front (deed_tree version deed) no_trees)) }
    ensures none { IfNone result ((deed : Deed) → IsVersionDeed version deed →
        members.old ≢ in_front (deed_tree version deed) no_trees) }
{
    let deed = deed_of(version, &members.take_next()?)?;
    if members.is_empty() { Some(deed) } else { None }
}
