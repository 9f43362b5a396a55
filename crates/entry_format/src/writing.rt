//! The trees of entries.
ghost use Rattle.std.specs.Prelude.{◌≡◌, ◌∷◌, [], ◌^◌, ◌<◌, List, codes, map, All, IfOk, OnOk};
ghost use Rattle.canonical_sexp.specs.declared.sexp.Sexp.TheVariants.{Atom};
ghost use Rattle.canonical_sexp.specs.Forest.{no_trees, joined};
ghost use Rattle.canonical_sexp.specs.Forms.{list_of, number_atom};
ghost use Rattle.canonical_sexp.specs.Sexp.{in_front, forest_of};
ghost use Rattle.entry_format.specs.EntryText.{IsVersion, IsDigest, IsDeed, IsDeedIn, IsEntry};
ghost use Rattle.entry_format.specs.EntryText.{deed_tree, body_tree};
ghost use Rattle.entry_format.specs.declared.deed.Deed.TheVariants.{Override};
ghost use Rattle.entry_format.specs.inside.Parts.{IsSigned};

use crate::deed::{Deed, How};
use crate::entry::Entry;
use canonical_sexp::{Members, Memory, Sexp, atom, number_atom};
use std::alloc::Global;

/// Adds the atom of some octets at the end.
fn push_atom(alloc: Global, members: &mut Members, octets: &[u8]) -> Result<(), Memory>
    ensures { OnOk result (members.new ≡ joined members.old (in_front (Atom octets.now) no_trees)) }
{
    members.push(atom(alloc, octets)?)
}

/// Adds the atom of a number at the end.
fn push_number(alloc: Global, members: &mut Members, number: u32) -> Result<(), Memory>
    ensures { OnOk result
        (members.new ≡ joined members.old (in_front (number_atom number) no_trees)) }
{
    members.push(number_atom(alloc, number)?)
}

/// A list of a word.
fn of_word(alloc: Global, word: &[u8]) -> Result<Sexp, Memory>
    ensures { IfOk result (λ tree. tree ≡ list_of (Atom word.now ∷ [])) }
{
    let mut members = Members::new(alloc);
    push_atom(alloc, &mut members, word)?;
    Ok(Sexp::List(members))
}

/// A list of a word and a number.
fn of_number(alloc: Global, word: &[u8], number: u32) -> Result<Sexp, Memory>
    ensures { IfOk result (λ tree. tree ≡ list_of (Atom word.now ∷ number_atom number ∷ [])) }
{
    let mut members = Members::new(alloc);
    push_atom(alloc, &mut members, word)?;
    push_number(alloc, &mut members, number)?;
    Ok(Sexp::List(members))
}

/// A list of a word and two numbers.
fn of_numbers(alloc: Global, word: &[u8], first: u32, second: u32) -> Result<Sexp, Memory>
    ensures { IfOk result (λ tree. tree ≡ list_of
        (Atom word.now ∷ number_atom first ∷ number_atom second ∷ [])) }
{
    let mut members = Members::new(alloc);
    push_atom(alloc, &mut members, word)?;
    push_number(alloc, &mut members, first)?;
    push_number(alloc, &mut members, second)?;
    Ok(Sexp::List(members))
}

/// A list of a word, a number and further octets.
fn of_octets(alloc: Global, word: &[u8], number: u32, octets: &[u8]) -> Result<Sexp, Memory>
    ensures { IfOk result (λ tree. tree ≡ list_of
        (Atom word.now ∷ number_atom number ∷ Atom octets.now ∷ [])) }
{
    let mut members = Members::new(alloc);
    push_atom(alloc, &mut members, word)?;
    push_number(alloc, &mut members, number)?;
    push_atom(alloc, &mut members, octets)?;
    Ok(Sexp::List(members))
}

/// The tree of an override, which says in version 2 what the booth is to do.
fn tree_of_override(alloc: Global, version: u32, session: u32, how: How) -> Result<Sexp, Memory>
    ensures { IfOk result (λ tree. tree ≡ deed_tree version (Override session how)) }
{
    let word = Deed::Override { session, how }.word();
    if version == 1 {
        return of_number(alloc, word, session);
    }
    of_octets(alloc, word, session, how.word())
}

/// The tree of a deed in the version.
fn tree_of_deed(alloc: Global, version: u32, deed: Deed) -> Result<Sexp, Memory>
    ensures tree { IfOk result (λ tree. tree ≡ deed_tree version deed) }
    ensures lawful { IfOk result (λ _. IsDeed deed) }
{
    let word = deed.word();
    match deed {
        Deed::Opened => of_word(alloc, word),
        Deed::Authorise { booth, session } => of_numbers(alloc, word, booth, session),
        Deed::Override { session, how } => tree_of_override(alloc, version, session, how),
        Deed::Closed => of_word(alloc, word),
        Deed::Activate { session } => of_number(alloc, word, session),
        Deed::Commit { session, ballot } => of_octets(alloc, word, session, &ballot),
        Deed::Cast { session, ballot } => of_octets(alloc, word, session, &ballot),
        Deed::Cancel { session } => of_number(alloc, word, session),
        Deed::Challenge { session, ballot } => of_octets(alloc, word, session, &ballot),
    }
}

/// The list of the digests.
fn tree_of_names(alloc: Global, names: &[[u8; 32]]) -> Result<Sexp, Memory>
    ensures tree { IfOk result (λ tree. tree ≡ list_of (map Atom names.now)) }
    ensures digests { IfOk result (λ _. All IsDigest names.now) }
{
    let mut members = Members::new(alloc);
    for name in names {
        members.push(atom(alloc, name)?)?;
    }
    Ok(Sexp::List(members))
}

/// Adds the list of some digests at the end.
fn push_names(alloc: Global, members: &mut Members, names: &[[u8; 32]]) -> Result<(), Memory>
    ensures tree { OnOk result
        (members.new ≡ joined members.old (in_front (list_of (map Atom names.now)) no_trees)) }
    ensures digests { OnOk result (All IsDigest names.now) }
{
    members.push(tree_of_names(alloc, names)?)
}

/// Adds the tree of a deed at the end.
fn push_deed(alloc: Global, members: &mut Members, version: u32, deed: Deed) -> Result<(), Memory>
    ensures tree { OnOk result
        (members.new ≡ joined members.old (in_front (deed_tree version deed) no_trees)) }
    ensures lawful { OnOk result (IsDeed deed) }
{
    members.push(tree_of_deed(alloc, version, deed)?)
}

/// The members of a body up to its election.
fn begun_with(alloc: Global, version: u32, election: &[u8; 32]) -> Result<Members, Memory>
    ensures row { IfOk result (λ members. members ≡ forest_of (Atom (codes "entry")
        ∷ number_atom version ∷ Atom election.now ∷ [])) }
    ensures lawful { IfOk result (λ _. IsDigest election.now) }
{
    let mut members = Members::new(alloc);
    push_atom(alloc, &mut members, b"entry")?;
    push_number(alloc, &mut members, version)?;
    push_atom(alloc, &mut members, election)?;
    Ok(members)
}

/// The members of a body before its names.
fn head_of(alloc: Global, entry: &Entry) -> Result<Members, Memory>
    ensures row { IfOk result (λ members. members ≡ forest_of (Atom (codes "entry")
        ∷ number_atom entry.now.version ∷ Atom entry.now.election ∷ number_atom entry.now.maker
        ∷ number_atom entry.now.number ∷ number_atom entry.now.stamp ∷ [])) }
    ensures lawful { IfOk result (λ _. IsDigest entry.now.election × (entry.now.maker < 2 ^ 32)
        × (entry.now.number < 2 ^ 32) × (entry.now.stamp < 2 ^ 32)) }
{
    let mut members = begun_with(alloc, entry.version, &entry.election)?;
    push_number(alloc, &mut members, entry.maker)?;
    push_number(alloc, &mut members, entry.number)?;
    push_number(alloc, &mut members, entry.stamp)?;
    Ok(members)
}

/// The tree of an entry's body.
pub(crate) fn tree_of(alloc: Global, entry: &Entry) -> Result<Sexp, Memory>
    requires version { IsVersion entry.now.version }
    requires deed { IsDeedIn entry.now.version entry.now.deed }
    ensures tree { IfOk result (λ tree. tree ≡ body_tree entry.now) }
    ensures lawful { IfOk result (λ _. IsEntry entry.now) }
{
    let mut members = head_of(alloc, entry)?;
    push_names(alloc, &mut members, entry.names.as_slice())?;
    push_deed(alloc, &mut members, entry.version, entry.deed)?;
    Ok(Sexp::List(members))
}

/// The tree of a signed entry, from the tree of its body.
pub(crate) fn signed_tree_of(alloc: Global, body: Sexp, signature: &[u8]) -> Result<Sexp, Memory>
    ensures { IfOk result (λ tree. IsSigned tree body signature.now) }
{
    let mut members = Members::new(alloc);
    push_atom(alloc, &mut members, b"sealed")?;
    members.push(body)?;
    push_atom(alloc, &mut members, signature)?;
    Ok(Sexp::List(members))
}
