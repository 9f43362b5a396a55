//! Reading the parts of an entry in place. What is of the wrong shape is found without
//! memory; of what is read only the names are copied to the heap.
ghost use Rattle.std.specs.Prelude.{◌≡◌, ◌≢◌, ◌↔◌, List, ℕ, map, codes, All};
ghost use Rattle.std.specs.Prelude.{IfOk, IfSome, IfNone, IsTrue};
ghost use Rattle.canonical_sexp.specs.Forest.{Forest, atom_then};
ghost use Rattle.canonical_sexp.specs.Forms.{Finds, list_of, number_atom};
ghost use Rattle.canonical_sexp.specs.Sexp.{in_front};
ghost use Rattle.canonical_sexp.specs.declared.sexp.Sexp.{Sexp};
ghost use Rattle.canonical_sexp.specs.declared.sexp.Sexp.TheVariants.{Atom};
ghost use Rattle.entry_order.specs.Ascending.{IsAscending};
ghost use Rattle.entry_format.specs.EntryText.{IsVersion, IsDigest, IsEntry, body_tree};
ghost use Rattle.entry_format.specs.declared.entry.Entry.{Entry};
ghost use Rattle.entry_format.specs.inside.Parts.{
  Takes,
  AreNames,
  IsHead,
  head_then,
  IsBody,
  IsSigned,
};
ghost use Rattle.entry_format.specs.declared.reading.Head.{Head};
ghost use Rattle.std.specs.Cmp.Lexicographic.{slice_cmp};
ghost use Rattle.std.specs.Ordering.{nat_cmp};
ghost use Rattle.std.specs.declared.cmp.Ordering.TheVariants.{Less};

use crate::deed::Deed;
use crate::deed_reading::last_deed;
use crate::entry::{Entry, Names};
use crate::taking::{digest_from, last_atom, take_digest, take_number, take_word};
use canonical_sexp::{Memory, Rest, Text};
use std::alloc::Global;
use std::cmp::Ordering;

/// The digest that the tree is the atom of.
fn digest_of(tree: &Text<'_>) -> Option<[u8; 32]>
    ensures { Finds (λ digest. IsDigest digest × (tree.now ≡ Atom digest)) result }
{
    digest_from(tree.as_atom()?)
}

/// Whether the tree is a list of digests.
fn are_names(tree: &Text<'_>) -> bool
    ensures { IsTrue result ↔ AreNames tree.now }
{
    let Some(mut members) = tree.as_list() else {
        return false;
    };
    while let Some(member) = members.take_next() {
        let Some(_digest) = digest_of(&member) else {
            return false;
        };
    }
    true
}

/// Takes the next member, if it is a list of digests.
fn take_names<'a>(members: &mut Rest<'a>) -> Option<Text<'a>>
    ensures found { IfSome result (λ names. AreNames names
        × (members.old ≡ in_front names members.new)) }
    ensures none { IfNone result ((digests : List (List ℕ)) (rest : Forest) →
        All IsDigest digests → members.old ≢ in_front (list_of (map Atom digests)) rest) }
{
    let names = members.take_next()?;
    if are_names(&names) { Some(names) } else { None }
}

/// The digests of a list of digests.
fn names_of(alloc: Global, tree: &Text<'_>) -> Result<Names, Memory>
    requires { AreNames tree.now }
    ensures { IfOk result (λ names. All IsDigest names × (tree.now ≡ list_of (map Atom names))) }
{
    let mut members = tree.as_list().unwrap();
    let mut digests = Vec::with_capacity(alloc, members.len())?;
    while let Some(member) = members.take_next() {
        digests.push(digest_of(&member).unwrap())?;
    }
    Ok(Names::from_vec(digests))
}

/// Whether a digest is below another in the order of bytes.
fn is_below(digest: &[u8; 32], other: &[u8; 32]) -> bool
    ensures { IsTrue result ↔ (slice_cmp nat_cmp digest.now other.now ≡ Less) }
{
    digest.as_slice().cmp(other.as_slice()) == Ordering::Less
}

/// Whether each digest is below the next in the order of bytes, as the names of an entry are.
pub fn is_rising(digests: &[[u8; 32]]) -> bool
    ensures { IsTrue result ↔ IsAscending digests.now }
{
    for i in 1..digests.len() {
        if !is_below(&digests[i - 1], &digests[i]) {
            return false;
        }
    }
    true
}

/// The fields of a body before its names.
#[derive(Clone, Copy)]
struct Head {
    version: u32,
    election: [u8; 32],
    maker: u32,
    number: u32,
    stamp: u32,
}

/// Whether the number is a version's.
fn is_version(number: u32) -> bool
    ensures { IsTrue result ↔ IsVersion number }
{
    number == 1 || number == 2
}

/// Takes the next member, if it is a version.
fn take_version(members: &mut Rest<'_>) -> Option<u32>
    ensures { Takes IsVersion number_atom result members.old members.new }
{
    let version = take_number(members)?;
    if is_version(version) {
        Some(version)
    } else {
        None
    }
}

/// Takes the members of a body up to its version.
fn take_beginning(members: &mut Rest<'_>) -> Option<u32>
    ensures found { IfSome result (λ version. IsVersion version
        × (members.old ≡ atom_then (codes "entry") (in_front (number_atom version) members.new))) }
    ensures none { IfNone result ((version : ℕ) (rest : Forest) → IsVersion version →
        members.old ≢ atom_then (codes "entry") (in_front (number_atom version) rest)) }
{
    take_word(members, b"entry")?;
    take_version(members)
}

/// Takes the members of a body before its names.
fn take_head(members: &mut Rest<'_>) -> Option<Head>
    ensures found { IfSome result (λ head. IsHead head
        × (members.old ≡ head_then head members.new)) }
    ensures none { IfNone result ((head : Head) (rest : Forest) → IsHead head →
        members.old ≢ head_then head rest) }
{
    Some(Head {
        version: take_beginning(members)?,
        election: take_digest(members)?,
        maker: take_number(members)?,
        number: take_number(members)?,
        stamp: take_number(members)?,
    })
}

/// The fields of a body, the names as the text of their list.
#[derive(Drop)]
struct Fields<'a> {
    head: Head,
    names: Text<'a>,
    deed: Deed,
}

/// The fields of the body that the tree is.
fn fields_of<'a>(tree: &Text<'a>) -> Option<Fields<'a>>
    ensures found { IfSome result (λ fields. IsBody tree.now fields) }
    ensures none { IfNone result ((entry : Entry) → IsEntry entry →
        tree.now ≡ body_tree entry → ⊥) }
{
    let mut members = tree.as_list()?;
    let Some(head) = take_head(&mut members) else {
        return None;
    };
    let names = take_names(&mut members)?;
    let Some(deed) = last_deed(head.version, &mut members) else {
        return None;
    };
    Some(Fields { head, names, deed })
}

/// The entry whose body the tree is.
pub(crate) fn entry_of(alloc: Global, tree: &Text<'_>) -> Result<Option<Entry>, Memory>
    ensures { IfOk result (λ found. Finds
        (λ entry. IsEntry entry × (tree.now ≡ body_tree entry)) found) }
{
    let Some(fields) = fields_of(tree) else {
        return Ok(None);
    };
    let names = names_of(alloc, &fields.names)?;
    Ok(Some(Entry {
        version: fields.head.version,
        election: fields.head.election,
        maker: fields.head.maker,
        number: fields.head.number,
        stamp: fields.head.stamp,
        names,
        deed: fields.deed,
    }))
}

/// The body and the signature of a signed entry.
#[derive(Drop)]
pub(crate) struct Signed<'a> {
    pub(crate) body: Text<'a>,
    pub(crate) signature: &'a [u8],
}

/// The parts of a signed entry.
pub(crate) fn signed_parts<'a>(tree: &Text<'a>) -> Option<Signed<'a>>
    ensures found { IfSome result (λ parts. IsSigned tree.now parts.body parts.signature.now) }
    ensures none { IfNone result ((body : Sexp) (signature : List ℕ) →
        IsSigned tree.now body signature → ⊥) }
{
    let mut members = tree.as_list()?;
    take_word(&mut members, b"sealed")?;
    let body = members.take_next()?;
    let signature = last_atom(&mut members)?;
    Some(Signed { body, signature })
}
