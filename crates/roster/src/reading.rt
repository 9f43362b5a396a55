//! Reading the parts of a roster in place.
ghost use Rattle.std.specs.Prelude.{◌≡◌, ◌≢◌, ◌≤◌, ◌↔◌, List, map, length, All, Any, AllPairs};
ghost use Rattle.std.specs.Prelude.{count_by, IsTrue, IfOk, IfSome, IfNone, MatchOption};
ghost use Rattle.canonical_sexp.specs.Forms.{Finds};
ghost use Rattle.canonical_sexp.specs.Sexp.{members_of};
ghost use Rattle.canonical_sexp.specs.declared.sexp.Sexp.{Sexp};
ghost use Rattle.canonical_sexp.specs.declared.sexp.Sexp.TheVariants.{Atom};
ghost use Rattle.roster.specs.RosterText.{role_word, post_tree, headed, HasKey};
ghost use Rattle.roster.specs.Machines.{IsName, AreRoster, is_supervisor, max_machines};
ghost use Rattle.roster.specs.Reading.{IsMachinesFault};
ghost use Rattle.roster.specs.inside.Raw.{post_of, IsRosterTree};
ghost use Rattle.roster.specs.declared.post.Post.{Post};
ghost use Rattle.roster.specs.declared.reading.Raw.{Raw};

use crate::faults::RosterFault;
use crate::post::{Name, Post, Role, is_name};
use crate::rosters::Posts;
use canonical_sexp::{Memory, Rest, Text};
use std::alloc::Global;

/// A machine as it is read, before its name is looked at.
#[derive(Clone, Copy)]
pub(crate) struct Raw<'a> {
    name: &'a [u8],
    role: Role,
    key: [u8; 56],
}

/// The role of which the text is the word.
fn role_of(text: &Text<'_>) -> Option<Role>
    ensures { Finds (λ role. text.now ≡ Atom (role_word role)) result }
{
    Role::of_word(text.as_atom()?)
}

/// The key that the text is the atom of: 56 octets.
fn key_of(text: &Text<'_>) -> Option<[u8; 56]>
    ensures { Finds (λ key. (length key ≡ 56) × (text.now ≡ Atom key)) result }
{
    let octets = text.as_atom()?;
    if octets.len() != 56 {
        return None;
    }
    let mut key = [0; 56];
    key.copy_from_slice(octets);
    Some(key)
}

/// The machine that the text is of.
fn raw_of<'a>(text: &Text<'a>) -> Option<Raw<'a>>
    ensures found { IfSome result (λ raw.
        HasKey (post_of raw) × (text.now ≡ post_tree (post_of raw))) }
    ensures none { IfNone result ((post : Post) → HasKey post → text.now ≢ post_tree post) }
{
    let mut members = text.as_list()?;
    let name = members.take_next()?;
    let role = members.take_next()?;
    let key = members.take_next()?;
    if !members.is_empty() {
        return None;
    }
    Some(Raw {
        name: name.as_atom()?,
        role: role_of(&role)?,
        key: key_of(&key)?,
    })
}

/// The members of the text after those with which each roster begins.
fn machines_in<'a>(text: &Text<'a>) -> Option<Rest<'a>>
    ensures found { IfSome result (λ members. text.now ≡ headed (members_of members)) }
    ensures none { IfNone result ((trees : List Sexp) → text.now ≢ headed trees) }
{
    let mut members = text.as_list()?;
    let word = members.take_next()?;
    let version = members.take_next()?;
    if !word.is_word(b"roster") || !version.is_word(b"1") {
        return None;
    }
    Some(members)
}

/// How many machines there are, where the text has the form of a roster's. It takes no memory.
pub(crate) fn count_machines(text: &Text<'_>) -> Option<usize>
    ensures found { IfSome result (λ count.
        (machines : List Post) × IsRosterTree text.now machines × (count ≡ length machines)) }
    ensures none { IfNone result ((machines : List Post) → ¬ IsRosterTree text.now machines) }
{
    let members = machines_in(text)?;
    let count = members.len();
    for member in members {
        let Some(_) = raw_of(&member) else {
            return None;
        };
    }
    Some(count)
}

/// The machines of a text that has the form of a roster's.
pub(crate) fn raws_of<'a>(alloc: Global, text: &Text<'a>) -> Result<Vec<Raw<'a>>, Memory>
    requires { (machines : List Post) × IsRosterTree text.now machines }
    ensures { IfOk result (λ raws. IsRosterTree text.now (map post_of raws.items)) }
{
    let mut raws = Vec::new(alloc);
    for member in machines_in(text).unwrap() {
        raws.push(raw_of(&member).unwrap())?;
    }
    Ok(raws)
}

/// Whether each machine has the form of a name.
fn are_named(raws: &[Raw<'_>]) -> bool
    ensures { IsTrue result ↔ All (λ (raw : Raw). IsName raw.name.now) raws.now }
{
    raws.iter().all(|raw| is_name(raw.name))
}

/// Whether one of the machines has the name.
fn has_name(raws: &[Raw<'_>], name: &[u8]) -> bool
    ensures { IsTrue result ↔ Any (λ (raw : Raw). raw.name.now ≡ name.now) raws.now }
{
    raws.iter().any(|raw| raw.name == name)
}

/// Whether no two machines have one name.
fn are_distinct(raws: &[Raw<'_>]) -> bool
    ensures { IsTrue result
        ↔ AllPairs (λ (raw other : Raw). raw.name.now ≢ other.name.now) raws.now }
{
    for i in 0..raws.len() {
        if has_name(&raws[..i], raws[i].name) {
            return false;
        }
    }
    true
}

/// How many of the machines are supervisors.
fn count_supervisors(raws: &[Raw<'_>]) -> usize
    ensures { result ≡ count_by (λ (raw : Raw). is_supervisor raw.role) raws.now }
{
    raws.iter()
        .filter(|raw| raw.role == Role::Supervisor)
        .count()
}

/// Why machines that aren't too many make no roster, the first cause that applies.
pub(crate) fn fault_of(raws: &[Raw<'_>]) -> Option<RosterFault>
    requires { length raws.now ≤ max_machines }
    ensures { MatchOption result (AreRoster (map post_of raws.now))
        (IsMachinesFault (map post_of raws.now)) }
{
    if !are_named(raws) {
        Some(RosterFault::BadName)
    } else if !are_distinct(raws) {
        Some(RosterFault::SameName)
    } else if count_supervisors(raws) != 1 {
        Some(RosterFault::NotOneSupervisor)
    } else {
        None
    }
}

/// The machine, whose name has the form of one.
fn named(alloc: Global, raw: &Raw<'_>) -> Result<Post, Memory>
    requires { IsName raw.now.name.now }
    ensures { IfOk result (λ post. post ≡ post_of raw.now) }
{
    let name = String::from_utf8_lossy(alloc, raw.name)?;
    Ok(Post {
        name: Name::new(name),
        role: raw.role,
        key: raw.key,
    })
}

/// The machines, whose names have the form of one.
pub(crate) fn posts_of(alloc: Global, raws: &[Raw<'_>]) -> Result<Posts, Memory>
    requires { All (λ (raw : Raw). IsName raw.name.now) raws.now }
    ensures { IfOk result (λ posts. posts ≡ map post_of raws.now) }
{
    let mut posts = Vec::new(alloc);
    for raw in raws {
        posts.push(named(alloc, raw)?)?;
    }
    Ok(Posts::from_vec(posts))
}
