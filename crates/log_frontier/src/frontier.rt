//! The frontier as places.

ghost use Rattle.std.specs.Prelude.{◌≡◌, ◌↔◌, ◌≤◌, ◌+◌, [], length, take, false};
ghost use Rattle.std.specs.Prelude.{IfNone, IfOk, IfSome, IsTrue};
ghost use Rattle.entry_order.specs.Naming.{has_digest};
ghost use Rattle.entry_order.specs.Survivors.{gaps as gaps_of};
ghost use Rattle.log_frontier.specs.Places.{HasNoDigestTwice, IsBorneAt, NamesUnborne, StandsFor};

use crate::digest_places::DigestPlaces;
use crate::gaps_of_entries::{ascending, gaps};
use crate::noting::{is_last_named, note_last, note_tables, wants_by_scan};
use crate::wanted::Wanted;
use entry_order::{Knot, gaps_are_unique};
use std::alloc::{AllocError, Global};
use std::marker::Model;

/// An allocation failed.
pub type Memory = AllocError;

/// The places, counted from 0, of the entries that no held entry names, in ascending order of
/// their digests. Auditorium (EVT 2007): what a machine names in the next entry that it sends.
/// Tables answer where an entry with a digest is, and whether a digest is named that none has.
#[derive(Drop)]
pub struct Frontier {
    places: Vec<usize>,
    noted: DigestPlaces,
    wanted: Wanted,
}

impl Model for Frontier {
    ghost use Rattle.std.specs.Prelude.{◌-◌, min, vec_len, vec_capacity};
    ghost use Rattle.log_frontier.specs.Places.{Places};

    ghost Value = { Places };

    ghost view = { λ f. record {
      list = f.places.items;
      spare = min (vec_capacity f.places - vec_len f.places) f.noted.spare;
      noted = f.noted.list;
      wanted = f.wanted;
    } };
}

impl Frontier {
    /// The frontier of no entry, with room for `count` places.
    pub fn make(alloc: Global, count: usize) -> Result<Frontier, Memory>
        ensures empty { IfOk result (λ frontier. frontier.list ≡ []) }
        ensures tables { IfOk result (λ frontier.
            (frontier.noted ≡ []) × (frontier.wanted ≡ record { list = []; scans = false })) }
        ensures room { IfOk result (λ frontier. count ≤ frontier.spare) }
    {
        Ok(Frontier {
            places: Vec::with_capacity(alloc, count)?,
            noted: DigestPlaces::make(alloc, count)?,
            wanted: Wanted::make(alloc, count)?,
        })
    }

    /// Takes in the last of the entries that are held, which is at `place`. It takes no memory,
    /// and time as the entry's names and the frontier.
    pub fn note<T: Knot>(&mut self, held: &[T], place: usize)
        requires last { place + 1 ≡ length held.now }
        requires stands { StandsFor T.node (take place held.now) self.old }
        requires distinct { HasNoDigestTwice T.node held.now }
        requires room { 1 ≤ self.old.spare }
        ensures stands { StandsFor T.node held.now self.new }
        ensures room { self.old.spare ≤ self.new.spare + 1 }
    {
        let named = is_last_named(&self.wanted, held, place);
        note_last(&mut self.places, held, place, named);
        note_tables(&mut self.noted, &mut self.wanted, held, place);
    }

    /// Whether one of the entries has the digest.
    pub fn bears<T: Knot>(&self, held: &[T], digest: &[u8; 32]) -> bool
        requires { StandsFor T.node held.now self.now }
        ensures { result ≡ has_digest T.node held.now digest.now }
    {
        self.noted.has(digest)
    }

    /// The place, counted from 0, of an entry that has the digest.
    pub fn place_of<T: Knot>(&self, held: &[T], digest: &[u8; 32]) -> Option<usize>
        requires { StandsFor T.node held.now self.now }
        ensures found { IfSome result (IsBorneAt T.node held.now digest.now) }
        ensures none { IfNone result (has_digest T.node held.now digest.now ≡ false) }
    {
        self.noted.get(digest)
    }

    /// Whether one of the entries names a digest that none of them has. Where there was no room
    /// for all such digests it looks at all names.
    pub fn wants<T: Knot>(&self, held: &[T]) -> bool
        requires { StandsFor T.node held.now self.now }
        ensures { IsTrue result ↔ NamesUnborne T.node held.now }
    {
        if self.wanted.scans() {
            wants_by_scan(held)
        } else {
            !self.wanted.is_empty()
        }
    }

    /// The digests that one of the entries names and none of them has, ascending. It takes the time
    /// of sorting them; where the table had no room for all of them, every name is looked at.
    pub fn missing<T: Knot>(&self, alloc: Global, held: &[T]) -> Result<Vec<[u8; 32]>, Memory>
        requires { StandsFor T.node held.now self.now }
        ensures { IfOk result (λ digests. digests.items ≡ gaps_of T.node held.now) }
    {
        gaps_are_unique::<T>();
        let digests = if self.wanted.scans() {
            gaps(alloc, held)?
        } else {
            ascending(alloc, self.wanted.list(alloc)?)?
        };
        Ok(digests.into_vec())
    }

    /// The places, in ascending order of the digests there.
    pub fn list(&self) -> &[usize]
        ensures { result.now ≡ self.now.list }
    {
        &self.places
    }
}
