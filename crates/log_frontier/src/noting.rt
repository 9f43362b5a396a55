//! The places of a frontier when one entry more is held.

ghost use Rattle.std.specs.Prelude.{◌≡◌, ◌↔◌, ◌||◌, ◌+◌, ◌<◌, ◌≤◌, IsTrue, length, take};
ghost use Rattle.std.specs.Prelude.{vec_len, vec_capacity};
ghost use Rattle.std.specs.List.{All, filter, insert};
ghost use Rattle.std.specs.Cmp.Lexicographic.{slice_cmp};
ghost use Rattle.std.specs.Ordering.{is_lt, nat_cmp};
ghost use Rattle.entry_order.specs.Naming.{is_named, names_digest};
ghost use Rattle.log_frontier.specs.Places.{AreBorne, AreWanted, HasNoDigestTwice, IsFrontierAt};
ghost use Rattle.log_frontier.specs.Places.{NamesUnborne, digest_at};
ghost use Rattle.log_frontier.specs.Digests.{has};
ghost use Rattle.log_frontier.specs.inside.Noting.{count_below, is_left, lacks, lacks_some};

use crate::digest_places::DigestPlaces;
use crate::wanted::Wanted;
use entry_order::{Knot, has_digest, is_named, names_digest};

/// Whether one of these entries names the last, which is at `place`.
pub fn is_last_named<T: Knot>(wanted: &Wanted, held: &[T], place: usize) -> bool
    requires last { place + 1 ≡ length held.now }
    requires wanted { AreWanted T.node (take place held.now) wanted.now }
    requires distinct { HasNoDigestTwice T.node held.now }
    ensures { result ≡ is_named T.node held.now (digest_at T.node held.now place) }
{
    let entry = &held[place];
    if wanted.scans() {
        return is_named(held, entry.digest());
    }
    is_named_by_table(wanted, entry)
}

// Whether the entry is looked for, or names itself.
fn is_named_by_table<T: Knot>(wanted: &Wanted, entry: &T) -> bool
    ensures { result ≡ (has wanted.now.list (T.node entry.now).digest
        || names_digest T.node entry.now (T.node entry.now).digest) }
{
    let digest = entry.digest();
    wanted.has(digest) || names_digest(entry, digest)
}

/// The tables when the last entry of these, at `place`, is held too.
pub fn note_tables<T: Knot>(noted: &mut DigestPlaces, wanted: &mut Wanted, held: &[T], place: usize)
    requires last { place + 1 ≡ length held.now }
    requires noted { AreBorne T.node (take place held.now) noted.old.list }
    requires wanted { AreWanted T.node (take place held.now) wanted.old }
    requires room { 0 < noted.old.spare }
    ensures noted { AreBorne T.node held.now noted.new.list }
    ensures wanted { AreWanted T.node held.now wanted.new }
    ensures room { noted.old.spare ≤ noted.new.spare + 1 }
{
    let entry = &held[place];
    noted.insert(entry.digest(), place);
    wanted.forget(entry.digest());
    wanted.want_all(entry.names(), noted);
}

/// Whether one of the entries names a digest that none of them has, by search.
pub fn wants_by_scan<T: Knot>(held: &[T]) -> bool
    ensures { IsTrue result ↔ NamesUnborne T.node held.now }
{
    lacks_some(held)
}

// The same, as it is computed.
fn lacks_some<T: Knot>(held: &[T]) -> bool
    ensures { result ≡ lacks_some T.node held.now }
{
    held.iter().any(|e| names_missing(held, e.names()))
}

// Whether none of the entries has one of the digests.
fn names_missing<T: Knot>(held: &[T], digests: &[[u8; 32]]) -> bool
    ensures { result ≡ lacks T.node held.now digests.now }
{
    digests.iter().any(|d| !has_digest(held, d))
}

/// The frontier's places when the last entry of these, at `place`, is held too.
pub fn note_last<T: Knot>(places: &mut Vec<usize>, held: &[T], place: usize, named: bool)
    requires last { place + 1 ≡ length held.now }
    requires front { IsFrontierAt T.node (take place held.now) places.old.items }
    requires distinct { HasNoDigestTwice T.node held.now }
    requires room { vec_len places.old < vec_capacity places.old }
    requires named { named ≡ is_named T.node held.now (digest_at T.node held.now place) }
    ensures front { IsFrontierAt T.node held.now places.new.items }
    ensures capacity { vec_capacity places.old ≤ vec_capacity places.new }
    ensures one_more { vec_len places.new ≤ vec_len places.old + 1 }
{
    let entry = &held[place];
    drop_named(places, held, entry);
    if !named {
        insert_place(places, held, entry.digest(), place);
    }
}

// Takes out the places of the entries that this one names.
fn drop_named<T: Knot>(places: &mut Vec<usize>, held: &[T], entry: &T)
    ensures left { places.new.items ≡ filter (is_left T.node entry.now held.now) places.old.items }
    ensures capacity { vec_capacity places.new ≡ vec_capacity places.old }
    ensures fewer { vec_len places.new ≤ vec_len places.old }
{
    places.retain(|place| is_left(held, entry, *place));
}

// Whether the entry doesn't name the one at the place.
fn is_left<T: Knot>(held: &[T], entry: &T, place: usize) -> bool
    ensures { result ≡ is_left T.node entry.now held.now place }
{
    match held.get(place) {
        Some(other) => !names_digest(entry, other.digest()),
        None => true,
    }
}

// Puts the place before the first whose digest isn't below this one.
fn insert_place<T: Knot>(places: &mut Vec<usize>, held: &[T], digest: &[u8; 32], place: usize)
    requires inside { All (λ p. p < length held.now) places.old.items }
    requires room { vec_len places.old < vec_capacity places.old }
    ensures inserted { places.new.items
        ≡ insert places.old.items (count_below T.node held.now digest.now places.old.items) place }
    ensures capacity { vec_capacity places.old ≤ vec_capacity places.new }
    ensures one_more { vec_len places.new ≡ vec_len places.old + 1 }
{
    let at = count_below(places, held, digest);
    // There is room, so this doesn't fail.
    let _inserted = places.insert(at, place);
}

// How many places from the front on have a digest below this one.
fn count_below<T: Knot>(places: &[usize], held: &[T], digest: &[u8; 32]) -> usize
    requires { All (λ p. p < length held.now) places.now }
    ensures count { result ≡ count_below T.node held.now digest.now places.now }
    ensures within { result ≤ length places.now }
{
    for (at, place) in places.iter().enumerate() {
        if !is_below(held, *place, digest) {
            return at;
        }
    }
    places.len()
}

// Whether the entry at the place has a digest below this one.
fn is_below<T: Knot>(held: &[T], place: usize, digest: &[u8; 32]) -> bool
    requires { place < length held.now }
    ensures { result
        ≡ is_lt (slice_cmp nat_cmp (digest_at T.node held.now place) digest.now) }
{
    held[place].digest().cmp(digest).is_lt()
}
