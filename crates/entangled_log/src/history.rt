//! What is read from the events of a log, by places that it keeps.

ghost use Rattle.std.specs.Prelude.{◌≡◌, ◌<◌, length, map, option_map, IfNone, IfOk, IfSome};
ghost use Rattle.std.specs.Prelude.{Some, None, slice_get, vec_len, vec_capacity};
ghost use Rattle.std.specs.List.{All};
ghost use Rattle.entry_order.specs.Frontier.{frontier};
ghost use Rattle.entry_order.specs.History.{entry_of, held, sent};
ghost use Rattle.log_frontier.specs.Places.{IsFrontierAt, digest_at};
ghost use Rattle.entangled_log.specs.inside.Kept.{AreOwn, own_after};

use entry_order::{Event, Knot};
use std::alloc::{AllocError, Global};

/// Puts the place of the event to the owner's, if it was sent. There is room.
pub fn note_own<T>(own: &mut Vec<usize>, event: &Event<T>, place: usize)
    requires { vec_len own.old < vec_capacity own.old }
    ensures own { own.new.items ≡ own_after event.now place own.old.items }
    ensures capacity { vec_capacity own.new ≡ vec_capacity own.old }
{
    match event {
        Event::Sent(_) => own.push_reserved(place),
        Event::Got(_) => {}
    }
}

/// The entry with this number among those that were sent, whose places are `own`.
pub fn sent_at<'a, T>(events: &'a [Event<T>], own: &[usize], number: usize) -> Option<&'a T>
    requires { AreOwn events.now own.now }
    ensures found { IfSome result (λ entry. slice_get (sent events.now) number ≡ Some entry.now) }
    ensures none { IfNone result (slice_get (sent events.now) number ≡ None) }
{
    match own.get(number) {
        Some(place) => Some(entry_at(events, *place)),
        None => None,
    }
}

/// The entry at the place.
pub fn entry_at<T>(events: &[Event<T>], place: usize) -> &T
    requires { place < length events.now }
    ensures { option_map (λ x. entry_of x) (slice_get events.now place) ≡ Some result.now }
{
    match &events[place] {
        Event::Sent(entry) => entry,
        Event::Got(entry) => entry,
    }
}

/// The digests of the frontier, whose places these are.
pub fn frontier_at<T: Knot>(
    alloc: Global,
    events: &[Event<T>],
    places: &[usize],
) -> Result<Vec<[u8; 32]>, AllocError>
    requires { IsFrontierAt (λ x. T.node (entry_of x)) events.now places.now }
    ensures { IfOk result (λ names. names.items ≡ frontier T.node (held events.now)) }
{
    digests_at(alloc, events, places)
}

// The digests of the entries at these places.
fn digests_at<T: Knot>(
    alloc: Global,
    entries: &[T],
    places: &[usize],
) -> Result<Vec<[u8; 32]>, AllocError>
    requires { All (λ p. p < length entries.now) places.now }
    ensures { IfOk result (λ digests.
        digests.items ≡ map (λ p. digest_at T.node entries.now p) places.now) }
{
    let mut digests = Vec::with_capacity(alloc, places.len())?;
    for place in places {
        digests.push(*digest_of(entries, *place))?;
    }
    Ok(digests)
}

// The digest of the entry at the place.
fn digest_of<T: Knot>(entries: &[T], place: usize) -> &[u8; 32]
    requires { place < length entries.now }
    ensures { result.now ≡ digest_at T.node entries.now place }
{
    entries[place].digest()
}
