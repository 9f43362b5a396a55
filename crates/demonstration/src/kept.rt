//! What is kept of a log.
ghost use Rattle.std.specs.Prelude.{◌≡◌, ◌+◌, ◌≤◌, IfOk, MatchOption, length};
ghost use Rattle.std.specs.List.{flat_map};
ghost use Rattle.entry_order.specs.History.{entry_of};
ghost use Rattle.log_files.specs.Written.{record_text};
ghost use Rattle.demonstration.specs.Kept.{HasNoEnd, IsKeptOf, IsLastEnd, ends_session};

use entangled_log::{Event, Log};
use entry_format::{Deed, Sealed};
use log_files::log_text;
use std::alloc::{AllocError, Global};

/// The entry that was sent or got.
fn entry_of(event: &Event<Sealed>) -> &Sealed
    ensures { result.now ≡ entry_of event.now }
{
    match event {
        Event::Sent(entry) => entry,
        Event::Got(entry) => entry,
    }
}

/// Whether the entry that was sent or got ends the session.
fn ends_session(session: u32, event: &Event<Sealed>) -> bool
    ensures { result ≡ ends_session session event.now }
{
    match entry_of(event).entry().deed {
        Deed::Cast { session: ended, .. }
        | Deed::Challenge { session: ended, .. }
        | Deed::Cancel { session: ended } => ended == session,
        _ => false,
    }
}

/// The place of the last event that ends the session, if one does.
fn last_end(events: &[Event<Sealed>], session: u32) -> Option<usize>
    ensures { MatchOption result (HasNoEnd session events.now) (IsLastEnd session events.now) }
{
    let mut last = None;
    for (place, event) in events.iter().enumerate() {
        if ends_session(session, event) {
            last = Some(place);
        }
    }
    last
}

/// How many bytes the record of an event has.
fn record_length(event: &Event<Sealed>) -> usize
    ensures { result ≡ length (record_text event.now) }
{
    match event {
        Event::Sent(entry) => b"(4:sent)".len() + entry.text().len(),
        Event::Got(entry) => b"(3:got)".len() + entry.text().len(),
    }
}

/// Where the records of these events begin in a text of `bytes` bytes that ends with them.
fn begin_of(events: &[Event<Sealed>], bytes: usize) -> usize
    requires { length (flat_map record_text events.now) ≤ bytes }
    ensures { result + length (flat_map record_text events.now) ≡ bytes }
{
    let mut begin = bytes;
    for event in events {
        begin -= record_length(event);
    }
    begin
}

/// The log's text, cut one byte after the record of the last event that ends the session.
pub(crate) fn kept_text(
    alloc: Global,
    log: &Log<Sealed>,
    session: u32,
) -> Result<Vec<u8>, AllocError>
    ensures { IfOk result (λ text. IsKeptOf session log.now.owner log.now.events text.items) }
{
    let mut text = log_text(alloc, log)?;
    let events = log.events();
    match last_end(events, session) {
        Some(place) => {
            let end = begin_of(&events[place + 1..], text.as_slice().len());
            text.truncate(end + 1);
            Ok(text)
        }
        None => Ok(text),
    }
}
