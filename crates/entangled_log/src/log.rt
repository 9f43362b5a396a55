//! The log of a machine.

ghost use Rattle.std.specs.Prelude.{◌≡◌, ◌↔◌, ◌<◌, ◌≤◌, ◌+◌, [], length, slice_get};
ghost use Rattle.std.specs.Prelude.{Some, None, Err, IfNone, IfOk, IfSome, IsNone, IsTrue};
ghost use Rattle.std.specs.List.{Contains};
ghost use Rattle.entry_order.specs.declared.event.Event.TheVariants.{Sent};
ghost use Rattle.entry_order.specs.History.{IsLegal, IsNext, MayFollow, greatest_stamp, held, sent};
ghost use Rattle.entry_order.specs.Naming.{IsBorneIn, IsNew};
ghost use Rattle.entry_order.specs.Survivors.{gaps};
ghost use Rattle.entangled_log.specs.declared.next.NextFault.{NextFault};
ghost use Rattle.entangled_log.specs.Hearing.{IsHearAnswer, log_after};
ghost use Rattle.entangled_log.specs.Logs.{log_with_event};
ghost use Rattle.entangled_log.specs.Nexts.{HasGreatestStamp, IsNextAfter};
ghost use Rattle.entangled_log.specs.Whole.{NamesOnlyHeld};

use crate::heard::Heard;
use crate::history::{entry_at, frontier_at, note_own, sent_at};
use crate::next::{Next, NextFault};
use entry_order::{Event, Knot};
use log_frontier::Frontier;
use std::alloc::{AllocError, Global};
use std::marker::Model;

/// An allocation failed.
pub type Memory = AllocError;

/// The log of the machine `owner`: what it sent and heard, in order, at most `capacity` events.
/// Auditorium (EVT 2007): an entry that is sent names all that no held entry names.
#[derive(Drop)]
pub struct Log<T: Knot> {
    owner: u32,
    capacity: usize,
    events: Vec<Event<T>>,
    frontier: Frontier,
    /// The places, counted from 0, of the events that the owner sent.
    own: Vec<usize>,
    /// The greatest stamp that is held, or 0.
    top: u32,
}

impl<T: Knot> Model for Log<T> {
    ghost use Rattle.std.specs.Prelude.{vec_capacity};
    ghost use Rattle.entangled_log.specs.Logs.{History};
    ghost use Rattle.entangled_log.specs.inside.Kept.{IsKept};

    ghost Value = { History T };

    ghost view = { λ l. record {
      owner = l.owner;
      capacity = l.capacity;
      events = l.events.items;
    } };

    ghost invariant = { λ l.
        IsKept T.node l.owner l.capacity l.events.items l.frontier l.own.items l.top
        (vec_capacity l.events) (vec_capacity l.own) };
}

impl<T: Knot> Log<T> {
    /// A log without events, with room for `capacity` of them.
    pub fn make(alloc: Global, owner: u32, capacity: usize) -> Result<Log<T>, Memory>
        ensures { IfOk result (λ log.
            log ≡ record { owner = owner; capacity = capacity; events = [] }) }
    {
        let frontier = Frontier::make(alloc, capacity)?;
        let own = Vec::with_capacity(alloc, capacity)?;
        let events = Vec::with_capacity(alloc, capacity)?;
        Ok(Log {
            owner,
            capacity,
            events,
            frontier,
            own,
            top: 0,
        })
    }

    /// What the owner puts into the entry that it sends next: how many it has sent, Lamport's
    /// logical clock (1978), and the frontier. Out of memory is reported last.
    pub fn next(&self, alloc: Global) -> Result<Next, NextFault>
        ensures ok { IfOk result (λ next. IsNextAfter T.node self.now.events next) }
        ensures spent { (result ≡ Err NextFault.StampSpent)
            ↔ HasGreatestStamp T.node (held self.now.events) }
    {
        let Some(stamp) = self.next_stamp() else {
            return Err(NextFault::StampSpent);
        };
        Ok(Next {
            number: self.own.len() as u32,
            stamp,
            names: frontier_at(alloc, &self.events, self.frontier.list())?,
        })
    }

    /// Whether an entry is held with the greatest stamp there is, so that `next` reports a spent
    /// stamp. It takes no memory.
    pub fn is_stamp_spent(&self) -> bool
        ensures { IsTrue result ↔ HasGreatestStamp T.node (held self.now.events) }
    {
        self.next_stamp().is_none()
    }

    // One more than the greatest stamp that is held, if 32 bits hold it.
    fn next_stamp(&self) -> Option<u32>
        ensures stamp { IfSome result (λ stamp.
            stamp ≡ 1 + greatest_stamp T.node (held self.now.events)) }
        ensures none { IsNone result ↔ HasGreatestStamp T.node (held self.now.events) }
    {
        self.top.checked_add(1)
    }

    /// Appends an entry of the owner, which is as `next` says. It takes no memory.
    pub fn push_sent(&mut self, s: T)
        requires next { IsNext T.node self.old.owner self.old.events s }
        requires new { IsNew T.node (held self.old.events) s }
        requires room { length self.old.events < self.old.capacity }
        ensures { self.new ≡ log_with_event (Sent s) self.old }
    {
        self.append(Event::Sent(s));
    }

    /// Appends an entry of another machine, unless it can't be taken: then it comes back, and the
    /// log stays. It takes no memory.
    pub fn hear(&mut self, s: T) -> Heard<T>
        ensures answer { IsHearAnswer T.node self.old s result }
        ensures log { self.new ≡ log_after result s self.old }
    {
        if s.maker() == self.owner {
            return Heard::Own(s);
        }
        if !self.is_new(&s) {
            return Heard::Already(s);
        }
        if self.events.len() >= self.capacity {
            return Heard::Full(s);
        }
        self.append(Event::Got(s));
        Heard::Taken
    }

    // Whether no entry with the digest of this one is held.
    fn is_new(&self, entry: &T) -> bool
        ensures new { IsTrue result → IsNew T.node (held self.now.events) entry.now }
        ensures borne { ¬ IsTrue result
            → IsBorneIn T.node (held self.now.events) (T.node entry.now).digest }
    {
        !self.holds(entry.digest())
    }

    // Appends an event, for which there is room.
    fn append(&mut self, event: Event<T>)
        requires may { MayFollow T.node self.old.owner self.old.events event }
        requires room { length self.old.events < self.old.capacity }
        ensures { self.new ≡ log_with_event event self.old }
    {
        let place = self.events.len();
        self.top = self.top.max(event.stamp());
        note_own(&mut self.own, &event, place);
        self.events.push_reserved(event);
        self.frontier.note(&self.events, place);
    }

    /// Whether every digest that a held entry names is that of a held entry.
    pub fn is_whole(&self) -> bool
        ensures { IsTrue result ↔ NamesOnlyHeld T.node (held self.now.events) }
    {
        !self.frontier.wants(&self.events)
    }

    /// The digests that held entries name and that none of them has, ascending.
    pub fn missing(&self, alloc: Global) -> Result<Vec<[u8; 32]>, Memory>
        ensures { IfOk result (λ digests. digests.items ≡ gaps T.node (held self.now.events)) }
    {
        self.frontier.missing(alloc, &self.events)
    }

    /// Whether an entry with the digest is held.
    pub fn holds(&self, digest: &[u8; 32]) -> bool
        ensures { IsTrue result ↔ IsBorneIn T.node (held self.now.events) digest.now }
    {
        self.frontier.bears(&self.events, digest)
    }

    /// The held entry with the digest, if there is one. A table has its place.
    pub fn with_digest(&self, digest: &[u8; 32]) -> Option<&T>
        ensures found { IfSome result (λ entry. Contains (held self.now.events) entry.now
            × ((T.node entry.now).digest ≡ digest.now)) }
        ensures none { IfNone result (¬ IsBorneIn T.node (held self.now.events) digest.now) }
    {
        match self.frontier.place_of(&self.events, digest) {
            Some(place) => Some(entry_at(&self.events, place)),
            None => None,
        }
    }

    /// The entry with this number among those that the owner sent, if the owner sent that many.
    pub fn sent_at(&self, number: usize) -> Option<&T>
        ensures found { IfSome result (λ entry.
            slice_get (sent self.now.events) number ≡ Some entry.now) }
        ensures none { IfNone result (slice_get (sent self.now.events) number ≡ None) }
    {
        sent_at(&self.events, &self.own, number)
    }

    /// What was sent and heard, in order.
    pub fn events(&self) -> &[Event<T>]
        ensures events { result.now ≡ self.now.events }
        ensures legal { IsLegal T.node self.now.owner self.now.events }
        ensures within { length self.now.events ≤ self.now.capacity }
    {
        &self.events
    }

    /// The number of the machine whose log this is.
    pub fn owner(&self) -> u32
        ensures { result ≡ self.now.owner }
    {
        self.owner
    }
}
