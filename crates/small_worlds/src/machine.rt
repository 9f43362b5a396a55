//! One machine of a small world.

ghost use Rattle.std.specs.Prelude.{◌≡◌, ℕ, List, Option, IfOk, OnOk, OnErr, [], false, slice_get};
ghost use Rattle.entry_order.specs.declared.event.Event.{Event};
ghost use Rattle.entry_order.specs.Naming.{has_digest};
ghost use Rattle.entry_order.specs.History.{held, sent};
ghost use Rattle.entry_order.specs.World.{IsLegalNext, cannot_hear, hear, send, stop};

use crate::history::holds;
use entry_order::{Event, Knot};
use held_counts::Recorder;
use std::alloc::{AllocError, Global};
use std::marker::Model;

/// An entry that machines can make.
pub trait Sender: Knot + Drop {
    /// What a machine sends after a history, if it may send anything.
    ghost next: { ℕ → List (Event Self) → Option Self };

    /// An equal entry.
    fn copy(&self, alloc: Global) -> Result<Self, AllocError>
        ensures { IfOk result (λ copy. copy ≡ self.now) };

    /// What the machine sends next.
    fn make_next(
        alloc: Global,
        machine: usize,
        history: &[Event<Self>],
    ) -> Result<Option<Self>, AllocError>
        ensures { IfOk result (λ made. made ≡ next machine history.now) };

    /// It is what a legal history asks.
    ghost lawful: { IsLegalNext Self.node next };
}

/// One machine: Lamport's process.
#[derive(Drop)]
pub struct Process<T> {
    history: Vec<Event<T>>,
    stopped: bool,
}

impl<T> Model for Process<T> {
    ghost use Rattle.entry_order.specs.World.{Machine};

    ghost Value = { Machine T };

    ghost view = { λ u. record { history = u.history.items; stopped = u.stopped } };
}

impl<T: Knot> Recorder for Process<T> {
    type Entry = T;

    ghost machine = { λ process. process };

    fn events(&self) -> &[Event<T>] {
        &self.history
    }
}

impl<T: Sender> Process<T> {
    /// A machine before anything happens.
    pub fn new(alloc: Global) -> Self
        ensures { result ≡ record { history = []; stopped = false } }
    {
        Process {
            history: Vec::new(alloc),
            stopped: false,
        }
    }

    /// The events so far.
    pub fn events(&self) -> &[Event<T>]
        ensures { result.now ≡ self.now.history }
    {
        &self.history
    }

    /// A copy of the entry with this number among those that were sent.
    pub fn sent_copy(&self, alloc: Global, number: usize) -> Result<Option<T>, AllocError>
        ensures { IfOk result (λ entry. entry ≡ slice_get (sent self.now.history) number) }
    {
        copy_of_sent(alloc, &self.history, number)
    }

    /// From now on it sends and hears nothing.
    pub fn stop(&mut self)
        ensures { self.new ≡ stop self.old }
    {
        self.stopped = true;
    }

    /// Sends what may be sent next, as machine number `place`.
    pub fn act(&mut self, alloc: Global, place: usize) -> Result<(), AllocError>
        ensures ok { OnOk result (self.new ≡ send (T.next place self.old.history) self.old) }
        ensures err { OnErr result (self.new ≡ self.old) }
    {
        let made = T::make_next(alloc, place, self.events())?;
        self.send(made)
    }

    // Sends this entry, unless it has stopped.
    fn send(&mut self, entry: Option<T>) -> Result<(), AllocError>
        ensures ok { OnOk result (self.new ≡ send entry self.old) }
        ensures err { OnErr result (self.new ≡ self.old) }
    {
        if let Some(entry) = entry {
            if !self.stopped {
                self.history.push(Event::Sent(entry))?;
            }
        }
        Ok(())
    }

    /// Whether an entry with the digest is held.
    pub fn holds(&self, digest: &[u8; 32]) -> bool
        ensures { result ≡ has_digest T.node (held self.now.history) digest.now }
    {
        holds(&self.history, digest)
    }

    // Whether it has stopped, holds the digest, or has `log` events.
    fn cannot_hear(&self, log: usize, digest: &[u8; 32]) -> bool
        ensures { result ≡ cannot_hear T.node log self.now digest.now }
    {
        let holds = self.holds(digest);
        let is_full = self.history.len() >= log;
        self.stopped || holds || is_full
    }

    /// Hears this entry, if it can.
    pub fn hear(&mut self, log: usize, entry: Option<T>) -> Result<(), AllocError>
        ensures ok { OnOk result (self.new ≡ hear T.node log entry self.old) }
        ensures err { OnErr result (self.new ≡ self.old) }
    {
        if let Some(entry) = entry {
            if !self.cannot_hear(log, entry.digest()) {
                self.history.push(Event::Got(entry))?;
            }
        }
        Ok(())
    }
}

// A copy of the entry with this number among those that were sent.
fn copy_of_sent<T: Sender>(
    alloc: Global,
    history: &[Event<T>],
    number: usize,
) -> Result<Option<T>, AllocError>
    ensures { IfOk result (λ entry. entry ≡ slice_get (sent history.now) number) }
{
    let mut left = number;
    for event in history {
        if let Event::Sent(entry) = event {
            if left == 0 {
                return Ok(Some(entry.copy(alloc)?));
            }
            left -= 1;
        }
    }
    Ok(None)
}
