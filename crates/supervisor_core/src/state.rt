//! The supervisor's state and its rules.
ghost use Rattle.std.specs.Prelude.{
  ◌≡◌,
  ◌↔◌,
  ◌+◌,
  ◌≤◌,
  List,
  [],
  ◌∷◌,
  ◌++◌,
  ℕ,
  IfOk,
  IsTrue,
  Contains,
};
ghost use Rattle.entry_format.specs.declared.entry.Entry.{Entry};
ghost use Rattle.entry_format.specs.declared.deed.How.TheVariants.{Cast};
ghost use Rattle.entry_format.specs.Deeds.{IsDeedOf};
ghost use Rattle.roster.specs.declared.post.Role.TheVariants.{Supervisor};
ghost use Rattle.supervisor_core.specs.Causes.{HasOverridden, other};
ghost use Rattle.supervisor_core.specs.State.{StandsFor};
ghost use Rattle.supervisor_core.specs.Table.{Refuses};
ghost use Rattle.supervisor_core.specs.CauseWords.{supervisor_not_word};

use crate::running::{Running, end_session, is_any_left, is_busy};
use deed_history::two_lists;
use entry_format::{Deed, Entry, How};
use item_list::first_of;
use std::alloc::{AllocError, Global};
use std::marker::Model;
use thiserror::Error;

/// An allocation failed.
pub type Memory = AllocError;

/// Why the supervisor may not do a deed now, the first cause that applies.
#[derive(Clone, Copy, Debug, PartialEq, Eq, Error)]
pub enum SupervisorNot {
    #[error("the polling place wasn't opened")]
    NotOpened,
    #[error("the polling place was opened before")]
    AlreadyOpened,
    #[error("the polling place was closed")]
    Closed,
    #[error("the session was authorised before")]
    SessionUsed,
    #[error("the booth has a session that hasn't ended")]
    BoothBusy,
    #[error("the session wasn't authorised")]
    NoSession,
    #[error("the session has ended")]
    SessionEnded,
    #[error("a session hasn't ended")]
    SessionsLeft,
    #[error("the session was overridden with the other word")]
    OtherOverride,
    #[error("no ballot was committed in the session")]
    NothingCommitted,
}

impl SupervisorNot {
    /// The cause's word in lines of output.
    pub fn word(self) -> &'static str
        ensures { result.now ≡ supervisor_not_word self }
    {
        match self {
            SupervisorNot::NotOpened => "NotOpened",
            SupervisorNot::AlreadyOpened => "AlreadyOpened",
            SupervisorNot::Closed => "Closed",
            SupervisorNot::SessionUsed => "SessionUsed",
            SupervisorNot::BoothBusy => "BoothBusy",
            SupervisorNot::NoSession => "NoSession",
            SupervisorNot::SessionEnded => "SessionEnded",
            SupervisorNot::SessionsLeft => "SessionsLeft",
            SupervisorNot::OtherOverride => "OtherOverride",
            SupervisorNot::NothingCommitted => "NothingCommitted",
        }
    }
}

/// What the supervisor's rules ask of the entries that it holds.
#[derive(Drop)]
pub struct SupervisorState {
    owner: u32,
    opened: bool,
    closed: bool,
    /// The sessions that it authorised.
    authorised: Vec<u32>,
    /// Those that haven't ended.
    running: Vec<Running>,
    /// The sessions of the held Casts, Cancels and Challenges, authorised or not.
    ended: Vec<u32>,
    /// The sessions that it overrode by cancelling.
    to_cancel: Vec<u32>,
    /// The sessions that it overrode by casting.
    to_cast: Vec<u32>,
    /// The sessions of the held Commits, authorised or not.
    committed: Vec<u32>,
    /// How many entries more there is room for.
    spare: usize,
}

impl Model for SupervisorState {
    ghost use Rattle.std.specs.Prelude.{◌+◌, ◌≤◌, vec_len, vec_capacity};
    ghost use Rattle.supervisor_core.specs.Notes.{Notes};

    ghost Value = { Notes };

    ghost view = { λ s. record {
      owner = s.owner;
      opened = s.opened;
      closed = s.closed;
      authorised = s.authorised.items;
      running = s.running.items;
      ended = s.ended.items;
      to_cancel = s.to_cancel.items;
      to_cast = s.to_cast.items;
      committed = s.committed.items;
      spare = s.spare;
    } };

    ghost invariant = { λ s. (vec_len s.authorised + s.spare ≤ vec_capacity s.authorised)
        × (vec_len s.running + s.spare ≤ vec_capacity s.running)
        × (vec_len s.ended + s.spare ≤ vec_capacity s.ended)
        × (vec_len s.to_cancel + s.spare ≤ vec_capacity s.to_cancel)
        × (vec_len s.to_cast + s.spare ≤ vec_capacity s.to_cast)
        × (vec_len s.committed + s.spare ≤ vec_capacity s.committed) };
}

impl SupervisorState {
    /// The state of a supervisor that holds nothing, with room for `count` entries. `owner` is its
    /// place in the roster.
    pub fn make(alloc: Global, owner: u32, count: usize) -> Result<Self, Memory>
        ensures empty { IfOk result (λ state. StandsFor state owner []) }
        ensures room { IfOk result (λ state. count ≤ state.spare) }
    {
        let (authorised, ended) = two_lists(alloc, count)?;
        let (to_cancel, to_cast) = two_lists(alloc, count)?;
        Ok(SupervisorState {
            owner,
            opened: false,
            closed: false,
            authorised,
            running: Vec::with_capacity(alloc, count)?,
            ended,
            to_cancel,
            to_cast,
            committed: Vec::with_capacity(alloc, count)?,
            spare: count,
        })
    }

    /// Notes one entry more that the supervisor holds, sent or received. It takes no memory.
    pub fn note(&mut self, entry: &Entry)
        requires { 1 ≤ self.old.spare }
        ensures kept { (owner : ℕ) (entries : List Entry) → StandsFor self.old owner entries →
            StandsFor self.new owner (entries ++ entry.now ∷ []) }
        ensures spare { self.old.spare ≤ self.new.spare + 1 }
    {
        let own = entry.maker == self.owner;
        self.spare -= 1;
        match entry.deed {
            Deed::Opened => self.opened |= own,
            Deed::Closed => self.closed |= own,
            Deed::Authorise { booth, session } => {
                if own {
                    self.authorised.push_reserved(session);
                    if !self.ended.contains(&session) {
                        self.running.push_reserved(Running { booth, session });
                    }
                }
            }
            Deed::Cast { session, .. } => {
                end_session(&mut self.running, &mut self.ended, session);
            }
            Deed::Cancel { session } => {
                end_session(&mut self.running, &mut self.ended, session);
            }
            Deed::Challenge { session, .. } => {
                end_session(&mut self.running, &mut self.ended, session);
            }
            Deed::Override { session, how } => {
                if own {
                    match how {
                        How::Cancel => self.to_cancel.push_reserved(session),
                        How::Cast => self.to_cast.push_reserved(session),
                    }
                }
            }
            Deed::Commit { session, .. } => self.committed.push_reserved(session),
            Deed::Activate { .. } => {}
        }
    }

    /// Whether it overrode the session with the other word.
    fn has_other_override(&self, session: u32, how: How) -> bool
        ensures { (owner : ℕ) (entries : List Entry) → StandsFor self.now owner entries →
            IsTrue result ↔ HasOverridden owner entries session (other how) }
    {
        match how {
            How::Cancel => self.to_cast.contains(&session),
            How::Cast => self.to_cancel.contains(&session),
        }
    }

    /// Whether an override with the word would cast where nothing was committed.
    fn lacks_commitment(&self, session: u32, how: How) -> bool
        ensures { IsTrue result ↔ ((how ≡ Cast) × (¬ Contains self.now.committed session)) }
    {
        match how {
            How::Cancel => false,
            How::Cast => !self.committed.contains(&session),
        }
    }

    /// Whether the supervisor may do the deed now. It takes no memory, and goes once through what
    /// it noted.
    ///
    /// # Errors
    ///
    /// The first cause that applies, in the order of the deed's row.
    pub fn may(&self, deed: &Deed) -> Result<(), SupervisorNot>
        requires { IsDeedOf Supervisor deed.now }
        ensures { (owner : ℕ) (entries : List Entry) → StandsFor self.now owner entries →
            Refuses owner entries deed.now result }
    {
        match *deed {
            Deed::Opened => first_of(&[(self.opened, SupervisorNot::AlreadyOpened)]),
            Deed::Authorise { booth, session } => first_of(&[
                (!self.opened, SupervisorNot::NotOpened),
                (self.closed, SupervisorNot::Closed),
                (
                    self.authorised.contains(&session),
                    SupervisorNot::SessionUsed,
                ),
                (is_busy(&self.running, booth), SupervisorNot::BoothBusy),
            ]),
            Deed::Override { session, how } => first_of(&[
                (
                    !self.authorised.contains(&session),
                    SupervisorNot::NoSession,
                ),
                (self.ended.contains(&session), SupervisorNot::SessionEnded),
                (
                    self.has_other_override(session, how),
                    SupervisorNot::OtherOverride,
                ),
                (
                    self.lacks_commitment(session, how),
                    SupervisorNot::NothingCommitted,
                ),
            ]),
            Deed::Closed => first_of(&[
                (!self.opened, SupervisorNot::NotOpened),
                (self.closed, SupervisorNot::Closed),
                (is_any_left(&self.running), SupervisorNot::SessionsLeft),
            ]),
            Deed::Activate { .. }
            | Deed::Commit { .. }
            | Deed::Cast { .. }
            | Deed::Cancel { .. }
            | Deed::Challenge { .. } => Ok(()),
        }
    }
}
