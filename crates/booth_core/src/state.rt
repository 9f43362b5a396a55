//! The booth's state and its rules.
ghost use Rattle.std.specs.Prelude.{◌≡◌, ◌↔◌, ◌+◌, ◌≤◌, List, [], ◌∷◌, ◌++◌, ℕ, IfOk, IsTrue};
ghost use Rattle.entry_format.specs.declared.entry.Entry.{Entry};
ghost use Rattle.entry_format.specs.Deeds.{IsDeedOf};
ghost use Rattle.roster.specs.declared.post.Role.TheVariants.{Booth};
ghost use Rattle.booth_core.specs.Causes.{IsOverridden};
ghost use Rattle.booth_core.specs.State.{StandsFor};
ghost use Rattle.booth_core.specs.Table.{Refuses};
ghost use Rattle.booth_core.specs.CauseWords.{booth_not_word};

use crate::commitment::{Commitment, has_commitment, has_committed};
use deed_history::two_lists;
use entry_format::{Deed, Entry, How};
use item_list::first_of;
use std::alloc::{AllocError, Global};
use std::marker::Model;
use thiserror::Error;

/// An allocation failed.
pub type Memory = AllocError;

/// Why a booth may not do a deed now, the first cause that applies.
#[derive(Clone, Copy, Debug, PartialEq, Eq, Error)]
pub enum BoothNot {
    #[error("the session wasn't authorised at this booth")]
    NotAuthorised,
    #[error("the session was overridden")]
    Overridden,
    #[error("the polling place was closed")]
    Closed,
    #[error("the session isn't active")]
    NotActive,
    #[error("the session was activated before")]
    AlreadyActive,
    #[error("the booth didn't commit to this ballot")]
    NotCommitted,
    #[error("the booth committed to a ballot before")]
    AlreadyCommitted,
    #[error("the session has ended")]
    Ended,
    #[error("the log lacks an entry that one of its entries names")]
    LogNotWhole,
    #[error("the session was overridden by casting")]
    CastForced,
}

impl BoothNot {
    /// The cause's word in lines of output.
    pub fn word(self) -> &'static str
        ensures { result.now ≡ booth_not_word self }
    {
        match self {
            BoothNot::NotAuthorised => "NotAuthorised",
            BoothNot::Overridden => "Overridden",
            BoothNot::Closed => "Closed",
            BoothNot::NotActive => "NotActive",
            BoothNot::AlreadyActive => "AlreadyActive",
            BoothNot::NotCommitted => "NotCommitted",
            BoothNot::AlreadyCommitted => "AlreadyCommitted",
            BoothNot::Ended => "Ended",
            BoothNot::LogNotWhole => "LogNotWhole",
            BoothNot::CastForced => "CastForced",
        }
    }
}

/// What a booth's rules ask of the entries that it holds.
#[derive(Drop)]
pub struct BoothState {
    owner: u32,
    closed: bool,
    /// The sessions that were authorised at this booth.
    authorised: Vec<u32>,
    /// The sessions that were overridden by cancelling.
    to_cancel: Vec<u32>,
    /// The sessions that were overridden by casting.
    to_cast: Vec<u32>,
    /// The sessions that this booth activated.
    activated: Vec<u32>,
    /// What this booth committed to.
    committed: Vec<Commitment>,
    /// The sessions that this booth cast, cancelled or challenged.
    ended: Vec<u32>,
    /// How many entries more there is room for.
    spare: usize,
}

impl Model for BoothState {
    ghost use Rattle.std.specs.Prelude.{◌+◌, ◌≤◌, vec_len, vec_capacity};
    ghost use Rattle.booth_core.specs.Notes.{Notes};

    ghost Value = { Notes };

    ghost view = { λ s. record {
      owner = s.owner;
      closed = s.closed;
      authorised = s.authorised.items;
      to_cancel = s.to_cancel.items;
      to_cast = s.to_cast.items;
      activated = s.activated.items;
      committed = s.committed.items;
      ended = s.ended.items;
      spare = s.spare;
    } };

    ghost invariant = { λ s. (vec_len s.authorised + s.spare ≤ vec_capacity s.authorised)
        × (vec_len s.to_cancel + s.spare ≤ vec_capacity s.to_cancel)
        × (vec_len s.to_cast + s.spare ≤ vec_capacity s.to_cast)
        × (vec_len s.activated + s.spare ≤ vec_capacity s.activated)
        × (vec_len s.committed + s.spare ≤ vec_capacity s.committed)
        × (vec_len s.ended + s.spare ≤ vec_capacity s.ended) };
}

impl BoothState {
    /// The state of a booth that holds nothing, with room for `count` entries. `owner` is its
    /// place in the roster.
    pub fn make(alloc: Global, owner: u32, count: usize) -> Result<Self, Memory>
        ensures empty { IfOk result (λ state. StandsFor state owner []) }
        ensures room { IfOk result (λ state. count ≤ state.spare) }
    {
        let (authorised, activated) = two_lists(alloc, count)?;
        let (to_cancel, to_cast) = two_lists(alloc, count)?;
        Ok(BoothState {
            owner,
            closed: false,
            authorised,
            to_cancel,
            to_cast,
            activated,
            committed: Vec::with_capacity(alloc, count)?,
            ended: Vec::with_capacity(alloc, count)?,
            spare: count,
        })
    }

    /// Notes one entry more that the booth holds, sent or received. It takes no memory.
    pub fn note(&mut self, entry: &Entry)
        requires { 1 ≤ self.old.spare }
        ensures kept { (owner : ℕ) (entries : List Entry) → StandsFor self.old owner entries →
            StandsFor self.new owner (entries ++ entry.now ∷ []) }
        ensures spare { self.old.spare ≤ self.new.spare + 1 }
    {
        let own = entry.maker == self.owner;
        self.spare -= 1;
        match entry.deed {
            Deed::Authorise { booth, session } => {
                if booth == self.owner {
                    self.authorised.push_reserved(session);
                }
            }
            Deed::Override { session, how } => match how {
                How::Cancel => self.to_cancel.push_reserved(session),
                How::Cast => self.to_cast.push_reserved(session),
            },
            Deed::Closed => self.closed = true,
            Deed::Activate { session } => {
                if own {
                    self.activated.push_reserved(session);
                }
            }
            Deed::Commit { session, ballot } => {
                if own {
                    self.committed.push_reserved(Commitment { session, ballot });
                }
            }
            Deed::Cast { session, .. } => {
                if own {
                    self.ended.push_reserved(session);
                }
            }
            Deed::Cancel { session } => {
                if own {
                    self.ended.push_reserved(session);
                }
            }
            Deed::Challenge { session, .. } => {
                if own {
                    self.ended.push_reserved(session);
                }
            }
            Deed::Opened => {}
        }
    }

    /// Whether the session was overridden, with whichever word.
    fn is_overridden(&self, session: u32) -> bool
        ensures { (owner : ℕ) (entries : List Entry) → StandsFor self.now owner entries →
            IsTrue result ↔ IsOverridden entries session }
    {
        self.to_cancel.contains(&session) || self.to_cast.contains(&session)
    }

    /// Whether the booth may do the deed now. `whole` is whether each digest that an entry of its
    /// log names is that of one of the log's entries. It takes no memory, and goes once through
    /// what it noted.
    ///
    /// # Errors
    ///
    /// The first cause that applies, in the order of the deed's row.
    pub fn may(&self, deed: &Deed, whole: bool) -> Result<(), BoothNot>
        requires { IsDeedOf Booth deed.now }
        ensures { (owner : ℕ) (entries : List Entry) → StandsFor self.now owner entries →
            Refuses owner entries (IsTrue whole) deed.now result }
    {
        match *deed {
            Deed::Activate { session } => first_of(&[
                (!self.authorised.contains(&session), BoothNot::NotAuthorised),
                (self.ended.contains(&session), BoothNot::Ended),
                (self.activated.contains(&session), BoothNot::AlreadyActive),
                (self.is_overridden(session), BoothNot::Overridden),
                (self.closed, BoothNot::Closed),
            ]),
            Deed::Commit { session, .. } => first_of(&[
                (!self.activated.contains(&session), BoothNot::NotActive),
                (self.ended.contains(&session), BoothNot::Ended),
                (
                    has_committed(&self.committed, session),
                    BoothNot::AlreadyCommitted,
                ),
                (self.is_overridden(session), BoothNot::Overridden),
                (self.closed, BoothNot::Closed),
            ]),
            Deed::Cast { session, ballot } => first_of(&[
                (
                    !has_commitment(&self.committed, &Commitment { session, ballot }),
                    BoothNot::NotCommitted,
                ),
                (self.ended.contains(&session), BoothNot::Ended),
                (self.to_cancel.contains(&session), BoothNot::Overridden),
                (self.closed, BoothNot::Closed),
                (!whole, BoothNot::LogNotWhole),
            ]),
            Deed::Challenge { session, ballot } => first_of(&[
                (
                    !has_commitment(&self.committed, &Commitment { session, ballot }),
                    BoothNot::NotCommitted,
                ),
                (self.ended.contains(&session), BoothNot::Ended),
                (self.is_overridden(session), BoothNot::Overridden),
                (self.closed, BoothNot::Closed),
                (!whole, BoothNot::LogNotWhole),
            ]),
            Deed::Cancel { session } => first_of(&[
                (!self.authorised.contains(&session), BoothNot::NotAuthorised),
                (self.ended.contains(&session), BoothNot::Ended),
                (self.to_cast.contains(&session), BoothNot::CastForced),
            ]),
            Deed::Opened | Deed::Authorise { .. } | Deed::Override { .. } | Deed::Closed => Ok(()),
        }
    }
}
