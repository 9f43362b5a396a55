//! The rules of a machine's role.
ghost use Rattle.std.specs.Prelude.{◌≡◌, ◌+◌, ◌≤◌, [], ◌∷◌, ◌++◌, List, ℕ, IfOk};
ghost use Rattle.entry_format.specs.declared.entry.Entry.{Entry};
ghost use Rattle.roster.specs.declared.post.Role.{Role};
ghost use Rattle.booth_core.specs.State.{StandsFor};
ghost use Rattle.booth_core.specs.Table.{Refuses};
ghost use Rattle.entry_format.specs.Deeds.{IsDeedOf};
ghost use Rattle.roster.specs.declared.post.Role.TheVariants.{Booth};
ghost use Rattle.polling_world.specs.Kept.{IsDeedFor, StandFor, spare_of};
ghost use Rattle.polling_world.specs.Rules.{IsWholeHistory, RoleRefuses, entries_in, needs_whole};

use crate::left::LeftWhy;
use booth_core::{BoothNot, BoothState};
use entangled_log::Log;
use entry_format::{Deed, Entry, Sealed};
use roster::Role;
use std::alloc::{AllocError, Global};
use supervisor_core::SupervisorState;

/// What the rules of a machine's role ask of the entries that it holds.
#[derive(Drop)]
pub enum Rules {
    Supervisor(SupervisorState),
    Booth(BoothState),
}

impl Rules {
    /// The rules for a machine of this role that holds nothing, with room for `count` entries.
    pub fn make(alloc: Global, role: Role, owner: u32, count: usize) -> Result<Rules, AllocError>
        ensures empty { IfOk result (λ rules. StandFor rules role owner []) }
        ensures room { IfOk result (λ rules. count ≤ spare_of rules) }
    {
        match role {
            Role::Supervisor => {
                let state = SupervisorState::make(alloc, owner, count)?;
                Ok(Rules::Supervisor(state))
            }
            Role::Booth => {
                let state = BoothState::make(alloc, owner, count)?;
                Ok(Rules::Booth(state))
            }
        }
    }

    /// Notes one entry more that the machine holds. It takes no memory.
    pub fn note(&mut self, entry: &Entry)
        requires { 1 ≤ spare_of self.old }
        ensures kept { (role : Role) (owner : ℕ) (entries : List Entry) →
            StandFor self.old role owner entries →
            StandFor self.new role owner (entries ++ entry.now ∷ []) }
        ensures spare { spare_of self.old ≤ spare_of self.new + 1 }
    {
        match self {
            Rules::Supervisor(state) => state.note(entry),
            Rules::Booth(state) => state.note(entry),
        }
    }

    /// Whether the machine whose log this is may do the deed now, which is one of its role. Only
    /// for a Cast or a Challenge the log is asked whether it is whole. It takes no memory.
    pub fn may(&self, deed: &Deed, log: &Log<Sealed>) -> Result<(), LeftWhy>
        requires { IsDeedFor self.now deed.now }
        ensures { (role : Role) (owner : ℕ) →
            StandFor self.now role owner (entries_in log.now.events) →
            RoleRefuses role owner log.now.events deed.now result }
    {
        match self {
            Rules::Supervisor(state) => state.may(deed).map_err(|why| LeftWhy::SupervisorNot(why)),
            Rules::Booth(state) => booth_may(state, deed, log).map_err(|why| LeftWhy::BoothNot(
                why,
            )),
        }
    }
}

/// Whether the booth whose log this is may do the deed now.
fn booth_may(state: &BoothState, deed: &Deed, log: &Log<Sealed>) -> Result<(), BoothNot>
    requires { IsDeedOf Booth deed.now }
    ensures { (owner : ℕ) → StandsFor state.now owner (entries_in log.now.events) →
        Refuses owner (entries_in log.now.events) (IsWholeHistory log.now.events) deed.now result }
{
    let whole = needs_whole(deed) && log.is_whole();
    state.may(deed, whole)
}

/// Whether the deed may be done only where the log is whole.
fn needs_whole(deed: &Deed) -> bool
    ensures { result ≡ needs_whole deed.now }
{
    matches!(deed, Deed::Cast { .. } | Deed::Challenge { .. })
}
