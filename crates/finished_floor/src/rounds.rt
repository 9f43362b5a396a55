//! Rounds over machines, each of which acts while it can.
ghost use Rattle.std.specs.Prelude.{◌<◌, IfOk, length};
ghost use Rattle.finished_floor.specs.inside.Steps.{AreStillBelow, IsNumbered, IsStillAt, IsTurn};

use crate::handing::SweptFloor;
use polling_world::Acted;
use std::alloc::{AllocError, Global};

impl<'a> SweptFloor<'a> {
    /// The machine at the place `at` does its next action, unless something prevents it, and its
    /// entry is handed to each other machine. Returns whether it did.
    fn act_at(&mut self, alloc: Global, at: usize) -> Result<bool, AllocError>
        requires numbered { IsNumbered self.old }
        requires at { at < length self.old.machines.items }
        ensures { IfOk result (λ did.
            IsTurn (IsStillAt self.old.machines.items at) self.old did self.new) }
    {
        let receivers = self.machines.len() - 1;
        match self.machines[at].act(alloc, receivers)? {
            Acted::Did { copies, .. } => {
                self.hand_out(at, copies)?;
                Ok(true)
            }
            _ => Ok(false),
        }
    }

    /// The machine at the place `at` acts while it can. Returns whether it did.
    fn act_while(&mut self, alloc: Global, at: usize) -> Result<bool, AllocError>
        requires numbered { IsNumbered self.old }
        requires at { at < length self.old.machines.items }
        ensures { IfOk result (λ did.
            IsTurn (IsStillAt self.old.machines.items at) self.old did self.new) }
    {
        let mut did = false;
        while self.act_at(alloc, at)? {
            did = true;
        }
        Ok(did)
    }

    /// Each machine acts while it can, in ascending order. Returns whether one did.
    pub fn round(&mut self, alloc: Global) -> Result<bool, AllocError>
        requires { IsNumbered self.old }
        ensures { let ms = self.old.machines.items in
            IfOk result (λ did. IsTurn (AreStillBelow (length ms) ms) self.old did self.new) }
    {
        let mut did = false;
        for at in 0..self.machines.len() {
            did |= self.act_while(alloc, at)?;
        }
        Ok(did)
    }
}
