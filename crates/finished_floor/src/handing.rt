//! What becomes of an entry that is handed to a machine.
ghost use Rattle.std.specs.Prelude.{◌≡◌, ◌≢◌, ◌<◌, ◌+◌, All, IfOk, length};
ghost use Rattle.entry_format.specs.SealedEntry.{SealedEntry};
ghost use Rattle.finished_floor.specs.Waits.{AreOnWay, waits_of};
ghost use Rattle.finished_floor.specs.inside.Fates.{IsFate, IsHanded};
ghost use Rattle.finished_floor.specs.inside.Steps.{
  SweepsOn,
  IsNumbered,
  actions_left,
  no_waits,
  waits_from,
};

use crate::loss::{Loss, LossWhy};
use crate::scripted::is_scripted;
use crate::sweeping::Waiting;
use election_script::Lose;
use entry_format::Sealed;
use entry_order::Knot;
use polling_world::{Machine, MachineHeard};
use std::alloc::AllocError;

/// The machines that are swept, in the script's order, and what is lost between them.
#[derive(Drop)]
pub struct SweptFloor<'a> {
    pub machines: Vec<Machine>,
    /// The script's lines on what is lost.
    pub loses: &'a [Lose],
    pub losses: Vec<Loss>,
}

// The machine hears the entry, unless a line says that it is lost. Returns why it isn't heard.
fn fate(machine: &mut Machine, s: Sealed, scripted: bool) -> Option<LossWhy>
    requires { s.entry.maker ≢ machine.old.config.number }
    ensures { IsFate scripted machine.old s result machine.new }
{
    if scripted {
        return Some(LossWhy::Scripted);
    }
    match machine.hear(s) {
        MachineHeard::Taken => None,
        MachineHeard::Stopped(_back) => Some(LossWhy::ToStopped),
        MachineHeard::Own(_back) => unreachable!(),
        MachineHeard::Already(_back) => Some(LossWhy::SameDigest),
        MachineHeard::Full(_back) => Some(LossWhy::LogFull),
    }
}

impl<'a> SweptFloor<'a> {
    /// The machine at the place `to` hears the entry, or there is one loss more.
    fn hand_to(&mut self, to: usize, s: Sealed) -> Result<(), AllocError>
        requires numbered { IsNumbered self.old }
        requires to { to < length self.old.machines.items }
        requires other { s.entry.maker ≢ to }
        ensures { IfOk result (λ _. IsHanded to s self.old self.new) }
    {
        let (from, number) = (s.maker(), s.number());
        let scripted = is_scripted(self.loses, from, number, to as u32);
        match fate(&mut self.machines[to], s, scripted) {
            None => {}
            Some(why) => self.losses.push(Loss {
                from,
                number,
                to: to as u32,
                why,
            })?,
        }
        Ok(())
    }

    /// Each waiting entry is handed to the machine that it waits for.
    pub fn hand_waits(&mut self, waits: Vec<Waiting>) -> Result<(), AllocError>
        requires numbered { IsNumbered self.old }
        requires waits { AreOnWay (length self.old.machines.items) waits.items }
        ensures { IfOk result (λ _. SweepsOn (waits_of waits.items) self.old no_waits self.new) }
    {
        for waiting in waits {
            self.hand_to(waiting.to as usize, waiting.entry)?;
        }
        Ok(())
    }

    /// A copy of the entry of machine `from` is handed to each other machine, in ascending order.
    pub fn hand_out(&mut self, from: usize, mut copies: Vec<Sealed>) -> Result<(), AllocError>
        requires numbered { IsNumbered self.old }
        requires from { from < length self.old.machines.items }
        requires many { length copies.items + 1 ≡ length self.old.machines.items }
        requires makers { All (λ (e : SealedEntry). e.entry.maker ≡ from) copies.items }
        ensures goes_on { IfOk result (λ _. (e : SealedEntry) → e.entry.maker ≡ from →
            All (λ (x : SealedEntry). x ≡ e) copies.items →
            SweepsOn (waits_from from e 0) self.old no_waits self.new) }
        ensures left { IfOk result (λ _.
            actions_left self.new.machines.items ≡ actions_left self.old.machines.items) }
    {
        let count = self.machines.len();
        for to in 0..count {
            if to != from {
                let Some(copy) = copies.pop() else {
                    unreachable!();
                };
                self.hand_to(to, copy)?;
            }
        }
        Ok(())
    }
}
