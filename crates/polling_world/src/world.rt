//! The machines of a polling place, stepped one at a time in one thread.
ghost use Rattle.std.specs.Prelude.{
  ◌≡◌,
  ◌↔◌,
  ◌<◌,
  ℕ,
  List,
  Option,
  length,
  map,
  IfOk,
  IsTrue,
  OnErr,
};
ghost use Rattle.entry_format.specs.Nodes.{node_of_sealed};
ghost use Rattle.entry_format.specs.SealedEntry.{SealedEntry};
ghost use Rattle.entry_order.specs.declared.event.Event.{Event};
ghost use Rattle.entry_order.specs.HeldBefore.{HeldBefore};
ghost use Rattle.entry_order.specs.History.{sent};
ghost use Rattle.entry_order.specs.Naming.{Distinct};
ghost use Rattle.entry_order.specs.Precedes.{Precedes};
ghost use Rattle.entry_order.specs.Receipt.{OrderIsReceiptIn};
ghost use Rattle.entry_order.specs.World.{happens, history, sent_in};
ghost use Rattle.held_counts.specs.Places.{IsSentAt};
ghost use Rattle.election_script.specs.Lawful.{IsLawful};
ghost use Rattle.polling_world.specs.Configs.{script_configs};
ghost use Rattle.polling_world.specs.Keys.{key_of, roster_of};
ghost use Rattle.polling_world.specs.Steps.{IsStepOf};
ghost use Rattle.polling_world.specs.Worlds.{
  AreFresh,
  HaveLog,
  IsWorld,
  TellsNext,
  configs_of,
  stops_of,
  world_of,
};

use crate::keys::roster_of;
use crate::machine::{Machine, Memory};
use crate::stepped::Stepped;
use crate::steps::step_in;
use election_script::Script;
use entangled_log::Event;
use entry_format::Sealed;
use entry_order::Step;
use held_counts::{Recorder, held_before};
use lms_sign::LmsSecret;
use roster::Roster;
use std::alloc::Global;
use std::marker::Model;

impl Recorder for Machine {
    ghost use Rattle.polling_world.specs.Worlds.{machine_of};

    type Entry = Sealed;

    ghost machine = { machine_of };

    fn events(&self) -> &[Event<Sealed>] {
        self.log().events()
    }
}

/// All machines of a polling place, each in its place in the roster (Auditorium, EVT 2007). Each
/// log is a legal history, and what a machine heard was sent.
#[derive(Drop)]
pub struct World {
    pub roster: Roster,
    pub machines: Vec<Machine>,
}

impl Model for World {
    ghost use Rattle.polling_world.specs.Worlds.{IsWorld, WorldState};

    ghost Value = { WorldState };

    ghost view = { λ w. record { roster = w.roster.machines; machines = w.machines.items } };

    ghost invariant = { λ w. IsWorld w.roster.machines w.machines.items };
}

impl World {
    /// The machines of the script, which have these keys, before anything happens. Nothing is said
    /// to them of the script's lines on threads.
    pub fn make(alloc: Global, script: &Script, keys: Vec<LmsSecret>) -> Result<World, Memory>
        requires lawful { IsLawful script.now }
        requires keys { keys.items ≡ map (key_of script.now) script.now.machines }
        ensures machines { IfOk result (λ world. AreFresh script.now world.machines) }
        ensures roster { IfOk result (λ world. world.roster ≡ roster_of script.now) }
        ensures configs { IfOk result (λ world.
            configs_of world.machines ≡ script_configs script.now) }
    {
        let roster = roster_of(alloc, script, &keys)?;
        let mut machines = Vec::new(alloc);
        for key in keys {
            let at = machines.len() as u32;
            machines.push(Machine::make(alloc, script, &roster, at, key, None)?)?;
        }
        Ok(World { roster, machines })
    }

    /// Does the step, or changes nothing. `Act` is done where the machine does its next action,
    /// `Hear` where the entry was sent by another machine and is taken, and `Stop` where the
    /// machine hasn't stopped. Only an entry that is taken is copied.
    pub fn step(&mut self, alloc: Global, step: &Step) -> Result<Stepped, Memory>
        requires { IsStepOf (length self.old.machines) step.now }
        ensures ok { IfOk result (λ _.
            (next : ℕ → List (Event SealedEntry) → Option SealedEntry) (log : ℕ) →
            TellsNext (configs_of self.old.machines) next → HaveLog log self.old.machines →
            world_of self.new.machines
            ≡ happens node_of_sealed next log (world_of self.old.machines) step.now) }
        ensures nothing { IfOk result (λ stepped.
            (stepped ≡ Stepped.Nothing) ↔ (self.new ≡ self.old)) }
        ensures err { OnErr result (self.new ≡ self.old) }

        // What the machines are made of stays.
        ensures roster { self.new.roster ≡ self.old.roster }
        ensures configs { configs_of self.new.machines ≡ configs_of self.old.machines }
        ensures stops { stops_of self.new.machines ≡ stops_of self.old.machines }
    {
        step_in(alloc, &mut self.machines, step)
    }

    /// Whether the maker of `e` held `f`, or a descendant of it, when it sent `e`. Each is named by
    /// its maker and its number, both counted from 0.
    pub fn held_before(&self, alloc: Global, f: (u32, u32), e: (u32, u32)) -> Result<bool, Memory>
        requires f { f.1 < length (sent (history (world_of self.now.machines) f.0)) }
        requires e { e.1 < length (sent (history (world_of self.now.machines) e.0)) }
        ensures held { IfOk result (λ yes. let w = world_of self.now.machines in
            (first second : SealedEntry) → IsSentAt w f.0 f.1 first → IsSentAt w e.0 e.1 second →
            IsTrue yes ↔ HeldBefore w first second) }

        // By names, where no two entries have one digest.
        ensures names { IfOk result (λ yes. let w = world_of self.now.machines in
            Distinct node_of_sealed (sent_in w) → (first second : SealedEntry) →
            IsSentAt w f.0 f.1 first → IsSentAt w e.0 e.1 second →
            IsTrue yes ↔ Precedes node_of_sealed (sent_in w) first second) }
    {
        let first = (f.0 as usize, f.1 as usize);
        let second = (e.0 as usize, e.1 as usize);
        held_before(alloc, &self.machines, first, second)
    }

    /// The law of every world: what its type keeps; and where no two entries have one digest, names
    /// lead from one entry to another exactly when it was held before it.
    pub fn order_is_receipt(&self)
        ensures world { IsWorld self.now.roster self.now.machines }
        ensures order { let w = world_of self.now.machines in
            Distinct node_of_sealed (sent_in w) → OrderIsReceiptIn node_of_sealed w }
    {
        let _ = &self.machines;
    }
}
