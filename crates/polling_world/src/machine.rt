//! A machine of a polling place.
ghost use Rattle.std.specs.Prelude.{◌≡◌, ◌↔◌, ◌<◌, ◌≤◌, length, true, IfOk, IfSome, IsTrue};
ghost use Rattle.std.specs.Prelude.{OnErr, Some};
ghost use Rattle.entry_format.specs.Nodes.{node_of_sealed};
ghost use Rattle.entry_order.specs.declared.event.Event.TheVariants.{Sent};
ghost use Rattle.entry_order.specs.History.{held, sent};
ghost use Rattle.entry_order.specs.Naming.{IsBorneIn};
ghost use Rattle.entry_format.specs.Deeds.{IsDeedOf};
ghost use Rattle.entry_format.specs.EntryText.{IsDeedIn};
ghost use Rattle.election_script.specs.Lawful.{IsLawful};
ghost use Rattle.polling_world.specs.Acting.{IsActed};
ghost use Rattle.polling_world.specs.Hearing.{IsHeard, machine_after};
ghost use Rattle.polling_world.specs.Keys.{IsKeyOf, roster_of};
ghost use Rattle.polling_world.specs.Machines.{IsFresh, IsMachine, has_stopped, log_of, with_event};
ghost use Rattle.polling_world.specs.Making.{next_entry};
ghost use Rattle.polling_world.specs.Sending.{MaySend, next_action};
ghost use Rattle.polling_world.specs.Waiting.{IsGoing, IsLeft, IsReady, IsWhy};

use crate::acted::Acted;
use crate::heard::MachineHeard;
use crate::left::{Left, LeftWhy};
use crate::parts::{copies_of, copy_cast, copy_roster, hear_into, is_reached, note_last};
use crate::rules::Rules;
use election_script::Script;
use entangled_log::{Heard, Log, NextFault};
use entry_format::{Deed, Entry, Names, SealFault, Sealed, seal};
use lms_sign::LmsSecret;
use roster::{Name, Role, Roster};
use std::alloc::{AllocError, Global};
use std::marker::Model;

/// Out of memory.
pub type Memory = AllocError;

/// A machine with what it is to do, its key, its log and the rules of its role. It can't be
/// printed, so that its key isn't printed by accident.
#[derive(Drop)]
pub struct Machine {
    /// The version in which it makes its entries.
    version: u32,
    name: Name,
    role: Role,
    /// What it is to do, in order.
    actions: Vec<Deed>,
    key: LmsSecret,
    roster: Roster,
    /// SHA-256 of the roster's text.
    election: [u8; 32],
    log: Log<Sealed>,
    /// How many events the log may have.
    capacity: usize,
    rules: Rules,
    /// The number of events at which it stops.
    stop_at: Option<u32>,
    /// Whether `stop` was called.
    marked: bool,
}

impl Model for Machine {
    ghost use Rattle.polling_world.specs.Machines.{MachineState};

    ghost Value = { MachineState };

    ghost use Rattle.polling_world.specs.Kept.{IsKept};
    ghost use Rattle.polling_world.specs.Viewing.{state_of};

    ghost view = { state_of };

    ghost invariant = { λ m. IsKept (state_of m) m.election m.key.next m.capacity m.rules };
}

impl Machine {
    /// The script's machine at the place `at`, with the script's roster and the machine's unused
    /// key. It stops once its log has `stop_at` events, where there is such a number. All memory
    /// that hearing needs is taken here.
    pub fn make(
        alloc: Global,
        script: &Script,
        roster: &Roster,
        at: u32,
        key: LmsSecret,
        stop_at: Option<u32>,
    ) -> Result<Machine, Memory>
        requires lawful { IsLawful script.now }
        requires at { at < length script.now.machines }
        requires roster { roster.now.machines ≡ roster_of script.now }
        requires key { IsKeyOf script.now at key }
        ensures { IfOk result (λ machine. IsFresh script.now at stop_at machine) }
    {
        let machines = script.machines.as_slice();
        let cast = &machines[at as usize];
        let (name, actions) = copy_cast(alloc, cast)?;
        let (roster, election) = copy_roster(alloc, roster)?;
        let capacity = script.log as usize;
        let log = Log::make(alloc, at, capacity)?;
        let rules = Rules::make(alloc, cast.role, at, capacity)?;
        Ok(Machine {
            version: script.version,
            name,
            role: cast.role,
            actions,
            key,
            roster,
            election,
            log,
            capacity,
            rules,
            stop_at,
            marked: false,
        })
    }

    /// Does the next action, unless something prevents it: then the first cause is reported, and
    /// the machine stays. The entry names all that is held and that no held entry names. Its
    /// signature and its copies, one for each receiver, are made before anything changes. Running
    /// out of memory changes nothing either, and is reported last.
    pub fn act(&mut self, alloc: Global, receivers: usize) -> Result<Acted, Memory>
        requires { receivers ≤ 15 }
        ensures ok { IfOk result (λ acted. IsActed self.old receivers acted self.new) }
        ensures err { OnErr result (self.new ≡ self.old) }
    {
        let Some(deed) = self.next_action() else {
            return Ok(if self.has_stopped() {
                Acted::Stopped
            } else {
                Acted::NoMore
            });
        };
        match self.why(&deed) {
            LeftWhy::Ready => self.act_ready(alloc, receivers, deed),
            LeftWhy::Stopped => Ok(Acted::Stopped),
            LeftWhy::SupervisorNot(why) => Ok(Acted::SupervisorNot(why)),
            LeftWhy::BoothNot(why) => Ok(Acted::BoothNot(why)),
            LeftWhy::Full => Ok(Acted::Full),
            LeftWhy::StampSpent => Ok(Acted::StampSpent),
            LeftWhy::Spent => Ok(Acted::Spent),
        }
    }

    // Does the next action, which is this deed and ready to be done.
    fn act_ready(&mut self, alloc: Global, receivers: usize, deed: Deed) -> Result<Acted, Memory>
        requires receivers { receivers ≤ 15 }
        requires deed { IsDeedIn self.old.config.version deed }
        requires action { next_action self.old.config self.old.events ≡ Some deed }
        requires ready { IsReady self.old deed }
        ensures ok { IfOk result (λ acted. IsActed self.old receivers acted self.new) }
        ensures err { OnErr result (self.new ≡ self.old) }
    {
        let sealed = self.next_entry(alloc, deed)?;
        if self.holds(sealed.digest()) {
            return Ok(Acted::SameDigest);
        }
        let copies = copies_of(alloc, &sealed, receivers)?;
        let number = self.sent_count();
        self.send(sealed);
        Ok(Acted::Did { number, copies })
    }

    /// Hears an entry of another machine, unless it can't be taken: then it comes back, and the
    /// machine stays. It takes no memory.
    pub fn hear(&mut self, s: Sealed) -> MachineHeard
        ensures answer { IsHeard self.old s result }
        ensures machine { self.new ≡ machine_after result s self.old }
    {
        if self.has_stopped() {
            return MachineHeard::Stopped(s);
        }
        match hear_into(&mut self.log, &mut self.rules, s) {
            Heard::Taken => MachineHeard::Taken,
            Heard::Own(back) => MachineHeard::Own(back),
            Heard::Already(back) => MachineHeard::Already(back),
            Heard::Full(back) => MachineHeard::Full(back),
        }
    }

    // Whether `hear` would take the entry.
    pub(crate) fn takes(&self, s: &Sealed) -> bool
        ensures { (answer : MachineHeard) × IsHeard self.now s.now answer
            × (IsTrue result ↔ (answer ≡ MachineHeard.Taken)) }
    {
        if self.has_stopped() {
            return false;
        }
        if s.entry().maker == self.log.owner() {
            return false;
        }
        if self.holds(s.digest()) {
            return false;
        }
        self.log.events().len() < self.capacity
    }

    /// Stops the machine: from now on it sends and hears nothing.
    pub fn stop(&mut self)
        ensures { self.new ≡ record self.old { marked = true } }
    {
        self.marked = true;
    }

    /// The first action that isn't done, if there is one, and the first cause against it. It takes
    /// no memory, and doesn't ask whether the digest of its entry is new.
    pub fn left(&self) -> Option<Left>
        ensures { IsLeft self.now result }
    {
        let deed = self.next_action()?;
        Some(Left {
            place: self.sent_count(),
            why: self.why(&deed),
        })
    }

    /// Its name.
    pub fn name(&self) -> &str
        ensures { result.now ≡ self.now.config.name }
    {
        self.name.as_str()
    }

    /// How many entries it sent.
    pub fn sent_count(&self) -> u32
        ensures { result ≡ length (sent self.now.events) }
    {
        self.key.next()
    }

    /// Whether it has stopped: it sends and hears nothing.
    pub fn stopped(&self) -> bool
        ensures { result ≡ has_stopped self.now }
    {
        self.has_stopped()
    }

    /// Its log.
    pub fn log(&self) -> &Log<Sealed>
        ensures log { result.now ≡ log_of self.now }
        ensures machine { IsMachine self.now }
    {
        &self.log
    }

    // Whether it was stopped, or has as many events as it stops at.
    pub(crate) fn has_stopped(&self) -> bool
        ensures { result ≡ has_stopped self.now }
    {
        self.marked || is_reached(self.stop_at, self.log.events().len())
    }

    // The action that it does next, if one is left.
    fn next_action(&self) -> Option<Deed>
        ensures action { result ≡ next_action self.now.config self.now.events }
        ensures deed { IfSome result (λ deed.
            IsDeedOf self.now.config.role deed × IsDeedIn self.now.config.version deed) }
    {
        self.actions.get(self.key.next() as usize).copied()
    }

    // Whether it holds an entry with the digest.
    fn holds(&self, digest: &[u8; 32]) -> bool
        ensures { IsTrue result ↔ IsBorneIn node_of_sealed (held self.now.events) digest.now }
    {
        self.log.holds(digest)
    }

    // The first cause against the deed. It takes no memory.
    fn why(&self, deed: &Deed) -> LeftWhy
        requires { IsDeedOf self.now.config.role deed.now }
        ensures { IsWhy self.now deed.now result }
    {
        if self.has_stopped() {
            return LeftWhy::Stopped;
        }
        match self.rules.may(deed, &self.log) {
            Ok(()) => {}
            Err(why) => return why,
        }
        if self.log.events().len() >= self.capacity {
            return LeftWhy::Full;
        }
        if self.log.is_stamp_spent() {
            return LeftWhy::StampSpent;
        }
        if self.key.is_spent() {
            return LeftWhy::Spent;
        }
        LeftWhy::Ready
    }

    // The entry of the deed, signed.
    fn next_entry(&self, alloc: Global, deed: Deed) -> Result<Sealed, Memory>
        requires deed { IsDeedIn self.now.config.version deed }
        requires ready { IsReady self.now deed }
        ensures { IfOk result (λ e. e ≡ next_entry self.now.config self.now.events deed) }
    {
        let next = match self.log.next(alloc) {
            Ok(next) => next,
            Err(NextFault::StampSpent) => unreachable!(),
            Err(NextFault::Memory) => return Err(AllocError),
        };
        let entry = Entry {
            version: self.version,
            election: self.election,
            maker: self.log.owner(),
            number: next.number,
            stamp: next.stamp,
            names: Names::from_vec(next.names),
            deed,
        };
        match seal(alloc, &self.roster, &self.key, entry) {
            Ok(sealed) => Ok(sealed),
            Err(SealFault::Spent) => unreachable!(),
            Err(SealFault::Memory) => Err(AllocError),
        }
    }

    // Appends the entry of the next action.
    fn send(&mut self, sealed: Sealed)
        requires going { IsGoing self.old }
        requires may { MaySend self.old.config self.old.events sealed }
        ensures { self.new ≡ with_event (Sent sealed) self.old }
    {
        self.key.advance();
        self.log.push_sent(sealed);
        note_last(&mut self.rules, self.log.events());
    }
}
