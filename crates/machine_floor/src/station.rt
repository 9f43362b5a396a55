//! A machine with the ends of its links.
ghost use Rattle.std.specs.Prelude.{◌≡◌, ◌≢◌, ◌<◌, ◌-◌, ◌++◌, [], true, false, length, List, All};
ghost use Rattle.std.specs.Prelude.{◌≤◌, IfOk, OnErr, slice_index_or, vec_capacity};
ghost use Rattle.log_lock.specs.declared.story.Tick.{Tick};
ghost use Rattle.broadcast_queues.specs.Ends.{InView, IsInOf};
ghost use Rattle.entry_format.specs.SealedEntry.{SealedEntry};
ghost use Rattle.polling_world.specs.declared.acted.Acted.{Acted};
ghost use Rattle.polling_world.specs.Acting.{IsActed};
ghost use Rattle.machine_floor.specs.Fresh.{lose_lines_of};
ghost use Rattle.machine_floor.specs.inside.Beginning.{IsBeginning, begun};
ghost use Rattle.machine_floor.specs.Stations.{IsOfLinks, IsStation, made_of};
ghost use Rattle.finished_floor.specs.Done.{did};
ghost use Rattle.machine_floor.specs.Turns.{cause_of, EarDid, HandDid, HasLooked};

use broadcast_queues::{Link, LinkIn, LinkOut, Parcel};
use election_script::{Lose, Script};
use finished_floor::{Loss, LossWhy};
use floor_links::{Broadcast, Links, send_all};
use log_lock::{Story, Tick};
use polling_world::{Acted, Machine, MachineHeard, Memory};
use std::alloc::Global;
use std::marker::Model;
use std::sync::Wait;

/// More losses than a station can have: 16 for each of 4,096 entries, and 4,096 for each sender.
const MOST_LOSSES: usize = 131_072;

/// The value behind one machine's lock: the machine, the ends of its links, what was lost, and
/// which pass did each event. Its type keeps that each link out has what was sent and isn't lost on
/// it, that what was got is what was taken and isn't lost, that each loss has its cause, and that
/// there is one tick for each event.
#[derive(Drop)]
pub struct Station {
    machine: Machine,
    /// How many entries a link may hold.
    link: u32,
    /// The script's lines on what is lost.
    loses: Vec<Lose>,
    /// The ends that put, by receivers. The one to the machine itself isn't used.
    outs: Vec<LinkOut<Broadcast>>,
    /// The ends that take, by senders.
    inns: Vec<LinkIn<Broadcast>>,
    losses: Vec<Loss>,
    ticks: Vec<Tick>,
}

/// What a station holds, once no thread works it any more.
#[derive(Drop)]
pub(crate) struct Parts {
    pub(crate) machine: Machine,
    pub(crate) outs: Vec<LinkOut<Broadcast>>,
    pub(crate) inns: Vec<LinkIn<Broadcast>>,
    pub(crate) losses: Vec<Loss>,
    pub(crate) ticks: Vec<Tick>,
}

impl Model for Station {
    ghost use Rattle.std.specs.Prelude.{◌≤◌, vec_capacity};
    ghost use Rattle.machine_floor.specs.Stations.{StationState, IsStation};

    ghost Value = { StationState };

    ghost use Rattle.machine_floor.specs.Viewing.{state_of};

    ghost view = { state_of };

    ghost invariant = { λ s. IsStation (state_of s) × (131072 ≤ vec_capacity s.losses)
        × (s.machine.config.log ≤ vec_capacity s.ticks) };
}

impl Story<Station> for Station {
    ghost use Rattle.std.specs.Prelude.{[], ◌∷◌};
    ghost use Rattle.machine_floor.specs.Stations.{made_of};

    ghost brand = { λ s. made_of s ∷ [] };

    ghost story = { λ s. s.ticks };
}

impl Station {
    /// The station of a machine of the script, with the ends of its links, before anything
    /// happened.
    pub(crate) fn new(
        alloc: Global,
        script: &Script,
        machine: Machine,
        outs: Vec<LinkOut<Broadcast>>,
        inns: Vec<LinkIn<Broadcast>>,
    ) -> Result<Station, Memory>
        requires { IsBeginning script.now machine outs.items inns.items }
        ensures { IfOk result (λ s. s ≡ begun script.now machine outs.items inns.items) }
    {
        let own = machine.log().owner();
        let (loses, losses, ticks) = new_lists(alloc, script, own)?;
        Ok(Station {
            machine,
            link: script.link,
            loses,
            outs,
            inns,
            losses,
            ticks,
        })
    }

    /// Takes it apart.
    pub(crate) fn into_parts(self) -> Parts
        ensures is { IsStation self }
        ensures machine { result.machine ≡ self.machine }
        ensures outs { result.outs.items ≡ self.outs }
        ensures inns { result.inns.items ≡ self.inns }
        ensures losses { result.losses.items ≡ self.losses }
        ensures ticks { result.ticks.items ≡ self.ticks }
    {
        let Station {
            machine,
            link: _,
            loses: _,
            outs,
            inns,
            losses,
            ticks,
        } = self;
        Parts {
            machine,
            outs,
            inns,
            losses,
            ticks,
        }
    }

    /// Its machine.
    pub fn machine(&self) -> &Machine
        ensures { result.now ≡ self.now.machine }
    {
        &self.machine
    }

    /// What was lost on its links out, and what it took and didn't hear.
    pub fn losses(&self) -> &[Loss]
        ensures { result.now ≡ self.now.losses }
    {
        self.losses.as_slice()
    }

    /// Does the machine's next action, unless something prevents it, and sends its entry to all
    /// other machines, in ascending order. `Ok(false)` comes exactly when `act` on the machine
    /// answers otherwise than `Did` or running out of memory. It may wait for the links' other
    /// ends.
    pub fn hand_turn<R: Wait>(
        &mut self,
        rt: &R,
        alloc: Global,
        links: &Links,
    ) -> Result<bool, Memory>
        requires { IsOfLinks links.now (made_of self.old) }
        ensures acted { IfOk result (λ yes. (acted : Acted)
            × IsActed self.old.machine (length self.old.outs - 1) acted self.new.machine
            × (yes ≡ did acted)) }
        ensures did { IfOk result (λ yes. yes ≡ true → HandDid self.old self.new) }
        ensures none { IfOk result (λ yes. yes ≡ false → self.new ≡ self.old) }
        ensures err { OnErr result (self.new ≡ self.old) }
    {
        let count = self.outs.len();
        match self.machine.act(alloc, count - 1)? {
            Acted::Did { number, copies } => {
                let own = self.machine.log().owner();
                let what = self.ticks.len() as u64;
                self.ticks.push_reserved(Tick { pass: 0, what });
                send_all(
                    rt,
                    links,
                    own,
                    number,
                    copies,
                    self.loses.as_slice(),
                    &mut self.outs,
                    &mut self.losses,
                );
                Ok(true)
            }
            _ => Ok(false),
        }
    }

    // Takes one entry from the link from machine `from`, if there is one, and hears it. Returns
    // whether there was one.
    fn ear_one<R: Wait>(&mut self, rt: &R, link: &Link<Broadcast>, from: usize) -> bool
        requires from { from < length self.old.inns }
        requires other { from ≢ self.old.machine.config.number }
        requires end { (d : InView SealedEntry) →
            IsInOf link.now (slice_index_or self.old.inns from d) }
        requires sender { link.now.from ≡ from }
        ensures { EarDid from result self.old self.new }
    {
        let Some(parcel) = link.take(rt, &mut self.inns[from]) else {
            return false;
        };
        let (maker, number) = (parcel.from(), parcel.number());
        let answer = self.machine.hear(parcel.open());
        let own = self.machine.log().owner();
        match cause_of(answer) {
            None => {
                let what = self.ticks.len() as u64;
                self.ticks.push_reserved(Tick { pass: 1, what });
            }
            Some(why) => self.losses.push_reserved(Loss {
                from: maker,
                number,
                to: own,
                why,
            }),
        }
        true
    }

    /// Takes one entry from each link, in ascending order of senders, and hears it, if there is
    /// one. Returns how many it took. It takes no memory, and may wait for the links' other ends.
    pub fn ear_turn<R: Wait>(&mut self, rt: &R, links: &Links) -> u32
        requires { IsOfLinks links.now (made_of self.old) }
        ensures made { made_of self.new ≡ made_of self.old }
        ensures ticks { (more : List Tick) × (self.new.ticks ≡ self.old.ticks ++ more)
            × All (λ (t : Tick). t.pass ≡ 1) more }
        ensures looked { HasLooked self.old.machine.config.number (length self.old.inns)
            self.old self.new result }
    {
        let own = self.machine.log().owner() as usize;
        let count = self.inns.len();
        let mut heard = 0;
        for from in 0..count {
            if from != own {
                let took = self.ear_one(rt, links.link(from, own), from);
                heard += u32::from(took);
            }
        }
        heard
    }
}

// Why an entry that was given to a machine isn't taken.
fn cause_of(answer: MachineHeard) -> Option<LossWhy>
    ensures { result ≡ cause_of answer }
{
    match answer {
        MachineHeard::Taken => None,
        MachineHeard::Stopped(_back) => Some(LossWhy::ToStopped),
        MachineHeard::Own(_back) => None,
        MachineHeard::Already(_back) => Some(LossWhy::SameDigest),
        MachineHeard::Full(_back) => Some(LossWhy::LogFull),
    }
}

// The script's lines on entries of this machine, and room for its losses and its ticks.
fn new_lists(
    alloc: Global,
    script: &Script,
    own: u32,
) -> Result<(Vec<Lose>, Vec<Loss>, Vec<Tick>), Memory>
    ensures loses { IfOk result (λ r. r.0.items ≡ lose_lines_of own script.now.loses) }
    ensures losses { IfOk result (λ r. (r.1.items ≡ []) × (131072 ≤ vec_capacity r.1)) }
    ensures ticks { IfOk result (λ r. (r.2.items ≡ []) × (script.now.log ≤ vec_capacity r.2)) }
{
    let loses = lines_of(alloc, script.loses.as_slice(), own)?;
    let losses = Vec::with_capacity(alloc, MOST_LOSSES)?;
    let ticks = Vec::with_capacity(alloc, script.log as usize)?;
    Ok((loses, losses, ticks))
}

// The lines on entries of this machine.
fn lines_of(alloc: Global, loses: &[Lose], own: u32) -> Result<Vec<Lose>, Memory>
    ensures { IfOk result (λ lines. lines.items ≡ lose_lines_of own loses.now) }
{
    let mut lines = Vec::new(alloc);
    for at in 0..loses.len() {
        if loses[at].from == own {
            lines.push(loses[at])?;
        }
    }
    Ok(lines)
}
