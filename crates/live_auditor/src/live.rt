//! An audit that goes on while entries come.
ghost use Rattle.std.specs.Prelude.{◌≡◌, ℕ, [], map, IfNone, IfOk, IfSome};
ghost use Rattle.rule_language.specs.Forms.{rule_tree};
ghost use Rattle.live_auditor.specs.Adding.{
  Becomes,
  HasRoomFor,
  IsAddAnswer,
  IsOfSameAudit,
  IsTooWideOver,
};
ghost use Rattle.live_auditor.specs.Live.{IsLive, IsOfMachine};

use crate::base::{Base, summed_with};
use crate::fresh::{Fresh, LiveFault};
use crate::seen::{Seen, seen_among};
use crate::summary::{Summed, summed_of};
use crate::widths::first_too_wide;
use entry_format::Sealed;
use evidence::entries_give_one_graph;
use roster::Roster;
use rule_engine::{Unjudged, Verdict};
use rule_language::Rule;
use std::alloc::{AllocError, Global};
use std::marker::Model;

/// Out of memory.
pub type Memory = AllocError;

/// The most entries.
const MOST_ADDED: usize = 1_024;

/// An audit by given rules of the entries that were added so far, in whatever order they came.
#[derive(Drop)]
pub struct Live {
    roster: Roster,
    rules: Vec<Rule>,
    /// The entries that were added, each once, in the order in which they came.
    added: Vec<Sealed>,
    summed: Summed,
    /// Those with lower stamps than the last few.
    base: Base,
}

impl Model for Live {
    ghost use Rattle.std.specs.Coded.{codes};
    ghost use Rattle.rule_language.specs.contracts.formula.Formula as formula;
    ghost use Rattle.live_auditor.specs.Live.{LiveState};
    ghost use Rattle.live_auditor.specs.inside.Base.{IsBase};
    ghost use Rattle.live_auditor.specs.inside.Kept.{IsKept};
    ghost use Rattle.live_auditor.specs.inside.KeptOf.{kept_of};

    ghost Value = { LiveState };

    ghost coded = { Prim.hlevel (codes, formula.the_row.coded) };

    ghost view = { λ l. record {
      machines = l.roster.machines;
      rules = l.rules.items;
      added = l.added.items;
      summary = l.summed.summary;
    } };

    ghost invariant = { λ l. IsKept (record {
      machines = l.roster.machines;
      rules = l.rules.items;
      added = l.added.items;
      summary = l.summed.summary;
    }) (kept_of l.summed.survivors)
        × IsBase l.roster.machines l.rules.items l.added.items l.base };
}

impl Live {
    /// The audit of no entry, under the roster, by these rules.
    pub fn make(alloc: Global, roster: &Roster, rules: Vec<Rule>) -> Result<Live, Memory>
        ensures machines { IfOk result (λ live. live.machines ≡ roster.now.machines) }
        ensures rules { IfOk result (λ live. live.rules ≡ rules.items) }
        ensures empty { IfOk result (λ live. live.added ≡ []) }
        ensures kept { IfOk result IsLive }
    {
        let roster = roster.copy(alloc)?;
        let read = rules.as_slice();
        match summed_of(alloc, &roster, read, Vec::new(alloc)) {
            Ok(summed) => {
                let base = Base::empty(alloc, &roster, read)?;
                Ok(Live {
                    roster,
                    rules,
                    added: Vec::new(alloc),
                    summed,
                    base,
                })
            }
            Err(_) => Err(AllocError),
        }
    }

    /// Adds an entry that was unsealed with the roster.
    ///
    /// # Errors
    ///
    /// The first cause that applies, in the order of `LiveFault`.
    pub fn add(&mut self, alloc: Global, s: Sealed) -> Result<Fresh, LiveFault>
        requires { IsOfMachine self.old.machines s }
        ensures answer { IsAddAnswer self.old s result }
        ensures becomes { Becomes self.old s result self.new }
        ensures same { IsOfSameAudit self.old self.new }
        ensures kept { IsLive self.new }
    {
        match seen_among(self.added.as_slice(), &s) {
            Seen::Known => Ok(Fresh::Known),
            Seen::Collides => Err(LiveFault::Collision(s)),
            Seen::New if self.added.len() == MOST_ADDED => Err(LiveFault::TooMany(s)),
            Seen::New => self.add_new(alloc, s),
        }
    }

    /// Adds an entry whose digest no added one has.
    fn add_new(&mut self, alloc: Global, s: Sealed) -> Result<Fresh, LiveFault>
        requires machine { IsOfMachine self.old.machines s }
        requires room { HasRoomFor self.old.added s }
        ensures answer { IsAddAnswer self.old s result }
        ensures becomes { Becomes self.old s result self.new }
        ensures same { IsOfSameAudit self.old self.new }
        ensures kept { IsLive self.new }
    {
        self.added.reserve(1)?;
        let rules = self.rules.as_slice();
        let added = self.added.as_slice();
        match summed_with(
            alloc,
            &self.roster,
            rules,
            added,
            &self.summed,
            &mut self.base,
            &s,
        ) {
            Ok(summed) => {
                self.added.push_reserved(s);
                self.summed = summed;
                Ok(Fresh::New)
            }
            Err(Unjudged::TooWide { place }) => Err(LiveFault::TooWide(s, place)),
            Err(Unjudged::Memory) => Err(LiveFault::Memory),
        }
    }

    /// The place, counted from 0, of the first of these rules that is too wide over the survivors.
    /// The audit may be by others, or by none.
    pub fn first_too_wide(&self, rules: &[Rule]) -> Option<usize>
        ensures some { IfSome result
            (IsTooWideOver self.now.machines (map rule_tree rules.now) self.now.added) }
        ensures none { IfNone result ((place : ℕ) →
            ¬ IsTooWideOver self.now.machines (map rule_tree rules.now) self.now.added place) }
    {
        entries_give_one_graph();
        first_too_wide(rules, self.summed.survivors.rows.as_slice())
    }

    /// How many entries survive: all that were added but the strays.
    pub fn survivors(&self) -> usize
        ensures value { result ≡ self.now.summary.survivors }
        ensures kept { IsLive self.now }
    {
        self.summed.summary.survivors
    }

    /// The digests that a survivor names and none has, ascending.
    pub fn gaps(&self) -> &[[u8; 32]]
        ensures value { result.now ≡ self.now.summary.gaps }
        ensures kept { IsLive self.now }
    {
        self.summed.summary.gaps.as_slice()
    }

    /// The digests of the entries that name one whose stamp isn't lower than their own, ascending.
    pub fn strays(&self) -> &[[u8; 32]]
        ensures value { result.now ≡ self.now.summary.strays }
        ensures kept { IsLive self.now }
    {
        self.summed.summary.strays.as_slice()
    }

    /// Each maker and number of two or more survivors, ascending.
    pub fn forks(&self) -> &[(u32, u32)]
        ensures value { result.now ≡ self.now.summary.forks }
        ensures kept { IsLive self.now }
    {
        self.summed.summary.forks.as_slice()
    }

    /// What is answered of the rules, one verdict for each, in their order.
    pub fn verdicts(&self) -> &[Verdict]
        ensures value { result.now ≡ self.now.summary.verdicts }
        ensures kept { IsLive self.now }
    {
        self.summed.summary.verdicts.as_slice()
    }
}
