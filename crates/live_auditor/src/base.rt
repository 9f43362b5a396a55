//! What is kept of the entries with lower stamps, so that others can be put in between.
ghost use Rattle.std.specs.Prelude.{◌≡◌, ◌≤◌, ◌++◌, ◌∷◌, [], map, nat_lt};
ghost use Rattle.std.specs.Prelude.{IfErr, IfOk, OnOk};
ghost use Rattle.std.specs.List.{list_all};
ghost use Rattle.rule_language.specs.Forms.{rule_tree};
ghost use Rattle.live_auditor.specs.Adding.{HasRoomFor};
ghost use Rattle.live_auditor.specs.Live.{IsOfMachine};
ghost use Rattle.live_auditor.specs.inside.Base.{IsBase};
ghost use Rattle.live_auditor.specs.inside.Stamps.{lower};
ghost use Rattle.live_auditor.specs.inside.Kept.{AreGiven, IsKept, IsSummed, live_of};
ghost use Rattle.live_auditor.specs.inside.KeptOf.{kept_of};
ghost use Rattle.live_auditor.specs.inside.Unsummed.{IsUnsummed};

use crate::borrowed::{Borrowed, borrowed_with};
use crate::late::summed_from;
use crate::summary::{Summed, summed_of};
use entry_format::Sealed;
use entry_order::Knot;
use roster::Roster;
use rule_engine::Unjudged;
use rule_language::Rule;
use std::alloc::{AllocError, Global};

/// How many entries come after the base of an audit when it is found again.
const MANY_LATER: usize = 24;

/// The most entries after which one is late.
const FEW_LATER: usize = 12;

/// The entries with stamps below a bound: what is said of them, and their survivors.
#[derive(Drop)]
pub(crate) struct Base {
    pub(crate) below: u32,
    pub(crate) summed: Summed,
}

impl Base {
    /// The base of no entries.
    pub(crate) fn empty(alloc: Global, roster: &Roster, rules: &[Rule]) -> Result<Base, AllocError>
        ensures low { IfOk result (λ base. base.below ≡ 0) }
        ensures ok { IfOk result (λ base. IsSummed roster.now.machines (map rule_tree rules.now)
            [] base.summed.summary (kept_of base.summed.survivors)) }
    {
        // No rule is too wide over no entry.
        match summed_of(alloc, roster, rules, Vec::new(alloc)) {
            Ok(summed) => Ok(Base { below: 0, summed }),
            Err(_) => Err(AllocError),
        }
    }

    /// The base of those of the entries that have stamps below a bound that isn't lower.
    fn raised(
        &self,
        alloc: Global,
        roster: &Roster,
        rules: &[Rule],
        added: &[Sealed],
        below: u32,
    ) -> Result<Base, Unjudged>
        requires given { AreGiven roster.now.machines added.now }
        requires base { IsBase roster.now.machines rules.now added.now self.now }
        requires higher { self.now.below ≤ below }
        ensures bound { IfOk result (λ base. base.below ≡ below) }
        ensures ok { IfOk result (IsBase roster.now.machines rules.now added.now) }
    {
        let entries = lower_of(alloc, added, below)?;
        match summed_from(alloc, roster, rules, self.below, &self.summed, entries) {
            Ok(summed) => Ok(Base { below, summed }),
            Err(fault) => Err(fault),
        }
    }
}

/// Those of the entries that have stamps below the bound, borrowed.
fn lower_of<'a>(
    alloc: Global,
    added: &'a [Sealed],
    below: u32,
) -> Result<Vec<Borrowed<'a>>, AllocError>
    ensures { IfOk result (λ entries. entries.items ≡ lower below added.now) }
{
    let mut entries = Vec::new(alloc);
    for entry in added {
        if entry.stamp() < below {
            entries.push(Borrowed::of(entry))?;
        }
    }
    Ok(entries)
}

/// Sees to it that the stamp isn't below the base. Where the stamp is one of the last few, and many
/// entries come after the base, the base is raised.
fn move_base(
    alloc: Global,
    roster: &Roster,
    rules: &[Rule],
    added: &[Sealed],
    stamp: u32,
    base: &mut Base,
) -> Result<(), AllocError>
    requires given { AreGiven roster.now.machines added.now }
    requires base { IsBase roster.now.machines rules.now added.now base.old }
    ensures above { OnOk result (base.new.below ≤ stamp) }
    ensures kept { IsBase roster.now.machines rules.now added.now base.new }
{
    if stamp < base.below {
        *base = Base::empty(alloc, roster, rules)?;
        return Ok(());
    }
    let higher = count_from(added, stamp);
    if higher == 0 || higher > FEW_LATER || count_from(added, base.below) < MANY_LATER {
        return Ok(());
    }
    let below = bound_of(alloc, added, FEW_LATER + 1)?;
    if below < base.below || stamp < below {
        return Ok(());
    }
    match base.raised(alloc, roster, rules, added, below) {
        Ok(found) => {
            *base = found;
            Ok(())
        }
        Err(Unjudged::TooWide { .. }) => Ok(()),
        Err(Unjudged::Memory) => Err(AllocError),
    }
}

/// How many of the entries have stamps from this one on.
fn count_from(added: &[Sealed], stamp: u32) -> usize {
    added.iter().filter(|f| f.entry().stamp >= stamp).count()
}

/// The least of the highest stamps of so many of the entries, or 0 where there aren't so many.
fn bound_of(alloc: Global, added: &[Sealed], highest: usize) -> Result<u32, AllocError> {
    let mut stamps = Vec::with_capacity(alloc, added.len())?;
    for entry in added {
        stamps.push(entry.entry().stamp)?;
    }
    stamps.sort_unstable();
    match stamps.len().checked_sub(highest) {
        Some(place) if place < stamps.len() => Ok(stamps[place]),
        _ => Ok(0),
    }
}

/// Whether the stamp is higher than that of each entry.
fn is_latest(added: &[Sealed], stamp: u32) -> bool
    ensures { result ≡ list_all (λ f. nat_lt f.entry.stamp stamp) added.now }
{
    added.iter().all(|f| f.entry().stamp < stamp)
}

/// What is said of the entries and this one: by what is said of them where it comes last, and by
/// the base otherwise.
pub(crate) fn summed_with(
    alloc: Global,
    roster: &Roster,
    rules: &[Rule],
    added: &[Sealed],
    summed: &Summed,
    base: &mut Base,
    entry: &Sealed,
) -> Result<Summed, Unjudged>
    requires kept { IsKept (live_of roster.now.machines rules.now added.now summed.now.summary)
        (kept_of summed.now.survivors) }
    requires base { IsBase roster.now.machines rules.now added.now base.old }
    requires machine { IsOfMachine roster.now.machines entry.now }
    requires room { HasRoomFor added.now entry.now }
    ensures ok { IfOk result (λ summed. IsSummed roster.now.machines (map rule_tree rules.now)
        (added.now ++ entry.now ∷ []) summed.summary (kept_of summed.survivors)) }
    ensures err { IfErr result (IsUnsummed roster.now.machines (map rule_tree rules.now)
        (added.now ++ entry.now ∷ [])) }
    ensures late { OnOk result (base.new.below ≤ entry.now.entry.stamp) }
    ensures base { IsBase roster.now.machines rules.now added.now base.new }
{
    let stamp = entry.entry().stamp;
    move_base(alloc, roster, rules, added, stamp, base)?;
    let entries = borrowed_with(alloc, added, entry)?;
    if is_latest(added, stamp) {
        return summed_from(alloc, roster, rules, stamp, summed, entries);
    }
    summed_from(alloc, roster, rules, base.below, &base.summed, entries)
}
