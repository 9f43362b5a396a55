//! Entries that are put after those of which is known what is said.
ghost use Rattle.std.specs.Prelude.{◌≡◌, ◌++◌, ◌∷◌, [], length, map, nat_le};
ghost use Rattle.std.specs.Prelude.{IfErr, IfOk, IfSome, IsTrue};
ghost use Rattle.std.specs.List.Sorted.{IsPermutation};
ghost use Rattle.rule_language.specs.Forms.{rule_tree};
ghost use Rattle.rule_engine.specs.Judged.{AreJudged};
ghost use Rattle.survivor_rows.specs.Rows.{HaveMakers};
ghost use Rattle.live_auditor.specs.inside.Following.{FollowOf, IsPushed};
ghost use Rattle.live_auditor.specs.inside.Grown.{IsGrowth};
ghost use Rattle.live_auditor.specs.inside.Kept.{AreGiven, IsSummed, nodes_by};
ghost use Rattle.live_auditor.specs.inside.KeptOf.{kept_of};
ghost use Rattle.live_auditor.specs.inside.Stamps.{from_stamp, lower};
ghost use Rattle.live_auditor.specs.inside.Unsummed.{IsUnsummed};

use crate::appended::{Named, apart_names};
use crate::borrowed::Borrowed;
use crate::growth::{gaps_with, verdicts_by};
use crate::summary::{Summary, Summed, summed_of};
use crate::survivors::{Link, Survivors};
use auditor::ShowsSealed;
use entry_format::Sealed;
use entry_order::Knot;
use roster::Roster;
use rule_engine::Unjudged;
use rule_language::{Row, Rule};
use std::alloc::{AllocError, Global};
use survivor_rows::row_of;

/// The most entries that are put after others.
const MOST_LATER: usize = 32;

/// The most gaps with which several are.
const MOST_GAPS: usize = 256;

/// The survivors of some entries and others after them.
#[derive(Drop)]
pub(crate) struct Tail {
    pub(crate) survivors: Survivors,
    pub(crate) gaps: Vec<[u8; 32]>,
    /// All have stamps below this.
    pub(crate) above: u64,
}

impl Tail {
    /// The survivors alone of entries with stamps below the bound.
    fn after(alloc: Global, below: u32, first: &Summed) -> Result<Tail, AllocError>
        ensures kept { IfOk result (λ tail. kept_of tail.survivors ≡ kept_of first.now.survivors) }
        ensures gaps { IfOk result (λ tail. tail.gaps.items ≡ first.now.summary.gaps) }
        ensures above { IfOk result (λ tail. tail.above ≡ below) }
    {
        Ok(Tail {
            survivors: first.survivors.copy(alloc)?,
            gaps: Vec::from_slice(alloc, first.summary.gaps())?,
            above: below as u64,
        })
    }

    /// Puts the entry, which has this row, after the others, and answers whether that was possible
    /// without a change of what is said of them.
    fn push(&mut self, alloc: Global, entry: &Sealed, row: Row) -> Result<bool, AllocError>
        ensures { IfOk result (λ pushed. IsTrue pushed →
            IsPushed self.old entry.now row self.new) }
    {
        let stamp = entry.entry().stamp as u64;
        if stamp < self.above {
            return Ok(false);
        }
        let Some(named) = apart_names(alloc, &self.gaps, &self.survivors, entry)? else {
            return Ok(false);
        };
        let Named { parents, missing } = named;
        self.gaps = gaps_with(alloc, &self.gaps, missing.as_slice())?;
        let link = Link::to(alloc, parents, missing.as_slice())?;
        self.survivors.add(*entry.digest(), row, link)?;
        self.above = stamp + 1;
        Ok(true)
    }
}

/// Those of the entries that have no stamps below the bound, ascending by stamp.
fn later_of<'a>(
    alloc: Global,
    entries: &[Borrowed<'a>],
    below: u32,
) -> Result<Vec<Borrowed<'a>>, AllocError>
    ensures { IfOk result (λ later. IsPermutation (from_stamp below entries.now) later.items) }
{
    let mut later = Vec::new(alloc);
    for entry in entries {
        if entry.stamp() >= below {
            later.push(entry.again())?;
        }
    }
    later.sort_unstable_by_key(|entry| entry.stamp());
    Ok(later)
}

/// The survivors of entries with stamps below the bound, and after them these, if that is possible
/// without a change of what is said of others.
fn tail_of(
    alloc: Global,
    roster: &Roster,
    below: u32,
    first: &Summed,
    later: &[Borrowed<'_>],
) -> Result<Option<Tail>, AllocError>
    requires { HaveMakers roster.now.machines later.now }
    ensures { IfOk result (λ found. IfSome found
        (FollowOf roster.now.machines below first.now later.now)) }
{
    let mut tail = Tail::after(alloc, below, first)?;
    for entry in later {
        let sealed = entry.sealed();
        if !tail.push(alloc, sealed, row_of(roster, sealed))? {
            return Ok(None);
        }
    }
    Ok(Some(tail))
}

/// What is said of the survivors that were there first and of those after them.
fn judged_after(
    alloc: Global,
    rules: &[Rule],
    first: &Summed,
    tail: Tail,
) -> Result<Option<Summed>, AllocError>
    requires { IsGrowth tail.survivors.rows.items tail.survivors.links.items
        (length first.now.survivors.links.items) (map rule_tree rules.now)
        first.now.summary.verdicts }
    ensures said { IfOk result (λ found. IfSome found (λ summed. summed.summary ≡ record {
      survivors = length tail.survivors.links.items;
      gaps = tail.gaps.items;
      strays = first.now.summary.strays;
      forks = first.now.summary.forks;
      verdicts = summed.summary.verdicts;
    })) }
    ensures judged { IfOk result (λ found. IfSome found (λ summed.
        AreJudged tail.survivors.rows.items (nodes_by tail.survivors.links.items)
        (map rule_tree rules.now) summed.summary.verdicts)) }
    ensures kept { IfOk result (λ found. IfSome found (λ summed.
        kept_of summed.survivors ≡ kept_of tail.survivors)) }
{
    let said = &first.summary;
    let count = first.survivors.links.len();
    let rows = tail.survivors.rows.as_slice();
    let links = tail.survivors.links.as_slice();
    let Some(verdicts) = verdicts_by(alloc, rules, rows, links, count, said.verdicts())? else {
        return Ok(None);
    };
    Ok(Some(Summed {
        summary: Summary {
            survivors: tail.survivors.links.len(),
            gaps: tail.gaps,
            strays: Vec::from_slice(alloc, &said.strays)?,
            forks: Vec::from_slice(alloc, &said.forks)?,
            verdicts,
        },
        survivors: tail.survivors,
    }))
}

/// What is said of the entries, by what is said of those with stamps below the bound, if only few
/// come after these, and none of them changes what is said of others.
fn summed_after(
    alloc: Global,
    roster: &Roster,
    rules: &[Rule],
    below: u32,
    first: &Summed,
    entries: &[Borrowed<'_>],
) -> Result<Option<Summed>, AllocError>
    requires given { AreGiven roster.now.machines entries.now }
    requires first { IsSummed roster.now.machines (map rule_tree rules.now)
        (lower below entries.now) first.now.summary (kept_of first.now.survivors) }
    ensures { IfOk result (λ found. IfSome found (λ summed. IsSummed roster.now.machines
        (map rule_tree rules.now) entries.now summed.summary (kept_of summed.survivors))) }
{
    let later = later_of(alloc, entries, below)?;
    if later.len() > MOST_LATER || later.len() > 1 && first.summary.gaps.len() > MOST_GAPS {
        return Ok(None);
    }
    match tail_of(alloc, roster, below, first, later.as_slice())? {
        Some(tail) => judged_after(alloc, rules, first, tail),
        None => Ok(None),
    }
}

/// What is said of the entries, by what is said of those with stamps below the bound where that
/// serves. Otherwise everything is found again.
pub(crate) fn summed_from(
    alloc: Global,
    roster: &Roster,
    rules: &[Rule],
    below: u32,
    first: &Summed,
    entries: Vec<Borrowed<'_>>,
) -> Result<Summed, Unjudged>
    requires given { AreGiven roster.now.machines entries.items }
    requires first { IsSummed roster.now.machines (map rule_tree rules.now)
        (lower below entries.items) first.now.summary (kept_of first.now.survivors) }
    ensures ok { IfOk result (λ summed. IsSummed roster.now.machines (map rule_tree rules.now)
        entries.entry.items summed.summary (kept_of summed.survivors)) }
    ensures err { IfErr result (IsUnsummed roster.now.machines (map rule_tree rules.now)
        entries.entry.items) }
{
    match summed_after(alloc, roster, rules, below, first, entries.as_slice())? {
        Some(summed) => Ok(summed),
        None => summed_of(alloc, roster, rules, entries),
    }
}
