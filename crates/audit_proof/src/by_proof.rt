//! Checking a rule by a proof.
ghost use Rattle.std.specs.Prelude.{◌≡◌, length};
ghost use Rattle.rule_language.specs.Forms.{tree_of};
ghost use Rattle.audit_proof.specs.Lines.{IsProofOf};
ghost use Rattle.audit_proof.specs.Answers.{IsCheckAnswer, verdict_of};

use crate::fault::{CheckFault, Verdict};
use crate::kinds::Kinds;
use crate::listing::Listing;
use crate::proof::Proof;
use crate::tables::Tables;
use entry_order::Three;
use precedence::Arrows;
use rule_language::{Row, Rule};
use rule_meaning::judging::value;
use rule_meaning::scene::Scene;
use rule_meaning::scope::Scope;
use rule_meaning::width::is_too_wide;
use std::alloc::Global;

/// Checks a rule by a proof that was read for this graph, of which these are the rows.
///
/// # Errors
///
/// `TooWide` exactly when judging answers it too, or `Memory`.
#[tactic(auto, using(crate::proofs::Listings::by_listing))]
pub fn check<A: Arrows>(
    alloc: Global,
    rule: &Rule,
    rows: &[Row],
    graph: &A,
    proof: &Proof,
) -> Result<Verdict, CheckFault>
    requires rows { length rows.now ≡ (A.graph graph.now).count }
    requires proof { IsProofOf (A.graph graph.now) proof.now }
    ensures { IsCheckAnswer rows.now (A.graph graph.now).ragged proof.now
        (tree_of rule.now.body) result }
{
    if is_too_wide(&rule.body, 1, rows) {
        return Err(CheckFault::TooWide);
    }
    let listing = Listing::make(alloc, graph, proof.lines())?;
    let kinds = Kinds::make(alloc, rows)?;
    let scene = Scene {
        rows,
        known: Tables { kinds, listing },
    };
    Ok(verdict_of(value(&rule.body, &Scope::Empty, &scene)))
}

/// The verdict that a value is.
fn verdict_of(value: Three) -> Verdict
    ensures { result ≡ verdict_of value }
{
    match value {
        Three::True => Verdict::Kept,
        Three::Unknown => Verdict::Unsettled,
        Three::False => Verdict::Broken,
    }
}
