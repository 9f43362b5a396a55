//! What a proof is worth, whoever made it. Each law is the contract of a function with an empty
//! body.
ghost use Rattle.rule_language.specs.declared.row.Row.{Row as RowOf};
ghost use Rattle.audit_proof.specs.Canonical.{OneTextIsCanonical};
ghost use Rattle.audit_proof.specs.OneReading.{TextsAreReadInOneWay};
ghost use Rattle.audit_proof.specs.Reads.{TextsOfProofsAreRead};
ghost use Rattle.audit_proof.specs.Trust.{
  FullProofsSayAll,
  LinesListAncestors,
  ProofsAreRight,
  ProofsSayNoMore,
  WrittenProofsSayAll,
};

use entry_order::Knot;

/// A line lists exactly the ancestors of its entry. So a rule has by a proof the value that it has
/// by the survivors' graph, or none; and where every survivor has a line it has that value.
pub fn proofs_say_no_more()
    ensures lists { LinesListAncestors }
    ensures less { ProofsSayNoMore }
    ensures full { FullProofsSayAll }
{}

/// Every graph has one canonical text, which `prove` writes where it isn't too long.
#[tactic(auto, using(crate::proofs::Canonicals::one_text_is_canonical))]
pub fn one_text_is_canonical()
    ensures { OneTextIsCanonical }
{}

/// A text is read as a proof exactly if it is the text of that proof: its head, and a line for each
/// of the proof's.
pub fn texts_of_proofs_are_read()
    ensures { TextsOfProofsAreRead }
{}

/// Of a text there is one answer.
#[tactic(auto, using(crate::proofs::ReadTexts::proofs_are_read_in_one_way))]
pub fn proofs_are_read_in_one_way()
    ensures { TextsAreReadInOneWay }
{}

/// What `prove` writes is accepted by `read_proof`, and by it a rule has the value that it has by
/// the survivors' graph.
#[tactic(auto, using(crate::proofs::Canonicals::written_proofs_say_all))]
pub fn written_proofs_say_all()
    ensures { WrittenProofsSayAll }
{}

/// A rule that is true by a proof holds in every completion of the survivors, and one that is false
/// by a proof holds in none.
pub fn proofs_are_right<T: Knot>()
    ensures { (row : T → RowOf) → ProofsAreRight T.node row }
{}
