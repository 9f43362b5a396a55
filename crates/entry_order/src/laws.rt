//! The laws of the order of entries. Each is the contract of a function with an empty body.

ghost use Rattle.entry_order.specs.AcyclicOrder.{MakesAny, OrderIsExactWithoutCycles};
ghost use Rattle.entry_order.specs.Ascending.{AscendingIsUnique};
ghost use Rattle.entry_order.specs.Forms.{FormsAgree};
ghost use Rattle.entry_order.specs.Frontier.{FrontierIsUnique};
ghost use Rattle.entry_order.specs.Honest.{
  HonestEntriesAgree,
  HonestEntriesAgreeInOrderlyWorlds,
};
ghost use Rattle.entry_order.specs.Made.{MadeIsLawful, NumberedIsDistinct, PlaysAreMade};
ghost use Rattle.entry_order.specs.Merged.{MergedIsPlayedAgain, WorldsHaveOneMergedOrder};
ghost use Rattle.entry_order.specs.Receipt.{
  NamesWereHeld,
  OrderIsReceipt,
  OrderIsReceiptInOrderlyWorlds,
  StampsAreFew,
  StampsRise,
};
ghost use Rattle.entry_order.specs.Settled.{
  GraphsAreExact,
  OrderIsSettled,
  PathsAreSettled,
  SurvivorsHaveAGraph,
};
ghost use Rattle.entry_order.specs.Survivors.{
  GapsAreUnique,
  SurvivorsAreNoStrays,
  SurvivorsHaveNoCycle,
};
ghost use Rattle.std.specs.Prelude.{ℕ, List};

use crate::Knot;
/// In every world whose histories are legal and where what was got was sent, an entry precedes
/// another exactly when it was held before it.
#[tactic(auto, using(crate::proofs::Orders::one_order))]
pub fn order_is_receipt_in_orderly_worlds<T: Knot>()
    ensures { OrderIsReceiptInOrderlyWorlds T.node }
{}

/// The same after every list of steps of machines that send what a legal history asks.
#[tactic(auto, using(crate::proofs::Plays::order_is_receipt))]
pub fn order_is_receipt<T: Knot>()
    ensures { OrderIsReceipt T.node }
{}

/// In an orderly world each entry that an entry names was held by its maker when it was sent.
pub fn names_were_held<T: Knot>()
    ensures { NamesWereHeld T.node }
{}

/// In an orderly world stamps rise from what was held before to what was sent after it.
#[tactic(auto, using(crate::proofs::Orders::stamps_rise))]
pub fn stamps_rise<T: Knot>()
    ensures { StampsRise T.node }
{}

/// In an orderly world a stamp is at most how many entries were sent.
pub fn stamps_are_few<T: Knot>()
    ensures { StampsAreFew T.node }
{}

/// What is said of the order of two survivors holds in every completion: by paths among them, and
/// by the graph that they have, whose ancestors and whole places are exactly those of the entries.
#[tactic(auto, using(crate::proofs::Settled::survivors_have_a_graph))]
pub fn order_is_settled<T: Knot>()
    ensures paths { PathsAreSettled T.node }
    ensures settled { OrderIsSettled T.node }
    ensures graph { SurvivorsHaveAGraph T.node }
    ensures exact { GraphsAreExact T.node }
{}

/// Of two survivors one can precede the other in a completion without cycles exactly if it does so
/// among the survivors, or some gap is in the other's past and not in its own; and it does in each such
/// completion exactly if it does among them.
pub fn order_is_exact_without_cycles<T: Knot>()
    ensures { (make : List (List ℕ) → List ℕ → T) → MakesAny T.node make →
        OrderIsExactWithoutCycles T.node }
{}

/// Any entries that were sent in an orderly world have no stray and no fork, and what is said of
/// their order is what its machines held.
pub fn honest_entries_agree_in_orderly_worlds<T: Knot>()
    ensures { HonestEntriesAgreeInOrderlyWorlds T.node }
{}

/// Any entries that an honest place sent have no stray and no fork, and what is said of their order
/// is what its machines held.
pub fn honest_entries_agree<T: Knot>()
    ensures { HonestEntriesAgree T.node }
{}

/// Every world has its events in one order by logical clock, and in no other.
#[tactic(auto, using(crate::proofs::MergedOrder::worlds_have_one_merged_order))]
pub fn worlds_have_one_merged_order<T: Knot>()
    ensures { WorldsHaveOneMergedOrder T.node }
{}

/// The events of an orderly world, sorted by logical clock, can be played again and give its
/// histories.
#[tactic(auto, using(crate::proofs::Merged::merged_is_played_again))]
pub fn merged_is_played_again<T: Knot>()
    ensures { MergedIsPlayedAgain T.node }
{}

/// Three forms of being held before are one.
#[tactic(auto, using(crate::proofs::Forms::forms_agree))]
pub fn forms_agree<T: Knot>()
    ensures { FormsAgree T.node }
{}

/// After any steps each entry was its machine's next when it was sent.
#[tactic(auto, using(crate::proofs::MadePlays::plays_are_made))]
pub fn plays_are_made<T: Knot>()
    ensures { PlaysAreMade T.node }
{}

/// What is made of its number, its stamp and the frontier is what a legal history asks, whatever
/// the rules allow.
#[tactic(auto, using(crate::proofs::Made::made_is_lawful))]
pub fn made_is_lawful<T: Knot>()
    ensures { (made : ℕ → ℕ → ℕ → List (List ℕ) → T) → MadeIsLawful T.node made }
{}

/// Where a digest reports its entry's maker and number, different entries of a world have different
/// digests.
pub fn numbered_is_distinct<T: Knot>()
    ensures { NumberedIsDistinct T.node }
{}

/// A list is the ascending list of some digests exactly when it rises and has those members.
pub fn ascending_is_unique()
    ensures { AscendingIsUnique }
{}

/// A list is the frontier exactly when it rises and has the digests that an entry has and none
/// names.
pub fn frontier_is_unique<T: Knot>()
    ensures { FrontierIsUnique T.node }
{}

/// A list is the gaps exactly when it rises and has the digests that an entry names and none has.
pub fn gaps_are_unique<T: Knot>()
    ensures { GapsAreUnique T.node }
{}

/// The survivors are the given entries that are no strays, and none of them is its own ancestor.
pub fn survivors_are_no_strays<T: Knot>()
    ensures exactly { SurvivorsAreNoStrays T.node }
    ensures no_cycle { SurvivorsHaveNoCycle T.node }
{}
