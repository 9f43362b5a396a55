//! Why the causes and the rules are as they are: places that do otherwise, at which a standard rule
//! fails. Each is the contract of a function with an empty body.

ghost use Rattle.booth_core.specs.declared.state.BoothNot.TheVariants.{LogNotWhole, NotAuthorised};
ghost use Rattle.honest_places.specs.Honest.{IsHonest};
ghost use Rattle.counterexamples.specs.InSpite.{FailsAtSome, IsHonestBut, own_booth};
ghost use Rattle.counterexamples.specs.Unchained.{IsHonestUnchained};
ghost use Rattle.polling_world.specs.declared.left.LeftWhy.TheVariants.{BoothNot, SupervisorNot};
ghost use Rattle.rule_language.specs.Standard.{a1_body, k2_body, p3_body, v2_body};
ghost use Rattle.supervisor_core.specs.declared.state.SupervisorNot.TheVariants.{SessionsLeft};

/// Where a booth casts over a log with gaps, an override that it never heard of may precede its
/// ballot: the rule that denies this fails.
pub fn casting_over_gaps_fails()
    ensures { FailsAtSome (IsHonestBut (BoothNot LogNotWhole)) v2_body }
{}

/// Where the supervisor closes with sessions left, a session that was authorised before the closing
/// has no end before it, as the rule on closings asks.
pub fn closing_over_sessions_fails()
    ensures { FailsAtSome (IsHonestBut (SupervisorNot SessionsLeft)) p3_body }
{}

/// Where a booth acts though no authorising names it, it may take another booth's session, and the
/// rule on activations fails.
pub fn taking_another_booths_session_fails()
    ensures { FailsAtSome (IsHonestBut (BoothNot NotAuthorised)) a1_body }
{}

/// Where the rule on activations compares the booth that the activation names, and not the one that
/// the authorising names, it fails at an honest place.
pub fn looking_for_its_own_booth_fails()
    ensures { FailsAtSome IsHonest own_booth }
{}

/// Where entries leave their maker's own out of the names, the rule that they are a chain fails.
pub fn naming_none_of_its_own_fails()
    ensures { FailsAtSome IsHonestUnchained k2_body }
{}
