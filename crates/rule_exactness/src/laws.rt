//! The laws. Each is the contract of a function with an empty body.
ghost use Rattle.std.specs.Prelude.{ℕ, List};
ghost use Rattle.rule_language.specs.declared.row.Row.{Row as RowOf};
ghost use Rattle.rule_language.specs.Standard.{p3_body};
ghost use Rattle.rule_exactness.specs.ExactP3.{ExactP3IsExact, SayTheSame, exact_p3_body};
ghost use Rattle.rule_exactness.specs.Exact.{Saying, CanSay, IsMade};
ghost use Rattle.rule_exactness.specs.Exact.{StandardRulesAreExact, TwoSidedRulesAreExact};

use entry_order::Knot;

/// What is known of a standard rule is all that the survivors tell of it: it is kept exactly where
/// each completion keeps it, broken exactly where none does, and unsettled exactly where some keep
/// it and some break it. So it is of P3 where no end of a session precedes an authorising of it.
/// Each entry of a completion is a survivor or is made of what a text can say; that its digest is
/// the SHA-256 of its text isn't claimed.
pub fn standard_rules_are_exact<T: Knot>()
    ensures { (row : T → RowOf) (make : Saying → ℕ → List (List ℕ) → List ℕ → T) →
        CanSay T.node row make → StandardRulesAreExact T.node row (IsMade make) }
{}

/// So it is of each rule of one's own that asks of what came before only whether there is some entry
/// of a kind with certain fields, and that doesn't both ask for a kind and forbid it.
pub fn two_sided_rules_are_exact<T: Knot>()
    ensures { (row : T → RowOf) (make : Saying → ℕ → List (List ℕ) → List ℕ → T) →
        CanSay T.node row make → TwoSidedRulesAreExact T.node row (IsMade make) }
{}

/// P3 has a form that holds of the same entries, and of which what is known is all that the
/// survivors tell, without a condition: an end of the session before the authorising is asked for,
/// too.
pub fn p3_has_an_exact_form<T: Knot>()
    ensures same { (row : T → RowOf) → SayTheSame T.node row exact_p3_body p3_body }
    ensures exact { (row : T → RowOf) (make : Saying → ℕ → List (List ℕ) → List ℕ → T) →
        CanSay T.node row make → ExactP3IsExact T.node row (IsMade make) }
{}
