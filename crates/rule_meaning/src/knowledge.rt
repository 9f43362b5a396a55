//! What is known of survivors, whoever knows it.
ghost use Rattle.std.specs.Prelude.{◌≡◌, ◌<◌, IfSome};
ghost use Rattle.rule_meaning.specs.Scopes.{env_of};
ghost use Rattle.rule_meaning.specs.Visited.{IsVisitedFor};

use crate::quantifier::Quantifier;
use crate::scope::Scope;
use entry_order::Three;
use rule_language::{Formula, Row};

/// What is known of survivors' order, by which rules are evaluated.
pub trait Knowledge {
    ghost use Rattle.std.specs.Prelude.{ℕ, Bool, List};
    ghost use Rattle.entry_order.specs.declared.three.Three.{Three};
    ghost use Rattle.rule_language.specs.declared.row.Row.{Row};

    /// How many survivors there are.
    ghost count: { Self → ℕ };

    /// Whether one comes before another, as far as it is known.
    ghost order: { Self → ℕ → ℕ → Three };

    /// Whether all that comes before a survivor is known.
    ghost wholes: { Self → ℕ → Bool };

    /// It can be asked of survivors with these rows.
    ghost serves: { Self → List Row → Type 0 };

    /// Whether the survivor `y` comes before the survivor `x`.
    fn before(&self, y: usize, x: usize) -> Three
        requires serves { (rows : List Row) × serves self.now rows }
        requires place { x < count self.now }
        ensures { result ≡ order self.now y x };

    /// Whether all that comes before the survivor is known.
    fn whole(&self, x: usize) -> bool
        requires serves { (rows : List Row) × serves self.now rows }
        requires place { x < count self.now }
        ensures { result ≡ wholes self.now x };

    /// The places that the quantifier has to visit, if they are listed: where the others are found
    /// to change nothing, only some of the kind.
    fn visited(
        &self,
        quantifier: Quantifier,
        body: &Formula,
        scope: &Scope<'_>,
        rows: &[Row],
    ) -> Option<&[usize]>
        requires { serves self.now rows.now }
        ensures { IfSome result (λ places. IsVisitedFor rows.now (order self.now) (wholes self.now)
            quantifier body.now (env_of scope.now) places.now) };
}
