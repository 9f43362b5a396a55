//! What steps of a line list.
ghost use Rattle.std.specs.Prelude.{◌≡◌, ◌<◌, ◌==◌, not, length, slice_get, All};
ghost use Rattle.std.specs.List.{list_all, list_any};
ghost use Rattle.audit_proof.specs.Lines.{listed_in};
ghost use Rattle.audit_proof.specs.inside.Falls.{Falls};

use crate::step::ProofStep;
use precedence::Arrows;

/// Whether no ancestor of these is ragged.
pub(crate) fn are_even<A: Arrows>(graph: &A, steps: &[ProofStep]) -> bool
    requires { All (λ step. step.ancestor < (A.graph graph.now).count) steps.now }
    ensures { result ≡ list_all (λ y. not ((A.graph graph.now).ragged y)) (listed_in steps.now) }
{
    for step in steps {
        if graph.ragged(step.ancestor as usize) {
            return false;
        }
    }
    true
}

/// Whether `y` is an ancestor of these, which fall.
pub(crate) fn is_listed(steps: &[ProofStep], y: usize) -> bool
    requires { Falls steps.now }
    ensures { result ≡ list_any (λ z. z == y) (listed_in steps.now) }
{
    let mut low = 0;
    let mut high = steps.len();
    while low < high {
        let middle = low + (high - low) / 2;
        let step = step_at(steps, middle);
        let ancestor = step.ancestor as usize;
        if ancestor == y {
            return true;
        }
        if ancestor > y {
            low = middle + 1;
        } else {
            high = middle;
        }
    }
    false
}

/// The step at a place.
fn step_at(steps: &[ProofStep], place: usize) -> ProofStep
    requires { place < length steps.now }
    ensures { slice_get steps.now place ≡ Some result }
{
    steps[place]
}
