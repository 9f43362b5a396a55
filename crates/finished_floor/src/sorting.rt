//! Losses in order.
ghost use Rattle.std.specs.List.{AllPairs};
ghost use Rattle.std.specs.List.Sorted.{IsPermutation};
ghost use Rattle.finished_floor.specs.Arrivals.{AreOnce};
ghost use Rattle.finished_floor.specs.Losses.{IsToldBefore};

use crate::loss::Loss;

/// Sorts the losses by sender, receiver and number. It takes no memory.
pub fn sort_losses(losses: &mut Vec<Loss>)
    requires { AreOnce losses.old.items }
    ensures same { IsPermutation losses.old.items losses.new.items }
    ensures sorted { AllPairs IsToldBefore losses.new.items }
{
    losses.sort_unstable_by_key(|loss| (loss.from, loss.to, loss.number));
}
