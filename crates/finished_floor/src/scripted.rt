//! Losses that a script says.
ghost use Rattle.std.specs.Prelude.{◌≡◌};
ghost use Rattle.finished_floor.specs.Scripted.{is_scripted};

use election_script::Lose;

/// Whether a line of the script says that the entry is lost on its way to `to`.
pub fn is_scripted(loses: &[Lose], from: u32, number: u32, to: u32) -> bool
    ensures { result ≡ is_scripted loses.now from number to }
{
    loses.iter().any(|lose| lose.from == from && lose.number == number && lose.to == to)
}
