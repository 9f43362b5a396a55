//! Who hears of refusals.

use evidence::InputFault;

/// Who hears why an input was refused, or that it isn't there.
pub trait Listener {
    ghost use Rattle.evidence.specs.declared.fault.InputFault.{InputFault};

    /// What it is once it has heard of the fault.
    ghost hears: { Self → InputFault → Self → Type 0 };

    /// Hears of the fault.
    fn hear(&mut self, fault: InputFault)
        ensures { hears self.old fault self.new };
}

/// Nobody.
#[derive(Clone, Copy, Drop)]
pub struct Nobody;

impl Listener for Nobody {
    ghost use Rattle.std.specs.Prelude.{⊤};

    ghost hears = { λ _ _ _. ⊤ };

    fn hear(&mut self, _fault: InputFault) {}
}
