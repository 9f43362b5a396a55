//! What is heard of a refusal, for a hint.
use auditorium_core::Listener;
use evidence::InputFault;

/// Keeps why an input was refused, or that it isn't there.
#[derive(Drop)]
pub(crate) struct Heard {
    pub fault: Option<InputFault>,
}

impl Listener for Heard {
    ghost use Rattle.std.specs.Prelude.{◌≡◌, Some};

    ghost hears = { λ _ fault new. new.fault ≡ Some fault };

    fn hear(&mut self, fault: InputFault) {
        self.fault = Some(fault);
    }
}
