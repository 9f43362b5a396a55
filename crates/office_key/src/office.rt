//! Offices.
ghost use Rattle.std.specs.Prelude.{◌≡◌, ◌<◌, ◌==◌};
ghost use Rattle.office_key.specs.Offices.{max_signatures, next_office};

/// How many signatures an office's key makes.
pub const MAX_SIGNATURES: u32 = 32_768;

/// An office, as its file has it. It can't be printed, so that its seed isn't printed by
/// accident.
#[derive(Clone, Copy)]
pub struct Office {
    /// What its key is made of, together with its name.
    pub seed: [u8; 32],
    /// The number of its next signature, counted from 0.
    pub next: u32,
}

impl Office {
    /// Whether it has signed with each of its numbers.
    pub fn is_spent(&self) -> bool
        ensures { result ≡ (self.now.next == max_signatures) }
    {
        self.next == MAX_SIGNATURES
    }

    /// The office once its next signature is made.
    pub fn used(&self) -> Office
        requires { self.now.next < max_signatures }
        ensures { result ≡ next_office self.now }
    {
        Office {
            seed: self.seed,
            next: self.next + 1,
        }
    }
}
