//! Why a line of a proof's text isn't allowed.
ghost use Rattle.std.specs.Prelude.{◌≡◌};
ghost use Rattle.input_causes.specs.Causes.{proof_why_word};

/// Why a line of a proof's text isn't allowed: on a line the first cause that applies, word by word
/// from the left.
#[derive(Clone, Copy, Debug, PartialEq, Eq)]
pub enum ProofWhy {
    /// The words aren't of the form, or the line isn't ended.
    Form,
    /// The number isn't that of the survivors.
    WrongCount,
    /// A number is no survivor's.
    OutOfRange,
    /// The line's entry isn't above that of the line before.
    NotRising,
    /// The ancestor isn't below the one before.
    NotFalling,
    /// The entry via which it is reached is neither the line's nor an ancestor before.
    NotReached,
    /// That entry doesn't name the ancestor.
    NotParent,
    /// A parent of what is on the line is missing.
    NotClosed,
}

impl ProofWhy {
    /// The cause's word in lines of output.
    pub fn word(self) -> &'static str
        ensures { result.now ≡ proof_why_word self }
    {
        match self {
            ProofWhy::Form => "Form",
            ProofWhy::WrongCount => "WrongCount",
            ProofWhy::OutOfRange => "OutOfRange",
            ProofWhy::NotRising => "NotRising",
            ProofWhy::NotFalling => "NotFalling",
            ProofWhy::NotReached => "NotReached",
            ProofWhy::NotParent => "NotParent",
            ProofWhy::NotClosed => "NotClosed",
        }
    }
}
