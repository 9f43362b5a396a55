//! What is answered of rules, proofs and texts, and why not.
use input_causes::ProofWhy;
use std::alloc::{AllocError, AllocFailed};
use thiserror::Error;

/// What is answered of a rule by a proof.
#[derive(Clone, Copy, Debug, PartialEq, Eq)]
pub enum Verdict {
    /// It holds, whatever was lost.
    Kept,
    /// It doesn't hold, whatever turns up.
    Broken,
    /// Neither is known by this proof.
    Unsettled,
}

/// Why a rule isn't checked.
#[derive(Clone, Copy, Debug, PartialEq, Eq, Error)]
pub enum CheckFault {
    #[error("quantifiers go over more than 268,435,456 entries together")]
    TooWide,
    #[error("out of memory")]
    Memory,
}

impl From<AllocError> for CheckFault {
    ghost use Rattle.std.specs.Prelude.{◌≡◌};
    ghost use Rattle.audit_proof.specs.declared.fault.CheckFault.TheVariants.{Memory};

    ghost from_gives = { λ _ e. e ≡ Memory };

    fn from(_refused: AllocError) -> CheckFault {
        CheckFault::Memory
    }
}

impl<X: Drop> From<AllocFailed<X>> for CheckFault {
    ghost use Rattle.std.specs.Prelude.{◌≡◌};
    ghost use Rattle.audit_proof.specs.declared.fault.CheckFault.TheVariants.{Memory};

    ghost from_gives = { λ _ e. e ≡ Memory };

    fn from(_refused: AllocFailed<X>) -> CheckFault {
        CheckFault::Memory
    }
}

/// Why a text is no proof for a graph.
#[derive(Clone, Copy, Debug, PartialEq, Eq, Error)]
pub enum ProofFault {
    /// The first line with a fault, counted from 1, and its first fault.
    #[error("line {line} of the proof: {why:?}")]
    At { line: usize, why: ProofWhy },
    #[error("out of memory")]
    Memory,
}

impl From<AllocError> for ProofFault {
    ghost use Rattle.std.specs.Prelude.{◌≡◌};
    ghost use Rattle.audit_proof.specs.declared.fault.ProofFault.TheVariants.{Memory};

    ghost from_gives = { λ _ e. e ≡ Memory };

    fn from(_refused: AllocError) -> ProofFault {
        ProofFault::Memory
    }
}

impl<X: Drop> From<AllocFailed<X>> for ProofFault {
    ghost use Rattle.std.specs.Prelude.{◌≡◌};
    ghost use Rattle.audit_proof.specs.declared.fault.ProofFault.TheVariants.{Memory};

    ghost from_gives = { λ _ e. e ≡ Memory };

    fn from(_refused: AllocFailed<X>) -> ProofFault {
        ProofFault::Memory
    }
}
