//! Why a text isn't one of rules.
use input_causes::RuleWhy;
use std::alloc::{AllocError, AllocFailed};
use thiserror::Error;

/// Why a text isn't one of rules: its first fault, by place and then by the order of causes.
#[derive(Clone, Copy, Debug, PartialEq, Eq, Error)]
pub enum RuleFault {
    #[error("byte {at}: {why}")]
    At {
        /// The first byte of the first token that isn't allowed, counted from 0, or the length of a
        /// text that ends too early.
        at: usize,
        why: RuleWhy,
    },
    #[error("out of memory")]
    Memory,
}

impl From<AllocError> for RuleFault {
    ghost use Rattle.std.specs.Prelude.{◌≡◌};
    ghost use Rattle.rule_language.specs.declared.faults.RuleFault.TheVariants.{Memory};

    ghost from_gives = { λ _ e. e ≡ Memory };

    fn from(_refused: AllocError) -> RuleFault {
        RuleFault::Memory
    }
}

impl<T: Drop> From<AllocFailed<T>> for RuleFault {
    ghost use Rattle.std.specs.Prelude.{◌≡◌};
    ghost use Rattle.rule_language.specs.declared.faults.RuleFault.TheVariants.{Memory};

    ghost from_gives = { λ _ e. e ≡ Memory };

    fn from(_refused: AllocFailed<T>) -> RuleFault {
        RuleFault::Memory
    }
}
