//! Why entries have no graph.
use entry_format::Sealed;
use std::alloc::{AllocError, AllocFailed};
use thiserror::Error;

/// Why entries have no graph, the first that applies.
#[derive(Debug, Drop, Error)]
pub enum GraphFault<T = Sealed> {
    /// Two entries with different texts and one digest: the pair whose second member comes first
    /// in the given list.
    #[error("two entries with different texts have one digest")]
    Collision(T, T),
    #[error("there are more than 16,384 distinct entries")]
    TooMany,
    #[error("out of memory")]
    Memory,
}

impl<T> From<AllocError> for GraphFault<T> {
    ghost use Rattle.std.specs.Prelude.{◌≡◌};
    ghost use Rattle.entry_graph.specs.declared.fault.GraphFault.TheVariants.{Memory};

    ghost from_gives = { λ _ e. e ≡ Memory };

    fn from(_refused: AllocError) -> GraphFault<T> {
        GraphFault::Memory
    }
}

impl<T, X: Drop> From<AllocFailed<X>> for GraphFault<T> {
    ghost use Rattle.std.specs.Prelude.{◌≡◌};
    ghost use Rattle.entry_graph.specs.declared.fault.GraphFault.TheVariants.{Memory};

    ghost from_gives = { λ _ e. e ≡ Memory };

    fn from(_refused: AllocFailed<X>) -> GraphFault<T> {
        GraphFault::Memory
    }
}
