//! What becomes of an entry that is added.
use entry_format::Sealed;
use std::alloc::AllocError;
use thiserror::Error;

/// What became of an entry that was added.
#[derive(Clone, Copy, Debug, PartialEq, Eq)]
pub enum Fresh {
    /// It is new.
    New,
    /// An equal entry was added before. Nothing changes.
    Known,
}

/// Why an entry isn't added, the first that applies. Nothing changes, and the entry comes back.
#[derive(Debug, Drop, Error)]
pub enum LiveFault {
    #[error("an added entry has the digest of this one, and another text")]
    Collision(Sealed),
    #[error("1,024 entries were added")]
    TooMany(Sealed),
    /// The place, counted from 0, is that of the first rule that would be too wide.
    #[error("rule {1} would be too wide")]
    TooWide(Sealed, usize),
    /// The entry is dropped.
    #[error("out of memory")]
    Memory,
}

impl From<AllocError> for LiveFault {
    ghost use Rattle.std.specs.Prelude.{◌≡◌};
    ghost use Rattle.live_auditor.specs.declared.fresh.LiveFault.TheVariants.{Memory};

    ghost from_gives = { λ _ e. e ≡ Memory };

    fn from(_refused: AllocError) -> LiveFault {
        LiveFault::Memory
    }
}
