//! Whether an entry was seen before.
ghost use Rattle.live_auditor.specs.inside.Seen.{IsSeen};

use crate::digests::same_digest;
use entry_format::Sealed;

/// How an entry relates to those that were added.
#[derive(Clone, Copy)]
pub(crate) enum Seen {
    /// None has its digest.
    New,
    /// One has its digest and its text.
    Known,
    /// One has its digest and another text.
    Collides,
}

/// How the entry relates to these.
pub(crate) fn seen_among(entries: &[Sealed], entry: &Sealed) -> Seen
    ensures { IsSeen entries.now entry.now result }
{
    for other in entries {
        if same_digest(other.digest(), entry.digest()) {
            return if other.text() == entry.text() {
                Seen::Known
            } else {
                Seen::Collides
            };
        }
    }
    Seen::New
}
