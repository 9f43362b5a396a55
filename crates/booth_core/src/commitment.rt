//! Commitments to ballots.
ghost use Rattle.std.specs.Prelude.{◌≡◌, ◌↔◌, Any, Contains, IsTrue};

/// A ballot that the booth committed to.
#[derive(Clone, Copy, PartialEq, Eq)]
pub struct Commitment {
    pub session: u32,
    /// The ballot's digest.
    pub ballot: [u8; 32],
}

/// Whether there is a commitment in the session, to whichever ballot.
pub fn has_committed(commitments: &[Commitment], session: u32) -> bool
    ensures { IsTrue result ↔ Any (λ one. one.session ≡ session) commitments.now }
{
    commitments.iter().any(|one| one.session == session)
}

/// Whether there is this commitment.
pub fn has_commitment(commitments: &[Commitment], commitment: &Commitment) -> bool
    ensures { IsTrue result ↔ Contains commitments.now commitment.now }
{
    commitments.contains(commitment)
}
