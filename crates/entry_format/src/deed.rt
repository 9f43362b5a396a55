//! What a machine does.
ghost use Rattle.std.specs.Prelude.{◌≡◌};
ghost use Rattle.canonical_sexp.specs.Forms.{Finds};
ghost use Rattle.entry_format.specs.EntryText.{deed_word, how_word};

/// What a supervisor who overrides a session has its booth do.
#[derive(Clone, Copy, Debug, PartialEq, Eq)]
pub enum How {
    /// The booth ends the session without a ballot.
    Cancel,
    /// The booth casts the ballot that was committed.
    Cast,
}

impl How {
    /// The word in texts.
    pub fn word(self) -> &'static [u8]
        ensures { result.now ≡ how_word self }
    {
        match self {
            How::Cancel => b"cancel",
            How::Cast => b"cast",
        }
    }

    /// What the word says.
    pub fn of_word(word: &[u8]) -> Option<How>
        ensures { Finds (λ how. word.now ≡ how_word how) result }
    {
        if word == How::Cancel.word() {
            Some(How::Cancel)
        } else if word == How::Cast.word() {
            Some(How::Cast)
        } else {
            None
        }
    }
}

/// A deed of a machine (VoteBox, USENIX Security 2008). A supervisor opens, authorises, overrides
/// and closes; a booth activates, commits, casts, cancels and challenges. A booth is named by its
/// machine's place in the roster, and a ballot is an opaque digest.
#[derive(Clone, Copy, Debug)]
pub enum Deed {
    /// The supervisor opens the polling place.
    Opened,
    /// The supervisor authorises a booth for a session.
    Authorise { booth: u32, session: u32 },
    /// The supervisor ends a session in the booth's place.
    Override { session: u32, how: How },
    /// The supervisor closes the polling place.
    Closed,
    /// A booth begins a session.
    Activate { session: u32 },
    /// A booth commits to the session's ballot.
    Commit { session: u32, ballot: [u8; 32] },
    /// A booth casts the session's ballot.
    Cast { session: u32, ballot: [u8; 32] },
    /// A booth ends a session without a ballot.
    Cancel { session: u32 },
    /// A booth has the committed ballot opened in place of casting it.
    Challenge { session: u32, ballot: [u8; 32] },
}

impl Deed {
    /// The deed's word in texts.
    pub fn word(self) -> &'static [u8]
        ensures { result.now ≡ deed_word self }
    {
        match self {
            Deed::Opened => b"opened",
            Deed::Authorise { .. } => b"authorise",
            Deed::Override { .. } => b"override",
            Deed::Closed => b"closed",
            Deed::Activate { .. } => b"activate",
            Deed::Commit { .. } => b"commit",
            Deed::Cast { .. } => b"cast",
            Deed::Cancel { .. } => b"cancel",
            Deed::Challenge { .. } => b"challenge",
        }
    }
}
