//! What rules see of the survivors.
ghost use Rattle.std.specs.Prelude.{◌≡◌, ◌<◌, length, map, IfOk};
ghost use Rattle.entry_format.specs.SealedEntry.{SealedEntry};
ghost use Rattle.survivor_rows.specs.Rows.{HaveMakers, kind_of, session_of, ballot_of, booth_of, row_of};

use entry_format::{Deed, How, Sealed};
use entry_graph::{Graph, SignedText};
use precedence::Arrows;
use roster::Roster;
use rule_language::{Kind, Row};
use std::alloc::{AllocError, Global};

/// Out of memory.
pub type Memory = AllocError;

/// An entry that is sealed, or stands for one.
pub trait ShowsSealed: SignedText {
    /// The sealed entry.
    ghost sealed: { Self → SealedEntry };

    /// The sealed entry.
    fn sealed(&self) -> &Sealed
        ensures { result.now ≡ sealed self.now };
}

impl ShowsSealed for Sealed {
    ghost sealed = { λ sealed. sealed };

    fn sealed(&self) -> &Sealed {
        self
    }
}

/// What rules see of the survivors: member i is the row of survivor i. The survivors are entries
/// that were unsealed with this roster.
pub fn rows<T: ShowsSealed + Drop>(
    alloc: Global,
    graph: &Graph<T>,
    roster: &Roster,
) -> Result<Vec<Row>, Memory>
    requires { HaveMakers roster.now.machines (map T.sealed graph.now.survivors) }
    ensures { IfOk result (λ rows.
        rows.items ≡ map (λ e. row_of roster.now.machines (T.sealed e)) graph.now.survivors) }
{
    let count = graph.count();
    let mut rows = Vec::with_capacity(alloc, count)?;
    for i in 0..count {
        rows.push_reserved(row_of(roster, graph.node(i).sealed()));
    }
    Ok(rows)
}

/// What a rule sees of the entry, which was unsealed with this roster. It takes no memory.
pub fn row_of(roster: &Roster, sealed: &Sealed) -> Row
    requires { sealed.now.entry.maker < length roster.now.machines }
    ensures { result ≡ row_of roster.now.machines sealed.now }
{
    let entry = sealed.entry();
    Row {
        kind: kind_of(entry.deed),
        maker: entry.maker,
        role: roster.machines.as_slice()[entry.maker as usize].role,
        number: entry.number,
        session: session_of(entry.deed),
        ballot: ballot_of(entry.deed),
        booth: booth_of(entry.deed),
    }
}

/// The kind of the deed.
fn kind_of(deed: Deed) -> Kind
    ensures { result ≡ kind_of deed }
{
    match deed {
        Deed::Opened => Kind::Opened,
        Deed::Authorise { .. } => Kind::Authorise,
        Deed::Override { how, .. } => match how {
            How::Cancel => Kind::Override,
            How::Cast => Kind::Forced,
        },
        Deed::Closed => Kind::Closed,
        Deed::Activate { .. } => Kind::Activate,
        Deed::Commit { .. } => Kind::Commit,
        Deed::Cast { .. } => Kind::Cast,
        Deed::Cancel { .. } => Kind::Cancel,
        Deed::Challenge { .. } => Kind::Challenge,
    }
}

/// The deed's session, or 0.
fn session_of(deed: Deed) -> u32
    ensures { result ≡ session_of deed }
{
    match deed {
        Deed::Opened | Deed::Closed => 0,
        Deed::Authorise { session, .. }
        | Deed::Override { session, .. }
        | Deed::Activate { session }
        | Deed::Commit { session, .. }
        | Deed::Cast { session, .. }
        | Deed::Cancel { session }
        | Deed::Challenge { session, .. } => session,
    }
}

/// The deed's ballot, or 32 zero bytes.
fn ballot_of(deed: Deed) -> [u8; 32]
    ensures { result ≡ ballot_of deed }
{
    match deed {
        Deed::Commit { ballot, .. } | Deed::Cast { ballot, .. } | Deed::Challenge { ballot, .. } =>
            { ballot }
        _ => [0; 32],
    }
}

/// The booth that the deed names, or 0.
fn booth_of(deed: Deed) -> u32
    ensures { result ≡ booth_of deed }
{
    match deed {
        Deed::Authorise { booth, .. } => booth,
        _ => 0,
    }
}
