//! Histories that are described in words, one for each entry.
ghost use Rattle.entry_format.specs.Deeds.{IsDeedOf};
ghost use Rattle.roster.specs.declared.post.Role.TheVariants.{Supervisor};

use entry_format::{Deed, Entry, How, Names};
use std::alloc::{AllocError, Global};

/// A booth is authorised for a session.
pub(crate) fn authorise(booth: u32, session: u32) -> Deed
    ensures { IsDeedOf Supervisor result }
{
    Deed::Authorise { booth, session }
}

/// A session is overridden.
pub(crate) fn override_by(session: u32, how: How) -> Deed
    ensures { IsDeedOf Supervisor result }
{
    Deed::Override { session, how }
}

/// The entry in which a maker reports a deed.
pub(crate) fn entry_of(alloc: Global, event: (u32, Deed)) -> Entry {
    let (maker, deed) = event;
    Entry {
        version: 2,
        election: [0; 32],
        maker,
        number: 0,
        stamp: 1,
        names: Names::new(alloc),
        deed,
    }
}

/// The entries of a history, which are separated by commas.
pub(crate) fn entries_in<'a>(alloc: Global, history: &'a str) -> Result<Vec<&'a str>, AllocError> {
    if history.is_empty() {
        return Ok(Vec::new(alloc));
    }
    history.split(',').collect(alloc)
}
