//! Entries that are borrowed, so that their graph copies none.
ghost use Rattle.std.specs.Prelude.{◌≡◌, ◌++◌, ◌∷◌, [], IfOk};
ghost use Rattle.entry_format.specs.Nodes.{node_of_sealed};

use auditor::ShowsSealed;
use entry_format::Sealed;
use entry_graph::SignedText;
use entry_order::Knot;
use std::alloc::{AllocError, Global};
use std::marker::Model;

/// A borrowed entry. Contracts see the entry.
#[derive(Drop)]
pub(crate) struct Borrowed<'a> {
    entry: &'a Sealed,
}

impl<'a> Model for Borrowed<'a> {
    ghost use Rattle.entry_format.specs.SealedEntry.{SealedEntry};

    ghost Value = { SealedEntry };

    ghost view = { λ borrowed. borrowed.entry.now };
}

impl<'a> Borrowed<'a> {
    /// The entry, borrowed.
    pub(crate) fn of(entry: &'a Sealed) -> Borrowed<'a>
        ensures { result ≡ entry.now }
    {
        Borrowed { entry }
    }

    /// The same entry, borrowed once more.
    pub(crate) fn again(&self) -> Borrowed<'a>
        ensures { result ≡ self.now }
    {
        Borrowed { entry: self.entry }
    }
}

impl<'a> Knot for Borrowed<'a> {
    ghost node = { node_of_sealed };

    fn digest(&self) -> &[u8; 32] {
        self.entry.digest()
    }

    fn names(&self) -> &[[u8; 32]] {
        self.entry.names()
    }

    fn maker(&self) -> u32 {
        self.entry.maker()
    }

    fn number(&self) -> u32 {
        self.entry.number()
    }

    fn stamp(&self) -> u32 {
        self.entry.stamp()
    }
}

impl<'a> SignedText for Borrowed<'a> {
    ghost text = { λ sealed. sealed.text };

    fn signed_text(&self) -> &[u8] {
        self.entry.text()
    }
}

impl<'a> ShowsSealed for Borrowed<'a> {
    ghost sealed = { λ sealed. sealed };

    fn sealed(&self) -> &Sealed {
        self.entry
    }
}

/// The entries and this one, borrowed.
pub(crate) fn borrowed_with<'a>(
    alloc: Global,
    entries: &'a [Sealed],
    last: &'a Sealed,
) -> Result<Vec<Borrowed<'a>>, AllocError>
    ensures { IfOk result (λ borrowed. borrowed.items ≡ entries.now ++ last.now ∷ []) }
{
    let mut borrowed = Vec::with_capacity(alloc, entries.len() + 1)?;
    for entry in entries {
        borrowed.push(Borrowed::of(entry))?;
    }
    borrowed.push(Borrowed::of(last))?;
    Ok(borrowed)
}
