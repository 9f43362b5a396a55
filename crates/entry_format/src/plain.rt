//! Entries whose signatures aren't checked.
ghost use Rattle.std.specs.Prelude.{◌≡◌, ◌≢◌, Err};
ghost use Rattle.canonical_sexp.specs.Text.{text_of};
ghost use Rattle.entry_format.specs.Reading.{Reads, fault_word};

use crate::entry::Entry;
use crate::form::read_form;
use canonical_sexp::{Text, whole_text};
use entry_order::Knot;
use sha2::{Digest, Sha256};
use std::alloc::{AllocError, Global};
use thiserror::Error;

/// An entry and its digest.
#[derive(Drop)]
pub struct Plain {
    pub entry: Entry,
    /// SHA-256 of the whole signed text.
    pub digest: [u8; 32],
}

/// Why a text isn't taken as an entry, the first that applies.
#[derive(Clone, Copy, Debug, Error)]
pub enum EntryFault {
    #[error("the text isn't exactly one canonical text")]
    NotCanonical,
    #[error("the text hasn't the form of an entry")]
    WrongShape,
    #[error("the names don't rise strictly")]
    NamesNotRising,
    #[error("the entry is of another election")]
    OtherElection,
    #[error("the maker isn't in the roster")]
    UnknownMaker,
    #[error("the signature's index isn't the entry's number")]
    WrongIndex,
    #[error("the signature doesn't verify")]
    BadSignature,
    #[error("out of memory")]
    Memory,
}

impl EntryFault {
    /// The fault's word in lines.
    pub fn word(self) -> &'static str
        ensures { result.now ≡ fault_word self }
    {
        match self {
            EntryFault::NotCanonical => "NotCanonical",
            EntryFault::WrongShape => "WrongShape",
            EntryFault::NamesNotRising => "NamesNotRising",
            EntryFault::OtherElection => "OtherElection",
            EntryFault::UnknownMaker => "UnknownMaker",
            EntryFault::WrongIndex => "WrongIndex",
            EntryFault::BadSignature => "BadSignature",
            EntryFault::Memory => "Memory",
        }
    }
}

impl From<AllocError> for EntryFault {
    ghost use Rattle.std.specs.Prelude.{◌≡◌};
    ghost use Rattle.entry_format.specs.declared.plain.EntryFault.TheVariants.{Memory};

    ghost from_gives = { λ _ e. e ≡ Memory };

    fn from(_refused: AllocError) -> EntryFault {
        EntryFault::Memory
    }
}

impl Knot for Plain {
    ghost use Rattle.entry_format.specs.Nodes.{node_of};

    ghost node = { node_of };

    fn digest(&self) -> &[u8; 32] {
        &self.digest
    }

    fn names(&self) -> &[[u8; 32]] {
        self.entry.names.as_slice()
    }

    fn maker(&self) -> u32 {
        self.entry.maker
    }

    fn number(&self) -> u32 {
        self.entry.number
    }

    fn stamp(&self) -> u32 {
        self.entry.stamp
    }
}

/// Reads an entry's signed text, and leaves its signature unverified.
///
/// # Errors
///
/// The first cause that applies of `NotCanonical`, `WrongShape` and `NamesNotRising`, or `Memory`.
pub fn read_unsigned(alloc: Global, text: &[u8]) -> Result<Plain, EntryFault>
    ensures { result ≢ Err EntryFault.Memory → Reads text.now result }
{
    match whole_text(text) {
        Ok(tree) => read_unsigned_text(alloc, &tree),
        Err(_at) => Err(EntryFault::NotCanonical),
    }
}

/// Reads the text of an entry within another text, as within a record in a log. The signature
/// isn't checked.
///
/// # Errors
///
/// `WrongShape`, then `NamesNotRising`, or `Memory`.
pub fn read_unsigned_text(alloc: Global, text: &Text<'_>) -> Result<Plain, EntryFault>
    ensures { result ≢ Err EntryFault.Memory → Reads (text_of text.now) result }
{
    let bytes = text.bytes();
    match read_form(alloc, text) {
        Ok(form) => Ok(Plain {
            entry: form.entry,
            digest: Sha256::digest(bytes),
        }),
        Err(fault) => Err(fault),
    }
}
