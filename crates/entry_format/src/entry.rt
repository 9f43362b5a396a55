//! An entry's fields.
use crate::deed::Deed;
use item_list::Items;

/// The digests that an entry names.
pub type Names = Items<[u8; 32]>;

/// What a machine says in an entry.
#[derive(Debug, Drop)]
pub struct Entry {
    /// The version of the entry's text, 1 or 2.
    pub version: u32,
    /// The digest of the roster's text.
    pub election: [u8; 32],
    /// The place of the maker in the roster, counted from 0.
    pub maker: u32,
    /// How many entries the maker had sent before.
    pub number: u32,
    /// One more than the greatest stamp that the maker held: Lamport's logical clock.
    pub stamp: u32,
    /// The digests of the entries that the maker held and that no entry that it held names.
    pub names: Names,
    /// What the maker did.
    pub deed: Deed,
}
