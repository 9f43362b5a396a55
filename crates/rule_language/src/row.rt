//! What a rule sees of an entry.

use crate::kind::Kind;
use roster::Role;

/// What a rule sees of an entry; 0 where its kind doesn't have a field.
#[derive(Clone, Copy)]
pub struct Row {
    pub kind: Kind,
    /// The machine's place in the roster, from 0.
    pub maker: u32,
    /// The maker's role.
    pub role: Role,
    /// The entry's number among its maker's, from 0.
    pub number: u32,
    pub session: u32,
    /// A digest of 32 bytes.
    pub ballot: [u8; 32],
    /// The machine's place in the roster, from 0.
    pub booth: u32,
}
