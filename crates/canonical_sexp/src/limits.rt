//! The limits of texts.

/// The most octets of an atom.
pub const MAX_OCTETS: usize = 262_144;

/// The most members of a list.
pub const MAX_MEMBERS: usize = 16_384;

/// How deep lists nest at most.
pub const MAX_DEPTH: usize = 8;
