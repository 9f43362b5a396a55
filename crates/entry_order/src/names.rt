//! What entries have and name, by search.
ghost use Rattle.std.specs.Prelude.{◌≡◌};
ghost use Rattle.entry_order.specs.Naming.{names_digest, is_named, has_digest};

use crate::knot::Knot;

/// Whether the entry names the digest.
pub fn names_digest<T: Knot>(entry: &T, digest: &[u8; 32]) -> bool
    ensures { result ≡ names_digest T.node entry.now digest.now }
{
    entry.names().iter().any(|d| d == digest)
}

/// Whether one of the entries names the digest.
pub fn is_named<T: Knot>(entries: &[T], digest: &[u8; 32]) -> bool
    ensures { result ≡ is_named T.node entries.now digest.now }
{
    entries.iter().any(|e| names_digest(e, digest))
}

/// Whether one of the entries has the digest.
pub fn has_digest<T: Knot>(entries: &[T], digest: &[u8; 32]) -> bool
    ensures { result ≡ has_digest T.node entries.now digest.now }
{
    entries.iter().any(|e| e.digest() == digest)
}
