//! Digests that are compared with many.
ghost use Rattle.std.specs.Prelude.{◌≡◌};
ghost use Rattle.std.specs.Str.{bytes_eq};

/// Whether the digests are one. Most that differ do so in the first byte, which is seen at once.
pub fn same_digest(digest: &[u8; 32], other: &[u8; 32]) -> bool
    ensures { result ≡ bytes_eq digest.now other.now }
{
    digest[0] == other[0] && digest == other
}
