//! The keys of low trees, which are derived from that of the top tree.
ghost use Rattle.std.specs.Prelude.{◌≡◌, ◌++◌, ◌%◌, ◌/◌, ◌^◌};
ghost use Rattle.sha2.specs.Sha256.{sha256};
ghost use Rattle.lms_ots.specs.Ots.{u32str};
ghost use Rattle.hss_sign.specs.TwoLevels.{low_id, low_seed};

use lms_ots::u32_bytes;
use sha2::{Digest, Sha256};

// The identifier of low tree `i`.
#[tactic(auto, unfolding(crate::specs::TwoLevels::low_id))]
pub(crate) fn low_id(id: &[u8; 16], seed: &[u8; 32], i: u32) -> [u8; 16]
    ensures { result ≡ low_id id.now seed.now i }
{
    let digest = digest_of(b"auditorium hss id", id, seed, i);
    let mut low = [0; 16];
    low.copy_from_slice(&digest[..16]);
    low
}

// The seed of low tree `i`.
#[tactic(auto, unfolding(crate::specs::TwoLevels::low_seed))]
pub(crate) fn low_seed(id: &[u8; 16], seed: &[u8; 32], i: u32) -> [u8; 32]
    ensures { result ≡ low_seed id.now seed.now i }
{
    digest_of(b"auditorium hss seed", id, seed, i)
}

fn digest_of(tag: &[u8], id: &[u8; 16], seed: &[u8; 32], i: u32) -> [u8; 32]
    ensures { result ≡ sha256 (tag.now ++ id.now ++ u32str i ++ seed.now) }
{
    let mut hasher = Sha256::new();
    hasher.update(tag);
    hasher.update(id);
    hasher.update(u32_bytes(i));
    hasher.update(seed);
    hasher.finalize()
}
