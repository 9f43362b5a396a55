//! An office's key, and its signatures.
ghost use Rattle.std.specs.Prelude.{◌≡◌, ◌++◌, ◌<◌, ◌≤◌, IfOk};
ghost use Rattle.sha2.specs.Sha256.{sha256};
ghost use Rattle.office_key.specs.Endorsements.{endorsement, office_public, office_secret};
ghost use Rattle.office_key.specs.Endorsements.{top_id, top_seed};
ghost use Rattle.office_key.specs.Offices.{max_signatures};

use crate::office::Office;
use hss_sign::{HssFault, HssSecret, Memory};
use lms_ots::OtsKind;
use lms_sign::LeafWork;
use sha2::{Digest, Sha256};
use std::alloc::{AllocError, Global};
use ways_of_work::Alone;

/// The heights of the trees.
const TOP: u32 = 5;

const LOW: u32 = 10;

/// The public key of the office of this name with this seed. The top tree is made for it.
pub fn public_key(alloc: Global, name: &[u8], seed: &[u8; 32]) -> Result<[u8; 60], Memory>
    ensures { IfOk result (λ key. key ≡ office_public name.now seed.now) }
{
    public_key_by(&Alone, alloc, name, seed)
}

/// The same key, whose top tree is made in this way.
pub fn public_key_by<W: LeafWork>(
    work: &W,
    alloc: Global,
    name: &[u8],
    seed: &[u8; 32],
) -> Result<[u8; 60], Memory>
    requires { W.may_share work.now }
    ensures { IfOk result (λ key. key ≡ office_public name.now seed.now) }
{
    let office = Office {
        seed: *seed,
        next: 0,
    };
    Ok(secret_of(work, alloc, name, &office)?.public())
}

/// Signs `message` as the office of this name, with the number of its next signature, which is then
/// to be used no more. The top tree and one low tree are made for it.
pub fn endorse(
    alloc: Global,
    name: &[u8],
    office: &Office,
    message: &[u8],
) -> Result<Vec<u8>, Memory>
    requires { office.now.next < max_signatures }
    ensures { IfOk result (λ s. s.items ≡ endorsement name.now office.now message.now) }
{
    endorse_by(&Alone, alloc, name, office, message)
}

/// Signs as `endorse` does. The trees are made in this way.
pub fn endorse_by<W: LeafWork>(
    work: &W,
    alloc: Global,
    name: &[u8],
    office: &Office,
    message: &[u8],
) -> Result<Vec<u8>, Memory>
    requires shared { W.may_share work.now }
    requires left { office.now.next < max_signatures }
    ensures { IfOk result (λ s. s.items ≡ endorsement name.now office.now message.now) }
{
    let mut secret = secret_of(work, alloc, name, office)?;
    match secret.sign_by(work, alloc, message) {
        Ok(signature) => Ok(signature),
        Err(HssFault::Memory) => Err(AllocError),
        // The office has a number left.
        Err(HssFault::Spent) => unreachable!(),
    }
}

/// The key of the office of this name, at the number of its next signature.
fn secret_of<W: LeafWork>(
    work: &W,
    alloc: Global,
    name: &[u8],
    office: &Office,
) -> Result<HssSecret, Memory>
    requires shared { W.may_share work.now }
    requires next { office.now.next ≤ max_signatures }
    ensures { IfOk result (λ secret. secret ≡ office_secret name.now office.now) }
{
    let id = top_id(&office.seed, name);
    let seed = top_seed(&office.seed, name);
    HssSecret::make_by(work, alloc, OtsKind::W4, TOP, LOW, id, seed, office.next)
}

/// The seed of the top tree.
#[tactic(auto, unfolding(crate::specs::Endorsements::top_seed))]
fn top_seed(seed: &[u8; 32], name: &[u8]) -> [u8; 32]
    ensures { result ≡ top_seed seed.now name.now }
{
    digest_of(b"auditorium office seed", seed, name)
}

/// The identifier of the top tree.
#[tactic(auto, unfolding(crate::specs::Endorsements::top_id))]
fn top_id(seed: &[u8; 32], name: &[u8]) -> [u8; 16]
    ensures { result ≡ top_id seed.now name.now }
{
    let digest = digest_of(b"auditorium office id", seed, name);
    let mut id = [0; 16];
    id.copy_from_slice(&digest[..16]);
    id
}

/// SHA-256 of the tag, the seed and the name as one text.
fn digest_of(tag: &[u8], seed: &[u8; 32], name: &[u8]) -> [u8; 32]
    ensures { result ≡ sha256 (tag.now ++ seed.now ++ name.now) }
{
    let mut hasher = Sha256::new();
    hasher.update(tag);
    hasher.update(seed);
    hasher.update(name);
    hasher.finalize()
}
