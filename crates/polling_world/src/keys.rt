//! The keys of a script's machines, and its roster.
ghost use Rattle.std.specs.Prelude.{◌≡◌, ◌<◌, ◌++◌, length, map, IfOk};
ghost use Rattle.sha2.specs.Sha256.{sha256};
ghost use Rattle.lms_sign.specs.Secret.{public_of};
ghost use Rattle.election_script.specs.Lawful.{IsLawful};
ghost use Rattle.polling_world.specs.Keys.{IsKeyOf, key_of, machine_id, machine_seed, roster_of};

use election_script::{Cast0, Script};
use lms_sign::{LeafWork, LmsSecret};
use roster::{Name, Post, Posts, Roster};
use sha2::{Digest, Sha256};
use std::alloc::{AllocError, Global};
use ways_of_work::Alone;

/// The key of the script's machine at this place, which has signed nothing.
pub fn key_of(alloc: Global, script: &Script, at: u32) -> Result<LmsSecret, AllocError>
    requires lawful { IsLawful script.now }
    requires at { at < length script.now.machines }
    ensures { IfOk result (λ key. IsKeyOf script.now at key) }
{
    let machines = script.machines.as_slice();
    key_of_cast(&Alone, alloc, script, &machines[at as usize])
}

/// The keys of all machines of the script, in their order. Each takes a while to make.
pub fn keys_of(alloc: Global, script: &Script) -> Result<Vec<LmsSecret>, AllocError>
    requires { IsLawful script.now }
    ensures { IfOk result (λ keys. keys.items ≡ map (key_of script.now) script.now.machines) }
{
    keys_by(&Alone, alloc, script)
}

/// The keys of `keys_of`, the leaves of each of which are made in this way of work.
pub fn keys_by<W: LeafWork>(
    work: &W,
    alloc: Global,
    script: &Script,
) -> Result<Vec<LmsSecret>, AllocError>
    requires shared { W.may_share work.now }
    requires lawful { IsLawful script.now }
    ensures { IfOk result (λ keys. keys.items ≡ map (key_of script.now) script.now.machines) }
{
    let mut keys = Vec::new(alloc);
    for cast in script.machines.as_slice() {
        keys.push(key_of_cast(work, alloc, script, cast)?)?;
    }
    Ok(keys)
}

/// The roster of the script, whose machines have these keys.
pub fn roster_of(alloc: Global, script: &Script, keys: &[LmsSecret]) -> Result<Roster, AllocError>
    requires { keys.now ≡ map (key_of script.now) script.now.machines }
    ensures { IfOk result (λ roster. roster.machines ≡ roster_of script.now) }
{
    let mut machines = Vec::new(alloc);
    for (at, cast) in script.machines.as_slice().iter().enumerate() {
        machines.push(post_of(alloc, cast, &keys[at])?)?;
    }
    Ok(Roster {
        machines: Posts::from_vec(machines),
    })
}

/// The key of a machine of the script.
fn key_of_cast<W: LeafWork>(
    work: &W,
    alloc: Global,
    script: &Script,
    cast: &Cast0,
) -> Result<LmsSecret, AllocError>
    requires shared { W.may_share work.now }
    requires lawful { IsLawful script.now }
    ensures { IfOk result (λ key. key ≡ key_of script.now cast.now) }
{
    let (id, seed) = id_and_seed(script, cast);
    LmsSecret::make_by(work, alloc, script.kind, script.height, id, seed)
}

/// The identifier and the seed of the key of a machine of the script.
fn id_and_seed(script: &Script, cast: &Cast0) -> ([u8; 16], [u8; 32])
    ensures id { result.0 ≡ machine_id script.now.seed cast.now.name }
    ensures seed { result.1 ≡ machine_seed script.now.seed cast.now.name }
{
    let name = cast.name.as_str().as_bytes();
    let seed = script.seed.as_slice();
    (machine_id(seed, name), machine_seed(seed, name))
}

/// The machine in the roster, with the public key of this key.
fn post_of(alloc: Global, cast: &Cast0, key: &LmsSecret) -> Result<Post, AllocError>
    ensures { IfOk result (λ post. post ≡ record {
      name = cast.now.name;
      role = cast.now.role;
      key = public_of key.now;
    }) }
{
    let name = String::from_str(alloc, cast.name.as_str())?;
    let public = key.public();
    Ok(Post {
        name: Name::new(name),
        role: cast.role,
        key: *public.bytes(),
    })
}

/// The seed of the key of a machine with this name.
#[tactic(auto, unfolding(crate::specs::Keys::machine_seed))]
fn machine_seed(seed: &[u8], name: &[u8]) -> [u8; 32]
    ensures { result ≡ machine_seed seed.now name.now }
{
    digest_of(b"auditorium seed", seed, name)
}

/// The identifier of the key of a machine with this name.
#[tactic(auto, unfolding(crate::specs::Keys::machine_id))]
fn machine_id(seed: &[u8], name: &[u8]) -> [u8; 16]
    ensures { result ≡ machine_id seed.now name.now }
{
    let digest = digest_of(b"auditorium id", seed, name);
    let mut id = [0; 16];
    id.copy_from_slice(&digest[..16]);
    id
}

/// SHA-256 of the tag, the seed and the name as one text.
fn digest_of(tag: &[u8], seed: &[u8], name: &[u8]) -> [u8; 32]
    ensures { result ≡ sha256 (tag.now ++ seed.now ++ name.now) }
{
    let mut hasher = Sha256::new();
    hasher.update(tag);
    hasher.update(seed);
    hasher.update(name);
    hasher.finalize()
}
