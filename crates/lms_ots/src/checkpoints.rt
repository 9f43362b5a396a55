//! Checkpoints: values along a key's chains, kept so that a signer can begin at the nearest one.
ghost use Rattle.std.specs.Prelude.{◌≡◌, ◌+◌, ◌*◌, ◌≤◌, ◌<◌, ◌-◌, ◌^◌, length};
ghost use Rattle.lms_ots.specs.Parameters.{parameters};
ghost use Rattle.lms_ots.specs.Checkpoints.{AreCheckpoints, chain_checkpoints};
ghost use Rattle.lms_ots.specs.Ots.{chain, secret_element};
ghost use Rattle.lms_ots.specs.inside.Elements.{AreKeptTo};

use crate::chain::{chain, secret_element};
use crate::kind::OtsKind;

// The end of the chain of digit `i`. Keeps the checkpoints that it passes, after those of the
// chains before it, as long as there is room.
pub(crate) fn end_of_chain(
    kind: OtsKind,
    id: &[u8; 16],
    q: u32,
    seed: &[u8; 32],
    i: u16,
    checkpoints: &mut [[u8; 32]],
) -> [u8; 32]
    requires before { AreKeptTo kind id.now q seed.now (i * chain_checkpoints kind)
        checkpoints.old }
    ensures value { result
        ≡ chain id.now q i 0 (2 ^ (parameters kind).w - 1) (secret_element id.now q seed.now i) }
    ensures kept { AreKeptTo kind id.now q seed.now ((i + 1) * chain_checkpoints kind)
        checkpoints.new }
    ensures len { length checkpoints.new ≡ length checkpoints.old }
{
    let stride = kind.stride();
    let count = kind.chain_checkpoints();
    let mut tmp = secret_element(id, q, seed, i);
    'checkpoints: for n in 0..count {
        let next = chain(id, q, i, n * stride, (n + 1) * stride, tmp);
        let place = usize::from(i) * usize::from(count) + usize::from(n);
        if place < checkpoints.len() {
            checkpoints[place] = next;
        }
        tmp = next;
    }
    chain(id, q, i, count * stride, kind.parameters().largest(), tmp)
}

// The value of the chain of digit `i` at `place`. The walk begins at the last checkpoint up to
// there, or at the secret element where none is kept.
pub(crate) fn chain_to(
    kind: OtsKind,
    id: &[u8; 16],
    q: u32,
    seed: &[u8; 32],
    i: u16,
    place: u8,
    checkpoints: &[[u8; 32]],
) -> [u8; 32]
    requires { AreCheckpoints kind id.now q seed.now checkpoints.now }
    ensures { result ≡ chain id.now q i 0 place (secret_element id.now q seed.now i) }
{
    let stride = kind.stride();
    let count = kind.chain_checkpoints();
    let passed = place / stride;
    if 0 < passed && passed <= count {
        let at = usize::from(i) * usize::from(count) + usize::from(passed) - 1;
        if at < checkpoints.len() {
            return chain(id, q, i, passed * stride, place, checkpoints[at]);
        }
    }
    chain(id, q, i, 0, place, secret_element(id, q, seed, i))
}
