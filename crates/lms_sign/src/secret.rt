//! Secret keys.
ghost use Rattle.std.specs.Prelude.{
  ◌≡◌,
  ◌==◌,
  ◌↔◌,
  ◌+◌,
  ◌^◌,
  ◌<◌,
  ◌≤◌,
  IfOk,
  OnOk,
  OnErr,
  IsErrOf,
  length,
};
ghost use Rattle.lms_sign.specs.Height.{IsHeight};
ghost use Rattle.lms_sign.specs.Secret.{public_of, signed_by};
ghost use Rattle.lms_sign.specs.Signs.{Signs, index_in, lms_signature_len};
ghost use Rattle.lms_sign.specs.inside.Leaves.{AreLeaves};

use crate::leaves::{Leaf, LeafWork, blank_leaves};
use crate::nodes::{leaf_count, nodes_of, write_path};
use crate::public::{LmsPublic, lms_typecode, signature_len};
use lms_ots::{OtsKind, ots_sign_into, u32_bytes, write_at};
use std::alloc::{AllocError, Global};
use std::marker::Model;
use thiserror::Error;
use ways_of_work::Alone;

/// Out of memory.
pub type Memory = AllocError;

/// Why a secret key doesn't sign.
#[derive(Clone, Copy, Debug, Error)]
pub enum SignFault {
    #[error("each index of the key has signed")]
    Spent,
    #[error("out of memory")]
    Memory,
}

impl From<AllocError> for SignFault {
    ghost use Rattle.lms_sign.specs.declared.secret.SignFault.TheVariants.{Memory};

    ghost from_gives = { λ _ e. e ≡ Memory };

    fn from(_refused: AllocError) -> SignFault {
        SignFault::Memory
    }
}

/// A secret key that signs with the indexes 0, 1, 2 and so on, each once. It keeps all nodes of its
/// tree, and checkpoints of its one-time keys, from which signing walks their chains. It can't be
/// printed, so that its seed isn't printed by accident.
#[derive(Drop)]
pub struct LmsSecret {
    kind: OtsKind,
    height: u32,
    id: [u8; 16],
    seed: [u8; 32],
    next: u32,
    leaves: Vec<Leaf>,
    nodes: Vec<[u8; 32]>,
}

impl Model for LmsSecret {
    ghost use Rattle.std.specs.Prelude.{◌≡◌, ◌^◌, ◌≤◌, length};
    ghost use Rattle.lms_sign.specs.Height.{IsHeight};
    ghost use Rattle.lms_sign.specs.inside.Leaves.{AreLeaves};
    ghost use Rattle.lms_sign.specs.inside.Nodes.{HoldsTree};
    ghost use Rattle.lms_sign.specs.Secret.{Secret};

    ghost Value = { Secret };

    ghost view = { λ s.
        record { kind = s.kind; height = s.height; id = s.id; seed = s.seed; next = s.next } };

    ghost invariant = { λ s. IsHeight s.height × (s.next ≤ 2 ^ s.height) × (length s.id ≡ 16)
        × HoldsTree s.kind s.height s.id s.seed s.nodes.items
        × AreLeaves s.kind s.height s.id s.seed s.leaves.items };
}

impl LmsSecret {
    /// A new key, from its identifier and seed. `height` is 5 or 10.
    pub fn make(
        alloc: Global,
        kind: OtsKind,
        height: u32,
        id: [u8; 16],
        seed: [u8; 32],
    ) -> Result<LmsSecret, Memory>
        requires { IsHeight height }
        ensures { IfOk result (λ s. s ≡ record {
          kind = kind;
          height = height;
          id = id;
          seed = seed;
          next = 0;
        }) }
    {
        LmsSecret::make_by(&Alone, alloc, kind, height, id, seed)
    }

    /// The key whose indexes before `next` are used up. `height` is 5 or 10.
    pub fn make_at(
        alloc: Global,
        kind: OtsKind,
        height: u32,
        id: [u8; 16],
        seed: [u8; 32],
        next: u32,
    ) -> Result<LmsSecret, Memory>
        requires height { IsHeight height }
        requires next { next ≤ 2 ^ height }
        ensures { IfOk result (λ s. s ≡ record {
          kind = kind;
          height = height;
          id = id;
          seed = seed;
          next = next;
        }) }
    {
        LmsSecret::make_at_by(&Alone, alloc, kind, height, id, seed, next)
    }

    /// The key of `make`, whose leaves are made in this way.
    pub fn make_by<W: LeafWork>(
        work: &W,
        alloc: Global,
        kind: OtsKind,
        height: u32,
        id: [u8; 16],
        seed: [u8; 32],
    ) -> Result<LmsSecret, Memory>
        requires shared { W.may_share work.now }
        requires height { IsHeight height }
        ensures { IfOk result (λ s. s ≡ record {
          kind = kind;
          height = height;
          id = id;
          seed = seed;
          next = 0;
        }) }
    {
        LmsSecret::make_at_by(work, alloc, kind, height, id, seed, 0)
    }

    /// The key of `make_at`, whose leaves are made in this way.
    pub fn make_at_by<W: LeafWork>(
        work: &W,
        alloc: Global,
        kind: OtsKind,
        height: u32,
        id: [u8; 16],
        seed: [u8; 32],
        next: u32,
    ) -> Result<LmsSecret, Memory>
        requires shared { W.may_share work.now }
        requires height { IsHeight height }
        requires next { next ≤ 2 ^ height }
        ensures { IfOk result (λ s. s ≡ record {
          kind = kind;
          height = height;
          id = id;
          seed = seed;
          next = next;
        }) }
    {
        let mut leaves = blank_leaves(alloc, kind, height)?;
        work.make_leaves(alloc, kind, height, &id, &seed, leaves.as_mut_slice());
        LmsSecret::of_leaves(alloc, kind, height, id, seed, next, leaves)
    }

    // The key of these leaves.
    fn of_leaves(
        alloc: Global,
        kind: OtsKind,
        height: u32,
        id: [u8; 16],
        seed: [u8; 32],
        next: u32,
        leaves: Vec<Leaf>,
    ) -> Result<LmsSecret, Memory>
        requires height { IsHeight height }
        requires next { next ≤ 2 ^ height }
        requires leaves { AreLeaves kind height id seed leaves.items }
        ensures { IfOk result (λ s. s ≡ record {
          kind = kind;
          height = height;
          id = id;
          seed = seed;
          next = next;
        }) }
    {
        let nodes = nodes_of(alloc, kind, height, &id, &seed, &leaves)?;
        Ok(LmsSecret {
            kind,
            height,
            id,
            seed,
            next,
            leaves,
            nodes,
        })
    }

    /// The public key.
    pub fn public(&self) -> LmsPublic
        ensures { result ≡ public_of self.now }
    {
        LmsPublic::of_root(self.kind, self.height, &self.id, &self.nodes[1])
    }

    /// The index that signs next, counted from 0.
    pub fn next(&self) -> u32
        ensures value { result ≡ self.now.next }
        ensures within { result ≤ 2 ^ self.now.height }
    {
        let _height = self.height;
        self.next
    }

    /// Whether each index has signed. It takes no memory.
    pub fn is_spent(&self) -> bool
        ensures { result ≡ (self.now.next == 2 ^ self.now.height) }
    {
        self.next == leaf_count(self.height)
    }

    /// Signs `message` with the next index, which is used up. A refusal uses none up.
    pub fn sign(&mut self, alloc: Global, message: &[u8]) -> Result<Vec<u8>, SignFault>
        ensures ok { IfOk result (λ s. s.items ≡ signed_by self.old message.now) }
        ensures signs { IfOk result (λ s. Signs (public_of self.old) message.now s.items) }
        ensures index { IfOk result (λ s. index_in s.items ≡ self.old.next) }
        ensures next { OnOk result (self.new ≡ record self.old { next = self.old.next + 1 }) }
        ensures err { OnErr result (self.new ≡ self.old) }
        ensures spent { IsErrOf result SignFault.Spent
            ↔ (self.old.next ≡ 2 ^ self.old.height) }
    {
        let signature = self.signature(alloc, message)?;
        self.advance();
        Ok(signature)
    }

    /// The signature of `message` with the next index, which isn't used up.
    pub fn signature(&self, alloc: Global, message: &[u8]) -> Result<Vec<u8>, SignFault>
        ensures ok { IfOk result (λ s. s.items ≡ signed_by self.now message.now) }
        ensures signs { IfOk result (λ s. Signs (public_of self.now) message.now s.items) }
        ensures index { IfOk result (λ s. index_in s.items ≡ self.now.next) }
        ensures left { OnOk result (self.now.next < 2 ^ self.now.height) }
        ensures spent { IsErrOf result SignFault.Spent
            ↔ (self.now.next ≡ 2 ^ self.now.height) }
    {
        if self.next == leaf_count(self.height) {
            return Err(SignFault::Spent);
        }
        let mut signature = vec![in alloc; 0; signature_len(self.kind, self.height)]?;
        self.write_signature(&mut signature, message);
        Ok(signature)
    }

    // Fills `signature` with that of the message with the next index.
    fn write_signature(&self, signature: &mut [u8], message: &[u8])
        requires room { length signature.old
            ≡ lms_signature_len self.now.kind self.now.height }
        requires left { self.now.next < 2 ^ self.now.height }
        ensures { signature.new ≡ signed_by self.now message.now }
    {
        let type_at = 4 + self.kind.signature_len();
        write_at(signature, 0, &u32_bytes(self.next));
        ots_sign_into(
            &mut signature[4..type_at],
            self.kind,
            &self.id,
            self.next,
            &self.seed,
            message,
            &self.leaves[self.next as usize].checkpoints,
        );
        write_at(signature, type_at, &u32_bytes(lms_typecode(self.height)));
        write_path(
            &mut signature[type_at + 4..],
            &self.nodes,
            self.height,
            self.next,
        );
    }

    /// Uses the next index up.
    pub fn advance(&mut self)
        requires { self.old.next < 2 ^ self.old.height }
        ensures { self.new ≡ record self.old { next = self.old.next + 1 } }
    {
        self.next += 1;
    }
}
