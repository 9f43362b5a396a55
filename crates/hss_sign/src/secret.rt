//! Two-level secret keys.
ghost use Rattle.std.specs.Prelude.{◌≡◌, ◌↔◌, ◌+◌, ◌/◌, ◌%◌, ◌^◌, ◌<◌, ◌≤◌, ◌==◌};
ghost use Rattle.std.specs.Prelude.{IfOk, IsErrOf, OnErr, OnOk};
ghost use Rattle.lms_sign.specs.Height.{IsHeight};
ghost use Rattle.hss_sign.specs.TwoLevels.{hss_public, hss_signed, low_tree_of};
ghost use Rattle.hss_sign.specs.Signings.{IsSigningBy};
ghost use Rattle.hss_sign.specs.Signs.{HssSigns, leaves_in};
ghost use Rattle.hss_sign.specs.inside.Kept.{Keeps};

use crate::derived::{low_id, low_seed};
use crate::low_tree::{LowTree, unspent};
use lms_ots::{OtsKind, u32_bytes, write_at};
use lms_sign::{LeafWork, LmsSecret};
use std::alloc::{AllocError, Global};
use std::marker::Model;
use thiserror::Error;
use ways_of_work::Alone;

/// Out of memory.
pub type Memory = AllocError;

/// Why a secret key doesn't sign.
#[derive(Clone, Copy, Debug, Error)]
pub enum HssFault {
    #[error("each leaf of each low tree has signed")]
    Spent,
    #[error("out of memory")]
    Memory,
}

impl From<AllocError> for HssFault {
    ghost use Rattle.hss_sign.specs.declared.secret.HssFault.TheVariants.{Memory};

    ghost from_gives = { λ _ e. e ≡ Memory };

    fn from(_refused: AllocError) -> HssFault {
        HssFault::Memory
    }
}

/// A secret key whose signatures have the numbers 0, 1, 2 and so on, each once. Signature n is made
/// with leaf n mod 2^low of low tree n / 2^low, where each low tree has 2^low leaves. The low tree
/// that signed last is kept, and the next one is made when a message needs it. The key can't be
/// printed, so that its seed isn't printed by accident.
#[derive(Drop)]
pub struct HssSecret {
    kind: OtsKind,
    // The heights of the trees.
    top: u32,
    low: u32,
    id: [u8; 16],
    seed: [u8; 32],
    next: u32,
    // The key of the top tree. Its next leaf signs the next low tree that is made.
    top_key: LmsSecret,
    tree: Option<LowTree>,
}

impl Model for HssSecret {
    ghost use Rattle.std.specs.Prelude.{◌≡◌, ◌+◌, ◌^◌, ◌≤◌, length};
    ghost use Rattle.lms_sign.specs.Height.{IsHeight};
    ghost use Rattle.hss_sign.specs.TwoLevels.{TwoLevelSecret};
    ghost use Rattle.hss_sign.specs.inside.Kept.{Keeps};

    ghost Value = { TwoLevelSecret };

    ghost view = { λ s. record {
      kind = s.kind;
      top = s.top;
      low = s.low;
      id = s.id;
      seed = s.seed;
      next = s.next;
    } };

    ghost invariant = { λ s. IsHeight s.top × IsHeight s.low × (s.next ≤ 2 ^ (s.top + s.low))
        × (length s.id ≡ 16)
        × Keeps (record {
          kind = s.kind;
          top = s.top;
          low = s.low;
          id = s.id;
          seed = s.seed;
          next = s.next;
        }) s.top_key s.tree };
}

impl HssSecret {
    /// The key that signs with number `next` first, from the identifier and the seed of its top
    /// tree. Both heights are 5 or 10. No low tree is made yet.
    pub fn make(
        alloc: Global,
        kind: OtsKind,
        top: u32,
        low: u32,
        id: [u8; 16],
        seed: [u8; 32],
        next: u32,
    ) -> Result<HssSecret, Memory>
        requires top { IsHeight top }
        requires low { IsHeight low }
        requires next { next ≤ 2 ^ (top + low) }
        ensures { IfOk result (λ s. s ≡ record {
          kind = kind;
          top = top;
          low = low;
          id = id;
          seed = seed;
          next = next;
        }) }
    {
        HssSecret::make_by(&Alone, alloc, kind, top, low, id, seed, next)
    }

    /// The key of `make`, whose top tree is made in this way.
    pub fn make_by<W: LeafWork>(
        work: &W,
        alloc: Global,
        kind: OtsKind,
        top: u32,
        low: u32,
        id: [u8; 16],
        seed: [u8; 32],
        next: u32,
    ) -> Result<HssSecret, Memory>
        requires shared { W.may_share work.now }
        requires top { IsHeight top }
        requires low { IsHeight low }
        requires next { next ≤ 2 ^ (top + low) }
        ensures { IfOk result (λ s. s ≡ record {
          kind = kind;
          top = top;
          low = low;
          id = id;
          seed = seed;
          next = next;
        }) }
    {
        let top_key = LmsSecret::make_at_by(work, alloc, kind, top, id, seed, next >> low)?;
        Ok(HssSecret {
            kind,
            top,
            low,
            id,
            seed,
            next,
            top_key,
            tree: None,
        })
    }

    /// The public key (RFC 8554, 6.1).
    pub fn public(&self) -> [u8; 60]
        ensures { result ≡ hss_public self.now }
    {
        let mut public = [0; 60];
        write_at(&mut public, 0, &u32_bytes(2));
        write_at(&mut public, 4, self.top_key.public().bytes());
        public
    }

    /// The number of the next signature, counted from 0.
    pub fn next(&self) -> u32
        ensures value { result ≡ self.now.next }
        ensures within { result ≤ 2 ^ (self.now.top + self.now.low) }
    {
        let _height = self.top;
        self.next
    }

    /// Signs `message` with the next number, which is used up. A refusal uses none up.
    pub fn sign(&mut self, alloc: Global, message: &[u8]) -> Result<Vec<u8>, HssFault>
        ensures ok { IfOk result (λ s. s.items ≡ hss_signed self.old self.old.next message.now) }
        ensures signs { IfOk result (λ s. HssSigns (hss_public self.old) message.now s.items) }
        ensures leaves { IfOk result (λ s. leaves_in self.old.kind self.old.top s.items
            ≡ (self.old.next / 2 ^ self.old.low, self.old.next % 2 ^ self.old.low)) }
        ensures next { OnOk result (self.new ≡ record self.old { next = self.old.next + 1 }) }
        ensures err { OnErr result (self.new ≡ self.old) }
        ensures spent { IsErrOf result HssFault.Spent
            ↔ (self.old.next ≡ 2 ^ (self.old.top + self.old.low)) }
        ensures call { IsSigningBy self.old
            (record { message = message.now; answer = result; after = self.new }) }
    {
        self.sign_by(&Alone, alloc, message)
    }

    /// Signs as `sign` does. A low tree that has to be made is made in this way.
    pub fn sign_by<W: LeafWork>(
        &mut self,
        work: &W,
        alloc: Global,
        message: &[u8],
    ) -> Result<Vec<u8>, HssFault>
        requires { W.may_share work.now }
        ensures ok { IfOk result (λ s. s.items ≡ hss_signed self.old self.old.next message.now) }
        ensures signs { IfOk result (λ s. HssSigns (hss_public self.old) message.now s.items) }
        ensures leaves { IfOk result (λ s. leaves_in self.old.kind self.old.top s.items
            ≡ (self.old.next / 2 ^ self.old.low, self.old.next % 2 ^ self.old.low)) }
        ensures next { OnOk result (self.new ≡ record self.old { next = self.old.next + 1 }) }
        ensures err { OnErr result (self.new ≡ self.old) }
        ensures spent { IsErrOf result HssFault.Spent
            ↔ (self.old.next ≡ 2 ^ (self.old.top + self.old.low)) }
        ensures call { IsSigningBy self.old
            (record { message = message.now; answer = result; after = self.new }) }
    {
        if self.is_spent() {
            return Err(HssFault::Spent);
        }
        let mut tree = match unspent(self.tree.take()) {
            Some(tree) => tree,
            None => {
                let key = self.next_tree(work, alloc)?;
                LowTree::make(alloc, &mut self.top_key, key)?
            }
        };
        let answer = tree.sign(alloc, message);
        self.tree = Some(tree);
        let signature = answer?;
        self.next += 1;
        Ok(signature)
    }

    // The key of the low tree of the next signature, at its leaf.
    fn next_tree<W: LeafWork>(&self, work: &W, alloc: Global) -> Result<LmsSecret, Memory>
        requires { W.may_share work.now }
        ensures { IfOk result (λ key. key ≡ low_tree_of self.now self.now.next) }
    {
        let (i, q) = self.place();
        let id = low_id(&self.id, &self.seed, i);
        let seed = low_seed(&self.id, &self.seed, i);
        LmsSecret::make_at_by(work, alloc, self.kind, self.low, id, seed, q)
    }

    // The number of the low tree of the next signature, and its leaf.
    fn place(&self) -> (u32, u32)
        ensures tree { result.0 ≡ self.now.next / 2 ^ self.now.low }
        ensures leaf { result.1 ≡ self.now.next % 2 ^ self.now.low }
        ensures within { result.1 ≤ 2 ^ self.now.low }
        ensures low { IsHeight self.now.low }
    {
        (self.next >> self.low, self.next % (1 << self.low))
    }

    // Whether each leaf of each low tree has signed.
    fn is_spent(&self) -> bool
        ensures { result ≡ (self.now.next == 2 ^ (self.now.top + self.now.low)) }
    {
        self.next == 1 << (self.top + self.low)
    }
}
