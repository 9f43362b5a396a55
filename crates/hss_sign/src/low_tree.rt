//! Low trees in use.
ghost use Rattle.std.specs.Prelude.{◌≡◌, ◌≢◌, ◌+◌, ◌++◌, ◌^◌, ◌<◌};
ghost use Rattle.std.specs.Prelude.{IfOk, IfSome, IfNone, OnOk, OnErr, Some};
ghost use Rattle.lms_sign.specs.Secret.{signed_by};
ghost use Rattle.hss_sign.specs.inside.Kept.{head_of};

use lms_ots::u32_bytes;
use lms_sign::LmsSecret;
use std::alloc::{AllocError, Global};

/// A low tree, and what each of its signatures begins with.
#[derive(Drop)]
pub(crate) struct LowTree {
    pub(crate) key: LmsSecret,
    // The number of keys that the top tree signed for a signature, which is 1, its signature of the
    // low tree's public key, and that key.
    pub(crate) head: Vec<u8>,
}

impl LowTree {
    // The low tree with this key, whose public key the top tree signs with its next leaf.
    pub(crate) fn make(
        alloc: Global,
        top: &mut LmsSecret,
        key: LmsSecret,
    ) -> Result<LowTree, AllocError>
        requires { top.old.next < 2 ^ top.old.height }
        ensures key { IfOk result (λ t. t.key ≡ key) }
        ensures head { IfOk result (λ t. t.head.items ≡ head_of top.old key) }
        ensures next { OnOk result (top.new ≡ record top.old { next = top.old.next + 1 }) }
        ensures err { OnErr result (top.new ≡ top.old) }
    {
        let public = key.public();
        let Ok(signed) = top.signature(alloc, public.bytes()) else {
            return Err(AllocError);
        };
        let mut head = Vec::with_capacity(alloc, 4 + signed.len() + 56)?;
        head.extend_from_slice(&u32_bytes(1))?;
        head.extend_from_slice(&signed)?;
        head.extend_from_slice(public.bytes())?;
        top.advance();
        Ok(LowTree { key, head })
    }

    // Signs `message` with the next leaf, which is used up. Out of memory, none is.
    pub(crate) fn sign(&mut self, alloc: Global, message: &[u8]) -> Result<Vec<u8>, AllocError>
        requires { self.old.key.next < 2 ^ self.old.key.height }
        ensures ok { IfOk result (λ s.
            s.items ≡ self.old.head.items ++ signed_by self.old.key message.now) }
        ensures next { OnOk result (self.new.key
            ≡ record self.old.key { next = self.old.key.next + 1 }) }
        ensures err { OnErr result (self.new.key ≡ self.old.key) }
        ensures head { self.new.head ≡ self.old.head }
    {
        let Ok(low) = self.key.signature(alloc, message) else {
            return Err(AllocError);
        };
        let mut signature = Vec::with_capacity(alloc, self.head.len() + low.len())?;
        signature.extend_from_slice(&self.head)?;
        signature.extend_from_slice(&low)?;
        self.key.advance();
        Ok(signature)
    }
}

// The tree, if it has a leaf left.
pub(crate) fn unspent(tree: Option<LowTree>) -> Option<LowTree>
    ensures some { IfSome result (λ t. (tree ≡ Some t) × (t.key.next ≢ 2 ^ t.key.height)) }
    ensures none { IfNone result (IfSome tree (λ t. t.key.next ≡ 2 ^ t.key.height)) }
{
    match tree {
        Some(tree) => {
            if tree.key.is_spent() {
                None
            } else {
                Some(tree)
            }
        }
        None => None,
    }
}
