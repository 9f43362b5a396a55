//! The union of two rows of bits.

ghost use Rattle.std.specs.Prelude.{◌≡◌, ℕ, length, slice_index, bit_or};

use std::simd::prelude::*;

/// Sets in each word the bits that the word of `from` at its place has too, eight words at a time.
pub fn unite(into: &mut [u64], from: &[u64])
    requires { length into.old ≡ length from.now }
    ensures { (k : ℕ) →
        slice_index into.new k ≡ bit_or (slice_index into.old k) (slice_index from.now k) }
{
    let mut at = 0;
    while at + 8 <= into.len() {
        let both = u64x8::from_slice(&into[at..]) | u64x8::from_slice(&from[at..]);
        both.copy_to_slice(&mut into[at..]);
        at += 8;
    }
    for rest in at..into.len() {
        into[rest] |= from[rest];
    }
}
