//! Bits of a row of words.

ghost use Rattle.std.specs.Prelude.{◌≡◌, ℕ, ◌*◌, ◌<◌, ◌≤◌, ◌||◌, ◌==◌, length};
ghost use Rattle.precedence.specs.Bits.{has_bit};

use crate::lanes::unite;

/// Whether the row has the bit of this node. It has none past its end.
pub fn has_bit(words: &[u64], node: usize) -> bool
    ensures { result ≡ has_bit words.now node }
{
    match words.get(node / 64) {
        Some(word) => (*word >> (node % 64)) & 1 == 1,
        None => false,
    }
}

/// Sets the bit of this node.
pub fn set_bit(words: &mut [u64], node: usize)
    requires { node < 64 * length words.old }
    ensures { (y : ℕ) → has_bit words.new y ≡ ((node == y) || has_bit words.old y) }
{
    words[node / 64] |= 1 << (node % 64);
}

/// Sets the bit of this parent, and those of its row, which may be shorter.
pub fn take_in(words: &mut [u64], row: &[u64], parent: usize)
    requires room { length row.now ≤ length words.old }
    requires within { parent < 64 * length words.old }
    ensures { (y : ℕ) → has_bit words.new y
        ≡ (has_bit words.old y || ((parent == y) || has_bit row.now y)) }
{
    unite(&mut words[..row.len()], row);
    set_bit(words, parent);
}
