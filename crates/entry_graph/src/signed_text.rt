//! Entries that have a text.
ghost use Rattle.std.specs.Prelude.{◌≡◌, ℕ, List};

use entry_format::Sealed;
use entry_order::Knot;

/// An entry whose digest is that of a text. Two with one digest and different texts collide.
pub trait SignedText: Knot {
    /// The text.
    ghost text: { Self → List ℕ };

    /// The signed text.
    fn signed_text(&self) -> &[u8]
        ensures { result.now ≡ text self.now };
}

impl SignedText for Sealed {
    ghost text = { λ sealed. sealed.text };

    fn signed_text(&self) -> &[u8] {
        self.text()
    }
}
