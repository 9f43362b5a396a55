//! What a link carries.
ghost use Rattle.std.specs.Prelude.{◌≡◌, ℕ};

/// An item of one sender, with a number among that sender's items.
pub trait Parcel: Drop {
    /// Whose item it is.
    ghost from: { Self → ℕ };

    /// Its number among its sender's items.
    ghost number: { Self → ℕ };

    /// The sender's number.
    fn from(&self) -> u32
        ensures { result ≡ from self.now };

    /// The item's number, counted from 0.
    fn number(&self) -> u32
        ensures { result ≡ number self.now };
}
