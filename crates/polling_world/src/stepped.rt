//! What became of a step.

/// What became of a step of a world.
#[derive(Clone, Copy, PartialEq, Eq)]
pub enum Stepped {
    /// A machine sent, heard or stopped.
    Did,
    /// Nothing changed.
    Nothing,
}
