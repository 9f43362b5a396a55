//! The three values of what is known.

/// What is known of an order, or of a rule: Kleene's three values.
#[derive(Clone, Copy, Debug, PartialEq, Eq)]
pub enum Three {
    False,
    Unknown,
    True,
}
