//! The events of a machine.

/// One event of a machine's history.
#[derive(Drop)]
pub enum Event<T> {
    /// The machine signed and broadcast this entry.
    Sent(T),
    /// The machine heard this entry of another.
    Got(T),
}
