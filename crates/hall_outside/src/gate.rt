//! What workers pass before their turns.

/// What a worker passes before each of its turns.
pub trait Gate {
    /// Called by a worker of machine `machine`, its ear or its hand, before its turn `turn`,
    /// counted from 0. It returns and promises nothing.
    fn pass(&self, machine: u32, ear: bool, turn: u32);
}

/// Lets every worker pass at once.
#[derive(Drop)]
pub struct OpenGate;

impl Gate for OpenGate {
    fn pass(&self, _machine: u32, _ear: bool, _turn: u32) {}
}
