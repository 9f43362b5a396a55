//! What threads leave, and what a run comes to.
use crate::loss::Loss;
use crate::sweeping::Waiting;
use polling_world::Machine;
use roster::Roster;

/// What is there once all threads have ended, the locks are closed and the links are finished.
#[derive(Drop)]
pub struct Gathered {
    pub roster: Roster,
    /// In the script's order.
    pub machines: Vec<Machine>,
    /// What nobody took from the links, each way in the order of the entries' numbers.
    pub waits: Vec<Waiting>,
    pub losses: Vec<Loss>,
    /// For each machine and each event of its log which of its workers did it: 0 the hand, 1 the
    /// ear.
    pub by: Vec<Vec<Option<u32>>>,
}

/// What a run comes to.
#[derive(Drop)]
pub struct Floor {
    pub roster: Roster,
    /// In the script's order.
    pub machines: Vec<Machine>,
    /// Sorted by sender, receiver and number.
    pub losses: Vec<Loss>,
    /// For each machine and each event of its log which of its workers did it: 0 the hand, 1 the
    /// ear, and none where the sweep did.
    pub by: Vec<Vec<Option<u32>>>,
}
