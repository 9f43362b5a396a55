//! A gate in which workers of two machines meet.
ghost use Rattle.std.specs.Prelude.{◌<◌};

use crate::gate::Gate;
use std::sync::atomic::{AtomicU64, Ordering};

/// Makes four workers meet, for a test that threads run side by side. These passes do something,
/// each at its first call alone; every other returns at once:
///
/// | Worker and turn | Sets | Then waits for |
/// |---|---|---|
/// | hand of machine 0, turn 0 | the first flag | the second flag |
/// | hand of machine 1, turn 0 | the second flag | the first flag |
/// | ear of machine 1, turn 0 | none | the third flag |
/// | hand of machine 0, turn 1 | the third flag | the fourth flag |
/// | ear of machine 1, turn 1 | the fourth flag | none |
#[derive(Drop)]
pub struct MeetGate {
    limit: u64,
    flags: [AtomicU64; 4],
    /// For each pass of the table, whether it was called.
    called: [AtomicU64; 5],
    /// For each wait, whether it took place and saw its flag.
    seen: [AtomicU64; 4],
}

impl MeetGate {
    /// No flag is set. Each wait takes at most `limit` loads.
    pub fn make(limit: u64) -> MeetGate {
        MeetGate {
            limit,
            flags: [
                AtomicU64::new(0),
                AtomicU64::new(0),
                AtomicU64::new(0),
                AtomicU64::new(0),
            ],
            called: [
                AtomicU64::new(0),
                AtomicU64::new(0),
                AtomicU64::new(0),
                AtomicU64::new(0),
                AtomicU64::new(0),
            ],
            seen: [
                AtomicU64::new(0),
                AtomicU64::new(0),
                AtomicU64::new(0),
                AtomicU64::new(0),
            ],
        }
    }

    /// Whether each of the four waits took place and saw its flag.
    pub fn met(&self) -> bool {
        self.seen[0].load(Ordering::SeqCst) == 1
            && self.seen[1].load(Ordering::SeqCst) == 1
            && self.seen[2].load(Ordering::SeqCst) == 1
            && self.seen[3].load(Ordering::SeqCst) == 1
    }

    // Whether this pass of the table is called for the first time.
    fn is_first(&self, place: usize) -> bool
        requires { place < 5 }
    {
        self.called[place].swap(1, Ordering::SeqCst) == 0
    }

    fn set(&self, flag: usize)
        requires { flag < 4 }
    {
        self.flags[flag].store(1, Ordering::SeqCst);
    }

    fn wait(&self, flag: usize, place: usize)
        requires { (flag < 4) × (place < 4) }
    {
        for _ in 0..self.limit {
            if self.flags[flag].load(Ordering::SeqCst) == 1 {
                self.seen[place].store(1, Ordering::SeqCst);
                return;
            }
        }
    }
}

impl Gate for MeetGate {
    fn pass(&self, machine: u32, ear: bool, turn: u32) {
        match (machine, ear, turn) {
            (0, false, 0) => {
                if self.is_first(0) {
                    self.set(0);
                    self.wait(1, 0);
                }
            }
            (1, false, 0) => {
                if self.is_first(1) {
                    self.set(1);
                    self.wait(0, 1);
                }
            }
            (1, true, 0) => {
                if self.is_first(2) {
                    self.wait(2, 2);
                }
            }
            (0, false, 1) => {
                if self.is_first(3) {
                    self.set(2);
                    self.wait(3, 3);
                }
            }
            (1, true, 1) => {
                if self.is_first(4) {
                    self.set(3);
                }
            }
            _ => {}
        }
    }
}
