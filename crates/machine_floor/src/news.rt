//! How workers that find nothing to do wait for others.
use std::sync::atomic::{AtomicU64, Ordering};
use std::sync::{Mutex, Wait};
use std::time::Duration;

// How long a worker waits at most before it looks again, in microseconds.
const LONGEST: u64 = 1000;

// How often those that run wait at most for one that has not begun. Where the system refuses a
// thread, its work begins only when another has ended.
const PATIENCE: u64 = 32;

// The workers that wait and had the same count of turns when they began their last look.
#[derive(Drop)]
struct Waiting {
    seen: u64,
    workers: u64,
}

/// What the workers of a run report to each other: how many turns did something. Only how long they
/// take rests on it, so nothing is said of it.
#[derive(Drop)]
pub(crate) struct News {
    workers: u64,
    turns: AtomicU64,
    /// How many workers have begun.
    begun: AtomicU64,
    /// How often all that ran had found nothing while some had not begun.
    early: AtomicU64,
    /// How many workers sleep.
    asleep: AtomicU64,
    /// How many workers have ended.
    ended: AtomicU64,
    waiting: Mutex<Waiting>,
    /// One more than the count of turns at which all workers had found nothing.
    settled: AtomicU64,
}

impl News {
    /// Nothing was done yet, by this many workers.
    pub(crate) fn make(workers: u64) -> News {
        News {
            workers,
            turns: AtomicU64::new(0),
            begun: AtomicU64::new(0),
            early: AtomicU64::new(0),
            asleep: AtomicU64::new(0),
            ended: AtomicU64::new(0),
            waiting: Mutex::new(Waiting {
                seen: 0,
                workers: 0,
            }),
            settled: AtomicU64::new(0),
        }
    }

    /// How many turns did something so far. Whoever waits after a turn gives what this was before
    /// it.
    pub(crate) fn turns(&self) -> u64 {
        self.turns.load(Ordering::SeqCst)
    }

    /// Notes that a turn did something.
    pub(crate) fn tell(&self) {
        self.turns.fetch_add(1, Ordering::SeqCst);
        if self.asleep.load(Ordering::SeqCst) != 0 {
            self.turns.wake_all();
        }
    }

    /// Notes that a worker has begun.
    pub(crate) fn begin(&self) {
        self.begun.fetch_add(1, Ordering::SeqCst);
    }

    /// Notes that a worker has ended.
    pub(crate) fn end(&self) {
        self.ended.fetch_add(1, Ordering::SeqCst);
    }

    /// Waits after a turn that found nothing until another has done something, for a while at most.
    /// Once every worker that runs has found nothing since the last turn that did something, nobody
    /// waits, but for a short while where some have not begun.
    pub(crate) fn wait<R: Wait>(&self, rt: &R, seen: u64) {
        if self.settled.load(Ordering::SeqCst) == seen.wrapping_add(1) {
            return;
        }
        let waiting = self.add(rt, seen);
        if self.is_idle(waiting) {
            self.settled.store(seen.wrapping_add(1), Ordering::SeqCst);
        } else {
            self.asleep.fetch_add(1, Ordering::SeqCst);
            let longest = Duration::from_micros(LONGEST);
            self.turns
                .park_timeout(rt, (seen & 0xffff_ffff) as u32, longest);
            self.asleep.fetch_sub(1, Ordering::SeqCst);
        }
        self.take(rt, seen);
    }

    // Whether nobody is left to wait for, where this many wait.
    fn is_idle(&self, waiting: u64) -> bool {
        let begun = self.begun.load(Ordering::SeqCst);
        let ended = self.ended.load(Ordering::SeqCst);
        waiting.wrapping_add(ended) >= begun
            && (begun == self.workers || self.early.fetch_add(1, Ordering::SeqCst) >= PATIENCE)
    }

    // Counts one that waits among those that have seen as much, and returns how many these are. One
    // that has seen less than others isn't counted.
    fn add<R: Wait>(&self, rt: &R, seen: u64) -> u64 {
        let mut waiting = self.waiting.lock(rt);
        if waiting.seen > seen {
            return 0;
        }
        if waiting.seen < seen {
            waiting.seen = seen;
            waiting.workers = 0;
        }
        waiting.workers = waiting.workers.wrapping_add(1);
        waiting.workers
    }

    // Counts one less among those that have seen as much.
    fn take<R: Wait>(&self, rt: &R, seen: u64) {
        let mut waiting = self.waiting.lock(rt);
        if waiting.seen == seen {
            waiting.workers = waiting.workers.wrapping_sub(1);
        }
    }
}
