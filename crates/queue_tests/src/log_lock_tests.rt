//! Two threads add ticks to one value, each under its pass.
ghost use Rattle.std.specs.Prelude.{◌≡◌, [], ◌∷◌, ◌++◌, OnOk, OnErr};

use log_lock::{LogLock, Pass, Story, Tick};
use std::alloc::{AllocError, Global};
use std::sync::Wait;
use std::test::Fail;
use std::thread;

/// Whose ticks they are.
pub struct Owner {
    pub number: u64,
}

#[derive(Drop)]
struct Ticks {
    owner: u64,
    list: Vec<Tick>,
}

impl Story<Owner> for Ticks {
    ghost use Rattle.std.specs.Prelude.{[], ◌∷◌};

    ghost brand = { λ t. record { number = t.owner } ∷ [] };

    ghost story = { λ t. t.list.items };
}

impl Ticks {
    fn new(alloc: Global) -> Ticks
        ensures { result.list.items ≡ [] }
    {
        Ticks {
            owner: 7,
            list: Vec::new(alloc),
        }
    }

    fn add(&mut self, tick: Tick) -> Result<(), AllocError>
        ensures owner { self.new.owner ≡ self.old.owner }
        ensures ok { OnOk result (self.new.list.items ≡ self.old.list.items ++ tick ∷ []) }
        ensures err { OnErr result (self.new.list.items ≡ self.old.list.items) }
    {
        self.list.push(tick)?;
        Ok(())
    }
}

const EACH: u64 = 1000;

/// Adds ticks under the pass's number, and counts those for which there was no memory.
fn add_all<R: Wait>(
    rt: &R,
    lock: &LogLock<Ticks, Owner>,
    mut pass: Pass<Ticks, Owner>,
) -> (Pass<Ticks, Owner>, u64)
    requires { pass.lock ≡ lock.now }
    ensures { (result.0.lock ≡ lock.now) × (result.0.number ≡ pass.number) }
{
    let mut refused = 0;
    for what in 0..EACH {
        let mut guard = lock.hold(rt, pass);
        let tick = Tick {
            pass: guard.number(),
            what,
        };
        if guard.value().add(tick).is_err() {
            refused += 1;
        }
        pass = lock.release(rt, guard);
    }
    (pass, refused)
}

/// How many ticks of the pass come in their order, from 0 on.
fn count_in_order(ticks: &[Tick], pass: u32) -> u64 {
    let mut next = 0;
    for tick in ticks {
        if tick.pass == pass && tick.what == next {
            next += 1;
        }
    }
    next
}

/// Whether the ticks are those of both passes, in the order of each.
fn are_of_both(ticks: &[Tick]) -> bool {
    ticks.len() as u64 == 2 * EACH
        && count_in_order(ticks, 0) == EACH
        && count_in_order(ticks, 1) == EACH
}

#[test]
fn two_threads_lose_no_tick(rt: HostRuntime) -> Result<(), Fail> {
    let handle = &rt;
    let ticks = Ticks::new(rt.alloc());
    let (lock, first, second) = LogLock::<Ticks, Owner>::make(handle, rt.alloc(), ticks)?;
    let shared = &lock;
    let ((first, refused), (second, refused_too)) = thread::join(
        handle,
        move ||
            requires { first.lock ≡ shared.now }
            ensures { (result.0.lock ≡ shared.entry.now) × (result.0.number ≡ first.number) }
        { add_all(handle, shared, first) },
        move ||
            requires { second.lock ≡ shared.now }
            ensures { (result.0.lock ≡ shared.entry.now) × (result.0.number ≡ second.number) }
        { add_all(handle, shared, second) },
    );
    assert_eq!(rt; (refused, refused_too), (0, 0));
    let ticks = lock.close(handle, first, second);
    assert!(rt; are_of_both(ticks.list.as_slice()));
    Ok(())
}
