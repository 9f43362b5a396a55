//! How work that can be done in parts is done: on the calling thread, or in threads of a runtime.
//! What the work is, is said by traits of the crates that have such work.
#![tactic(auto)]

ghost use Rattle.std.specs.Fork.{AcceptsAt, AcceptsEach, ChangesAt, ChangesEach};

use std::alloc::Global;
use std::thread::{self, Threads};

// The most threads that share some work. There are more of them than most machines have processors,
// so that one which is held up delays the others by a small part of the work only.
const MOST_THREADS: usize = 16;

// The bytes that are kept free while threads work. So a limit on the address space leaves room for
// what they do.
const ROOM: usize = 67_108_864;

// The bytes that have to be free for threads to be started: the room, and for each thread a stack of
// 8 MB and what an allocator sets aside for it, 64 MB of addresses. Almost none of them is touched.
const ROOM_WITH_THREADS: usize = ROOM + MOST_THREADS * 75_497_472;

/// A way to work.
pub trait Work {
    /// What the way to work needs, so that its threads may share it.
    ghost may_share: { Self → Type 0 };
}

/// On the calling thread, one part after another.
#[derive(Clone, Copy, Drop)]
pub struct Alone;

impl Work for Alone {
    ghost use Rattle.std.specs.Prelude.{⊤};

    ghost may_share = { λ _. ⊤ };
}

/// In threads of the runtime.
#[derive(Drop)]
pub struct InThreads<'a, R> {
    pub rt: &'a R,
}

impl<R: Threads + Sync> Work for InThreads<'_, R> {
    ghost use Rattle.std.specs.Thread.{IsSync};

    ghost may_share = { λ _. IsSync R.row };
}

/// Calls `f` with each element and its place, one after another.
pub fn each_in_turn<T, F: Fn(usize, &mut T)>(list: &mut [T], f: &F)
    requires { AcceptsEach F.Fn f.now list.old }
    ensures { ChangesEach F.Fn f.now list.old list.new }
{
    'places: for at in 0..list.len() {
        one(f, at, &mut list[at]);
    }
}

/// Calls `f` with each element and its place, in threads if there is room for them.
pub fn each_in_threads<R: Threads + Sync, T: Send, F: Fn(usize, &mut T) + Sync>(
    rt: &R,
    alloc: Global,
    list: &mut [T],
    f: &F,
)
    requires { AcceptsEach F.Fn f.now list.old }
    ensures { ChangesEach F.Fn f.now list.old list.new }
{
    let enough = Vec::<u8>::with_capacity(alloc, ROOM_WITH_THREADS).is_ok();
    let room = Vec::<u8>::with_capacity(alloc, ROOM);
    let threads = if enough && room.is_ok() {
        MOST_THREADS
    } else {
        1
    };
    thread::for_each_mut(rt, list, threads, f);
}

// Calls `f` with the element and its place.
fn one<T, F: Fn(usize, &mut T)>(f: &F, at: usize, element: &mut T)
    requires { AcceptsAt F.Fn f.now at element.old }
    ensures { ChangesAt F.Fn f.now at element.old element.new }
{
    f(at, element);
}
