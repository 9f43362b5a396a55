use crate::shown::Shown;
use entangled_log::{Heard, Log, Memory, NextFault};
use entry_order::Knot;
use std::alloc::Global;
use std::test::Fail;

/// An entry of a machine that names nothing.
fn first_of(alloc: Global, maker: u32, digest: [u8; 32]) -> Shown {
    Shown {
        digest,
        names: Vec::new(alloc),
        maker,
        number: 0,
        stamp: 1,
    }
}

/// Whether the log takes the entry.
fn takes(log: &mut Log<Shown>, entry: Shown) -> bool {
    matches!(log.hear(entry), Heard::Taken)
}

/// Whether the next entry would name these digests.
fn names(alloc: Global, log: &Log<Shown>, digests: &[[u8; 32]]) -> Result<bool, NextFault> {
    Ok(log.next(alloc)?.names.as_slice() == digests)
}

/// Whether the next entry would have this number and this stamp.
fn counts(alloc: Global, log: &Log<Shown>, number: u32, stamp: u32) -> Result<bool, NextFault> {
    let next = log.next(alloc)?;
    Ok(next.number == number && next.stamp == stamp)
}

/// The second entry of a machine, which names its first.
fn second_of(
    alloc: Global,
    maker: u32,
    digest: [u8; 32],
    first: [u8; 32],
) -> Result<Shown, Memory> {
    Ok(Shown {
        digest,
        names: Vec::from_slice(alloc, &[first])?,
        maker,
        number: 1,
        stamp: 2,
    })
}

/// Whether the log hears an entry whose first name it doesn't hold.
fn hears_second(alloc: Global, log: &mut Log<Shown>) -> Result<bool, Fail> {
    let second = second_of(alloc, 1, [9; 32], [1; 32])?;
    Ok(takes(log, second) && names(alloc, log, &[[9; 32]])? && !log.is_whole())
}

/// Whether it then hears the one that was named, which stays out of the frontier.
fn hears_first(alloc: Global, log: &mut Log<Shown>) -> Result<bool, Fail> {
    let first = first_of(alloc, 1, [1; 32]);
    let whole = takes(log, first) && log.is_whole();
    Ok(whole && names(alloc, log, &[[9; 32]])? && counts(alloc, log, 0, 3)?)
}

#[test]
fn an_entry_that_is_named_before_it_is_heard_stays_out(rt: HostRuntime) -> Result<(), Fail> {
    let alloc = rt.alloc();
    let mut log = Log::make(alloc, 0, 4)?;
    assert!(rt; hears_second(alloc, &mut log)?);
    assert!(rt; hears_first(alloc, &mut log)?);
    Ok(())
}

#[test]
fn entries_that_none_names_stand_in_the_order_of_digests(rt: HostRuntime) -> Result<(), Fail> {
    let alloc = rt.alloc();
    let mut log = Log::make(alloc, 0, 2)?;
    assert!(rt; takes(&mut log, first_of(alloc, 1, [7; 32])));
    assert!(rt; takes(&mut log, first_of(alloc, 1, [3; 32])));
    assert!(rt; names(alloc, &log, &[[3; 32], [7; 32]])?);
    Ok(())
}

#[test]
fn the_greatest_stamp_is_the_last(rt: HostRuntime) -> Result<(), Fail> {
    let alloc = rt.alloc();
    let mut log = Log::make(alloc, 0, 1)?;
    let mut last = first_of(alloc, 1, [1; 32]);
    last.stamp = 4_294_967_295;
    assert!(rt; takes(&mut log, last));
    assert!(rt; matches!(log.next(alloc), Err(NextFault::StampSpent)));
    Ok(())
}

/// What a log says to an entry, and whether an entry that isn't taken comes back.
fn answer(log: &mut Log<Shown>, entry: Shown, digest: &[u8; 32]) -> (&'static str, bool) {
    match log.hear(entry) {
        Heard::Taken => ("taken", true),
        Heard::Full(entry) => ("full", entry.digest() == digest),
        Heard::Already(entry) => ("already", entry.digest() == digest),
        Heard::Own(entry) => ("own", entry.digest() == digest),
    }
}

#[test]
fn what_is_not_taken_comes_back(rt: HostRuntime) -> Result<(), Fail> {
    let alloc = rt.alloc();
    let mut log = Log::make(alloc, 0, 1)?;
    assert!(rt; takes(&mut log, first_of(alloc, 1, [1; 32])));
    assert!(rt; answer(&mut log, first_of(alloc, 1, [2; 32]), &[2; 32]) == ("full", true));
    assert!(rt; answer(&mut log, first_of(alloc, 1, [1; 32]), &[1; 32]) == ("already", true));
    assert!(rt; answer(&mut log, first_of(alloc, 0, [3; 32]), &[3; 32]) == ("own", true));
    assert_eq!(rt; log.events().len(), 1);
    Ok(())
}

/// Whether the owner sent this entry alone.
fn holds_one(log: &Log<Shown>, digest: &[u8; 32]) -> bool {
    let is_first = matches!(log.sent_at(0), Some(entry) if entry.digest() == digest);
    is_first && log.holds(digest) && log.sent_at(1).is_none()
}

#[test]
fn what_is_sent_is_the_frontier(rt: HostRuntime) -> Result<(), Fail> {
    let alloc = rt.alloc();
    let mut log = Log::make(alloc, 5, 1)?;
    let next = log.next(alloc)?;
    log.push_sent(Shown {
        digest: [4; 32],
        names: next.names,
        maker: log.owner(),
        number: next.number,
        stamp: next.stamp,
    });
    assert!(rt; holds_one(&log, &[4; 32]));
    assert!(rt; names(alloc, &log, &[[4; 32]])? && counts(alloc, &log, 1, 2)?);
    Ok(())
}

/// A digest that collides in a table with all others of this form. The hasher multiplies by the
/// last eight bytes, xor this number, so by 0.
fn colliding(n: u8) -> [u8; 32] {
    let mut digest = [0; 32];
    digest[0] = n;
    digest[24..].copy_from_slice(&0x9e37_79b9_7f4a_7c15_u64.to_le_bytes());
    digest
}

/// An entry of machine 1 that names the one before it.
fn nth(alloc: Global, n: u8) -> Result<Shown, Memory> {
    let names = Vec::from_slice(alloc, &[colliding(n)])?;
    Ok(Shown {
        digest: colliding(n.wrapping_add(1)),
        names,
        maker: 1,
        number: n as u32 + 1,
        stamp: n as u32 + 2,
    })
}

/// Hears 100 entries of machine 1 with digests that collide, the last first, and is whole once the
/// first is heard.
fn hears_colliding(alloc: Global, log: &mut Log<Shown>) -> Result<bool, Memory> {
    for later in 0..99u8 {
        let n = 99 - later;
        let entry = nth(alloc, n)?;
        if !takes(log, entry) || log.is_whole() || log.holds(&colliding(n)) {
            return Ok(false);
        }
    }
    Ok(takes(log, first_of(alloc, 1, colliding(1))) && log.is_whole())
}

/// Whether the log holds an entry of them and refuses it when it comes again.
fn holds_colliding(alloc: Global, log: &mut Log<Shown>, digest: &[u8; 32]) -> bool {
    let again = first_of(alloc, 1, *digest);
    log.holds(digest) && answer(log, again, digest) == ("already", true)
}

#[test]
fn digests_that_collide_have_the_answers_of_others(rt: HostRuntime) -> Result<(), Fail> {
    let alloc = rt.alloc();
    let mut log = Log::make(alloc, 0, 200)?;
    assert!(rt; hears_colliding(alloc, &mut log)?);
    assert!(rt; holds_colliding(alloc, &mut log, &colliding(50)));
    assert!(rt; names(alloc, &log, &[colliding(100)])?);
    Ok(())
}
