//! A link by hand, and a link between two threads.
ghost use Rattle.std.specs.Prelude.{◌≡◌, ◌<◌, [], All, IsTrue};
ghost use Rattle.broadcast_queues.specs.Ends.{IsOutOf, IsInOf};

use broadcast_queues::{Finished, Link, LinkIn, LinkOut, Parcel};
use std::sync::Wait;
use std::test::Fail;
use std::thread;

/// An item that is its sender and its number.
#[derive(PartialEq, Eq, Drop)]
pub struct Numbered {
    pub from: u32,
    pub number: u32,
}

impl Parcel for Numbered {
    ghost from = { λ item. item.from };

    ghost number = { λ item. item.number };

    fn from(&self) -> u32 {
        self.from
    }

    fn number(&self) -> u32 {
        self.number
    }
}

pub const SENDER: u32 = 7;

/// The sender's item with a number.
pub fn item(number: u32) -> Numbered
    ensures { (result.from ≡ 7) × (result.number ≡ number) }
{
    Numbered {
        from: SENDER,
        number,
    }
}

/// Whether the link takes two items and gives the third back.
fn is_full_after_two<R: Wait>(rt: &R, link: &Link<Numbered>, out: &mut LinkOut<Numbered>) -> bool
    requires { IsOutOf link.now out.old × (link.now.from ≡ 7) × (out.old.put ≡ []) }
    ensures end { IsOutOf link.now out.new }
    ensures rising { IsTrue result → All (λ before. before.number < 2) out.new.put }
{
    let first = link.put(rt, out, item(0));
    let second = link.put(rt, out, item(1));
    let third = link.put(rt, out, item(2));
    first == Ok(()) && second == Ok(()) && third == Err(item(2))
}

/// Whether it has room for the third once the first was taken.
fn has_room_again<R: Wait>(
    rt: &R,
    link: &Link<Numbered>,
    out: &mut LinkOut<Numbered>,
    inn: &mut LinkIn<Numbered>,
) -> bool
    requires out { IsOutOf link.now out.old × (link.now.from ≡ 7) }
    requires rising { All (λ before. before.number < 2) out.old.put }
    requires inn { IsInOf link.now inn.old }
    ensures out { IsOutOf link.now out.new }
    ensures inn { IsInOf link.now inn.new }
{
    link.take(rt, inn) == Some(item(0)) && link.put(rt, out, item(2)) == Ok(())
}

/// Whether the second and the third item are what is left.
fn holds_two(mut finished: Finished<Numbered>) -> bool {
    finished.next() == Some(item(1))
        && finished.next() == Some(item(2))
        && finished.next().is_none()
}

#[test]
fn a_full_link_gives_the_item_back_and_keeps_the_rest(rt: HostRuntime) -> Result<(), Fail> {
    let (link, mut out, mut inn) = Link::make(rt.alloc(), SENDER, 2)?;
    assert!(rt; link.take(&rt, &mut inn).is_none());
    assert!(rt; is_full_after_two(&rt, &link, &mut out));
    assert!(rt; has_room_again(&rt, &link, &mut out, &mut inn));
    assert!(rt; holds_two(link.finish(&rt, out, inn)));
    Ok(())
}

const COUNT: u32 = 10_000;

/// Puts the items in order, each until the link takes it.
fn put_all<R: Wait>(rt: &R, link: &Link<Numbered>, mut out: LinkOut<Numbered>) -> LinkOut<Numbered>
    requires { IsOutOf link.now out × (link.now.from ≡ 7) × (out.put ≡ []) }
    ensures { IsOutOf link.now result }
{
    let mut next = 0;
    for _ in rt.forever() {
        if next >= COUNT {
            break;
        }
        match link.put(rt, &mut out, item(next)) {
            Ok(()) => next += 1,
            Err(_) => thread::yield_now(),
        }
    }
    out
}

/// Takes as many items, and counts those that come in their order.
fn take_all<R: Wait>(
    rt: &R,
    link: &Link<Numbered>,
    mut inn: LinkIn<Numbered>,
) -> (LinkIn<Numbered>, u32)
    requires { IsInOf link.now inn }
    ensures { IsInOf link.now result.0 }
{
    let mut taken = 0;
    let mut in_order = 0;
    for _ in rt.forever() {
        if taken >= COUNT {
            break;
        }
        match link.take(rt, &mut inn) {
            Some(item) => {
                if item.number == taken {
                    in_order += 1;
                }
                taken += 1;
            }
            None => thread::yield_now(),
        }
    }
    (inn, in_order)
}

#[test]
fn two_threads_lose_nothing(rt: HostRuntime) -> Result<(), Fail> {
    let (link, out, inn) = Link::make(rt.alloc(), SENDER, 4)?;
    let shared = &link;
    let handle = &rt;
    let (out, (inn, in_order)) = thread::join(
        handle,
        move ||
            requires { IsOutOf shared.now out × (shared.now.from ≡ 7) × (out.put ≡ []) }
            ensures { IsOutOf shared.entry.now result }
        { put_all(handle, shared, out) },
        move ||
            requires { IsInOf shared.now inn }
            ensures { IsInOf shared.entry.now result.0 }
        { take_all(handle, shared, inn) },
    );
    assert_eq!(rt; in_order, COUNT);
    assert!(rt; link.finish(handle, out, inn).next().is_none());
    Ok(())
}
