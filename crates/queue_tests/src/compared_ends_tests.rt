//! What a put and a take must do once the ends of a link have compared what they know.
ghost use Rattle.std.specs.Prelude.{◌≡◌, ◌<◌, ◌+◌, List, [], ◌∷◌, ◌++◌, length, All};
ghost use Rattle.broadcast_queues.specs.Ends.{IsOutOf, IsInOf, IsNewOut, IsNewIn};

use crate::broadcast_queues_tests::{Numbered, SENDER, item};
use broadcast_queues::{Link, LinkIn, LinkOut, Parcel};
use std::sync::Wait;
use std::test::Fail;

/// Puts an item on a link that holds fewer than `capacity` items: it goes in.
fn put_where_room<T: Parcel, R: Wait>(
    rt: &R,
    link: &Link<T>,
    out: &mut LinkOut<T>,
    inn: &mut LinkIn<T>,
    item: T,
)
    requires out { IsOutOf link.now out.old }
    requires inn { IsInOf link.now inn.old }
    requires from { T.from item ≡ link.now.from }
    requires number { All (λ before. T.number before < T.number item) out.old.put }
    requires room { length out.old.put < length inn.old.taken + link.now.capacity }
    ensures out { IsOutOf link.now out.new × (out.new.put ≡ out.old.put ++ item ∷ []) }
    ensures inn { IsInOf link.now inn.new × (inn.new.taken ≡ inn.old.taken) }
{
    link.compare(out, inn);
    match link.put(rt, out, item) {
        Ok(()) => {}
        // That the link was full would show that `capacity` items more were put than taken.
        Err(_) => unreachable!(),
    }
}

/// Takes an item from a link that holds some: it is the first of them.
fn take_first<T: Parcel, R: Wait>(
    rt: &R,
    link: &Link<T>,
    out: &mut LinkOut<T>,
    inn: &mut LinkIn<T>,
) -> T
    requires out { IsOutOf link.now out.old }
    requires inn { IsInOf link.now inn.old }
    requires some { length inn.old.taken < length out.old.put }
    ensures out { IsOutOf link.now out.new × (out.new.put ≡ out.old.put) }
    ensures inn { IsInOf link.now inn.new × (inn.new.taken ≡ inn.old.taken ++ result ∷ []) }
    ensures first { (items : List T) × (out.old.put ≡ inn.old.taken ++ result ∷ items) }
{
    link.compare(out, inn);
    match link.take(rt, inn) {
        Some(item) => {
            // What is taken now is a prefix of what was put.
            link.compare(out, inn);
            item
        }
        // That the link was empty would show that all was taken.
        None => unreachable!(),
    }
}

/// Two items through a new link of one place, one after the other.
fn carry_two<R: Wait>(
    rt: &R,
    link: &Link<Numbered>,
    out: &mut LinkOut<Numbered>,
    inn: &mut LinkIn<Numbered>,
) -> (Numbered, Numbered)
    requires link { (link.now.from ≡ 7) × (link.now.capacity ≡ 1) }
    requires out { IsNewOut link.now out.old }
    requires inn { IsNewIn link.now inn.old }
    ensures out { IsOutOf link.now out.new }
    ensures inn { IsInOf link.now inn.new }
    ensures first { result.0.number ≡ 0 }
    ensures second { result.1.number ≡ 1 }
{
    put_where_room(rt, link, out, inn, item(0));
    let first = take_first(rt, link, out, inn);
    put_where_room(rt, link, out, inn, item(1));
    let second = take_first(rt, link, out, inn);
    (first, second)
}

#[test]
fn ends_that_compared_put_and_take(rt: HostRuntime) -> Result<(), Fail> {
    let (link, mut out, mut inn) = Link::make(rt.alloc(), SENDER, 1)?;
    let (first, second) = carry_two(&rt, &link, &mut out, &mut inn);
    assert!(rt; first == item(0) && second == item(1));
    assert!(rt; link.take(&rt, &mut inn).is_none());
    assert!(rt; link.finish(&rt, out, inn).next().is_none());
    Ok(())
}
