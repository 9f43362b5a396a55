ghost use Rattle.std.specs.Prelude.{◌≤◌};

use crate::shown::{Shown, naming};
use log_frontier::{Frontier, Memory};
use std::alloc::Global;
use std::test::Fail;

/// An entry that names this number of digests.
fn naming_many(alloc: Global, digest: [u8; 32], count: u8) -> Result<Shown, Memory> {
    let mut names = Vec::new(alloc);
    for n in 0..count {
        names.push([n; 32])?;
    }
    Ok(naming(alloc, digest, names.as_slice())?)
}

/// Whether a frontier made for this number of entries has these answers of a first one that names
/// 200.
fn has_the_answers(alloc: Global, count: usize) -> Result<bool, Memory>
    requires { 1 ≤ count }
{
    let mut frontier = Frontier::make(alloc, count)?;
    let held = [naming_many(alloc, [250; 32], 200)?];
    frontier.note(&held, 0);
    let bears = frontier.bears(&held, &[250; 32]) && !frontier.bears(&held, &[3; 32]);
    Ok(bears && frontier.wants(&held) && frontier.list() == [0].as_slice())
}

/// Made for one entry, a frontier has no room for all that is looked for.
#[test]
fn two_hundred_names_have_the_same_answers(rt: HostRuntime) -> Result<(), Fail> {
    assert!(rt; has_the_answers(rt.alloc(), 1)?);
    assert!(rt; has_the_answers(rt.alloc(), 300)?);
    Ok(())
}

#[test]
fn digests_with_one_front_are_apart(rt: HostRuntime) -> Result<(), Fail> {
    let alloc = rt.alloc();
    let mut frontier = Frontier::make(alloc, 1)?;
    let held = [naming(alloc, [7; 32], &[])?];
    frontier.note(&held, 0);
    let mut other = [7; 32];
    other[16] = 8;
    assert!(rt; frontier.bears(&held, &[7; 32]) && !frontier.bears(&held, &other));
    assert!(rt; !frontier.wants(&held));
    Ok(())
}
