//! Does one thing with a text so many times, for measuring the readers:
//! `bench_text WHAT COUNT FILE`, where WHAT is `read` (as a tree), `pass` (find it in place),
//! `walk` (find it, and walk its members and their members) or `copy`. It prints what was found the
//! last time.
#![tactic(auto)]

use canonical_sexp::{Front, Read, Rest, front_of, read_one};
use std::alloc::{AllocError, Global};
use std::{env, fs, io};

/// How many bytes the text at the front takes. It is 0 where none stands there whole.
fn read(alloc: Global, bytes: &[u8]) -> Result<usize, AllocError> {
    match read_one(alloc, bytes)? {
        Read::Whole { used, .. } => Ok(used),
        Read::Cut => Ok(0),
        Read::Bad { .. } => Ok(0),
    }
}

/// The same, in place.
fn pass(bytes: &[u8]) -> usize {
    match front_of(bytes) {
        Front::Whole { used, .. } => used,
        Front::Cut => 0,
        Front::Bad { .. } => 0,
    }
}

/// How many of the members are atoms.
fn count_atoms(members: Rest<'_>) -> usize {
    let mut count = 0_usize;
    for member in members {
        if member.as_atom().is_some() {
            count = count.wrapping_add(1);
        }
    }
    count
}

/// How many members and atoms in them the text at the front has.
fn walk(bytes: &[u8]) -> usize {
    let Front::Whole { text, .. } = front_of(bytes) else {
        return 0;
    };
    let Some(members) = text.as_list() else {
        return 0;
    };
    let mut count = 0_usize;
    for member in members {
        count = count.wrapping_add(1);
        if let Some(inner) = member.as_list() {
            count = count.wrapping_add(count_atoms(inner));
        }
    }
    count
}

/// What is found when it is done once more.
fn once(alloc: Global, what: &str, bytes: &[u8]) -> Result<usize, AllocError> {
    match what {
        "read" => read(alloc, bytes),
        "pass" => Ok(pass(bytes)),
        "walk" => Ok(walk(bytes)),
        _ => Ok(Vec::from_slice(alloc, bytes)?.len()),
    }
}

fn main(rt: HostRuntime) -> io::Result<()> {
    let mut words = env::args(&rt)?.skip(1);
    let (Some(what), Some(count), Some(file)) = (words.next(), words.next(), words.next()) else {
        println!(rt; "bench_text read|pass|walk|copy COUNT FILE")?;
        return Ok(());
    };
    let count: u32 = count.parse().unwrap_or(0);
    let bytes = fs::read(&rt, file.as_str())?;
    let mut found = 0;
    for _ in 0..count {
        found = once(rt.alloc(), what.as_str(), &bytes)?;
    }
    println!(rt; "{found}")?;
    Ok(())
}
