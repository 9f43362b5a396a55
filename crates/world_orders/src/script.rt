//! A small world as lines of text, each a word and some numbers.

use crate::entry::{Entry, digest_of};
use entry_order::Step;
use std::alloc::{AllocError, Global};

/// What the lines say. Machines are numbered from 0.
#[derive(Drop)]
pub struct Script {
    pub machines: u32,
    pub steps: Vec<Step>,
    /// The maker and the number of each entry that isn't given.
    pub lost: Vec<(u32, u32)>,
    /// Entries that are given though no machine sent them.
    pub forged: Vec<Entry>,
}

impl Script {
    pub fn new(alloc: Global) -> Self {
        Script {
            machines: 0,
            steps: Vec::new(alloc),
            lost: Vec::new(alloc),
            forged: Vec::new(alloc),
        }
    }

    /// Takes a line in, and answers whether it is a good one.
    ///
    /// The lines are `machines N`, `act M`, `hear AT FROM NUMBER`, `stop M`, `lose MAKER NUMBER`, and
    /// `forge MAKER NUMBER STAMP ..`, whose names follow as pairs of a maker and a number.
    pub fn take(&mut self, alloc: Global, line: &str) -> Result<bool, AllocError> {
        let mut kind = "";
        let mut numbers = Vec::new(alloc);
        for (at, word) in line.split_whitespace().enumerate() {
            if at == 0 {
                kind = word;
            } else {
                let Ok(number) = word.parse::<u32>() else {
                    return Ok(false);
                };
                numbers.push(number)?;
            }
        }
        self.add(alloc, kind, &numbers)
    }

    fn add(&mut self, alloc: Global, kind: &str, numbers: &[u32]) -> Result<bool, AllocError> {
        match (kind, numbers) {
            ("machines", [count]) => self.machines = *count,
            ("act", [machine]) => self.steps.push(Step::Act(*machine))?,
            ("hear", [at, from, number]) => self.steps.push(Step::Hear {
                at: *at,
                from: *from,
                number: *number,
            })?,
            ("stop", [machine]) => self.steps.push(Step::Stop(*machine))?,
            ("lose", [maker, number]) => self.lost.push((*maker, *number))?,
            ("forge", [maker, number, stamp, names @ ..]) => {
                let Some(entry) = forged(alloc, (*maker, *number), *stamp, names)? else {
                    return Ok(false);
                };
                self.forged.push(entry)?;
            }
            _ => return Ok(false),
        }
        Ok(true)
    }
}

// The digest of an entry, if maker and number are octets.
fn digest_if_octets(maker: u32, number: u32) -> Option<[u8; 32]> {
    let maker = u8::try_from(maker).ok()?;
    let number = u8::try_from(number).ok()?;
    Some(digest_of(maker, number))
}

// An entry that names these pairs of a maker and a number, if all are octets.
fn forged(
    alloc: Global,
    own: (u32, u32),
    stamp: u32,
    pairs: &[u32],
) -> Result<Option<Entry>, AllocError> {
    let Some(digest) = digest_if_octets(own.0, own.1) else {
        return Ok(None);
    };
    let mut names = Vec::new(alloc);
    for pair in pairs.chunks_exact(2) {
        let Some(name) = digest_if_octets(pair[0], pair[1]) else {
            return Ok(None);
        };
        names.push(name)?;
    }
    Ok(Some(Entry {
        digest,
        names,
        maker: own.0,
        number: own.1,
        stamp,
    }))
}
