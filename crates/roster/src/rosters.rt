//! Rosters, their text and their election.
ghost use Rattle.std.specs.Prelude.{◌≡◌, ◌≢◌, Ok, Err, IfOk};
ghost use Rattle.sha2.specs.Sha256.{sha256};
ghost use Rattle.roster.specs.Machines.{HaveText};
ghost use Rattle.roster.specs.Reading.{Reads};

use crate::faults::RosterFault;
use crate::post::Post;
use crate::reading::{count_machines, fault_of, posts_of, raws_of};
use crate::writing::tree_of;
use canonical_sexp::{whole_text, write};
use item_list::Items;
use sha2::{Digest, Sha256};
use std::alloc::{AllocError, Global};

/// An allocation failed.
pub type Memory = AllocError;

/// The most machines of a roster.
pub const MAX_MACHINES: usize = 16;

/// The machines of a roster, in their order.
pub type Posts = Items<Post>;

/// A roster. A machine is named by its place in it, from 0.
#[derive(Drop)]
pub struct Roster {
    pub machines: Posts,
}

impl Roster {
    /// Reads a roster's text in place. Memory is taken for the machines of a text that has
    /// the form of a roster's, and at most 16 of them.
    ///
    /// # Errors
    ///
    /// The first cause that applies, in the order of `RosterFault`.
    pub fn read(alloc: Global, bytes: &[u8]) -> Result<Roster, RosterFault>
        ensures { result ≢ Err RosterFault.Memory → Reads bytes.now result }
    {
        let text = match whole_text(bytes) {
            Ok(text) => text,
            Err(at) => return Err(RosterFault::NotCanonical(at)),
        };
        let Some(count) = count_machines(&text) else {
            return Err(RosterFault::WrongShape);
        };
        if count > MAX_MACHINES {
            return Err(RosterFault::TooManyMachines);
        }
        let raws = raws_of(alloc, &text)?;
        if let Some(fault) = fault_of(raws.as_slice()) {
            return Err(fault);
        }
        let machines = posts_of(alloc, raws.as_slice())?;
        Ok(Roster { machines })
    }

    /// The roster's text. It is read back as the same roster.
    pub fn write(&self, alloc: Global) -> Result<Vec<u8>, Memory>
        requires { HaveText self.now.machines }
        ensures { IfOk result (λ bytes. Reads bytes.items (Ok self.now)) }
    {
        let tree = tree_of(alloc, self.machines.as_slice())?;
        let mut text = Vec::new(alloc);
        write(alloc, &tree, &mut text)?;
        Ok(text)
    }

    /// An equal roster.
    pub fn copy(&self, alloc: Global) -> Result<Roster, Memory>
        ensures { IfOk result (λ roster. roster ≡ self.now) }
    {
        let mut machines = Vec::new(alloc);
        for post in self.machines.as_slice() {
            machines.push(post.copy(alloc)?)?;
        }
        Ok(Roster {
            machines: Posts::from_vec(machines),
        })
    }
}

/// The election of a roster: SHA-256 of its text.
pub fn election(bytes: &[u8]) -> [u8; 32]
    ensures { result ≡ sha256 bytes.now }
{
    Sha256::digest(bytes)
}
