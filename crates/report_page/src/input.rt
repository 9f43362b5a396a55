//! What was audited.
ghost use Rattle.std.specs.Prelude.{◌≡◌, IfOk};
ghost use Rattle.report_page.specs.Sections.{digest_words, what_words};

use crate::cell::{Text, text_of};
use crate::words::NO_DIGEST;
use item_list::Items;
use std::alloc::{AllocError, Global};

/// What an input is.
#[derive(Clone, Copy)]
pub enum What {
    Roster,
    Rules,
    /// A log, by its place among those that were given, from 0.
    Log(usize),
}

/// An input: what it is, its name, and the SHA-256 of its bytes, if that is known.
#[derive(Drop)]
pub struct Input {
    pub what: What,
    pub name: Text,
    pub digest: Option<[u8; 32]>,
}

/// What an input is, in words.
pub(crate) fn what_words(alloc: Global, what: What) -> Result<Text, AllocError>
    ensures { IfOk result (λ text. text ≡ what_words what) }
{
    let text = match what {
        What::Roster => format!(in alloc; "roster")?,
        What::Rules => format!(in alloc; "rules")?,
        What::Log(place) => {
            let number = place as u128 + 1;
            format!(in alloc; "log {number}")?
        }
    };
    Ok(Items::from_vec(text.into_bytes()))
}

/// The digest of an input, in words.
pub(crate) fn digest_words(alloc: Global, digest: Option<[u8; 32]>) -> Result<Text, AllocError>
    ensures { IfOk result (λ text. text ≡ digest_words digest) }
{
    match digest {
        Some(digest) => Ok(Items::from_vec(hex::encode(alloc, digest)?.into_bytes())),
        None => text_of(alloc, NO_DIGEST.as_bytes()),
    }
}
