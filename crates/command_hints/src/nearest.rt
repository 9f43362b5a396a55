//! The name that is nearest to a word, in the hope that it was meant.

use std::alloc::{AllocError, Global};
use strsim::levenshtein;

/// Which of the names so far is the nearest to a word, if one is near.
#[derive(Clone, Copy)]
pub(crate) struct Nearest {
    place: Option<usize>,
    /// A name is nearer with fewer edits (Levenshtein).
    edits: usize,
}

impl Nearest {
    /// Of no names: one is near to the word with at most half as many edits as it has bytes.
    pub(crate) fn to(word: &str) -> Nearest {
        Nearest {
            place: None,
            edits: (word.len() / 2).saturating_add(1),
        }
    }

    /// The nearest of the names so far and the one at this place.
    pub(crate) fn or(
        self,
        alloc: Global,
        word: &str,
        name: &str,
        place: usize,
    ) -> Result<Nearest, AllocError> {
        let edits = levenshtein(alloc, word, name)?;
        if edits < self.edits {
            let place = Some(place);
            Ok(Nearest { place, edits })
        } else {
            Ok(self)
        }
    }

    /// The place of the nearest name, if one is near.
    pub(crate) fn place(self) -> Option<usize> {
        self.place
    }
}

/// The place of the name in this list, separated by commas, that is nearest to the word.
fn place_in(alloc: Global, word: &str, names: &str) -> Result<Option<usize>, AllocError> {
    let mut nearest = Nearest::to(word);
    for (place, name) in names.split(", ").enumerate() {
        nearest = nearest.or(alloc, word, name, place)?;
    }
    Ok(nearest.place())
}

/// The name of this list, separated by commas, that is nearest to the word, if one is near.
pub(crate) fn nearest_in(alloc: Global, word: &str, names: &'static str) -> Option<&'static str> {
    let place = place_in(alloc, word, names).ok()??;
    names.split(", ").nth(place)
}
