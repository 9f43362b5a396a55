// Files that are being written.

use crate::folder::Found;

/// A file that is being written: its name, the other name that it has until it is put in place, and
/// its number.
#[derive(Drop)]
pub struct Begun {
    pub name: String,
    pub other_name: String,
    pub number: u64,
    /// What it is to replace.
    pub old: Option<Found>,
    /// The permission bits that it is to have if not the default ones.
    pub bits: Option<u32>,
    /// It says which other files belong to it.
    pub is_mark: bool,
}
