//! A folder in memory that exposes its moments, what a crash may leave of it, and tests with it of
//! how files are put in place.
#![tactic(auto)]

mod crashes;
#[cfg(test)]
mod creating_tests;
mod disk;
mod memory_folder;
#[cfg(test)]
mod placing_tests;
mod reading;

pub use crashes::{NameContents, crash, crash_count, has_other_names, remains};
pub use disk::{Call, Disk, Ending, Fault};
pub use memory_folder::MemoryFolder;
pub use reading::{PLAIN, content};
