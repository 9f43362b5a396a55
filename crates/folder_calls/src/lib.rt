//! The calls that a system gives for the files of a folder, what they mean, and how several files
//! are put in place with them.
//!
//! [`Folder`] is some thirty calls, each with what it does to the folder and with what a crash may
//! leave of it. Over them [`create_locked`] makes a new file that is locked, and [`finish`] puts
//! files in place: each name has its old or its new bytes after a crash at any moment, in the
//! files' order, and a set of files is old, or new, or has no mark.
#![tactic(auto)]

mod begun;
mod creating;
mod finishing;
mod flushing;
mod folder;
mod kinds;
mod names;
mod placing;
mod sets;
mod settling;

pub use begun::Begun;
pub use creating::{OWNER_WRITES, create_locked, in_use};
pub use finishing::finish;
pub use folder::{Folder, Found};
pub use names::is_other;
pub use placing::{Stopped, discard_all, finish_files, numbers_come_first};
pub use sets::{finish_set, sets_are_never_mixed};
