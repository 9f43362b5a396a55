//! The commands of an election office: `office` makes its files, `endorse` signs a file with its key,
//! and `endorsed` tells whether a signature is one. Each answers with what is to be written; nothing is
//! written here.
#![tactic(auto)]

pub mod endorse;
pub mod endorsed;
mod named_bytes;
pub mod office;
mod office_file;
