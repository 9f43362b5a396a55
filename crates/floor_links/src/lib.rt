//! The links between all machines, and the entries that go over them: an entry that a machine sends
//! is put on the link to each other machine, or its loss is noted with its cause.
#![tactic(auto)]

mod links;
mod making;
mod parcel;
mod sending;

pub use links::Links;
pub use making::{NewLinks, make_links};
pub use parcel::Broadcast;
pub use sending::send_all;
