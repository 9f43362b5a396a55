//! Entries of the network's logs (Auditorium, EVT 2007): what a machine did, signed, naming by
//! digest the entries that it had seen last. An entry has one text, and every other text is refused
//! by the first cause that applies.
#![tactic(auto)]

mod deed;
mod deed_reading;
mod entry;
mod form;
mod laws;
mod plain;
mod reading;
mod sealed;
mod sealing;
mod taking;
mod unsealing;
mod writing;

pub use deed::{Deed, How};
pub use entry::{Entry, Names};
pub use laws::{
    completions_exist, one_reading_is_right, one_unsealing_is_right, order_is_exact, plain_graphs,
    texts_have_one_entry,
};
pub use plain::{EntryFault, Plain, read_unsigned, read_unsigned_text};
pub use reading::is_rising;
pub use sealed::{Memory, Sealed};
pub use sealing::{SealFault, seal};
pub use unsealing::{NotUnsealed, unseal, unseal_text, unseal_vec};
