//! The order of entries that name one another by digest: what machines hold, what precedes what,
//! and what an auditor can say of it when entries are lost. The definitions are in `specs/`, and
//! each law about them is the contract of a function with an empty body.
#![tactic(auto)]

mod event;
mod knot;
mod laws;
mod names;
mod step;
mod three;

pub use event::Event;
pub use knot::Knot;
pub use laws::{
    ascending_is_unique, forms_agree, frontier_is_unique, gaps_are_unique, honest_entries_agree,
    honest_entries_agree_in_orderly_worlds, made_is_lawful, merged_is_played_again,
    names_were_held, numbered_is_distinct, order_is_exact_without_cycles, order_is_receipt,
    order_is_receipt_in_orderly_worlds, order_is_settled, plays_are_made, stamps_are_few,
    stamps_rise, survivors_are_no_strays, worlds_have_one_merged_order,
};
pub use names::{has_digest, is_named, names_digest};
pub use step::Step;
pub use three::Three;
