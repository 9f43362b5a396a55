//! Two-level signatures: HSS of RFC 8554, section 6, with two levels over the trees of `lms_sign`.
//!
//! A top tree signs the public keys of low trees, and each low tree signs messages. A secret key
//! signs with each leaf of each low tree once, its signature is a function of key, number and
//! message, and `hss_verify` accepts exactly what the RFC's algorithm accepts.
#![tactic(auto)]

mod calls;
mod derived;
mod laws;
mod low_tree;
mod secret;
mod verifying;

pub use calls::hss_sign_each;
pub use laws::numbers_rise_by_one;
pub use secret::{HssFault, HssSecret, Memory};
pub use verifying::hss_verify;
