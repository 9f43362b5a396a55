//! Tests of the public calls of `lms_ots`, `lms_sign`, `hss_sign`, `office_key` and `entry_format`. They are in
//! a crate of their own, so that what they test isn't proved once more with them.
#![tactic(auto)]

#[cfg(test)]
mod entry_format_tests;
#[cfg(test)]
mod hss_sign_tests;
#[cfg(test)]
mod key_rows;
#[cfg(test)]
mod lms_ots_tests;
#[cfg(test)]
mod lms_sign_tests;
#[cfg(test)]
mod office_key_tests;
#[cfg(test)]
mod sealed_tests;
