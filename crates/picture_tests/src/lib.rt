//! Tests of the public calls of `page_markup`, `entangled_picture` and `report_page`. They are in a crate of their
//! own, so that what they test isn't proved once more with them.
#![tactic(auto)]

#[cfg(test)]
mod markup_tests;
#[cfg(test)]
mod open_tests;
#[cfg(test)]
mod page_tests;
#[cfg(test)]
mod picture_tests;
#[cfg(test)]
mod places;
