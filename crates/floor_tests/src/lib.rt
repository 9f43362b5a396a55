//! Tests of the public calls of `polling_world`, `log_repair`, `finished_floor`, `floor_links` and
//! `machine_floor`. They are in a crate of their own, so that what they test isn't proved once more
//! with them.
#![tactic(auto)]

#[cfg(test)]
mod finished_floor_tests;
#[cfg(test)]
mod floor_links_tests;
#[cfg(test)]
mod log_repair_tests;
#[cfg(test)]
mod machine_floor_tests;
#[cfg(test)]
mod merge_tests;
#[cfg(test)]
mod polling_world_tests;
#[cfg(test)]
mod sessions;
#[cfg(test)]
mod sweep_tests;
#[cfg(test)]
mod world_tests;
