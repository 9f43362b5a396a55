//! Tests of the public calls of `auditorium_core`. They are in a crate of their own, so that what
//! they test isn't proved once more with them.
#![tactic(auto)]

#[cfg(test)]
mod answer_tests;
#[cfg(test)]
mod auditing_tests;
#[cfg(test)]
mod changing_store;
#[cfg(test)]
mod changing_tests;
#[cfg(test)]
mod damage_tests;
#[cfg(test)]
mod demonstrating_tests;
#[cfg(test)]
mod fault_tests;
#[cfg(test)]
mod honest_tests;
#[cfg(test)]
mod hostile_tests;
#[cfg(test)]
mod limit_tests;
#[cfg(test)]
mod make_tests;
#[cfg(test)]
mod office_tests;
#[cfg(test)]
mod ordering_tests;
#[cfg(test)]
mod peak_tests;
#[cfg(test)]
mod play_tests;
#[cfg(test)]
mod proving_tests;
#[cfg(test)]
mod repair_tests;
#[cfg(test)]
mod run_tests;
#[cfg(test)]
mod thread_tests;
#[cfg(test)]
mod watch_tests;
#[cfg(test)]
mod word_tests;
