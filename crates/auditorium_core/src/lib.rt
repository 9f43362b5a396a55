//! All that the program does, from the words of the command line to the bytes that go out.
//!
//! The answer is made first, whole and without a write, and then written without taking memory.
//! So a status other than `WriteFault` says that all of its answer was written, or nothing.
#![tactic(auto)]

mod demonstrating;
mod laws;
mod office_laws;
mod program;
mod requests;
mod words;

pub use command_line::{Listener, Status};
pub use laws::{
    answers_are_complete, answers_are_over_exposed_files, answers_as_read_are_complete,
    histories_determine_answers, one_answer_is_right, only_runs_need_threads,
    statuses_have_their_words, written_files_are_read_back,
};
pub use office_laws::{
    endorsements_are_called_good, endorsements_leave_three_states, numbers_sign_once,
};
pub use program::{auditorium, auditorium_heard, auditorium_still};
