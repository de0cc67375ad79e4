//! The search of a job: what a worker does outside the machine with the brief that it was given,
//! and which events its answer allows.
#![tactic(auto)]

mod answer_laws;
mod event_laws;
mod given_laws;
mod ready;
mod solved;
mod solving;
mod threads;

pub use answer_laws::one_answer_of_a_job;
pub use event_laws::{
    an_answered_look_is_reported, an_answered_push_is_reported, an_answered_trace_is_reported,
    an_answered_work_is_reported,
};
pub use given_laws::{what_fits_can_be_solved, works_are_given_frames_of_their_levels};
pub use ready::is_ready;
pub use solved::Solved;
pub use solving::solve_brief;
