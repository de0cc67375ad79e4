//! A seat of the machine: it takes a job and is given its brief, and it reports what the search of
//! that job has answered. What follows for a history of the machine that is closed stands here too,
//! however its events came.
#![tactic(auto)]

mod looking;
mod pushing;
mod reports;
mod sound_laws;
mod taking;
mod tracing;
mod working;

pub use reports::report;
pub use sound_laws::closed_histories_are_sound;
pub use taking::take_job;
