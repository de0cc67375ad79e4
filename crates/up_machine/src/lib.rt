//! The machine of property-directed reachability: its types, its state as the replay of its events,
//! when an event is legal, what is due, and what holds of every legal history.
#![tactic(auto)]

mod brief;
mod end;
mod event;
mod history_laws;
mod job;
mod laws;
mod limits;
mod not_now;
mod one_laws;
mod sound_laws;
mod threads;
mod told_laws;

pub use brief::Brief;
pub use end::End;
pub use event::{Event, Origin, Why};
pub use history_laws::{
    a_history_begins_with_a_look, a_worker_keeps_its_job, idle_is_due_only_where_a_job_is_out,
    refuters_came_after_the_take, retires_are_no_more_than_clauses,
};
pub use job::{Job, Short, Task};
pub use laws::{
    a_retire_keeps_frames, frames_avoid_clauses_live_or_gone, frames_hold,
    frames_only_grow_stronger, frames_rise,
};
pub use limits::{Limits, MOST_FRAMES, MOST_SEATS, MOST_SEEDS, MOST_STEPS, MOST_WORKERS};
pub use not_now::{Cover, NotNow};
pub use one_laws::{one_failed_push_is_valid, one_report_is_a_seats, one_task_is_due};
pub use sound_laws::{
    cubes_are_well_sorted_and_worlds_fit, failed_pushes_step_into_their_clauses,
    obligations_come_from_violations, unfinished_obligations_are_trees, what_frames_rest_on_is_so,
};
pub use told_laws::told_verdicts_hold;
