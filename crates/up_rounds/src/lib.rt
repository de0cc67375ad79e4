//! Rounds: a run of the machine by seats that take jobs, solve them beside one another and report in
//! order; and that there is one history of such a run, whatever the number of workers.
#![tactic(auto)]

mod coming_laws;
mod crew;
mod laws;
mod reports;
mod rest_laws;
mod rounds;
mod run_laws;
mod settling;
mod taking;

pub use coming_laws::{jobs_come_to_an_end, retiring_comes_to_an_end, settling_comes_to_an_end};
pub use laws::{
    rounds_begin_with_a_look, rounds_come_one_after_another, rounds_make_one_history,
    workers_change_no_history,
};
pub use rest_laws::{
    a_round_of_jobs_keeps_rest, nobody_waits_at_rest, only_seats_with_jobs_report,
    reports_cost_nothing_once_steps_are_spent, reports_end_with_the_last_take, rest_is_kept,
    seat_0_is_never_refuted, takes_of_a_round_are_legal,
};
pub use rounds::infer_rounds;
pub use run_laws::{
    frames_of_runs_are_sound, runs_are_legal_and_closed, runs_are_sound, runs_have_one_history,
    runs_tell_the_truth,
};
pub use up_jobs::solve_brief;
