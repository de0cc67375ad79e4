//! Queries about a transition system: worlds of one or more copies that show how it fails.
#![tactic(auto)]

mod add;
mod infer;
mod infer_laws;
mod kind;
mod laws;
mod pass_laws;
mod report;
mod transition;
mod unroll;
mod verdict;
mod verdict_laws;
mod verify;

pub use infer::{before_query, root_query, seed_query};
pub use infer_laws::{
    blocked_where_no_world_shows_it, inference_queries_say_what_they_find, no_seed_in_any_copy,
};
pub use kind::Kind;
pub use laws::{inductive_where_no_case_breaks, inductive_where_nothing_breaks};
pub use pass_laws::{
    a_pass_has_one_result, a_pass_leaves_a_minimal_cube, no_query_of_a_pass_is_heavier,
};
pub use report::{Numbers, Report};
pub use unroll::unroll_query;
pub use verdict::{Kept, Leave, Link, Verdict};
pub use verdict_laws::{
    a_chain_leaves_no_universal_invariant, a_system_with_an_invariant_is_safe,
    clauses_are_a_universal_invariant_where_cubes_are_avoided, frames_of_a_bounded_verdict_hold,
    holds_where_no_judge_query_has_a_world, no_run_where_no_run_query_has_a_world,
    the_least_run_is_shortest,
};
pub use verify::verify_query;
