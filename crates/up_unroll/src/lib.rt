//! Violating runs of a transition system: the shortest one, and of those the least.
#![tactic(auto)]

mod laws;
mod unrolling;

pub use laws::one_answer_of_unroll;
pub use unrolling::{Unrolled, unroll};
