//! Pushing a clause: does it hold one frame further on?
#![tactic(auto)]

mod laws;
mod pushing;

pub use laws::one_answer_of_push;
pub use pushing::{Pushing, push};
