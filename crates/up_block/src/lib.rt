//! Blocking the cube of a state: is an initial state in it, does a step lead into it, and if
//! neither, which of its literals does that need?
#![tactic(auto)]

mod blocking;
mod laws;
mod looking;
mod passing;
mod question;

pub use blocking::{Blocking, block};
pub use laws::one_answer_of_block;
pub use looking::look;
