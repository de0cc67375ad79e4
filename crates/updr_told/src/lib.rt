//! How a call ends, and how its end is told: by a status, and a text for `out` or one line for
//! `err`.
//!
//! An end may leave something behind, as a verdict leaves what it was made from: that is the type
//! parameter. What is left is handed on wherever the end is put, also where a put fails.
#![tactic(auto)]

mod place;
mod status;
mod stop;
mod telling;
mod told;

pub use place::Place;
pub use status::Status;
pub use stop::Stop;
pub use telling::{Outcome, tell};
pub use told::Told;
