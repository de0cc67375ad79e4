//! The finder: Skolem form, ground terms, clauses, and a search for values.
#![tactic(auto)]

mod claims;
mod context;
mod contexts;
mod engine;
mod recorded;
mod search;
mod threads;

pub use engine::{Engine, Engines};
pub use recorded::{Answered, Recorded};
