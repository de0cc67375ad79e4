//! The search for the least of the worlds that meet a query.
#![tactic(auto)]

mod building;
mod found;
mod known;
mod laws;
mod naming;
mod places;
mod search;
mod world;

pub use found::{Excess, Least};
pub use laws::{one_answer_of_least, one_excess};
pub use search::least;
