//! The ground terms of a Skolem form: how many there are, the list of them, and the weight of the form.
#![tactic(auto)]

mod build;
mod counting;
mod ranking;
mod symbols;
mod terms;
mod weighing;

pub use build::{universe, universe_from};
pub use counting::{copies_of, counts};
pub use ranking::rises;
pub use symbols::symbol_of;
pub use terms::{Ground, MOST_TERMS, Universe};
pub use weighing::weight;
