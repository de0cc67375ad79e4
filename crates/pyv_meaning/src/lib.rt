//! What a tree of the mypyvy language means: the system and its names, or the first fault. It has
//! definitions and their laws, and the few types that they share with the code.
#![tactic(auto)]

mod fault;
mod laws;
mod stand;
mod variable;

pub use fault::SortFault;
pub use laws::{
    meanings_are_well_sorted, sorts_are_decided, spelt_names_are_not_reserved, trees_mean_or_fault,
};
pub use stand::Stand;
pub use variable::{Meaning, Side, Use};
