//! Whether a system is stratified: whether its sorts can be numbered such that numbers rise along
//! each edge of its sort graph.
#![tactic(auto)]

mod cycle;
mod edges;
mod graph;
mod numbering;
mod strat;
mod walks;

pub use fo_core::{Order, Purpose};
pub use strat::{StratFault, order};
