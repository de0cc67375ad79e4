//! The machine of property-directed reachability in code: it keeps the history of its events, which
//! is legal at all times, and numbers that are the history's replay.
#![tactic(auto)]

mod brief_laws;
mod briefs;
mod bringing;
mod clauses;
mod covering;
mod events;
mod frames;
mod kept;
mod kept_value;
mod lapsing;
mod learning;
mod leaves;
mod links;
mod lists;
mod numbers;
mod obligations;
mod refuting;
mod state;
mod steps;
mod tasks;
mod teaching;
mod threads;
mod trying;
mod verdict;
mod worlds;

pub use brief_laws::takes_keep_briefs;
pub use kept::Core;
pub use kept_value::Basis;
