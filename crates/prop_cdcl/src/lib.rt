//! A search for values that meet all clauses, which learns a clause from each conflict, asked once
//! of a formula or again and again of clauses that grow.
//!
//! Nothing is proved of the search itself but that it is safe and ends. What it learns is offered
//! to a `Checked`, which takes only what follows; values that it finds are looked at again.
#![tactic(auto)]

mod analysis;
mod assumptions;
mod formula;
mod learner;
mod log;
mod offers;
mod order;
mod search;
mod solver;
mod trail;

pub use formula::solve;
pub use solver::{Reply, Solver};
