//! A search for values that meet all clauses, which branches in order of variables.
#![tactic(auto)]

mod search;

pub use search::{go_on, solve};
