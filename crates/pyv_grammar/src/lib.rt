//! The grammar of the mypyvy language: its trees, what spells them, and the laws of reading them
//! from left to right.
#![tactic(auto)]

mod reading;
mod tree;

pub use reading::{Found, Stuck};
pub use tree::{Bound, Decl, Expr, Model};
