//! Trees of the mypyvy language, read from tokens.
#![tactic(auto)]

mod decls;
mod exprs;
mod fault;
mod file;
mod halt;
mod lists;
mod members;
mod nodes;
mod reader;

pub use fault::ParseFault;
pub use file::{one_tree, parse};
pub use pyv_grammar::{Bound, Decl, Expr, Model};
