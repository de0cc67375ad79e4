//! What a tree of the mypyvy language means: the transition system, or the first fault.
#![tactic(auto)]

mod body;
mod clash;
mod classes;
mod declare;
mod entry;
mod formula;
mod free;
mod infer;
mod known;
mod mark;
mod model;
mod names;
mod part;
mod placed;
mod scope;
mod uses;
mod words;

pub use model::{Elaborated, elaborate};
pub use pyv_meaning::SortFault;
