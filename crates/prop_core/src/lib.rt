//! Propositional clauses over numbered variables: when values meet them, unit propagation, and
//! refutations by it.
#![tactic(auto)]

mod answer;
mod clause;
mod cnf;
pub mod laws;
mod lit;

pub use answer::{Answer, Refutation};
pub use clause::Clause;
pub use cnf::{Cnf, copy_clauses};
pub use lit::Lit;
