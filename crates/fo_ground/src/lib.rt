//! Finite-model transfer: propositional clauses over the ground terms of a Skolem form, and the
//! finite structures that values of their variables give.
//!
//! The clauses are the instances of the claims under all ground terms, with the axioms of equality
//! (Herbrand's theorem, where there are finitely many ground terms; Yeting Ge and Leonardo de Moura,
//! "Complete Instantiation for Quantified Formulas in Satisfiability Modulo Theories", 2009).
#![tactic(auto)]

mod atoms;
mod axioms;
mod classes;
mod congruence;
mod emit;
mod grounded;
mod grounding;
mod groundwork;
mod laying;
mod layout;
mod place;
mod starts;
mod tables;
mod term_starts;
mod world;

pub use fo_terms::weight;
pub use grounded::{Atom, Grounded};
pub use grounding::ground;
pub use groundwork::Groundwork;
pub use starts::with_skolems;
pub use world::world_of;
