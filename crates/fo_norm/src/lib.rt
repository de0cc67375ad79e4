//! Skolem form of queries: negation normal form, with functions in place of existentials.
#![tactic(auto)]

mod form;
mod norm;
mod scope;
mod terms;

pub use form::SkolemForm;
pub use norm::normal;
