//! Models of lock servers, as text: a family of one, of growing size.
#![tactic(auto)]

mod models;
mod parts;

pub use models::{MOST_RELATIONS, model_text};
