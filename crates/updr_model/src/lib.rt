//! A model's text, read to a system with its names, or refused by its first fault; and commands over
//! such a system.
#![tactic(auto)]

mod cycle;
mod on_model;
mod reading;
mod telling;

pub use cycle::order_for;
pub use on_model::{IfStratified, OnModel, OnStratified, OverModel};
pub use pyv_sorts::Elaborated;
pub use reading::read_model;
