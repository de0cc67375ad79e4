//! A search by workers that run freely: each takes a job from the machine that they share, solves it
//! while others work, and reports. What comes out is a sound run, in whichever order they made it.
#![tactic(auto)]

mod crew;
mod gates;
mod threads;
mod working;

pub use crew::infer_free;
pub use gates::{FreeGate, Gate, Place};
pub use working::work;
