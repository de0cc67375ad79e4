//! Verification of a transition system: whether its safeties and invariants are inductive.
#![tactic(auto)]

mod laws;
mod verified;
mod verifying;

pub use laws::one_answer_of_verify;
pub use verified::{Failure, Verified};
pub use verifying::verify;
