//! A shared value that callers use in turn. Its history only grows, and each caller knows which entries
//! of it are its own.
//!
//! `Turnstile::new` takes the value and gives a pass with all numbers. `split` cuts a pass in two, one for
//! each thread. A thread calls `enter`, which waits for the turn and gives the value out, and `leave`,
//! which takes it back with at most one entry more. `join` puts two passes together, and `close` takes the
//! value out for good.
//!
//! Between a caller's visits others may have added entries, but only behind those that the caller has
//! seen, and none that carry a number of the caller's pass. Nothing is said of progress: `enter` may never
//! return.
#![tactic(auto)]

mod kept_value;
mod pass;
mod plays;
mod rule;
mod steps;
mod turnstile;

pub use kept_value::KeptValue;
pub use pass::Pass;
pub use turnstile::Turnstile;

#[cfg(test)]
mod tests;
