//! The words of a command line, read by `clap`: each command is one simple command of it.
//!
//! A [`Form`] says as data which words a command takes. One function makes a command of `clap` of
//! it, and what that one reads is one [`Job`]. Whether words are read, and what they then ask for,
//! are functions of the words that `clap` states.
#![tactic(auto)]

mod form;
mod reading;

pub use form::{Form, Giving, Number};
pub use reading::{Job, WordsFault, read};
