//! The top call: it serves the words of a command line.
#![tactic(auto)]

mod bmc;
mod check;
mod demo;
mod free;
mod infer;
mod laws;
mod narrow;
mod options;
mod reported;
mod top;
mod verdicts;
mod verify;

pub use laws::workers_change_no_report;
pub use top::{Ending, run, run_plain, tell_out_of_memory};
