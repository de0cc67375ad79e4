//! Commands as values: each has its words, its table and its course, and what a list of them
//! answers is proved once.
//!
//! A table has a row for each status of a command: when it comes, and what is then said. The files
//! that a command names are read in order, and then its course ends by a row over their contents.
#![tactic(auto)]

mod answering;
mod course;
mod listing;
mod reading;

pub use answering::answer;
pub use course::{Course, content};
pub use listing::{More, Nothing, Table, is_named};
pub use reading::read_files;
