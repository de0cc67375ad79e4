//! The text of a report, which tells a verdict with the clauses and worlds that belong to it. What is
//! written is read back, what is read is the text that is written for the answer, and a fault is at
//! the first byte at which no report goes on.
#![tactic(auto)]

mod clause_binders;
mod clause_denials;
mod clause_heads;
mod clause_reading;
mod clause_symbols;
mod clause_variables;
mod clause_words;
mod clause_writing;
mod clauses_reading;
mod fault;
mod laws;
mod leave_reading;
mod link_reading;
mod verdict_reading;
mod whole_reading;
mod writing;

pub use fault::ReportFault;
pub use laws::{no_report_begins_another, one_report_has_a_text, reading_stops_at_one_place};
pub use whole_reading::read;
pub use writing::write;
