//! The outside: files that are read and sinks that bytes go to, each with a count of its faults.
//!
//! A caller that is generic over [`Files`] and [`Sink`] is proved once, for the real ones, for those in memory
//! in which chosen calls fail, and for those that never fail.
#![tactic(auto)]

mod account;
mod counter;
mod entries;
mod files;
mod good_files;
mod good_sink;
mod mem_files;
mod mem_sink;
mod real_files;
mod real_sinks;
mod sink;
mod span;

pub use files::{Files, LIMIT, ReadFault};
pub use good_files::GoodFiles;
pub use good_sink::GoodSink;
pub use mem_files::MemFiles;
pub use mem_sink::MemSink;
pub use real_files::RealFiles;
pub use real_sinks::{RealErr, RealOut};
pub use sink::{Failed, Sink};
pub use span::Span;
