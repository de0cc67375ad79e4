//! A verdict with what its search took.

ghost use Rattle.std.specs.Prelude.{◌≡◌, IfOk};

use crate::verdict::Verdict;
use std::alloc::{AllocError, Global};

/// How far a search had come when it ended.
#[derive(Debug, Clone, Copy, PartialEq, Eq)]
pub struct Numbers {
    /// How many of its steps were productive.
    pub productive: u64,
    /// The number of its last frame.
    pub frontier: u64,
    /// How many clauses it had learnt.
    pub clauses: u64,
}

/// What a search answers.
#[derive(Debug, Drop)]
pub struct Report {
    /// What it tells of the system.
    pub verdict: Verdict,
    /// How far it had come.
    pub numbers: Numbers,
}

impl Report {
    /// A copy.
    pub fn copy(&self, alloc: Global) -> Result<Report, AllocError>
        ensures { IfOk result (λ x. x ≡ self.now) }
    {
        Ok(Report {
            verdict: self.verdict.copy(alloc)?,
            numbers: self.numbers,
        })
    }
}
