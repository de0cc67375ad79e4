//! Gates, by which a test sees where workers are, and can hold them up.

/// Where a worker is, outside the turn.
#[derive(Debug, Clone, Copy, PartialEq, Eq)]
pub enum Place {
    /// It has taken a job, and hasn't begun to solve it.
    Taken,
    /// It has solved the job, and hasn't reported.
    Solved,
}

/// What a worker passes between taking a job and solving it, and between that and its report.
pub trait Gate: Sync {
    /// The worker of this number passes here.
    fn pass(&self, worker: u32, place: Place);
}

/// A gate that does nothing.
#[derive(Debug, Clone, Copy)]
pub struct FreeGate;

impl Gate for FreeGate {
    fn pass(&self, _worker: u32, _place: Place) {}
}
