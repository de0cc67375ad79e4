//! The lists of entries, as events change them. None takes memory.

ghost use Rattle.std.specs.Prelude.{◌≡◌, ℕ};
ghost use Rattle.up_core.specs.Room.{HasRoom};
ghost use Rattle.up_core.specs.Steps.{change_where, entry_of, finished, others_of, parent_in, push_in, with_progress, work_in};

use crate::state::{JobEntry, ObligationEntry, Progress};
use up_machine::Job;

/// The job of the worker, if it has one.
pub(crate) fn job_of(jobs: &[JobEntry], worker: u32) -> Option<JobEntry>
    ensures { result ≡ entry_of worker jobs.now }
{
    jobs.iter().copied().find(|entry| entry.worker == worker)
}

/// The obligation that the worker works on, if it does.
pub(crate) fn work_of(jobs: &[JobEntry], worker: u32) -> Option<usize>
    ensures { result ≡ work_in worker jobs.now }
{
    match job_of(jobs, worker) {
        Some(entry) => match entry.job {
            Job::Work(k) => Some(k as usize),
            _ => None,
        },
        None => None,
    }
}

/// The clause that the worker pushes, if it does.
pub(crate) fn push_of(jobs: &[JobEntry], worker: u32) -> Option<usize>
    ensures { result ≡ push_in worker jobs.now }
{
    match job_of(jobs, worker) {
        Some(entry) => match entry.job {
            Job::Push(k) => Some(k as usize),
            _ => None,
        },
        None => None,
    }
}

/// Ends the worker's job.
pub(crate) fn release(jobs: &mut Vec<JobEntry>, worker: u32)
    ensures items { jobs.new.items ≡ others_of worker jobs.old.items }
    ensures room { (n : ℕ) → HasRoom n jobs.old → HasRoom n jobs.new }
{
    jobs.retain(|entry| entry.worker != worker);
}
