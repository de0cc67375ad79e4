//! What events do to the numbers. None takes memory.

ghost use Rattle.std.specs.Prelude.{◌≡◌, ℕ, ◌+◌, ◌<◌, ◌^◌, true, None, Some, [], ◌∷◌, ◌++◌, length};
ghost use Rattle.std.specs.List.{count_by};
ghost use Rattle.up_core.specs.Becoming.{IsState};
ghost use Rattle.up_core.specs.Choice.{IsSmall, is_done_seed};
ghost use Rattle.up_core.specs.Room.{HasSpare};
ghost use Rattle.up_core.specs.Steps.{calm_of, change_where, finished, others_of, with_progress, work_in, work_of_job};
ghost use Rattle.up_core.specs.declared.state.Progress.TheVariants.{Out, Ready};

use crate::lists::{job_of, release, work_of};
use crate::state::{JobEntry, Progress, State};
use crate::tasks::done_seeds;
use up_machine::{Job, Why};

/// The obligation that a job is about, if it is a work.
fn work_in_job(job: Job) -> Option<usize>
    ensures { result ≡ work_of_job job }
{
    match job {
        Job::Work(k) => Some(k as usize),
        _ => None,
    }
}

/// The calm after a job was put back: a look that found nothing further sets it.
fn calm_after(why: &Why, jobs: &[JobEntry], worker: u32, calm: Option<u32>) -> Option<u32>
    ensures { result ≡ calm_of why.now worker jobs.now calm }
{
    match why {
        Why::NoMore => match job_of(jobs, worker) {
            Some(entry) => Some(entry.done),
            None => calm,
        },
        _ => calm,
    }
}

impl State {
    /// The worker takes the job.
    pub(crate) fn take(&mut self, worker: u32, job: Job)
        requires small { IsSmall self.old }
        requires room { HasSpare 1 self.old }
        ensures state { let s = self.old in IsState self.new
            s.clauses.items
            (change_where (work_of_job job) (with_progress Out) s.obligations.items)
            (s.jobs.items ++ record {
              worker = worker;
              job = job;
              done = count_by is_done_seed s.obligations.items;
            } ∷ [])
            s.clauses.frontier s.secure s.calm s.productive s.ended }
        ensures room { (n : ℕ) → HasSpare (n + 1) self.old → HasSpare n self.new }
    {
        let done = done_seeds(&self.obligations) as u32;
        self.obligations
            .set_progress(work_in_job(job), Progress::Out);
        self.jobs.push_reserved(JobEntry { worker, job, done });
    }

    /// The next frame is opened.
    pub(crate) fn advance(&mut self)
        requires frontier { self.old.clauses.frontier + 1 < 2 ^ 32 }
        requires productive { self.old.productive + 1 < 2 ^ 32 }
        requires room { HasSpare 1 self.old }
        ensures state { let s = self.old in IsState self.new
            s.clauses.items s.obligations.items s.jobs.items
            (s.clauses.frontier + 1) s.secure None (s.productive + 1) s.ended }
        ensures room { (n : ℕ) → HasSpare (n + 1) self.old → HasSpare n self.new }
    {
        self.clauses.advance();
        self.calm = None;
        self.productive += 1;
    }

    /// The run ends without a job.
    pub(crate) fn finish(&mut self)
        ensures state { let s = self.old in IsState self.new
            s.clauses.items s.obligations.items s.jobs.items
            s.clauses.frontier s.secure s.calm s.productive true }
        ensures room { (n : ℕ) → HasSpare n self.old → HasSpare n self.new }
    {
        self.ended = true;
    }

    /// The run ends by the worker's job.
    pub(crate) fn close(&mut self, worker: u32)
        ensures state { let s = self.old in IsState self.new
            s.clauses.items s.obligations.items (others_of worker s.jobs.items)
            s.clauses.frontier s.secure s.calm s.productive true }
        ensures room { (n : ℕ) → HasSpare n self.old → HasSpare n self.new }
    {
        release(&mut self.jobs, worker);
        self.ended = true;
    }

    /// The frontier is secure.
    pub(crate) fn secure_frontier(&mut self, worker: u32)
        requires { self.old.productive + 1 < 2 ^ 32 }
        ensures state { let s = self.old in IsState self.new
            s.clauses.items s.obligations.items (others_of worker s.jobs.items)
            s.clauses.frontier s.clauses.frontier s.calm (s.productive + 1) s.ended }
        ensures room { (n : ℕ) → HasSpare n self.old → HasSpare n self.new }
    {
        release(&mut self.jobs, worker);
        self.secure = self.clauses.frontier();
        self.productive += 1;
    }

    /// The obligation that the worker works on is done, since a clause already refutes it.
    pub(crate) fn drop_work(&mut self, worker: u32)
        requires { self.old.productive + 1 < 2 ^ 32 }
        ensures state { let s = self.old in IsState self.new
            s.clauses.items
            (finished (work_in worker s.jobs.items) s.obligations.items)
            (others_of worker s.jobs.items)
            s.clauses.frontier s.secure s.calm (s.productive + 1) s.ended }
        ensures room { (n : ℕ) → HasSpare n self.old → HasSpare n self.new }
    {
        let work = work_of(self.jobs.as_slice(), worker);
        self.obligations.finish(work);
        release(&mut self.jobs, worker);
        self.productive += 1;
    }

    /// The worker puts its job back.
    pub(crate) fn give_back(&mut self, worker: u32, why: &Why)
        ensures state { let s = self.old in IsState self.new
            s.clauses.items
            (change_where (work_in worker s.jobs.items) (with_progress Ready) s.obligations.items)
            (others_of worker s.jobs.items)
            s.clauses.frontier s.secure (calm_of why.now worker s.jobs.items s.calm)
            s.productive s.ended }
        ensures room { (n : ℕ) → HasSpare n self.old → HasSpare n self.new }
    {
        self.calm = calm_after(why, self.jobs.as_slice(), worker, self.calm);
        let work = work_of(self.jobs.as_slice(), worker);
        self.obligations.set_progress(work, Progress::Ready);
        release(&mut self.jobs, worker);
    }
}
