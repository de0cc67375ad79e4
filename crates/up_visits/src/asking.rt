//! A worker asks for something to do.

ghost use Rattle.std.specs.Prelude.{◌≡◌, ◌+◌, ◌≤◌, length};
ghost use Rattle.up_machine.specs.declared.job.Task.TheVariants as T;
ghost use Rattle.up_machine.specs.Due.{IsDue};
ghost use Rattle.up_machine.specs.Replay.{worker_of};
ghost use Rattle.up_core.specs.View.{HasVariablesForJob, now};
ghost use Rattle.up_visits.specs.GivingUp.{NoneGivesUp};
ghost use Rattle.up_visits.specs.Passes.{IsIdle, IsReady, IsVisit, own_events, seen_core};
ghost use Rattle.up_visits.specs.Visits.{HasActedWell, IsTold};

use crate::laws::{an_end_stays, others_leave_a_job};
use std::alloc::Global;
use std::sync::Wait;
use turnstile::{Pass, Turnstile};
use up_core::Core;
use up_machine::{Brief, Job, Task};
use up_seats::take_job;

/// What a worker is told.
#[derive(Drop)]
pub enum Asked {
    /// It holds the job of this brief.
    Job(Brief),
    /// It holds a job, and was out of memory for its brief.
    Unbriefed,
    /// It made an event that needs no job, and is to ask again.
    Made,
    /// It is to ask again later.
    Idle,
    /// The run has ended.
    Ended,
    /// It was out of memory before it could take a job.
    NoMemory,
}

/// The worker retires the first clause that may be, if there is one, and else takes the job.
fn take_or_retire(alloc: Global, core: &mut Core, worker: u32, job: Job) -> Asked
    requires room { length (now core.old).jobs + 2 ≤ core.old.spare }
    requires variables { HasVariablesForJob core.old job }
    requires idle { IsIdle (now core.old) worker }
    requires due { IsDue core.old.sys core.old.limits (now core.old) (T.Job job) }
    ensures acted { HasActedWell core.old worker core.new }
    ensures told { IsTold core.new worker result }
{
    match core.cover(alloc) {
        Ok(Some(cover)) => {
            core.retire(worker, cover);
            Asked::Made
        }
        Ok(None) => match take_job(alloc, core, worker, job) {
            Ok(brief) => Asked::Job(brief),
            Err(_) => Asked::Unbriefed,
        },
        Err(_) => Asked::NoMemory,
    }
}

/// The worker does what is due, of which a job is only taken here.
fn do_due(alloc: Global, core: &mut Core, worker: u32) -> Asked
    requires idle { IsIdle (now core.old) worker }
    ensures acted { HasActedWell core.old worker core.new }
    ensures told { IsTold core.new worker result }
{
    if core.reserve(2).is_err() {
        return Asked::NoMemory;
    }
    match core.next_task(worker) {
        Task::Job(job) => take_or_retire(alloc, core, worker, job),
        Task::Advance => {
            core.advance(worker);
            Asked::Made
        }
        Task::Finish(short) => {
            core.finish(worker, short);
            Asked::Made
        }
        Task::Idle => Asked::Idle,
        Task::Ended => Asked::Ended,
    }
}

/// Enters, asks what is due, and does it: takes a job, or makes an event that needs none. Where a
/// job is due and a clause may be retired, it does that, and no job is taken.
///
/// It asks for a pass of one worker, who is idle in what the pass has seen and never gave up. It
/// may wait for the turn.
pub fn ask<R: Wait>(rt: &R, alloc: Global, shared: &Turnstile<Core>, pass: &mut Pass<Core>) -> Asked
    requires ready { IsReady shared.now pass.old }
    requires idle { IsIdle (now (seen_core shared.now pass.old)) pass.old.from }
    requires none { NoneGivesUp (own_events pass.old) }
    ensures ready { IsReady shared.now pass.new }
    ensures visit { IsVisit pass.old pass.new }
    ensures none { NoneGivesUp (own_events pass.new) }
    ensures told { IsTold (seen_core shared.now pass.new) pass.new.from result }
{
    let worker = pass.first();
    let mut core = shared.enter(rt, pass);
    others_leave_a_job();
    an_end_stays();
    let asked = do_due(alloc, &mut core, worker);
    core.stays_sound();
    shared.leave(pass, core);
    asked
}
