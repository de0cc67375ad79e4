//! The seats of a round take jobs.

ghost use Rattle.std.specs.Prelude.{◌<◌, IfOk, MatchOption};
ghost use Rattle.up_core.specs.View.{now};
ghost use Rattle.up_rounds.specs.Asking.{HaveTaken};
ghost use Rattle.up_rounds.specs.OneRound.{IsAtRest};
ghost use Rattle.up_rounds.specs.Taking.{HasTakenNone, HasTakenOne, IsFreeFor};

use std::alloc::{AllocError, Global};
use up_core::Core;
use up_machine::{Brief, Task};
use up_seats::take_job;

/// The seat takes the job that is due, if one is, and is given its brief.
fn take_next(alloc: Global, core: &mut Core, seat: u32) -> Result<Option<Brief>, AllocError>
    requires in_batch { seat < core.old.limits.batch }
    requires free { IsFreeFor core.old seat }
    ensures { IfOk result (λ taken. MatchOption taken
        (HasTakenNone core.old seat core.new)
        (λ brief. HasTakenOne core.old seat brief core.new)) }
{
    core.reserve(2)?;
    match core.next_task(seat) {
        Task::Job(job) => Ok(Some(take_job(alloc, core, seat, job)?)),
        _ => Ok(None),
    }
}

/// The seats take the jobs that are due, in order, up to the first that gets none, and are given
/// their briefs. The one error is out of memory.
pub(crate) fn take_jobs(alloc: Global, core: &mut Core) -> Result<Vec<Brief>, AllocError>
    requires { IsAtRest core.old.limits (now core.old) }
    ensures { IfOk result (λ briefs. HaveTaken core.old briefs.items core.new) }
{
    let mut briefs = Vec::new(alloc);
    let batch = core.limits().batch;
    'seats: for seat in 0..batch {
        match take_next(alloc, core, seat)? {
            Some(brief) => briefs.push(brief)?,
            None => return Ok(briefs),
        }
    }
    Ok(briefs)
}
