//! A worker comes back with what the search of its job has answered.

ghost use Rattle.std.specs.Prelude.{◌≡◌};
ghost use Rattle.up_jobs.specs.Solving.{IsSolved};
ghost use Rattle.up_core.specs.View.{now};
ghost use Rattle.up_seats.specs.Seats.{IsAnswered, IsBriefed};
ghost use Rattle.up_visits.specs.GivingUp.{NoneGivesUp};
ghost use Rattle.up_visits.specs.Passes.{IsIdle, IsReady, IsVisit, own_events, seen_core};
ghost use Rattle.up_visits.specs.Visits.{HasActedWell};

use crate::laws::others_leave_a_job;
use crate::returning::put_back;
use std::sync::Wait;
use turnstile::{Pass, Turnstile};
use up_core::Core;
use up_jobs::Solved;
use up_machine::{Brief, Why};
use up_seats::report;

/// The worker reports; or puts its job back, where the steps are spent. After the end it does
/// nothing.
fn report_or_return(core: &mut Core, worker: u32, brief: &Brief, solved: Solved)
    requires { IsAnswered core.old worker brief.now solved }
    ensures acted { HasActedWell core.old worker core.new }
    ensures idle { IsIdle (now core.new) worker }
{
    if report(core, worker, brief, solved) {
        return;
    }
    let productive = core.numbers().productive;
    let steps = core.limits().steps;
    if productive >= steps as u64 {
        put_back(core, worker, Why::Spent);
    }
}

/// Enters with the answer to the worker's job, and reports it. The answer is about the frames that
/// the worker was given. What it blocked is blocked in the frames as they stand; a state that it
/// found is looked at in its frame now, and the job put back where a clause refutes it by now.
///
/// It asks for a pass of one worker, who holds the job of this brief in what the pass has seen, and
/// for the answer to the brief of a finder with the limit on weight. It takes no memory, and may
/// wait for the turn.
pub fn report_back<R: Wait>(
    rt: &R,
    shared: &Turnstile<Core>,
    pass: &mut Pass<Core>,
    brief: &Brief,
    solved: Solved,
)
    requires ready { IsReady shared.now pass.old }
    requires none { NoneGivesUp (own_events pass.old) }
    requires briefed { IsBriefed (seen_core shared.now pass.old) pass.old.from brief.now }
    requires solved { IsSolved shared.now.base.sys shared.now.base.limits.weight brief.now solved }
    ensures ready { IsReady shared.now pass.new }
    ensures visit { IsVisit pass.old pass.new }
    ensures none { NoneGivesUp (own_events pass.new) }
    ensures idle { IsIdle (now (seen_core shared.now pass.new)) pass.new.from }
{
    let worker = pass.first();
    let mut core = shared.enter(rt, pass);
    others_leave_a_job();
    report_or_return(&mut core, worker, brief, solved);
    core.stays_sound();
    shared.leave(pass, core);
}
