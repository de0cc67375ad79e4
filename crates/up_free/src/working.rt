//! One worker.

ghost use Rattle.std.specs.Prelude.{◌≡◌, IfOk, OnErr, OnOk};
ghost use Rattle.up_core.specs.View.{now};
ghost use Rattle.up_jobs.specs.Solving.{CanSolve, IsSolved};
ghost use Rattle.up_visits.specs.GivingUp.{GivesUpLast, NoneGivesUp};
ghost use Rattle.up_visits.specs.Passes.{GoesOn, HasEnded, IsIdle, IsReady, own_events, seen_core};

use crate::gates::{Gate, Place};
use crossbeam_utils::Backoff;
use fo_core::{Finder, Finders, Order, System};
use std::alloc::{AllocError, Global};
use std::sync::Wait;
use turnstile::{Pass, Turnstile};
use up_core::Core;
use up_jobs::{Solved, solve_brief};
use up_machine::Brief;
use up_visits::{Asked, ask, give_up, report_back};

/// Solves a job between the two places of the gate. The worker doesn't have the turn meanwhile.
fn solve<F: Finder, G: Gate>(
    alloc: Global,
    finder: &mut F,
    sys: &System,
    order: &Order,
    gate: &G,
    worker: u32,
    brief: &Brief,
) -> Result<Solved, AllocError>
    requires { CanSolve sys.now order.now brief.now }
    ensures limit { F.limit finder.new ≡ F.limit finder.old }
    ensures solved { IfOk result (IsSolved sys.now (F.limit finder.old) brief.now) }
{
    gate.pass(worker, Place::Taken);
    let solved = solve_brief(alloc, finder, sys, order, brief);
    gate.pass(worker, Place::Solved);
    solved
}

/// One worker, until the run has ended. It asks what is due; makes an event that needs no job; or
/// takes a job, solves it by a finder of its own while it doesn't have the turn, and reports. Each
/// visit to the machine makes at most one event. Where nothing is due it asks again after a pause,
/// which grows each time.
///
/// It asks for a pass of this turnstile with one number below the limit on workers, whose worker is
/// idle and never gave up; for a machine of this system and this order; and for makers whose finders'
/// limit is the limit on weight. What the pass has seen afterwards is legal and begins with what it
/// had seen, and the worker's events in it are those before, and then those that it made here, each
/// once and in order. The one error is out of memory; then the worker has put back a job that it
/// held, by its last event, or the run has ended. It may wait for the turn and for other workers.
pub fn work<M: Finders, G: Gate, R: Wait>(
    rt: &R,
    alloc: Global,
    makers: &M,
    sys: &System,
    order: &Order,
    shared: &Turnstile<Core>,
    pass: &mut Pass<Core>,
    gate: &G,
) -> Result<(), AllocError>
    requires ready { IsReady shared.now pass.old }
    requires system { shared.now.base.sys ≡ sys.now }
    requires order { shared.now.base.order ≡ order.now }
    requires weight { M.limit makers.now ≡ shared.now.base.limits.weight }
    requires idle { IsIdle (now (seen_core shared.now pass.old)) pass.old.from }
    requires none { NoneGivesUp (own_events pass.old) }
    ensures ready { IsReady shared.now pass.new }
    ensures goes_on { GoesOn pass.old pass.new }
    ensures ended { OnOk result (HasEnded (now (seen_core shared.now pass.new))) }
    ensures idle { OnErr result (IsIdle (now (seen_core shared.now pass.new)) pass.new.from) }
    ensures last { GivesUpLast (own_events pass.new) }
{
    let worker = pass.first();
    let mut finder = makers.one(alloc)?;
    let backoff = Backoff::new();
    'visits: for _ in rt.forever() {
        match ask(rt, alloc, shared, pass) {
            Asked::Job(brief) => {
                match solve(alloc, &mut finder, sys, order, gate, worker, &brief) {
                    Ok(solved) => report_back(rt, shared, pass, &brief, solved),
                    Err(error) => {
                        give_up(rt, shared, pass);
                        return Err(error);
                    }
                }
                backoff.reset();
            }
            Asked::Unbriefed => {
                give_up(rt, shared, pass);
                return Err(AllocError);
            }
            Asked::Made => backoff.reset(),
            Asked::Idle => backoff.snooze(),
            Asked::Ended => return Ok(()),
            Asked::NoMemory => return Err(AllocError),
        }
    }
    unreachable!()
}
