//! What seat 0 does at the begin of a round, before seats take jobs.

ghost use Rattle.std.specs.Prelude.{◌≡◌, ◌+◌, ◌≤◌, IfOk, None, length};
ghost use Rattle.up_core.specs.View.{now};
ghost use Rattle.up_rounds.specs.Settling.{HasBegun, HasRetired, IsResting};

use std::alloc::{AllocError, Global};
use up_core::Core;
use up_machine::Task;

/// How a round begins.
#[derive(Debug, Clone, Copy, PartialEq, Eq)]
pub(crate) enum Begun {
    /// No round begins, since the run has ended.
    Ended,
    /// By an event that is the whole round: seat 0 has settled what is due, or retired a clause.
    Settled,
    /// By jobs that seats are to take.
    Jobs,
}

/// Seat 0 retires the first clause that may be, if there is one, and gives whether there was.
fn retire_first(alloc: Global, core: &mut Core) -> Result<bool, AllocError>
    requires room { length (now core.old).jobs + 1 ≤ core.old.spare }
    requires not_ended { (now core.old).ending ≡ None }
    ensures { IfOk result (λ retired. HasRetired core.old retired core.new) }
{
    match core.cover(alloc)? {
        Some(cover) => {
            core.retire(0, cover);
            Ok(true)
        }
        None => Ok(false),
    }
}

/// Seat 0 opens the next frame or ends the run where that is due, and else retires the first clause
/// that may be. Where it has nothing of this to do, seats are to take jobs. The one error is out of
/// memory.
pub(crate) fn begin(alloc: Global, core: &mut Core) -> Result<Begun, AllocError>
    requires { IsResting core.old }
    ensures { IfOk result (λ begun. HasBegun core.old begun core.new) }
{
    core.reserve(1)?;
    // The history is legal, so nobody is told to wait.
    core.stays_sound();
    match core.next_task(0) {
        Task::Ended => Ok(Begun::Ended),
        Task::Advance => {
            core.advance(0);
            Ok(Begun::Settled)
        }
        Task::Finish(short) => {
            core.finish(0, short);
            Ok(Begun::Settled)
        }
        Task::Job(_) => {
            if retire_first(alloc, core)? {
                return Ok(Begun::Settled);
            }
            Ok(Begun::Jobs)
        }
        Task::Idle => unreachable!(),
    }
}
