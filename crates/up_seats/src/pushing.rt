//! What a seat reports of a push.

ghost use Rattle.up_jobs.specs.declared.solved.Solved.TheVariants as S;
ghost use Rattle.up_push.specs.declared.pushing.Pushing.TheVariants as P;
ghost use Rattle.up_seats.specs.Seats.{IsReported};
ghost use Rattle.up_seats.specs.Telling.{HasAnswered};

use fo_core::World;
use up_core::Core;
use up_machine::{End, NotNow, Why};
use up_push::Pushing;

/// A step leads out of the clause's frame: the push has failed, or the job is put back where a
/// clause refutes the step by now.
fn report_fail(core: &mut Core, seat: u32, step: World) -> bool
    requires { HasAnswered core.old seat (S.Push (P.Fails step)) }
    ensures { IsReported core.old seat result core.new }
{
    match core.test_fail(seat, &step) {
        Ok(()) => core.fail(seat, step).is_ok(),
        Err(NotNow::Refuted(clause)) => core.give_back(seat, Why::Refuted(step, clause)).is_ok(),
        // Only a work has an obligation's own state to look at.
        Err(NotNow::Own(_)) => false,
        Err(NotNow::Closed) => false,
        Err(NotNow::Spent) => false,
    }
}

/// The seat reports what its push has found.
pub(crate) fn report_push(core: &mut Core, seat: u32, pushing: Pushing) -> bool
    requires { HasAnswered core.old seat (S.Push pushing) }
    ensures { IsReported core.old seat result core.new }
{
    match pushing {
        Pushing::Holds => core.raise(seat).is_ok(),
        Pushing::Fails(step) => report_fail(core, seat, step),
        Pushing::Over(what, excess) => core.close(seat, End::Over(what, excess)).is_ok(),
    }
}
