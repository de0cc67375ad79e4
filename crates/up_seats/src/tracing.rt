//! What a seat reports of a trace.

ghost use Rattle.up_jobs.specs.declared.solved.Solved.TheVariants as S;
ghost use Rattle.up_seats.specs.Seats.{IsReported};
ghost use Rattle.up_seats.specs.Telling.{HasAnswered};

use up_core::Core;
use up_machine::End;
use up_unroll::Unrolled;

/// The seat reports what its trace has found, which ends the run.
pub(crate) fn report_trace(core: &mut Core, seat: u32, unrolled: Unrolled) -> bool
    requires { HasAnswered core.old seat (S.Trace unrolled) }
    ensures { IsReported core.old seat result core.new }
{
    match unrolled {
        Unrolled::Run(run) => core.close(seat, End::Unsafe(run)).is_ok(),
        Unrolled::NoRun => core.close(seat, End::NoUniversal).is_ok(),
        Unrolled::Over(what, excess) => core.close(seat, End::Over(what, excess)).is_ok(),
    }
}
