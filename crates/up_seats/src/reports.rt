//! What a seat reports of its job.

ghost use Rattle.up_seats.specs.Seats.{IsAnswered, IsReported};

use crate::looking::report_look;
use crate::pushing::report_push;
use crate::tracing::report_trace;
use crate::working::report_work;
use up_core::Core;
use up_jobs::Solved;
use up_machine::Brief;

/// The seat reports what the search of its brief has answered, and gives whether it could. It can't
/// after the end; nor where the steps are spent, but for the end of the run or that a look found
/// nothing further. Then nothing changes. It takes no memory.
///
/// It asks for a seat that holds a job, for the brief of what it was given, and for the answer to
/// that brief of a finder with the machine's limit on weight. The answer speaks of the frames as
/// they stood when the seat took its job; what has to lie in a frame now is looked at here.
pub fn report(core: &mut Core, seat: u32, brief: &Brief, solved: Solved) -> bool
    requires { IsAnswered core.old seat brief.now solved }
    ensures { IsReported core.old seat result core.new }
{
    match solved {
        Solved::Look(least) => report_look(core, seat, brief, least),
        Solved::Work(blocking) => report_work(core, seat, blocking),
        Solved::Push(pushing) => report_push(core, seat, pushing),
        Solved::Trace(unrolled) => report_trace(core, seat, unrolled),
    }
}
