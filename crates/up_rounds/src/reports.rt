//! The reports of a round: each seat tells what its job's search has answered, in order.

ghost use Rattle.std.specs.Prelude.{◌<◌, ◌^◌, length};
ghost use Rattle.up_rounds.specs.Asking.{AreBriefed, AreSolved, HaveAllReported};

use up_core::Core;
use up_jobs::Solved;
use up_machine::Brief;
use up_seats::report;

/// The seats report in order, up to the first that can't.
pub(crate) fn report_all(core: &mut Core, briefs: &[Brief], solved: Vec<Solved>)
    requires few { length briefs.now < 2 ^ 32 }
    requires briefed { AreBriefed core.old briefs.now }
    requires solved { AreSolved core.old.sys core.old.limits.weight briefs.now solved.items }
    ensures { HaveAllReported core.old (length briefs.now) core.new }
{
    let mut seat = 0;
    'each: for answer in solved {
        if !report(core, seat, &briefs[seat as usize], answer) {
            return;
        }
        seat += 1;
    }
}
