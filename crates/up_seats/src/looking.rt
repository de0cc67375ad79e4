//! What a seat reports of a look.

ghost use Rattle.fo_min.specs.declared.found.Least.TheVariants as L;
ghost use Rattle.up_jobs.specs.declared.solved.Solved.TheVariants as S;
ghost use Rattle.up_seats.specs.Seats.{IsAnswered, IsReported};
ghost use Rattle.up_seats.specs.Telling.{HasAnswered};

use fo_core::World;
use fo_min::Least;
use up_claims::Kind;
use up_core::Core;
use up_machine::{Brief, End, NotNow, Why};

/// The look has found the least violating state: it becomes an obligation, or is put back where a
/// clause refutes it by now.
fn report_seed(core: &mut Core, seat: u32, seed: World) -> bool
    requires { HasAnswered core.old seat (S.Look (L.Model seed)) }
    ensures { IsReported core.old seat result core.new }
{
    core.stays_sound();
    match core.test_seed(seat, &seed) {
        Ok(()) => core.seed(seat, seed).is_ok(),
        Err(NotNow::Refuted(clause)) => core.give_back(seat, Why::Refuted(seed, clause)).is_ok(),
        // Only a work has an obligation's own state to look at.
        Err(NotNow::Own(_)) => false,
        Err(NotNow::Closed) => false,
        Err(NotNow::Spent) => false,
    }
}

/// The look has found nothing: the frame is secure, or there is nothing further.
fn report_nothing(core: &mut Core, seat: u32, brief: &Brief) -> bool
    requires { IsAnswered core.old seat brief.now (S.Look L.Nothing) }
    ensures { IsReported core.old seat result core.new }
{
    if brief.avoid.as_slice().is_empty() {
        core.secure(seat).is_ok()
    } else {
        core.give_back(seat, Why::NoMore).is_ok()
    }
}

/// The seat reports what its look has found.
pub(crate) fn report_look(core: &mut Core, seat: u32, brief: &Brief, least: Least) -> bool
    requires { IsAnswered core.old seat brief.now (S.Look least) }
    ensures { IsReported core.old seat result core.new }
{
    match least {
        Least::Model(seed) => report_seed(core, seat, seed),
        Least::Nothing => report_nothing(core, seat, brief),
        Least::Over(excess) => core.close(seat, End::Over(Kind::Seed, excess)).is_ok(),
    }
}
