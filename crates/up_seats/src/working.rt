//! What a seat reports of a work.

ghost use Rattle.std.specs.Prelude.{◌≡◌};
ghost use Rattle.up_block.specs.declared.blocking.Blocking.TheVariants as B;
ghost use Rattle.up_jobs.specs.declared.solved.Solved.TheVariants as S;
ghost use Rattle.up_seats.specs.Seats.{IsReported};
ghost use Rattle.up_seats.specs.Telling.{HasAnswered, world_in};

use fo_core::World;
use up_block::Blocking;
use up_core::Core;
use up_diagram::Cube;
use up_machine::{End, NotNow, Origin, Why};

/// The obligation is blocked: the cube's clause is learnt, or the obligation is dropped where a
/// clause already refutes its state.
fn report_blocked(core: &mut Core, seat: u32, cube: Cube) -> bool
    requires { HasAnswered core.old seat (S.Work (B.Blocked cube)) }
    ensures { IsReported core.old seat result core.new }
{
    match core.learn(seat, cube) {
        Ok(()) => true,
        Err(NotNow::Own(clause)) => core.drop_ob(seat, clause).is_ok(),
        // No state but the obligation's own is looked at.
        Err(NotNow::Refuted(_)) => false,
        Err(NotNow::Closed) => false,
        Err(NotNow::Spent) => false,
    }
}

/// The obligation's state embeds in an initial state: that comes before it, or the obligation is
/// dropped where a clause already refutes its state.
fn report_root(core: &mut Core, seat: u32, root: World) -> bool
    requires { HasAnswered core.old seat (S.Work (B.Initial root)) }
    ensures { IsReported core.old seat result core.new }
{
    match core.before(seat, Origin::Initial(root)) {
        Ok(()) => true,
        Err(NotNow::Own(clause)) => core.drop_ob(seat, clause).is_ok(),
        // No state but the obligation's own is looked at.
        Err(NotNow::Refuted(_)) => false,
        Err(NotNow::Closed) => false,
        Err(NotNow::Spent) => false,
    }
}

/// The world that comes before the obligation.
fn world_of(origin: Origin) -> World
    ensures { result ≡ world_in origin }
{
    match origin {
        Origin::Initial(root) => root,
        Origin::Step(step) => step,
    }
}

/// A step leads into the obligation's diagram: it comes before the obligation, or the job is put
/// back where a clause refutes the step by now; and the obligation is dropped where a clause
/// already refutes its own state.
fn report_step(core: &mut Core, seat: u32, step: World) -> bool
    requires { HasAnswered core.old seat (S.Work (B.Step step)) }
    ensures { IsReported core.old seat result core.new }
{
    core.stays_sound();
    let origin = Origin::Step(step);
    match core.test_before(seat, &origin) {
        Ok(()) => core.before(seat, origin).is_ok(),
        Err(NotNow::Own(clause)) => core.drop_ob(seat, clause).is_ok(),
        Err(NotNow::Refuted(clause)) => {
            let step = world_of(origin);
            core.give_back(seat, Why::Refuted(step, clause)).is_ok()
        }
        Err(NotNow::Closed) => false,
        Err(NotNow::Spent) => false,
    }
}

/// The seat reports what its work has found.
pub(crate) fn report_work(core: &mut Core, seat: u32, blocking: Blocking) -> bool
    requires { HasAnswered core.old seat (S.Work blocking) }
    ensures { IsReported core.old seat result core.new }
{
    match blocking {
        Blocking::Blocked(cube) => report_blocked(core, seat, cube),
        Blocking::Initial(root) => report_root(core, seat, root),
        Blocking::Step(step) => report_step(core, seat, step),
        Blocking::Over(what, excess) => core.close(seat, End::Over(what, excess)).is_ok(),
    }
}
