//! A run by rounds.

ghost use Rattle.std.specs.Prelude.{◌≡◌, ℕ, IfOk, OnOk};
ghost use Rattle.std.specs.List.{All};
ghost use Rattle.up_claims.specs.Inferring.{CanInfer};
ghost use Rattle.up_core.specs.View.{now};
ghost use Rattle.up_machine.specs.Ranges.{AreInRange};
ghost use Rattle.up_rounds.specs.Courses.{IsRun};
ghost use Rattle.up_rounds.specs.Going.{HasGoneOn, HasRun, HasTurned, IsUnderWay};
ghost use Rattle.up_rounds.specs.OneRound.{IsAtRest};
ghost use Rattle.up_rounds.specs.Settling.{IsForJobs, IsResting};

use crate::coming_laws::{jobs_come_to_an_end, retiring_comes_to_an_end, settling_comes_to_an_end};
use crate::crew::{Crew, solve_jobs};
use crate::reports::report_all;
use crate::settling::{Begun, begin};
use crate::taking::take_jobs;
use fo_core::{Finders, Order, System};
use std::alloc::{AllocError, Global};
use std::thread::Threads;
use up_core::Core;
use up_machine::Limits;

/// A round of jobs: seats take them, they are solved, and the seats report.
fn make_jobs<M: Finders, R: Threads + Sync>(
    rt: &R,
    alloc: Global,
    makers: &M,
    crew: &mut Crew<M::One>,
    core: &mut Core,
) -> Result<(), AllocError>
    requires weight { M.limit makers.now ≡ core.old.limits.weight }
    requires finders { All (λ f. M.One.limit f ≡ M.limit makers.now) crew.old.finders.items }
    requires rest { IsAtRest core.old.limits (now core.old) }
    requires jobs { IsForJobs core.old }
    ensures finders { All (λ f. M.One.limit f ≡ M.limit makers.now) crew.new.finders.items }
    ensures gone_on { OnOk result (HasGoneOn core.old core.new) }
{
    // There is a seat, and a worker.
    core.stays_sound();
    let workers = core.limits().workers;
    let briefs = take_jobs(alloc, core)?;
    let solved = solve_jobs(
        rt,
        alloc,
        makers,
        crew,
        workers,
        core.system(),
        core.order(),
        briefs.as_slice(),
    )?;
    report_all(core, briefs.as_slice(), solved);
    // The history is legal, so less is left to come.
    core.stays_sound();
    jobs_come_to_an_end();
    Ok(())
}

/// One round, if the run hasn't ended; gives whether it has.
fn make_round<M: Finders, R: Threads + Sync>(
    rt: &R,
    alloc: Global,
    makers: &M,
    crew: &mut Crew<M::One>,
    core: &mut Core,
) -> Result<bool, AllocError>
    requires weight { M.limit makers.now ≡ core.old.limits.weight }
    requires finders { All (λ f. M.One.limit f ≡ M.limit makers.now) crew.old.finders.items }
    requires resting { IsResting core.old }
    ensures finders { All (λ f. M.One.limit f ≡ M.limit makers.now) crew.new.finders.items }
    ensures turned { IfOk result (λ ended. HasTurned core.old ended core.new) }
{
    match begin(alloc, core)? {
        Begun::Ended => Ok(true),
        Begun::Settled => {
            // The history is legal, so less is left to come.
            core.stays_sound();
            settling_comes_to_an_end();
            retiring_comes_to_an_end();
            Ok(false)
        }
        Begun::Jobs => {
            make_jobs(rt, alloc, makers, crew, core)?;
            Ok(false)
        }
    }
}

/// Rounds, one after another, until the run has ended.
fn make_rounds<M: Finders, R: Threads + Sync>(
    rt: &R,
    alloc: Global,
    makers: &M,
    crew: &mut Crew<M::One>,
    core: &mut Core,
) -> Result<(), AllocError>
    requires weight { M.limit makers.now ≡ core.old.limits.weight }
    requires finders { All (λ f. M.One.limit f ≡ M.limit makers.now) crew.old.finders.items }
    requires under_way { IsUnderWay core.old }
    ensures { OnOk result (HasRun core.old core.new) }
{
    'rounds: loop {
        if make_round(rt, alloc, makers, crew, core)? {
            return Ok(());
        }
    }
}

/// Searches for a universally quantified inductive invariant, in rounds, until the run ends: its
/// verdict is an invariant, a violating run, a chain of states which shows that there is no such
/// invariant, or which limit was met.
///
/// In each round seats take jobs, up to as many as the limit on a batch, the jobs are solved beside
/// one another, by as many threads as the limit on workers, and the seats report in order. So the
/// history is the same for every number of workers. It waits for nothing but the threads of its own
/// jobs; where one can't be started, the caller does its work.
///
/// It asks for a well-sorted system ([`System::is_well_sorted`]), for an order that rises along
/// each edge of the system's sort graph for inference, for limits in their ranges
/// ([`Limits::are_in_range`]), and for makers whose finders' limit is the limit on weight. The one
/// error is out of memory.
pub fn infer_rounds<M: Finders, R: Threads + Sync>(
    rt: &R,
    alloc: Global,
    makers: &M,
    sys: &System,
    order: &Order,
    limits: Limits,
) -> Result<Core, AllocError>
    requires infer { CanInfer sys.now order.now }
    requires in_range { AreInRange limits }
    requires weight { M.limit makers.now ≡ limits.weight }
    ensures { IfOk result (IsRun sys.now order.now limits) }
{
    let mut core = Core::new(alloc, sys, order, limits)?;
    let mut crew = Crew {
        finders: Vec::new(alloc),
    };
    make_rounds(rt, alloc, makers, &mut crew, &mut core)?;
    core.stays_sound();
    Ok(core)
}
