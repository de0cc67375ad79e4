//! Workers, each in a thread of its own.

ghost use Rattle.std.specs.Prelude.{◌≡◌, ◌+◌, ◌-◌, ◌<◌, IfOk};
ghost use Rattle.std.specs.Thread.{IsSync};
ghost use Rattle.up_claims.specs.Inferring.{CanInfer};
ghost use Rattle.up_machine.specs.Ranges.{AreInRange};
ghost use Rattle.up_free.specs.Crew.{IsFreeRun, IsFresh, IsSpent};

use crate::gates::Gate;
use crate::working::work;
use fo_core::{Finders, Order, System};
use std::alloc::{AllocError, Global};
use std::sync::Wait;
use std::thread::{Threads, join};
use turnstile::{Pass, Turnstile};
use up_core::Core;
use up_machine::{Limits, Task};

/// One worker for each number of the pass, beside one another, until they end. Where a thread can't
/// be started the caller does its work.
fn spread<M: Finders, G: Gate, R: Threads + Wait + Sync>(
    rt: &R,
    alloc: Global,
    makers: &M,
    sys: &System,
    order: &Order,
    shared: &Turnstile<Core>,
    mut pass: Pass<Core>,
    gate: &G,
    width: u32,
) -> Pass<Core>
    requires sync { IsSync R.row × IsSync M.row × IsSync G.row }
    requires fresh { IsFresh shared.now pass }
    requires system { shared.now.base.sys ≡ sys.now }
    requires order { shared.now.base.order ≡ order.now }
    requires weight { M.limit makers.now ≡ shared.now.base.limits.weight }
    requires width { (0 < width) × (pass.from + width ≡ pass.to) }
    ensures { IsSpent shared.now pass.from pass.to result }
{
    if width == 1 {
        let _ = work(rt, alloc, makers, sys, order, shared, &mut pass, gate);
        return pass;
    }
    let half = width / 2;
    let at = pass.first() + half;
    let upper = shared.split(&mut pass, at);
    let (mut lower, upper) = join(
        rt,
        move || -> Pass<Core>
            requires { IsSync R.row × IsSync M.row × IsSync G.row × IsFresh shared.now pass
                × (shared.now.base.sys ≡ sys.now) × (shared.now.base.order ≡ order.now)
                × (M.limit makers.now ≡ shared.now.base.limits.weight)
                × (0 < half) × (pass.from + half ≡ pass.to) }
            ensures { IsSpent shared.entry.now pass.from pass.to result }
        { spread(rt, alloc, makers, sys, order, shared, pass, gate, half) },
        move || -> Pass<Core>
            requires { IsSync R.row × IsSync M.row × IsSync G.row × IsFresh shared.now upper
                × (shared.now.base.sys ≡ sys.now) × (shared.now.base.order ≡ order.now)
                × (M.limit makers.now ≡ shared.now.base.limits.weight)
                × (half < width) × (upper.from + (width - half) ≡ upper.to) }
            ensures { IsSpent shared.entry.now upper.from upper.to result }
        {
            spread(
                rt,
                alloc,
                makers,
                sys,
                order,
                shared,
                upper,
                gate,
                width - half,
            )
        },
    );
    shared.join(&mut lower, upper);
    lower
}

/// Searches for a universally quantified inductive invariant, by as many workers as the limit says,
/// each in a thread of its own, until the run ends: its verdict is an invariant, a violating run, a
/// chain of states which shows that there is no such invariant, or which limit was met.
///
/// Workers share one machine and solve jobs while others do: so the history depends on which of them
/// comes first, but it is legal and closed in every case. A worker that is out of memory puts its job
/// back and ends, and the others go on. Where a thread can't be started the caller does its work. It
/// may wait, and owes no return.
///
/// It asks for a well-sorted system ([`System::is_well_sorted`]), for an order that rises along
/// each edge of the system's sort graph for inference, for limits in their ranges
/// ([`Limits::are_in_range`]), and for makers whose finders' limit is the limit on weight. The one
/// error is out of memory, where all workers have ended without a verdict.
pub fn infer_free<M: Finders, G: Gate, R: Threads + Wait + Sync>(
    rt: &R,
    alloc: Global,
    makers: &M,
    sys: &System,
    order: &Order,
    limits: Limits,
    gate: &G,
) -> Result<Core, AllocError>
    requires infer { CanInfer sys.now order.now }
    requires in_range { AreInRange limits }
    requires weight { M.limit makers.now ≡ limits.weight }
    ensures { IfOk result (IsFreeRun sys.now order.now limits) }
{
    let core = Core::new(alloc, sys, order, limits)?;
    let (shared, pass) = match Turnstile::new(alloc, core, limits.workers) {
        Ok(both) => both,
        Err((error, _)) => return Err(error),
    };
    let workers = limits.workers;
    let pass = spread(rt, alloc, makers, sys, order, &shared, pass, gate, workers);
    let core = shared.close(pass);
    core.stays_sound();
    match core.next_task(0) {
        Task::Ended => Ok(core),
        _ => Err(AllocError),
    }
}
