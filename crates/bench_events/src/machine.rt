//! A machine for a system of one sort that has no symbols.
ghost use Rattle.std.specs.Prelude.{IfOk};
ghost use Rattle.bench_events.specs.Idle.{IsIdle};

use fo_core::{MOST_WEIGHT, Purpose, Seq, Sig, System};
use pyv_strat::order;
use std::alloc::Global;
use up_core::Core;
use up_machine::Limits;

/// One sort, and nothing that is said of it.
fn system(alloc: Global) -> System {
    System {
        sig: Sig {
            sorts: 1,
            symbols: Seq::new(alloc),
        },
        axioms: Seq::new(alloc),
        inits: Seq::new(alloc),
        steps: Seq::new(alloc),
        safeties: Seq::new(alloc),
        invariants: Seq::new(alloc),
    }
}

/// A machine that has seen no event.
pub fn machine(alloc: Global) -> anyhow::Result<Core>
    ensures { IfOk result (λ core. IsIdle core) }
{
    let sys = system(alloc);
    anyhow::ensure!(sys.is_well_sorted(alloc)?, "not well-sorted");
    let order = order(alloc, &sys, Purpose::Infer)?;
    let limits = Limits {
        workers: 1,
        batch: 1,
        frames: 1,
        steps: 1,
        weight: MOST_WEIGHT,
    };
    anyhow::ensure!(limits.are_in_range(), "limits out of range");
    Ok(Core::new(alloc, &sys, &order, limits)?)
}
