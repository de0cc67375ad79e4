ghost use Rattle.std.specs.Prelude.{◌≡◌, IfOk};
ghost use Rattle.up_jobs.specs.Solving.{CanSolve, IsSolved};

use crate::solved::Solved;
use fo_core::{Finder, Order, System};
use std::alloc::{AllocError, Global};
use up_block::{block, look};
use up_machine::{Brief, Job};
use up_push::push;
use up_unroll::unroll;

/// Does the search of a brief's job. A look looks for the least violating state of its frame
/// besides those to avoid ([`look`]); a work blocks the state of its obligation ([`block`]); a push
/// looks for a step out of its frame into the clause's cube ([`push`]); a trace looks for a
/// violating run of at most so many steps ([`unroll`]). Where a query of the search is above the
/// finder's limit, it gives the first such query, its weight, and what it was asked for.
///
/// It asks for a well-sorted system ([`System::is_well_sorted`]), for an order that rises along
/// each edge of the system's sort graph for inference, and for a brief that is ready
/// ([`is_ready`](crate::is_ready)). The one error is out of memory, which is also answered where a
/// number of variables or of literals doesn't fit 32 bits.
pub fn solve_brief<F: Finder>(
    alloc: Global,
    finder: &mut F,
    sys: &System,
    order: &Order,
    brief: &Brief,
) -> Result<Solved, AllocError>
    requires asked { CanSolve sys.now order.now brief.now }
    ensures limit { F.limit finder.new ≡ F.limit finder.old }
    ensures solved { IfOk result (IsSolved sys.now (F.limit finder.old) brief.now) }
{
    let frame = brief.frame.as_slice();
    match brief.job {
        Job::Look => {
            let avoid = brief.avoid.as_slice();
            let least = look(alloc, finder, sys, order, frame, avoid)?;
            Ok(Solved::Look(least))
        }
        Job::Work(_) => match &brief.world {
            Some(world) => {
                let blocking = block(alloc, finder, sys, order, frame, brief.level, world, 0)?;
                Ok(Solved::Work(blocking))
            }
            None => unreachable!(),
        },
        Job::Push(_) => match &brief.cube {
            Some(cube) => {
                let pushing = push(alloc, finder, sys, order, frame, cube)?;
                Ok(Solved::Push(pushing))
            }
            None => unreachable!(),
        },
        Job::Trace(_) => {
            let unrolled = unroll(alloc, finder, sys, order, brief.level)?;
            Ok(Solved::Trace(unrolled))
        }
    }
}
