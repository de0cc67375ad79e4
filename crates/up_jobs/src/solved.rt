ghost use Rattle.std.specs.Prelude.{◌≡◌, IfOk};

use fo_min::Least;
use std::alloc::{AllocError, Global};
use up_block::Blocking;
use up_push::Pushing;
use up_unroll::Unrolled;

/// What the search of a job answers, by the kind of the job.
#[derive(Debug, Drop)]
pub enum Solved {
    /// Of a look: the least violating state of the frame besides those to avoid.
    Look(Least),
    /// Of a work: what blocks the obligation, or what comes before it.
    Work(Blocking),
    /// Of a push: whether the clause holds one frame further on.
    Push(Pushing),
    /// Of a trace: the least of the shortest violating runs.
    Trace(Unrolled),
}

impl Solved {
    /// A copy.
    pub fn copy(&self, alloc: Global) -> Result<Solved, AllocError>
        ensures { IfOk result (λ x. x ≡ self.now) }
    {
        match self {
            Solved::Look(least) => Ok(Solved::Look(least.copy(alloc)?)),
            Solved::Work(blocking) => Ok(Solved::Work(blocking.copy(alloc)?)),
            Solved::Push(pushing) => Ok(Solved::Push(pushing.copy(alloc)?)),
            Solved::Trace(unrolled) => Ok(Solved::Trace(unrolled.copy(alloc)?)),
        }
    }
}
