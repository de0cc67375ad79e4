ghost use Rattle.std.specs.Prelude.{◌≡◌, IfOk};

use fo_core::World;
use fo_min::Excess;
use std::alloc::{AllocError, Global};
use up_claims::Kind;

/// How a run ends.
#[derive(Debug, Drop)]
pub enum End {
    /// The live clauses above this level are an invariant.
    Safe(u32),
    /// This run violates a safety, and none is shorter.
    Unsafe(World),
    /// A chain of embeddings leaves no universal invariant, and no violating run is as short.
    NoUniversal,
    /// The frontier has come to the limit on frames.
    Bounded,
    /// The productive events have come to the limit on steps.
    Spent,
    /// A query of this kind is heavier than the limit.
    Over(Kind, Excess),
}

impl End {
    /// A copy.
    pub fn copy(&self, alloc: Global) -> Result<End, AllocError>
        ensures { IfOk result (λ x. x ≡ self.now) }
    {
        Ok(match self {
            End::Safe(level) => End::Safe(*level),
            End::Unsafe(run) => End::Unsafe(run.copy(alloc)?),
            End::NoUniversal => End::NoUniversal,
            End::Bounded => End::Bounded,
            End::Spent => End::Spent,
            End::Over(kind, excess) => End::Over(*kind, excess.copy(alloc)?),
        })
    }
}
