ghost use Rattle.std.specs.Prelude.{◌≡◌, IfOk};

use fo_core::{Query, World};
use std::alloc::{AllocError, Global};

/// A query that is heavier than a finder's limit.
#[derive(Debug, Drop)]
pub struct Excess {
    /// Its weight, cut at the greatest number of 64 bits.
    pub weight: u64,
    /// The query.
    pub query: Query,
}

impl Excess {
    /// A copy.
    pub fn copy(&self, alloc: Global) -> Result<Excess, AllocError>
        ensures { IfOk result (λ x. x ≡ self.now) }
    {
        Ok(Excess {
            weight: self.weight,
            query: self.query.copy(alloc)?,
        })
    }
}

/// What a search for the least world found.
#[derive(Debug, Drop)]
pub enum Least {
    /// Of the worlds that meet the query, the least.
    Model(World),
    /// No world over any finite nonempty domains meets the query.
    Nothing,
    /// A query of the search is heavier than the finder's limit.
    Over(Excess),
}

impl Least {
    /// A copy.
    pub fn copy(&self, alloc: Global) -> Result<Least, AllocError>
        ensures { IfOk result (λ x. x ≡ self.now) }
    {
        match self {
            Least::Model(world) => Ok(Least::Model(world.copy(alloc)?)),
            Least::Nothing => Ok(Least::Nothing),
            Least::Over(excess) => Ok(Least::Over(excess.copy(alloc)?)),
        }
    }
}
