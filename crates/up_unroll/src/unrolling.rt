ghost use Rattle.std.specs.Prelude.{◌≡◌, ◌<◌, ◌-◌, ◌^◌, IfOk};
ghost use Rattle.fo_core.specs.declared.order.Purpose.TheVariants.{Infer};
ghost use Rattle.fo_core.specs.SortGraph.{SortEdge, Rises};
ghost use Rattle.fo_core.specs.Sorted.{IsSystem};
ghost use Rattle.up_unroll.specs.Unrolling.{IsUnrolled};

use fo_core::{Finder, Order, System, World};
use fo_min::{Excess, Least, least};
use std::alloc::{AllocError, Global};
use up_claims::{Kind, unroll_query};

/// What a search for a violating run found.
#[derive(Debug, Drop)]
pub enum Unrolled {
    /// Of the violating runs of fewest steps, the least.
    Run(World),
    /// No violating run has at most the number of steps that was asked for.
    NoRun,
    /// A query of the search is heavier than the finder's limit. Its kind is `Kind::Unroll`.
    Over(Kind, Excess),
}

impl Unrolled {
    /// A copy.
    pub fn copy(&self, alloc: Global) -> Result<Unrolled, AllocError>
        ensures { IfOk result (λ x. x ≡ self.now) }
    {
        match self {
            Unrolled::Run(run) => Ok(Unrolled::Run(run.copy(alloc)?)),
            Unrolled::NoRun => Ok(Unrolled::NoRun),
            Unrolled::Over(kind, excess) => Ok(Unrolled::Over(*kind, excess.copy(alloc)?)),
        }
    }
}

/// Looks for a violating run of at most `steps` steps, by bounded model checking: of no step, of
/// one step, and so on (Armin Biere, Alessandro Cimatti, Edmund Clarke and Yunshan Zhu, "Symbolic
/// Model Checking without BDDs", 1999). Of the runs of fewest steps it gives the one that comes
/// first by how many elements the sorts have, and then by the values of the tables. Where a query
/// of the search is above the finder's limit, it gives that query and its weight.
///
/// It asks for a well-sorted system ([`System::is_well_sorted`]), for an order that rises along
/// each edge of the system's sort graph for inference, and for fewer than 2^32 - 1 steps. Where a
/// number of variables doesn't fit 32 bits, it answers out of memory ([`unroll_query`], [`least`]).
pub fn unroll<F: Finder>(
    alloc: Global,
    f: &mut F,
    sys: &System,
    order: &Order,
    steps: u32,
) -> Result<Unrolled, AllocError>
    requires sys { IsSystem sys.now }
    requires order { Rises (SortEdge sys.now Infer) sys.now.sig.sorts order.now.numbers }
    requires few { steps < 2 ^ 32 - 1 }
    ensures limit { F.limit f.new ≡ F.limit f.old }
    ensures found { IfOk result (IsUnrolled sys.now (F.limit f.old) steps) }
{
    'each: for k in 0..steps + 1 {
        let q = unroll_query(alloc, sys, k)?;
        match least(alloc, f, sys, order, &q)? {
            Least::Model(run) => return Ok(Unrolled::Run(run)),
            Least::Nothing => {}
            Least::Over(excess) => return Ok(Unrolled::Over(Kind::Unroll, excess)),
        }
    }
    Ok(Unrolled::NoRun)
}
