ghost use Rattle.std.specs.Prelude.{◌≡◌, IfOk};
ghost use Rattle.std.specs.List.{All};
ghost use Rattle.fo_min.specs.Found.{IsFoundLeast};
ghost use Rattle.up_claims.specs.InferQueries.{seed_query as seed_query_of};
ghost use Rattle.up_claims.specs.Inferring.{CanInfer};
ghost use Rattle.up_diagram.specs.Cubes.{IsCube};

use fo_core::{Finder, Order, System};
use fo_min::{Least, least};
use std::alloc::{AllocError, Global};
use up_claims::seed_query;
use up_diagram::Cube;

/// Looks for a seed: the least state of the frame that violates a safety and meets none of the
/// cubes to avoid. Where a query of the search is above the finder's limit, it gives that query and
/// its weight.
///
/// It asks for a well-sorted system ([`System::is_well_sorted`]), for an order that rises along
/// each edge of the system's sort graph for inference, and for well-sorted cubes
/// ([`Cube::is_well_sorted`]). Where a number of variables doesn't fit 32 bits, it answers out of
/// memory ([`seed_query`], [`least`]).
pub fn look<F: Finder>(
    alloc: Global,
    f: &mut F,
    sys: &System,
    order: &Order,
    frame: &[Cube],
    avoid: &[Cube],
) -> Result<Least, AllocError>
    requires infer { CanInfer sys.now order.now }
    requires frame { All (IsCube sys.now.sig) frame.now }
    requires avoid { All (IsCube sys.now.sig) avoid.now }
    ensures limit { F.limit f.new ≡ F.limit f.old }
    ensures found { IfOk result (IsFoundLeast sys.now.sig (seed_query_of sys.now frame.now avoid.now) (F.limit f.old)) }
{
    let q = seed_query(alloc, sys, frame, avoid)?;
    least(alloc, f, sys, order, &q)
}
