ghost use Rattle.std.specs.Prelude.{◌≡◌, IfOk, Some};
ghost use Rattle.std.specs.List.{All};
ghost use Rattle.up_claims.specs.Inferring.{CanInfer};
ghost use Rattle.up_diagram.specs.Cubes.{IsCube};
ghost use Rattle.up_push.specs.Pushing.{IsPushing};

use fo_core::{Finder, Order, System, World};
use fo_min::{Excess, Least, least};
use std::alloc::{AllocError, Global};
use up_claims::{Kind, before_query};
use up_diagram::Cube;

/// What came of pushing a clause, which is the negation of a cube.
#[derive(Debug, Drop)]
pub enum Pushing {
    /// No step leads from the frame into the cube.
    Holds,
    /// Of the steps from the frame into the cube, the least.
    Fails(World),
    /// A query is heavier than the finder's limit. Its kind is `Kind::Push`.
    Over(Kind, Excess),
}

impl Pushing {
    /// A copy.
    pub fn copy(&self, alloc: Global) -> Result<Pushing, AllocError>
        ensures { IfOk result (λ x. x ≡ self.now) }
    {
        match self {
            Pushing::Holds => Ok(Pushing::Holds),
            Pushing::Fails(world) => Ok(Pushing::Fails(world.copy(alloc)?)),
            Pushing::Over(kind, excess) => Ok(Pushing::Over(*kind, excess.copy(alloc)?)),
        }
    }
}

/// Looks for a step from the frame into the cube, and of these for the least. Where there is none,
/// the cube's clause holds one frame further on. Where a query of the search is above the finder's
/// limit, it gives that query and its weight.
///
/// The frame's states are those that meet none of its cubes. It asks for a well-sorted system
/// ([`System::is_well_sorted`]), for an order that rises along each edge of the system's sort graph
/// for inference, and for well-sorted cubes ([`Cube::is_well_sorted`]). Where a number of variables
/// doesn't fit 32 bits, it answers out of memory ([`before_query`], [`least`]).
pub fn push<F: Finder>(
    alloc: Global,
    f: &mut F,
    sys: &System,
    order: &Order,
    frame: &[Cube],
    cube: &Cube,
) -> Result<Pushing, AllocError>
    requires infer { CanInfer sys.now order.now }
    requires frame { All (IsCube sys.now.sig) frame.now }
    requires cube { IsCube sys.now.sig cube.now }
    ensures limit { F.limit f.new ≡ F.limit f.old }
    ensures found { IfOk result (IsPushing sys.now (F.limit f.old) frame.now cube.now) }
{
    let q = before_query(alloc, sys, Some(frame), cube)?;
    match least(alloc, f, sys, order, &q)? {
        Least::Model(w) => return Ok(Pushing::Fails(w)),
        Least::Nothing => {}
        Least::Over(excess) => return Ok(Pushing::Over(Kind::Push, excess)),
    }
    Ok(Pushing::Holds)
}
