ghost use Rattle.std.specs.Prelude.{◌≡◌, ◌≤◌, ◌-◌, option_map, IfOk};
ghost use Rattle.std.specs.List.{All};
ghost use Rattle.up_block.specs.Blocking.{IsBlocking};
ghost use Rattle.up_claims.specs.Frames.{IsFrame, frame_at};
ghost use Rattle.up_claims.specs.Inferring.{CanInfer};
ghost use Rattle.up_diagram.specs.Cubes.{IsCube};
ghost use Rattle.up_diagram.specs.Diagrams.{CanDescribe, diagram as diagram_of};

use crate::passing::pass_of;
use fo_core::{Finder, Order, System, World};
use fo_min::{Excess, Least, least};
use std::alloc::{AllocError, Global};
use up_claims::{Kind, before_query, root_query};
use up_diagram::{Cube, diagram};

/// What came of blocking a state.
#[derive(Debug, Drop)]
pub enum Blocking {
    /// No initial state meets the cube and no step leads into it: what a pass over the literals of
    /// the state's diagram leaves.
    Blocked(Cube),
    /// Of the initial states that meet the diagram, the least.
    Initial(World),
    /// No initial state meets the diagram. Of the steps into it, the least.
    Step(World),
    /// A query is heavier than the finder's limit: what it was asked for, and it with its weight.
    Over(Kind, Excess),
}

impl Blocking {
    /// A copy.
    pub fn copy(&self, alloc: Global) -> Result<Blocking, AllocError>
        ensures { IfOk result (λ x. x ≡ self.now) }
    {
        match self {
            Blocking::Blocked(cube) => Ok(Blocking::Blocked(cube.copy(alloc)?)),
            Blocking::Initial(world) => Ok(Blocking::Initial(world.copy(alloc)?)),
            Blocking::Step(world) => Ok(Blocking::Step(world.copy(alloc)?)),
            Blocking::Over(kind, excess) => Ok(Blocking::Over(*kind, excess.copy(alloc)?)),
        }
    }
}

/// Blocks a cube.
fn block_cube<F: Finder>(
    alloc: Global,
    f: &mut F,
    sys: &System,
    order: &Order,
    frame: Option<&[Cube]>,
    cube: Cube,
) -> Result<Blocking, AllocError>
    requires infer { CanInfer sys.now order.now }
    requires frame { IsFrame sys.now.sig (option_map (λ cubes. cubes.now) frame) }
    requires cube { IsCube sys.now.sig cube }
    ensures limit { F.limit f.new ≡ F.limit f.old }
    ensures found { IfOk result (IsBlocking sys.now (F.limit f.old) (option_map (λ cubes. cubes.now) frame.entry) cube) }
{
    let root = root_query(alloc, sys, &cube)?;
    match least(alloc, f, sys, order, &root)? {
        Least::Model(w) => return Ok(Blocking::Initial(w)),
        Least::Nothing => {}
        Least::Over(excess) => return Ok(Blocking::Over(Kind::Root, excess)),
    }
    let before = before_query(alloc, sys, frame, &cube)?;
    match least(alloc, f, sys, order, &before)? {
        Least::Model(w) => return Ok(Blocking::Step(w)),
        Least::Nothing => {}
        Least::Over(excess) => return Ok(Blocking::Over(Kind::Before, excess)),
    }
    let mut pass = pass_of(alloc, sys, order, root, before, &cube)?;
    Ok(Blocking::Blocked(pass.over(alloc, f, cube)?))
}

/// Blocks a state of a world: looks for the least initial state that meets the state's diagram, and
/// where there is none for the least step into it from the frame below this level. Where there is
/// none either, it goes over the literals of the diagram once, in order, and drops each without
/// which the cube stays blocked, as PDR generalizes what it learns (Aaron Bradley, "SAT-Based Model
/// Checking without Unrolling", 2011). What is left is blocked, and without any one of its literals
/// it isn't. Where a query is above the finder's limit, it gives the first such query, its weight,
/// and what it was asked for.
///
/// A world that was found for one literal is tried for the later ones before anything is asked, so
/// it often asks far fewer queries than it has to answer.
///
/// At level 1 the states below are the initial ones, and the frame isn't looked at. It asks for a
/// level of at least 1, a well-sorted system ([`System::is_well_sorted`]), an order that rises
/// along each edge of the system's sort graph for inference, well-sorted cubes
/// ([`Cube::is_well_sorted`]), and a world that fits the signature, whose elements have numbers of
/// 32 bits all together. Where a number of variables or of literals doesn't fit 32 bits, it answers
/// out of memory ([`before_query`], [`least`]).
pub fn block<F: Finder>(
    alloc: Global,
    f: &mut F,
    sys: &System,
    order: &Order,
    frame: &[Cube],
    level: u32,
    s: &World,
    copy: u32,
) -> Result<Blocking, AllocError>
    requires infer { CanInfer sys.now order.now }
    requires frame { All (IsCube sys.now.sig) frame.now }
    requires level { 1 ≤ level }
    requires state { CanDescribe sys.now.sig s.now copy }
    ensures limit { F.limit f.new ≡ F.limit f.old }
    ensures found { IfOk result (IsBlocking sys.now (F.limit f.old) (frame_at (level - 1) frame.now) (diagram_of sys.now.sig s.now copy)) }
{
    let cube = diagram(alloc, &sys.sig, s, copy)?;
    if level == 1 {
        return block_cube(alloc, f, sys, order, None, cube);
    }
    block_cube(alloc, f, sys, order, Some(frame), cube)
}
