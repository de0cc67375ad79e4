ghost use Rattle.std.specs.Prelude.{◌≡◌, ◌↔◌, ◌∷◌, ◌++◌, [], ℕ, List, option_map, IfOk, OnOk};
ghost use Rattle.std.specs.List.{All};
ghost use Rattle.fo_core.specs.declared.order.Purpose.TheVariants.{Infer};
ghost use Rattle.fo_core.specs.declared.world.World.{World};
ghost use Rattle.fo_core.specs.Queries.{IsQuery, MeetsQuery};
ghost use Rattle.fo_core.specs.SortGraph.{SortEdge, ClaimsEdge, Rises};
ghost use Rattle.fo_core.specs.Sorted.{IsSystem};
ghost use Rattle.up_diagram.specs.Cubes.{IsCube};
ghost use Rattle.up_claims.specs.Finding.{IsSeed, IsRoot, IsStepInto};
ghost use Rattle.up_claims.specs.Frames.{IsFrame};
ghost use Rattle.up_claims.specs.InferQueries.{clauses_of, frame_claims, seed_query as seed_query_of, root_query as root_query_of, before_query as before_query_of};

use crate::add::add;
use crate::transition::any_transition;
use crate::unroll::{add_states, some_safety_fails};
use fo_core::{Formula, Query, Seq, Sig, System};
use std::alloc::{AllocError, Global};
use up_diagram::{Cube, claim, clause};

/// Adds, for each of these cubes, that copy 0 doesn't meet it.
fn add_clauses(
    alloc: Global,
    sig: &Sig,
    cubes: &[Cube],
    claims: &mut Seq<Formula>,
) -> Result<(), AllocError>
    requires { All (IsCube sig.now) cubes.now }
    ensures { OnOk result (claims.new ≡ claims.old ++ clauses_of sig.now cubes.now) }
{
    'each: for cube in cubes {
        claims.push(clause(alloc, sig, cube, 0)?)?;
    }
    Ok(())
}

/// Adds that copy 0 is in the frame; without one, that it meets the inits.
fn add_frame(
    alloc: Global,
    sys: &System,
    frame: Option<&[Cube]>,
    claims: &mut Seq<Formula>,
) -> Result<(), AllocError>
    requires sys { IsSystem sys.now }
    requires frame { IsFrame sys.now.sig (option_map (λ cubes. cubes.now) frame) }
    ensures { OnOk result (claims.new ≡ claims.old ++ frame_claims sys.now (option_map (λ cubes. cubes.now) frame.entry)) }
{
    match frame {
        None => add(alloc, &sys.sig, 0, sys.inits.as_slice(), claims),
        Some(cubes) => add_clauses(alloc, &sys.sig, cubes, claims),
    }
}

/// The claims that copy 0 is a state of the frame that violates a safety and meets none of the cubes
/// to avoid.
fn claims_of_seed(
    alloc: Global,
    sys: &System,
    frame: &[Cube],
    avoid: &[Cube],
) -> Result<Seq<Formula>, AllocError>
    requires sys { IsSystem sys.now }
    requires frame { All (IsCube sys.now.sig) frame.now }
    requires avoid { All (IsCube sys.now.sig) avoid.now }
    ensures { IfOk result (λ fs. fs ≡ (seed_query_of sys.now frame.now avoid.now).claims) }
{
    let mut claims = Seq::new(alloc);
    add_states(alloc, sys, 1, &mut claims)?;
    add_clauses(alloc, &sys.sig, frame, &mut claims)?;
    claims.push(some_safety_fails(alloc, sys, 0)?)?;
    add_clauses(alloc, &sys.sig, avoid, &mut claims)?;
    Ok(claims)
}

/// The claims that copy 0 is initial and meets the cube.
fn claims_of_root(alloc: Global, sys: &System, cube: &Cube) -> Result<Seq<Formula>, AllocError>
    requires sys { IsSystem sys.now }
    requires cube { IsCube sys.now.sig cube.now }
    ensures { IfOk result (λ fs. fs ≡ (root_query_of sys.now cube.now).claims) }
{
    let mut claims = Seq::new(alloc);
    add_states(alloc, sys, 1, &mut claims)?;
    add(alloc, &sys.sig, 0, sys.inits.as_slice(), &mut claims)?;
    claims.push(claim(alloc, &sys.sig, cube, 0)?)?;
    Ok(claims)
}

/// The claims that copy 0 is in the frame and steps to copy 1, which meets the cube.
fn claims_of_before(
    alloc: Global,
    sys: &System,
    frame: Option<&[Cube]>,
    cube: &Cube,
) -> Result<Seq<Formula>, AllocError>
    requires sys { IsSystem sys.now }
    requires frame { IsFrame sys.now.sig (option_map (λ cubes. cubes.now) frame) }
    requires cube { IsCube sys.now.sig cube.now }
    ensures { IfOk result (λ fs. fs ≡ (before_query_of sys.now (option_map (λ cubes. cubes.now) frame.entry) cube.now).claims) }
{
    let mut claims = Seq::new(alloc);
    add_states(alloc, sys, 2, &mut claims)?;
    add_frame(alloc, sys, frame, &mut claims)?;
    claims.push(any_transition(alloc, sys)?)?;
    claims.push(claim(alloc, &sys.sig, cube, 1)?)?;
    Ok(claims)
}

/// The query of a state of the frame that violates a safety and meets none of the cubes to avoid.
/// The frame's states are those that meet none of its cubes (Karbyshev, Bjørner, Itzhaky, Rinetzky and
/// Shoham, "Property-directed inference of universal invariants or proving their absence", 2015).
///
/// It asks for a well-sorted system ([`System::is_well_sorted`]) and well-sorted cubes
/// ([`Cube::is_well_sorted`]). The one error is out of memory.
pub fn seed_query(
    alloc: Global,
    sys: &System,
    frame: &[Cube],
    avoid: &[Cube],
) -> Result<Query, AllocError>
    requires sys { IsSystem sys.now }
    requires frame { All (IsCube sys.now.sig) frame.now }
    requires avoid { All (IsCube sys.now.sig) avoid.now }
    ensures query { IfOk result (λ q. q ≡ seed_query_of sys.now frame.now avoid.now) }
    ensures sorted { IfOk result (IsQuery sys.now.sig) }
    ensures meaning { IfOk result (λ q. (w : World) → MeetsQuery sys.now.sig q w ↔ IsSeed sys.now frame.now avoid.now w) }
    ensures rises { IfOk result (λ q. (numbers : List ℕ) → Rises (SortEdge sys.now Infer) sys.now.sig.sorts numbers → Rises (ClaimsEdge sys.now.sig q.claims) sys.now.sig.sorts numbers) }
{
    Ok(Query {
        copies: 1,
        claims: claims_of_seed(alloc, sys, frame, avoid)?,
    })
}

/// The query of an initial state that meets the cube.
///
/// It asks for a well-sorted system ([`System::is_well_sorted`]) and a well-sorted cube
/// ([`Cube::is_well_sorted`]). The one error is out of memory.
pub fn root_query(alloc: Global, sys: &System, cube: &Cube) -> Result<Query, AllocError>
    requires sys { IsSystem sys.now }
    requires cube { IsCube sys.now.sig cube.now }
    ensures query { IfOk result (λ q. q ≡ root_query_of sys.now cube.now) }
    ensures sorted { IfOk result (IsQuery sys.now.sig) }
    ensures meaning { IfOk result (λ q. (w : World) → MeetsQuery sys.now.sig q w ↔ IsRoot sys.now cube.now w) }
    ensures rises { IfOk result (λ q. (numbers : List ℕ) → Rises (SortEdge sys.now Infer) sys.now.sig.sorts numbers → Rises (ClaimsEdge sys.now.sig q.claims) sys.now.sig.sorts numbers) }
{
    Ok(Query {
        copies: 1,
        claims: claims_of_root(alloc, sys, cube)?,
    })
}

/// The query of a step from the frame to a state that meets the cube. Without a frame it is a step
/// from an initial state.
///
/// It asks for a well-sorted system ([`System::is_well_sorted`]) and well-sorted cubes
/// ([`Cube::is_well_sorted`]). The one error is out of memory, which is also answered where a
/// transition's parameters and a symbol's arguments together are 2^32 or more.
pub fn before_query(
    alloc: Global,
    sys: &System,
    frame: Option<&[Cube]>,
    cube: &Cube,
) -> Result<Query, AllocError>
    requires sys { IsSystem sys.now }
    requires frame { IsFrame sys.now.sig (option_map (λ cubes. cubes.now) frame) }
    requires cube { IsCube sys.now.sig cube.now }
    ensures query { IfOk result (λ q. q ≡ before_query_of sys.now (option_map (λ cubes. cubes.now) frame.entry) cube.now) }
    ensures sorted { IfOk result (IsQuery sys.now.sig) }
    ensures meaning { IfOk result (λ q. (w : World) → MeetsQuery sys.now.sig q w ↔ IsStepInto sys.now (option_map (λ cubes. cubes.now) frame.entry) cube.now w) }
    ensures rises { IfOk result (λ q. (numbers : List ℕ) → Rises (SortEdge sys.now Infer) sys.now.sig.sorts numbers → Rises (ClaimsEdge sys.now.sig q.claims) sys.now.sig.sorts numbers) }
{
    Ok(Query {
        copies: 2,
        claims: claims_of_before(alloc, sys, frame, cube)?,
    })
}
