ghost use Rattle.std.specs.Prelude.{◌≡◌, ◌↔◌, IsTrue};
ghost use Rattle.std.specs.List.{All};
ghost use Rattle.fo_core.specs.Sorted.{IsSig};
ghost use Rattle.up_diagram.specs.Cubes.{IsCube};
ghost use Rattle.up_jobs.specs.Solving.{HasCube, HasParts, HasState, IsReady};

use fo_core::{Sig, World};
use up_diagram::{Cube, has_few_elements};
use up_machine::{Brief, Job};

/// Whether the cubes are well-sorted.
fn are_well_sorted(sig: &Sig, cubes: &[Cube]) -> bool
    ensures { IsTrue result ↔ All (IsCube sig.now) cubes.now }
{
    'each: for cube in cubes {
        if !cube.is_well_sorted(sig) {
            return false;
        }
    }
    true
}

/// Whether there is a world, whose copy 0 may be described.
fn has_state(sig: &Sig, world: &Option<World>) -> bool
    requires { IsSig sig.now }
    ensures { IsTrue result ↔ HasState sig.now world.now }
{
    match world {
        Some(world) => world.fits(sig) && has_few_elements(world),
        None => false,
    }
}

/// Whether there is a cube, and it is well-sorted.
fn has_cube(sig: &Sig, cube: &Option<Cube>) -> bool
    ensures { IsTrue result ↔ HasCube sig.now cube.now }
{
    match cube {
        Some(cube) => cube.is_well_sorted(sig),
        None => false,
    }
}

/// Whether the brief has what its job needs.
fn has_parts(sig: &Sig, brief: &Brief) -> bool
    requires { IsSig sig.now }
    ensures { IsTrue result ↔ HasParts sig.now brief.now.job brief.now }
{
    match brief.job {
        Job::Look => true,
        Job::Work(_) => brief.level >= 1 && has_state(sig, &brief.world),
        Job::Push(_) => has_cube(sig, &brief.cube),
        Job::Trace(_) => brief.level < u32::MAX,
    }
}

/// Whether the brief can be solved: its cubes are well-sorted, and it has what its job needs. That
/// is of a work a level of at least 1 and a world that fits the signature and has fewer than 2^32
/// elements in all; of a push the clause's cube; of a trace fewer than 2^32 - 1 steps. It takes no
/// memory.
///
/// The signature has to be well-sorted.
pub fn is_ready(sig: &Sig, brief: &Brief) -> bool
    requires { IsSig sig.now }
    ensures { IsTrue result ↔ IsReady sig.now brief.now }
{
    if !are_well_sorted(sig, brief.frame.as_slice()) {
        return false;
    }
    if !are_well_sorted(sig, brief.avoid.as_slice()) {
        return false;
    }
    has_parts(sig, brief)
}
