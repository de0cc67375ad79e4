//! One call of `block`, and how many queries it asks.
ghost use Rattle.up_claims.specs.Inferring.{CanInfer};
ghost use Rattle.std.specs.Prelude.{◌≤◌, option_map};
ghost use Rattle.std.specs.List.{All};
ghost use Rattle.up_claims.specs.Frames.{IsFrame};
ghost use Rattle.up_diagram.specs.Cubes.{IsCube};

use crate::counting::Counting;
use crate::plain::plain_pass;
use crate::problem::Problem;
use fo_core::{MOST_WEIGHT, World};
use fo_solve::Engine;
use std::alloc::Global;
use up_block::{Blocking, block};
use up_diagram::{Cube, claim, diagram, has_few_elements};

/// A state that is to be blocked.
#[derive(Drop)]
pub struct Obligation {
    /// A world whose copy 0 it is.
    pub world: World,
    pub level: u32,
}

/// What a pass over the literals asked.
#[derive(Debug, Clone, Copy)]
pub struct Passed {
    /// How many literals it kept.
    pub kept: usize,
    pub asked: u64,
    /// How many queries it would ask if it kept no worlds.
    pub list: u64,
}

/// What a call of `block` asked.
#[derive(Debug, Clone, Copy)]
pub struct Asked {
    pub level: u32,
    /// How many literals the diagram of the state has.
    pub literals: usize,
    /// How many queries it asked in all.
    pub asked: u64,
    /// Of these, the queries of the pass, where the diagram is blocked.
    pub passed: Option<Passed>,
}

/// A finder that counts.
fn counting() -> Counting<Engine> {
    Counting::new(Engine::new(MOST_WEIGHT))
}

/// Whether the cubes are the same.
fn is_same(alloc: Global, problem: &Problem, c: &Cube, d: &Cube) -> anyhow::Result<bool> {
    let sig = &problem.sys.sig;
    anyhow::ensure!(
        c.is_well_sorted(sig) && d.is_well_sorted(sig),
        "not well-sorted"
    );
    Ok(claim(alloc, sig, c, 0)?.same(&claim(alloc, sig, d, 0)?))
}

/// How many queries a pass that keeps no worlds asks. It has to leave the same cube.
fn list(
    alloc: Global,
    problem: &Problem,
    below: &[Cube],
    level: u32,
    cube: Cube,
    left: &Cube,
) -> anyhow::Result<u64>
    requires infer { CanInfer problem.now.sys problem.now.order }
    requires cubes { All (IsCube problem.now.sys.sig) below.now }
{
    let mut finder = counting();
    let rest = if level == 1 {
        plain_pass(alloc, &mut finder, problem, None, cube)?
    } else {
        plain_pass(alloc, &mut finder, problem, Some(below), cube)?
    };
    anyhow::ensure!(is_same(alloc, problem, &rest, left)?, "the passes differ");
    Ok(finder.asked())
}

/// Blocks a state against the frame below its level.
pub fn block_counted(
    alloc: Global,
    problem: &Problem,
    below: &[Cube],
    obligation: &Obligation,
) -> anyhow::Result<(Blocking, Asked)>
    requires { CanInfer problem.now.sys problem.now.order }
{
    let Problem { sys, order } = problem;
    let Obligation { world, level } = obligation;
    let level = *level;
    anyhow::ensure!(
        below.iter().all(|cube| cube.is_well_sorted(&sys.sig)),
        "not well-sorted"
    );
    anyhow::ensure!(level >= 1, "no frame is below");
    anyhow::ensure!(world.fits(&sys.sig) && !world.copies.is_empty(), "no state");
    anyhow::ensure!(has_few_elements(world), "too many elements");
    let mut finder = counting();
    let blocking = block(alloc, &mut finder, sys, order, below, level, world, 0)?;
    let asked = finder.asked();
    let cube = diagram(alloc, &sys.sig, world, 0)?;
    let literals = cube.lits.len();
    let passed = match &blocking {
        Blocking::Blocked(left) => Some(Passed {
            kept: left.lits.len(),
            // The whole cube's two queries come before the pass.
            asked: asked.saturating_sub(2),
            list: list(alloc, problem, below, level, cube, left)?,
        }),
        _ => None,
    };
    Ok((
        blocking,
        Asked {
            level,
            literals,
            asked,
            passed,
        },
    ))
}
