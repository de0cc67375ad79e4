//! Property-directed reachability in its simplest form: frames, and states that are to be blocked.
ghost use Rattle.up_claims.specs.Inferring.{CanInfer};

use crate::blocks::{Asked, Obligation, block_counted};
use crate::problem::Problem;
use fo_core::{MOST_WEIGHT, World};
use fo_min::Least;
use fo_solve::Engine;
use std::alloc::{AllocError, Global};
use up_block::{Blocking, look};
use up_diagram::Cube;
use up_push::{Pushing, push};

/// How a run ends.
#[derive(Debug, Clone, Copy)]
pub enum End {
    /// No state of the last frame violates a safety.
    Safe,
    /// All clauses of a frame hold one frame further on.
    Invariant,
    /// A violating run was found.
    Unsafe,
}

/// A run of property-directed reachability.
#[derive(Drop)]
pub struct Run {
    /// The cubes of the frames. Frame 0 is the initial states, and has none.
    frames: Vec<Vec<Cube>>,
    /// What is still to be blocked, the lowest level last.
    open: Vec<Obligation>,
    /// What the calls of `block` asked.
    pub asked: Vec<Asked>,
}

/// Adds the cube to the frames from 1 to this level.
fn add(alloc: Global, frames: &mut [Vec<Cube>], level: u32, cube: &Cube) -> Result<(), AllocError> {
    for k in 1..frames.len() {
        if k <= level as usize {
            frames[k].push(cube.copy(alloc)?)?;
        }
    }
    Ok(())
}

/// Whether the clause of the cube holds one frame further on.
fn holds_further(
    alloc: Global,
    problem: &Problem,
    frame: &[Cube],
    cube: &Cube,
) -> anyhow::Result<bool>
    requires { CanInfer problem.now.sys problem.now.order }
{
    let Problem { sys, order } = problem;
    anyhow::ensure!(
        frame.iter().all(|cube| cube.is_well_sorted(&sys.sig)),
        "not well-sorted"
    );
    anyhow::ensure!(cube.is_well_sorted(&sys.sig), "not well-sorted");
    let mut engine = Engine::new(MOST_WEIGHT);
    match push(alloc, &mut engine, sys, order, frame, cube)? {
        Pushing::Holds => Ok(true),
        Pushing::Fails(_) => Ok(false),
        Pushing::Over(_, excess) => anyhow::bail!("a query weighs {}", excess.weight),
    }
}

/// The cubes of the frame whose clauses hold one frame further on.
fn pushed(alloc: Global, problem: &Problem, frame: &[Cube]) -> anyhow::Result<Vec<Cube>>
    requires { CanInfer problem.now.sys problem.now.order }
{
    let mut next = Vec::new(alloc);
    for cube in frame {
        if holds_further(alloc, problem, frame, cube)? {
            next.push(cube.copy(alloc)?)?;
        }
    }
    Ok(next)
}

/// A state of the frame that violates a safety.
fn seed(alloc: Global, problem: &Problem, frame: &[Cube]) -> anyhow::Result<Option<World>>
    requires { CanInfer problem.now.sys problem.now.order }
{
    let Problem { sys, order } = problem;
    anyhow::ensure!(
        frame.iter().all(|cube| cube.is_well_sorted(&sys.sig)),
        "not well-sorted"
    );
    let mut engine = Engine::new(MOST_WEIGHT);
    match look(alloc, &mut engine, sys, order, frame, &[])? {
        Least::Model(world) => Ok(Some(world)),
        Least::Nothing => Ok(None),
        Least::Over(excess) => anyhow::bail!("a query weighs {}", excess.weight),
    }
}

impl Run {
    /// A run with frames 0 and 1, neither of which has cubes.
    pub fn new(alloc: Global) -> Result<Run, AllocError> {
        let mut frames = Vec::new(alloc);
        frames.push(Vec::new(alloc))?;
        frames.push(Vec::new(alloc))?;
        Ok(Run {
            frames,
            open: Vec::new(alloc),
            asked: Vec::new(alloc),
        })
    }

    /// The cubes of the frame of this level.
    fn frame(&self, level: u32) -> anyhow::Result<&[Cube]> {
        match self.frames.get(level as usize) {
            Some(frame) => Ok(frame.as_slice()),
            None => anyhow::bail!("no such frame"),
        }
    }

    /// Blocks a state, or finds what is to be blocked before it.
    fn block(
        &mut self,
        alloc: Global,
        problem: &Problem,
        obligation: Obligation,
    ) -> anyhow::Result<Option<End>>
        requires { CanInfer problem.now.sys problem.now.order }
    {
        let level = obligation.level;
        let below = self.frame(level.saturating_sub(1))?;
        let (blocking, asked) = block_counted(alloc, problem, below, &obligation)?;
        self.asked.push(asked)?;
        match blocking {
            Blocking::Blocked(cube) => add(alloc, &mut self.frames, level, &cube)?,
            Blocking::Step(world) if level > 1 => {
                self.open.push(obligation)?;
                self.open.push(Obligation {
                    world,
                    level: level - 1,
                })?;
            }
            Blocking::Step(_) | Blocking::Initial(_) => return Ok(Some(End::Unsafe)),
            Blocking::Over(_, excess) => anyhow::bail!("a query weighs {}", excess.weight),
        }
        Ok(None)
    }

    /// Looks for a state of the last frame to block, or goes on to the next frame.
    fn look(&mut self, alloc: Global, problem: &Problem, levels: u32) -> anyhow::Result<Option<End>>
        requires { CanInfer problem.now.sys problem.now.order }
    {
        let level = u32::try_from(self.frames.len())?.saturating_sub(1);
        let frame = self.frame(level)?;
        if let Some(world) = seed(alloc, problem, frame)? {
            self.open.push(Obligation { world, level })?;
            return Ok(None);
        }
        if level >= levels {
            return Ok(Some(End::Safe));
        }
        let next = pushed(alloc, problem, frame)?;
        if next.len() == frame.len() {
            return Ok(Some(End::Invariant));
        }
        self.frames.push(next)?;
        Ok(None)
    }

    /// Goes on by one call of `block` or of `look`, up to the frame of this level.
    pub fn step(
        &mut self,
        alloc: Global,
        problem: &Problem,
        levels: u32,
    ) -> anyhow::Result<Option<End>>
        requires { CanInfer problem.now.sys problem.now.order }
    {
        match self.open.pop() {
            Some(obligation) => self.block(alloc, problem, obligation),
            None => self.look(alloc, problem, levels),
        }
    }
}
