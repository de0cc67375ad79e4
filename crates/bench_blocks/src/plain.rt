//! A pass over the literals of a cube that asks anew for each literal.
ghost use Rattle.up_claims.specs.Inferring.{CanInfer};
ghost use Rattle.std.specs.Prelude.{option_map};
ghost use Rattle.up_claims.specs.Frames.{IsFrame};
ghost use Rattle.fo_core.specs.Finds.{CanSearch};

use crate::problem::Problem;
use fo_core::{Finder, Found, Query};
use std::alloc::Global;
use up_claims::{before_query, root_query};
use up_diagram::{Cube, without};

/// Whether no world meets the query.
fn has_none<F: Finder>(
    alloc: Global,
    f: &mut F,
    problem: &Problem,
    q: &Query,
) -> anyhow::Result<bool>
    requires { CanSearch problem.now.sys problem.now.order q.now }
{
    match f.find(alloc, &problem.sys, &problem.order, q)? {
        Found::Model(_) => Ok(false),
        Found::Nothing => Ok(true),
        Found::Over(weight) => anyhow::bail!("a query weighs {weight}"),
    }
}

/// Whether no initial state meets the cube and no step from the frame leads into it.
fn is_blocked<F: Finder>(
    alloc: Global,
    f: &mut F,
    problem: &Problem,
    frame: Option<&[Cube]>,
    cube: &Cube,
) -> anyhow::Result<bool>
    requires infer { CanInfer problem.now.sys problem.now.order }
    requires cubes { IsFrame problem.now.sys.sig (option_map (λ cubes. cubes.now) frame) }
{
    anyhow::ensure!(cube.is_well_sorted(&problem.sys.sig), "not well-sorted");
    let root = root_query(alloc, &problem.sys, cube)?;
    if !has_none(alloc, f, problem, &root)? {
        return Ok(false);
    }
    let before = before_query(alloc, &problem.sys, frame, cube)?;
    has_none(alloc, f, problem, &before)
}

/// The cube without this literal.
fn less(alloc: Global, cube: &Cube, lit: u32) -> anyhow::Result<Cube> {
    anyhow::ensure!(cube.has_places(), "no places");
    anyhow::ensure!((lit as usize) < cube.lits.len(), "no such literal");
    Ok(without(alloc, cube, lit)?)
}

/// What one pass over the literals leaves of a blocked cube.
pub fn plain_pass<F: Finder>(
    alloc: Global,
    f: &mut F,
    problem: &Problem,
    frame: Option<&[Cube]>,
    cube: Cube,
) -> anyhow::Result<Cube>
    requires infer { CanInfer problem.now.sys problem.now.order }
    requires cubes { IsFrame problem.now.sys.sig (option_map (λ cubes. cubes.now) frame) }
{
    let count = cube.lits.len();
    let mut rest = cube;
    let mut kept: u32 = 0;
    for _ in 0..count {
        let less = less(alloc, &rest, kept)?;
        if is_blocked(alloc, f, problem, frame, &less)? {
            rest = less;
        } else {
            kept = kept.saturating_add(1);
        }
    }
    Ok(rest)
}
