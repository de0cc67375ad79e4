//! What the steps show by which frames are left.

ghost use Rattle.std.specs.Prelude.{◌≡◌, ◌↔◌, ◌+◌, ◌<◌, ◌≤◌, ◌^◌, Some, length, IsTrue, IfOk};
ghost use Rattle.std.specs.List.{All};
ghost use Rattle.fo_core.specs.Sorted.{IsSig};
ghost use Rattle.fo_core.specs.Tables.{IsReadable};
ghost use Rattle.up_claims.specs.declared.verdict.Leave.{Leave as LeaveOf};
ghost use Rattle.up_claims.specs.declared.verdict.Verdict.TheVariants.{Bounded};
ghost use Rattle.up_claims.specs.Finding.{IsStepInto};
ghost use Rattle.up_claims.specs.Frames.{Avoids};
ghost use Rattle.up_claims.specs.Verdicts.{cubes_from, IsLeave};
ghost use Rattle.up_diagram.specs.Cubes.{IsCube, Meets};
ghost use Rattle.up_diagram.specs.Trying.{CanMeet};
ghost use Rattle.up_cert.specs.Asked.{CanLook};
ghost use Rattle.up_cert.specs.Clauses.{AreClauses, IsExcluded};
ghost use Rattle.up_cert.specs.Trying.{Looks};
ghost use Rattle.up_cert.specs.VerdictSpots.{leave_at, leaves_to};

use crate::clauses::clause_of;
use crate::spot::{Spot, What};
use fo_core::{Sig, System, World};
use fo_eval::{Env, is_step};
use std::alloc::{AllocError, Global};
use up_claims::{Kept, Leave};
use up_diagram::{Cube, Picks, meets};

/// Whether the copy meets the cube.
fn meets_cube(
    alloc: Global,
    sig: &Sig,
    w: &World,
    copy: u32,
    cube: &Cube,
) -> Result<bool, AllocError>
    requires meet { CanMeet sig.now w.now copy cube.now }
    ensures { IfOk result (λ b. IsTrue b ↔ Meets sig.now w.now copy cube.now) }
{
    let Ok(room) = u32::try_from(cube.sorts.len()) else {
        return Err(AllocError);
    };
    let mut picks = Picks::new(alloc, room)?;
    Ok(meets(sig, w, copy, cube, &mut picks))
}

/// Whether the clause is of at least this level, and copy 0 meets its cube.
fn is_excluded(
    alloc: Global,
    sys: &System,
    w: &World,
    kept: &Kept,
    level: u32,
) -> Result<bool, AllocError>
    requires sig { IsSig sys.now.sig }
    requires world { IsReadable sys.now.sig w.now }
    requires cube { IsCube sys.now.sig kept.now.cube }
    ensures { IfOk result (λ b. IsTrue b ↔ IsExcluded sys.now w.now level kept.now) }
{
    if kept.level < level {
        return Ok(false);
    }
    meets_cube(alloc, &sys.sig, w, 0, &kept.cube)
}

/// Whether copy 0 meets no cube of a clause of at least this level.
fn is_outside(
    alloc: Global,
    sys: &System,
    w: &World,
    clauses: &[Kept],
    level: u32,
) -> Result<bool, AllocError>
    requires sig { IsSig sys.now.sig }
    requires world { IsReadable sys.now.sig w.now }
    requires clauses { AreClauses sys.now.sig clauses.now }
    ensures { IfOk result (λ b. IsTrue b ↔
        Avoids sys.now.sig w.now 0 (cubes_from clauses.now level)) }
{
    'each: for k in 0..clauses.len() as u32 {
        let kept = clause_of(clauses, k);
        if is_excluded(alloc, sys, w, kept, level)? {
            return Ok(false);
        }
    }
    Ok(true)
}

/// Whether the world is a step from the frame of this number, of at least 1, into the cube.
fn is_step_into(
    alloc: Global,
    sys: &System,
    w: &World,
    clauses: &[Kept],
    level: u32,
    cube: &Cube,
    env: &mut Env,
) -> Result<bool, AllocError>
    requires look { CanLook sys.now env.old }
    requires world { IsReadable sys.now.sig w.now }
    requires clauses { AreClauses sys.now.sig clauses.now }
    requires cube { IsCube sys.now.sig cube.now }
    ensures shown { IfOk result (λ b. IsTrue b ↔
        IsStepInto sys.now (Some (cubes_from clauses.now level)) cube.now w.now) }
    ensures same { env.new ≡ env.old }
{
    if w.copies.len() != 2 {
        return Ok(false);
    }
    if is_step(sys, w, 0, env).is_none() {
        return Ok(false);
    }
    if !is_outside(alloc, sys, w, clauses, level)? {
        return Ok(false);
    }
    meets_cube(alloc, &sys.sig, w, 1, cube)
}

/// Whether the step leaves the frame of this number, of at least 1: it leads from there into the
/// cube of a clause of exactly this level.
fn is_leave(
    alloc: Global,
    sys: &System,
    clauses: &[Kept],
    level: u32,
    leave: &Leave,
    env: &mut Env,
) -> Result<bool, AllocError>
    requires look { CanLook sys.now env.old }
    requires world { IsReadable sys.now.sig leave.now.step }
    requires clauses { AreClauses sys.now.sig clauses.now }
    requires level { 1 ≤ level }
    ensures shown { IfOk result (λ b. IsTrue b ↔ IsLeave sys.now clauses.now level leave.now) }
    ensures same { env.new ≡ env.old }
{
    if leave.level != level {
        return Ok(false);
    }
    let Some(kept) = clauses.get(leave.clause as usize) else {
        return Ok(false);
    };
    if kept.level != level {
        return Ok(false);
    }
    is_step_into(alloc, sys, &leave.step, clauses, level, &kept.cube, env)
}

/// The leave of this number.
fn leave_of(leaves: &[Leave], k: u32) -> &Leave
    requires { k < length leaves.now }
    ensures { result.now ≡ leave_at leaves.now k }
{
    &leaves[k as usize]
}

/// Looks at the steps: the first frame that isn't left by its step.
pub fn first_unleft(
    alloc: Global,
    sys: &System,
    last: u32,
    clauses: &[Kept],
    leaves: &[Leave],
    env: &mut Env,
) -> Result<Option<Spot>, AllocError>
    requires look { CanLook sys.now env.old }
    requires worlds { All (λ (leave : LeaveOf). IsReadable sys.now.sig leave.step) leaves.now }
    requires clauses { AreClauses sys.now.sig clauses.now }
    requires each { length leaves.now ≡ last }
    ensures looks { IfOk result (Looks sys.now (Bounded last clauses.now leaves.now)
        (leaves_to last)) }
    ensures same { env.new ≡ env.old }
{
    'each: for k in 0..last {
        let leave = leave_of(leaves, k);
        if !is_leave(alloc, sys, clauses, k + 1, leave, env)? {
            return Ok(Some(Spot {
                what: What::Leave,
                number: k + 1,
            }));
        }
    }
    Ok(None)
}
