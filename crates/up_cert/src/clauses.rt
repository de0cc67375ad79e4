//! What the clauses of a verdict are asked for, one after the other.

ghost use Rattle.std.specs.Prelude.{◌≡◌, ◌-◌, ◌<◌, ◌^◌, [], ◌∷◌, Some, length, IfOk, OnOk};
ghost use Rattle.std.specs.List.{All};
ghost use Rattle.up_claims.specs.Blocked.{NoInitial, NoStep, NoSeed};
ghost use Rattle.up_claims.specs.Inferring.{CanInfer};
ghost use Rattle.up_claims.specs.InferQueries.{root_query, before_query, seed_query};
ghost use Rattle.up_claims.specs.Verdicts.{cubes_of as cubes_of_clauses, cubes_from, frame_below};
ghost use Rattle.up_diagram.specs.Cubes.{IsCube};
ghost use Rattle.up_cert.specs.Clauses.{AreClauses, IsFrameAt};
ghost use Rattle.up_cert.specs.Trying.{Halts, IsTried};
ghost use Rattle.up_cert.specs.VerdictSpots.{clause_at};

use crate::answer::{Answer, Halt};
use crate::asking::{try_initial, try_seed, try_step};
use fo_core::{Finder, Order, Seq, System};
use std::alloc::{AllocError, Global};
use up_claims::Kept;
use up_diagram::Cube;

/// Copies of the cubes of the clauses.
pub fn cubes_of(alloc: Global, clauses: &[Kept]) -> Result<Seq<Cube>, AllocError>
    ensures { IfOk result (λ cubes. cubes ≡ cubes_of_clauses clauses.now) }
{
    let mut cubes = Seq::new(alloc);
    'each: for kept in clauses {
        cubes.push(kept.cube.copy(alloc)?)?;
    }
    Ok(cubes)
}

/// Copies of the cubes of the clauses of at least this level.
fn frame_of(alloc: Global, clauses: &[Kept], level: u32) -> Result<Seq<Cube>, AllocError>
    ensures { IfOk result (λ cubes. cubes ≡ cubes_from clauses.now level) }
{
    let mut cubes = Seq::new(alloc);
    'each: for kept in clauses {
        if kept.level >= level {
            cubes.push(kept.cube.copy(alloc)?)?;
        }
    }
    Ok(cubes)
}

/// The clause of this number.
pub fn clause_of(clauses: &[Kept], k: u32) -> &Kept
    requires { k < length clauses.now }
    ensures { result.now ≡ clause_at clauses.now k }
{
    &clauses[k as usize]
}

/// Asks of each clause whether no initial state meets its cube.
pub fn first_initial<F: Finder>(
    alloc: Global,
    f: &mut F,
    sys: &System,
    order: &Order,
    clauses: &[Kept],
) -> Result<Option<Halt>, AllocError>
    requires infer { CanInfer sys.now order.now }
    requires clauses { AreClauses sys.now.sig clauses.now }
    ensures halts { IfOk result (Halts sys.now.sig (F.limit f.old)
        (λ k. NoInitial sys.now (clause_at clauses.now k).cube)
        (λ k. root_query sys.now (clause_at clauses.now k).cube ∷ [])
        (length clauses.now)) }
    ensures limit { F.limit f.new ≡ F.limit f.old }
{
    'each: for k in 0..clauses.len() as u32 {
        let kept = clause_of(clauses, k);
        match try_initial(alloc, f, sys, order, &kept.cube)? {
            Answer::Passes => {}
            Answer::Fails => return Ok(Some(Halt::Fails(k))),
            Answer::Over(weight) => return Ok(Some(Halt::Over(weight))),
        }
    }
    Ok(None)
}

/// Asks of each clause whether no step leads into its cube from a state that meets none of these
/// cubes.
pub fn first_step<F: Finder>(
    alloc: Global,
    f: &mut F,
    sys: &System,
    order: &Order,
    cubes: &[Cube],
    clauses: &[Kept],
) -> Result<Option<Halt>, AllocError>
    requires infer { CanInfer sys.now order.now }
    requires cubes { All (IsCube sys.now.sig) cubes.now }
    requires clauses { AreClauses sys.now.sig clauses.now }
    ensures halts { IfOk result (Halts sys.now.sig (F.limit f.old)
        (λ k. NoStep sys.now (Some cubes.now) (clause_at clauses.now k).cube)
        (λ k. before_query sys.now (Some cubes.now) (clause_at clauses.now k).cube ∷ [])
        (length clauses.now)) }
    ensures limit { F.limit f.new ≡ F.limit f.old }
{
    'each: for k in 0..clauses.len() as u32 {
        let kept = clause_of(clauses, k);
        match try_step(alloc, f, sys, order, Some(cubes), &kept.cube)? {
            Answer::Passes => {}
            Answer::Fails => return Ok(Some(Halt::Fails(k))),
            Answer::Over(weight) => return Ok(Some(Halt::Over(weight))),
        }
    }
    Ok(None)
}

/// The cubes of a frame, which are copied once for clauses of one level that follow each other.
#[derive(Drop)]
struct Frame {
    level: u32,
    cubes: Seq<Cube>,
}

impl Frame {
    /// The frame of this number.
    fn new(alloc: Global, clauses: &[Kept], level: u32) -> Result<Frame, AllocError>
        ensures { IfOk result (IsFrameAt clauses.now) }
    {
        Ok(Frame {
            level,
            cubes: frame_of(alloc, clauses, level)?,
        })
    }

    /// Becomes the frame of this number.
    fn turn(&mut self, alloc: Global, clauses: &[Kept], level: u32) -> Result<(), AllocError>
        requires { IsFrameAt clauses.now self.old }
        ensures turned { OnOk result (self.new.cubes ≡ cubes_from clauses.now level) }
        ensures frame { OnOk result (IsFrameAt clauses.now self.new) }
    {
        if self.level != level {
            self.cubes = frame_of(alloc, clauses, level)?;
            self.level = level;
        }
        Ok(())
    }
}

/// Asks whether no step leads from the frame below the clause's level into its cube.
fn try_step_below<F: Finder>(
    alloc: Global,
    f: &mut F,
    sys: &System,
    order: &Order,
    clauses: &[Kept],
    frame: &mut Frame,
    kept: &Kept,
) -> Result<Answer, AllocError>
    requires infer { CanInfer sys.now order.now }
    requires clauses { AreClauses sys.now.sig clauses.now }
    requires cube { IsCube sys.now.sig kept.now.cube }
    requires frame { IsFrameAt clauses.now frame.old }
    ensures tried { IfOk result (IsTried sys.now.sig (F.limit f.old)
        (NoStep sys.now (frame_below clauses.now kept.now) kept.now.cube)
        (before_query sys.now (frame_below clauses.now kept.now) kept.now.cube ∷ [])) }
    ensures limit { F.limit f.new ≡ F.limit f.old }
    ensures frame { OnOk result (IsFrameAt clauses.now frame.new) }
{
    if kept.level <= 1 {
        return try_step(alloc, f, sys, order, None, &kept.cube);
    }
    frame.turn(alloc, clauses, kept.level - 1)?;
    try_step(
        alloc,
        f,
        sys,
        order,
        Some(frame.cubes.as_slice()),
        &kept.cube,
    )
}

/// Asks of each clause whether no step leads into its cube from the frame below its level, with the
/// cubes of a frame at hand.
fn first_step_from<F: Finder>(
    alloc: Global,
    f: &mut F,
    sys: &System,
    order: &Order,
    clauses: &[Kept],
    frame: &mut Frame,
) -> Result<Option<Halt>, AllocError>
    requires infer { CanInfer sys.now order.now }
    requires clauses { AreClauses sys.now.sig clauses.now }
    requires frame { IsFrameAt clauses.now frame.old }
    ensures halts { IfOk result (Halts sys.now.sig (F.limit f.old)
        (λ k. NoStep sys.now (frame_below clauses.now (clause_at clauses.now k))
        (clause_at clauses.now k).cube)
        (λ k. before_query sys.now (frame_below clauses.now (clause_at clauses.now k))
        (clause_at clauses.now k).cube ∷ [])
        (length clauses.now)) }
    ensures limit { F.limit f.new ≡ F.limit f.old }
{
    'each: for k in 0..clauses.len() as u32 {
        let kept = clause_of(clauses, k);
        match try_step_below(alloc, f, sys, order, clauses, frame, kept)? {
            Answer::Passes => {}
            Answer::Fails => return Ok(Some(Halt::Fails(k))),
            Answer::Over(weight) => return Ok(Some(Halt::Over(weight))),
        }
    }
    Ok(None)
}

/// Asks of each clause whether no step leads into its cube from the frame below its level.
pub fn first_step_below<F: Finder>(
    alloc: Global,
    f: &mut F,
    sys: &System,
    order: &Order,
    clauses: &[Kept],
) -> Result<Option<Halt>, AllocError>
    requires infer { CanInfer sys.now order.now }
    requires clauses { AreClauses sys.now.sig clauses.now }
    ensures halts { IfOk result (Halts sys.now.sig (F.limit f.old)
        (λ k. NoStep sys.now (frame_below clauses.now (clause_at clauses.now k))
        (clause_at clauses.now k).cube)
        (λ k. before_query sys.now (frame_below clauses.now (clause_at clauses.now k))
        (clause_at clauses.now k).cube ∷ [])
        (length clauses.now)) }
    ensures limit { F.limit f.new ≡ F.limit f.old }
{
    let mut frame = Frame::new(alloc, clauses, 1)?;
    first_step_from(alloc, f, sys, order, clauses, &mut frame)
}

/// Asks whether no state of the frame of this number, of at least 1, violates a safety.
pub fn try_frame<F: Finder>(
    alloc: Global,
    f: &mut F,
    sys: &System,
    order: &Order,
    clauses: &[Kept],
    level: u32,
) -> Result<Answer, AllocError>
    requires infer { CanInfer sys.now order.now }
    requires clauses { AreClauses sys.now.sig clauses.now }
    ensures tried { IfOk result (IsTried sys.now.sig (F.limit f.old)
        (NoSeed sys.now (cubes_from clauses.now level) [])
        (seed_query sys.now (cubes_from clauses.now level) [] ∷ [])) }
    ensures limit { F.limit f.new ≡ F.limit f.old }
{
    let frame = frame_of(alloc, clauses, level)?;
    try_seed(alloc, f, sys, order, frame.as_slice())
}
