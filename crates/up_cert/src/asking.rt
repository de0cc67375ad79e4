//! What is decided by queries.

ghost use Rattle.std.specs.Prelude.{◌≡◌, ◌+◌, ◌-◌, ◌<◌, ◌^◌, [], ◌∷◌, option_map, IfOk};
ghost use Rattle.std.specs.List.{All};
ghost use Rattle.fo_core.specs.Finds.{CanSearch, HasNoWorld};
ghost use Rattle.up_claims.specs.Blocked.{NoInitial, NoStep, NoSeed};
ghost use Rattle.up_claims.specs.Frames.{IsFrame};
ghost use Rattle.up_claims.specs.Inferring.{CanInfer};
ghost use Rattle.up_claims.specs.InferQueries.{seed_query as seed_query_of, root_query as root_query_of};
ghost use Rattle.up_claims.specs.InferQueries.{before_query as before_query_of};
ghost use Rattle.up_claims.specs.RunQueries.{run_query, run_queries, HasNoRunOf};
ghost use Rattle.up_claims.specs.Verdicts.{HasNoRunWithin};
ghost use Rattle.up_diagram.specs.Cubes.{IsCube};
ghost use Rattle.up_cert.specs.Trying.{IsAnswered, IsTried};

use crate::answer::Answer;
use fo_core::{Finder, Found, Order, Query, System};
use std::alloc::{AllocError, Global};
use up_claims::{before_query, root_query, seed_query, unroll_query};
use up_diagram::Cube;

/// Asks whether no world meets the query.
fn ask<F: Finder>(
    alloc: Global,
    f: &mut F,
    sys: &System,
    order: &Order,
    query: &Query,
) -> Result<Answer, AllocError>
    requires search { CanSearch sys.now order.now query.now }
    ensures answered { IfOk result (IsAnswered sys.now.sig (F.limit f.old)
        (HasNoWorld sys.now.sig query.now) query.now) }
    ensures limit { F.limit f.new ≡ F.limit f.old }
{
    match f.find(alloc, sys, order, query)? {
        Found::Nothing => Ok(Answer::Passes),
        Found::Model(_) => Ok(Answer::Fails),
        Found::Over(weight) => Ok(Answer::Over(weight)),
    }
}

/// Asks whether no initial state meets the cube.
pub fn try_initial<F: Finder>(
    alloc: Global,
    f: &mut F,
    sys: &System,
    order: &Order,
    cube: &Cube,
) -> Result<Answer, AllocError>
    requires infer { CanInfer sys.now order.now }
    requires cube { IsCube sys.now.sig cube.now }
    ensures tried { IfOk result (IsTried sys.now.sig (F.limit f.old)
        (NoInitial sys.now cube.now) (root_query_of sys.now cube.now ∷ [])) }
    ensures limit { F.limit f.new ≡ F.limit f.old }
{
    let query = root_query(alloc, sys, cube)?;
    ask(alloc, f, sys, order, &query)
}

/// Asks whether no step leads from the frame into the cube.
pub fn try_step<F: Finder>(
    alloc: Global,
    f: &mut F,
    sys: &System,
    order: &Order,
    frame: Option<&[Cube]>,
    cube: &Cube,
) -> Result<Answer, AllocError>
    requires infer { CanInfer sys.now order.now }
    requires frame { IsFrame sys.now.sig (option_map (λ cubes. cubes.now) frame) }
    requires cube { IsCube sys.now.sig cube.now }
    ensures tried { IfOk result (IsTried sys.now.sig (F.limit f.old)
        (NoStep sys.now (option_map (λ cubes. cubes.now) frame.entry) cube.now)
        (before_query_of sys.now (option_map (λ cubes. cubes.now) frame.entry) cube.now ∷ [])) }
    ensures limit { F.limit f.new ≡ F.limit f.old }
{
    let query = before_query(alloc, sys, frame, cube)?;
    ask(alloc, f, sys, order, &query)
}

/// Asks whether no state of the frame violates a safety.
pub fn try_seed<F: Finder>(
    alloc: Global,
    f: &mut F,
    sys: &System,
    order: &Order,
    frame: &[Cube],
) -> Result<Answer, AllocError>
    requires infer { CanInfer sys.now order.now }
    requires frame { All (IsCube sys.now.sig) frame.now }
    ensures tried { IfOk result (IsTried sys.now.sig (F.limit f.old)
        (NoSeed sys.now frame.now []) (seed_query_of sys.now frame.now [] ∷ [])) }
    ensures limit { F.limit f.new ≡ F.limit f.old }
{
    let query = seed_query(alloc, sys, frame, &[])?;
    ask(alloc, f, sys, order, &query)
}

/// Asks whether no violating run has so many steps.
fn try_run<F: Finder>(
    alloc: Global,
    f: &mut F,
    sys: &System,
    order: &Order,
    steps: u32,
) -> Result<Answer, AllocError>
    requires infer { CanInfer sys.now order.now }
    requires few { steps < 2 ^ 32 - 1 }
    ensures answered { IfOk result (IsAnswered sys.now.sig (F.limit f.old)
        (HasNoRunOf sys.now steps) (run_query sys.now steps)) }
    ensures limit { F.limit f.new ≡ F.limit f.old }
{
    let query = unroll_query(alloc, sys, steps)?;
    ask(alloc, f, sys, order, &query)
}

/// Asks whether no violating run has at most so many steps, of fewer steps first.
pub fn try_runs<F: Finder>(
    alloc: Global,
    f: &mut F,
    sys: &System,
    order: &Order,
    steps: u32,
) -> Result<Answer, AllocError>
    requires infer { CanInfer sys.now order.now }
    requires few { steps < 2 ^ 32 - 1 }
    ensures tried { IfOk result (IsTried sys.now.sig (F.limit f.old)
        (HasNoRunWithin sys.now steps) (run_queries sys.now (steps + 1))) }
    ensures limit { F.limit f.new ≡ F.limit f.old }
{
    'each: for k in 0..steps + 1 {
        match try_run(alloc, f, sys, order, k)? {
            Answer::Passes => {}
            Answer::Fails => return Ok(Answer::Fails),
            Answer::Over(weight) => return Ok(Answer::Over(weight)),
        }
    }
    Ok(Answer::Passes)
}
