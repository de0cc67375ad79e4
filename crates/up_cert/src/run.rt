ghost use Rattle.std.specs.Prelude.{◌≡◌, ◌↔◌, ◌+◌, ◌<◌, ℕ, length, IsNone, IfSome, MatchOption};
ghost use Rattle.fo_core.specs.Runs.{IsStep, IsViolatingRun};
ghost use Rattle.fo_eval.specs.Asked.{CanJudge};
ghost use Rattle.up_cert.specs.Spots.{AreStates, AreSteps, FirstNoState, IsFirstSpot};

use crate::spot::{Spot, What};
use fo_core::{System, World};
use fo_eval::{Env, is_initial, is_state, is_step, violates};

/// The first copy that is no state.
fn first_no_state(sys: &System, w: &World, env: &mut Env) -> Option<u32>
    requires { CanJudge sys.now w.now 0 env.old }
    ensures first { MatchOption result (AreStates sys.now w.now (length w.now.copies)) (FirstNoState sys.now w.now) }
    ensures same { env.new ≡ env.old }
{
    'each: for k in 0..w.copies.len() as u32 {
        if !is_state(sys, w, k, env) {
            return Some(k);
        }
    }
    None
}

/// The first copy that doesn't step to the next one.
fn first_no_step(sys: &System, w: &World, env: &mut Env) -> Option<u32>
    requires { CanJudge sys.now w.now 0 env.old }
    ensures first { MatchOption result ((c : ℕ) → c + 1 < length w.now.copies → IsStep sys.now w.now c) (λ k. (k + 1 < length w.now.copies) × (¬ IsStep sys.now w.now k) × AreSteps sys.now w.now k) }
    ensures same { env.new ≡ env.old }
{
    'each: for k in 0..w.copies.len() as u32 - 1 {
        if is_step(sys, w, k, env).is_none() {
            return Some(k);
        }
    }
    None
}

/// Judges whether the world is a violating run of the system, without a solver: None where it is,
/// else the first spot that fails, in this order: each copy is a state, copy 0 is initial, each copy
/// but the last steps to the next one, the last copy violates a safety.
///
/// It asks for a well-sorted system, a world that fits its signature and has fewer than 2^32 copies,
/// and an empty environment with room for the deepest formula, which it leaves empty. It takes no
/// memory.
pub fn judge_run(sys: &System, w: &World, env: &mut Env) -> Option<Spot>
    requires { CanJudge sys.now w.now 0 env.old }
    ensures holds { IsNone result ↔ IsViolatingRun sys.now w.now }
    ensures first { IfSome result (IsFirstSpot sys.now w.now) }
    ensures same { env.new ≡ env.old }
{
    if let Some(number) = first_no_state(sys, w, env) {
        return Some(Spot {
            what: What::State,
            number,
        });
    }
    if !is_initial(sys, w, 0, env) {
        return Some(Spot {
            what: What::Init,
            number: 0,
        });
    }
    if let Some(number) = first_no_step(sys, w, env) {
        return Some(Spot {
            what: What::Step,
            number,
        });
    }
    let last = w.copies.len() as u32 - 1;
    if violates(sys, w, last, env).is_none() {
        return Some(Spot {
            what: What::Safety,
            number: 0,
        });
    }
    None
}
