ghost use Rattle.std.specs.Prelude.{◌≡◌, ◌↔◌, [], IsTrue, MatchOption};
ghost use Rattle.std.specs.List.{All};
ghost use Rattle.fo_core.specs.Tables.{IsReadable};
ghost use Rattle.fo_core.specs.Truth.{Truth};
ghost use Rattle.fo_core.specs.Runs.{IsState, IsInitial};
ghost use Rattle.fo_eval.specs.Asked.{CanJudge, CanTell, IsFirstFalse};

use crate::env::Env;
use crate::eval::holds;
use fo_core::{Formula, System, World};

/// The first of these closed formulas that is false in the copy.
fn first_false(sys: &System, w: &World, copy: u32, env: &mut Env, fs: &[Formula]) -> Option<usize>
    requires readable { IsReadable sys.now.sig w.now }
    requires ready { CanTell sys.now.sig w.now copy env.old fs.now }
    ensures first { MatchOption result (All (λ f. Truth sys.now.sig w.now copy f []) fs.now) (λ k. IsFirstFalse sys.now.sig w.now copy fs.now k) }
    ensures same { env.new ≡ env.old }
{
    'each: for (i, f) in fs.iter().enumerate() {
        if !holds(sys, w, copy, env, f) {
            return Some(i);
        }
    }
    None
}

/// Whether these closed formulas are all true in the copy.
fn all_hold(sys: &System, w: &World, copy: u32, env: &mut Env, fs: &[Formula]) -> bool
    requires readable { IsReadable sys.now.sig w.now }
    requires ready { CanTell sys.now.sig w.now copy env.old fs.now }
    ensures truth { IsTrue result ↔ All (λ f. Truth sys.now.sig w.now copy f []) fs.now }
    ensures same { env.new ≡ env.old }
{
    first_false(sys, w, copy, env, fs).is_none()
}

/// Whether the copy is a state: all axioms are true there. It takes no memory.
pub fn is_state(sys: &System, w: &World, copy: u32, env: &mut Env) -> bool
    requires { CanJudge sys.now w.now copy env.old }
    ensures truth { IsTrue result ↔ IsState sys.now w.now copy }
    ensures same { env.new ≡ env.old }
{
    all_hold(sys, w, copy, env, sys.axioms.as_slice())
}

/// Whether the copy is an initial state: a state in which all inits are true. It takes no memory.
pub fn is_initial(sys: &System, w: &World, copy: u32, env: &mut Env) -> bool
    requires { CanJudge sys.now w.now copy env.old }
    ensures truth { IsTrue result ↔ IsInitial sys.now w.now copy }
    ensures same { env.new ≡ env.old }
{
    is_state(sys, w, copy, env) && all_hold(sys, w, copy, env, sys.inits.as_slice())
}

/// The number of the first safety that is false in the copy, or None where all are true. It takes
/// no memory.
pub fn violates(sys: &System, w: &World, copy: u32, env: &mut Env) -> Option<u32>
    requires { CanJudge sys.now w.now copy env.old }
    ensures first { MatchOption result (All (λ f. Truth sys.now.sig w.now copy f []) sys.now.safeties) (λ k. IsFirstFalse sys.now.sig w.now copy sys.now.safeties k) }
    ensures same { env.new ≡ env.old }
{
    let first = first_false(sys, w, copy, env, sys.safeties.as_slice())?;
    Some(first as u32)
}
