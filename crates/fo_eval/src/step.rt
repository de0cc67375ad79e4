ghost use Rattle.std.specs.Prelude.{◌≡◌, ◌↔◌, ◌+◌, ◌<◌, ◌^◌, [], length, true, IsTrue, MatchOption};
ghost use Rattle.std.specs.List.{Contains};
ghost use Rattle.fo_core.specs.Tables.{IsReadable, symbol_at, table_of};
ghost use Rattle.fo_core.specs.Runs.{KeepsOthers, LeadsOn, IsStep};
ghost use Rattle.fo_eval.specs.Asked.{CanJudge, CanFill, SomeFill, IsFirstStep};

use crate::env::Env;
use crate::eval::holds;
use crate::state::is_state;
use fo_core::{Formula, Sig, Step, System, World};

/// Whether some elements of these sorts make the body true.
fn some_fill(
    sys: &System,
    w: &World,
    copy: u32,
    env: &mut Env,
    params: &[u32],
    body: &Formula,
) -> bool
    requires readable { IsReadable sys.now.sig w.now }
    requires ready { CanFill sys.now.sig w.now copy env.old params.now body.now }
    ensures truth { IsTrue result ↔ SomeFill sys.now.sig w.now copy env.old.bound params.now body.now }
    ensures same { env.new ≡ env.old }
{
    if params.is_empty() {
        return holds(sys, w, copy, env, body);
    }
    let size = *w.sizes.at(params[0] as usize);
    'one: for x in 0..size {
        env.push(x);
        let found = some_fill(sys, w, copy, env, &params[1..], body);
        env.pop();
        if found {
            return true;
        }
    }
    false
}

/// Whether the symbol has one table in the copy and in the next one.
fn keeps(sig: &Sig, w: &World, copy: usize, symbol: usize) -> bool
    requires readable { IsReadable sig.now w.now }
    requires within { symbol < length sig.now.symbols }
    requires next { copy + 1 < length w.now.copies }
    ensures { IsTrue result ↔ (table_of sig.now w.now copy symbol ≡ table_of sig.now w.now (copy + 1) symbol) }
{
    let here = w.table(sig, copy, symbol);
    let there = w.table(sig, copy + 1, symbol);
    here.values.as_slice() == there.values.as_slice()
}

/// Whether every mutable symbol outside the list has one table in the copy and in the next one.
fn keeps_others(sys: &System, w: &World, copy: usize, modifies: &[u32]) -> bool
    requires readable { IsReadable sys.now.sig w.now }
    requires few { length sys.now.sig.symbols < 2 ^ 32 }
    requires next { copy + 1 < length w.now.copies }
    ensures { IsTrue result ↔ KeepsOthers sys.now w.now copy modifies.now }
{
    'each: for k in 0..sys.sig.symbols.len() {
        if sys.sig.symbols.at(k).mutable
            && !modifies.contains(&(k as u32))
            && !keeps(&sys.sig, w, copy, k)
        {
            return false;
        }
    }
    true
}

/// Whether the transition leads from the copy to the next one.
fn leads(sys: &System, w: &World, copy: u32, env: &mut Env, step: &Step) -> bool
    requires readable { IsReadable sys.now.sig w.now }
    requires few { length sys.now.sig.symbols < 2 ^ 32 }
    requires next { copy + 1 < length w.now.copies }
    requires empty { env.old.bound ≡ [] }
    requires ready { CanFill sys.now.sig w.now copy env.old step.now.params step.now.body }
    ensures truth { IsTrue result ↔ LeadsOn sys.now w.now copy step.now }
    ensures same { env.new ≡ env.old }
{
    some_fill(sys, w, copy, env, step.params.as_slice(), &step.body)
        && keeps_others(sys, w, copy as usize, step.modifies.as_slice())
}

/// The number of the first transition by which the copy steps to the next one, or None where none
/// does or one of the two is no state. The next copy has to be there. It takes no memory.
pub fn is_step(sys: &System, w: &World, copy: u32, env: &mut Env) -> Option<u32>
    requires judge { CanJudge sys.now w.now copy env.old }
    requires next { copy + 1 < length w.now.copies }
    ensures first { MatchOption result (¬ IsStep sys.now w.now copy) (λ k. IsFirstStep sys.now w.now copy k) }
    ensures same { env.new ≡ env.old }
{
    if !is_state(sys, w, copy, env) || !is_state(sys, w, copy + 1, env) {
        return None;
    }
    'each: for (i, step) in sys.steps.as_slice().iter().enumerate() {
        if leads(sys, w, copy, env, step) {
            return Some(i as u32);
        }
    }
    None
}
