ghost use Rattle.std.specs.Prelude.{◌≡◌, ◌↔◌, IsTrue};
ghost use Rattle.fo_core.specs.Tables.{IsReadable};
ghost use Rattle.fo_core.specs.Truth.{Truth};
ghost use Rattle.fo_eval.specs.Asked.{CanHold, AreRelated, IsRelated};

use crate::env::Env;
use crate::term::{place, value};
use fo_core::{Formula, Sig, System, Term, World};

/// Whether the relation holds of the elements that the terms name.
fn related(
    sig: &Sig,
    w: &World,
    copy: usize,
    env: &Env,
    symbol: usize,
    ahead: usize,
    args: &[Term],
) -> bool
    requires readable { IsReadable sig.now w.now }
    requires related { AreRelated sig.now w.now copy env.now.bound symbol ahead args.now }
    ensures { IsTrue result ↔ IsRelated sig.now w.now copy env.now.bound symbol ahead args.now }
{
    let table = w.table(sig, copy + ahead, symbol);
    let _cells = table.values.len();
    let sorts = sig.symbols.at(symbol).args.as_slice();
    let at = place(sig, w, copy, env, sorts, args);
    *table.values.at(at) == 1
}

/// Whether the formula is true, with its copies counted from `copy`, under the values in `env`.
///
/// This is truth in a structure (Tarski, "The Concept of Truth in Formalized Languages", 1933): a
/// quantifier ranges over all elements of its sort. It asks for a world that fits, a formula that is
/// well-sorted under the variables that have values in `env` and speaks of copies that are there, and
/// room in `env` for its own variables. A quantifier stops at the first element that decides it. At
/// exit `env` is as at entry. It takes no memory.
pub fn holds(sys: &System, w: &World, copy: u32, env: &mut Env, f: &Formula) -> bool
    requires readable { IsReadable sys.now.sig w.now }
    requires ready { CanHold sys.now.sig w.now copy env.old f.now }
    ensures truth { IsTrue result ↔ Truth sys.now.sig w.now copy f.now env.old.bound }
    ensures same { env.new ≡ env.old }
{
    match f {
        Formula::True => true,
        Formula::False => false,
        Formula::Rel(r, d, args) => related(
            &sys.sig,
            w,
            copy as usize,
            env,
            *r as usize,
            *d as usize,
            args.as_slice(),
        ),
        Formula::Eq(a, b) => {
            let copy = copy as usize;
            value(&sys.sig, w, copy, env, a) == value(&sys.sig, w, copy, env, b)
        }
        Formula::Not(g) => !holds(sys, w, copy, env, g.get()),
        Formula::And(fs) => {
            'each: for g in fs.as_slice() {
                if !holds(sys, w, copy, env, g) {
                    return false;
                }
            }
            true
        }
        Formula::Or(fs) => {
            'some: for g in fs.as_slice() {
                if holds(sys, w, copy, env, g) {
                    return true;
                }
            }
            false
        }
        Formula::All(s, g) => {
            let size = *w.sizes.at(*s as usize);
            'every: for x in 0..size {
                env.push(x);
                let kept = holds(sys, w, copy, env, g.get());
                env.pop();
                if !kept {
                    return false;
                }
            }
            true
        }
        Formula::Ex(s, g) => {
            let size = *w.sizes.at(*s as usize);
            'one: for x in 0..size {
                env.push(x);
                let found = holds(sys, w, copy, env, g.get());
                env.pop();
                if found {
                    return true;
                }
            }
            false
        }
    }
}
