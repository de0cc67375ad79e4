ghost use Rattle.std.specs.Prelude.{◌≡◌, map, slice_index};
ghost use Rattle.fo_core.specs.Tables.{IsReadable, place as place_of};
ghost use Rattle.fo_core.specs.Truth.{value as value_of};
ghost use Rattle.fo_eval.specs.Asked.{Names, AllName};

use crate::env::Env;
use fo_core::{Sig, Term, World};

/// The element that a term names.
#[cycle(term)]
pub(crate) fn value(sig: &Sig, w: &World, copy: usize, env: &Env, t: &Term) -> u32
    requires readable { IsReadable sig.now w.now }
    requires names { Names sig.now w.now copy env.now.bound t.now }
    ensures { result ≡ value_of sig.now w.now copy t.now env.now.bound }
{
    match t {
        Term::Var(i) => env.get(*i as usize),
        Term::App(f, d, args) => {
            let symbol = *f as usize;
            let table = w.table(sig, copy + *d as usize, symbol);
            let sorts = sig.symbols.at(symbol).args.as_slice();
            let _cells = table.values.len();
            let at = place(sig, w, copy, env, sorts, args.as_slice());
            *table.values.at(at)
        }
    }
}

/// The place of the elements that the terms name among all tuples of these sorts.
#[cycle(term)]
pub(crate) fn place(
    sig: &Sig,
    w: &World,
    copy: usize,
    env: &Env,
    sorts: &[u32],
    args: &[Term],
) -> usize
    requires readable { IsReadable sig.now w.now }
    requires names { AllName sig.now w.now copy env.now.bound args.now sorts.now }
    ensures { result ≡ place_of (map (slice_index w.now.sizes) sorts.now) (map (λ t. value_of sig.now w.now copy t env.now.bound) args.now) }
{
    let mut place = 0;
    for (i, arg) in args.iter().enumerate() {
        let size = *w.sizes.at(sorts[i] as usize) as usize;
        place = place * size + value(sig, w, copy, env, arg) as usize;
    }
    place
}
