ghost use Rattle.std.specs.Prelude.{◌≡◌, ◌≤◌, ℕ, Bool, List, map, IfOk};
ghost use Rattle.fo_core.specs.Tables.{symbol_at};
ghost use Rattle.fo_core.specs.Sorted.{IsSymbol};
ghost use Rattle.fo_terms.specs.Universe.{IsOf, AreOf};
ghost use Rattle.fo_ground.specs.Instances.{place_of};
ghost use Rattle.fo_ground.specs.Layout.{slot as slot_of, same_var, IsLaidOut, HasPlace, HavePlaces};

use crate::layout::Layout;
use fo_core::Term;
use fo_terms::Universe;
use std::alloc::{AllocError, Global};

/// Where what belongs to a symbol in a copy for these arguments lies: a relation's variable, or the
/// place of a function's ground term. The copy and the arguments' offsets are the digits of one
/// number.
pub fn slot(lay: &Layout, u: &Universe, symbol: u32, copy: u32, places: &[u32]) -> u32
    requires ready { IsLaidOut u.now lay.now }
    requires symbol { (relation : Bool) × IsSymbol lay.now.sig lay.now.copies relation symbol copy }
    requires sorted { AreOf u.now.terms places.now (symbol_at lay.now.sig symbol).args }
    ensures { result ≡ slot_of u.now lay.now symbol copy places.now }
{
    let sorts = lay.sig.symbols.at(symbol as usize).args.as_slice();
    let mut tuple = copy;
    'each: for (i, place) in places.iter().enumerate() {
        let sort = sorts[i] as usize;
        tuple = tuple * *lay.sizes.at(sort) + (*place - *u.firsts.at(sort));
    }
    *lay.starts.at(symbol as usize) + tuple
}

/// The place of the ground term that a term becomes, where the variables stand for the ground terms
/// at these places.
#[cycle(place)]
pub fn place(
    alloc: Global,
    lay: &Layout,
    u: &Universe,
    env: &[u32],
    t: &Term,
) -> Result<u32, AllocError>
    requires ready { IsLaidOut u.now lay.now }
    requires named { HasPlace u.now lay.now env.now t.now }
    ensures { IfOk result (λ p. p ≡ place_of u.now.terms (slot_of u.now lay.now) t.now env.now) }
{
    match t {
        Term::Var(i) => Ok(env[*i as usize]),
        Term::App(f, d, args) => {
            let places = places(alloc, lay, u, env, args.as_slice())?;
            Ok(slot(lay, u, *f, *d, places.as_slice()))
        }
    }
}

/// The places of the ground instances of several terms.
#[cycle(place)]
pub fn places(
    alloc: Global,
    lay: &Layout,
    u: &Universe,
    env: &[u32],
    ts: &[Term],
) -> Result<Vec<u32>, AllocError>
    requires ready { IsLaidOut u.now lay.now }
    requires named { (rs : List ℕ) × HavePlaces u.now lay.now env.now ts.now rs }
    ensures { IfOk result (λ ps. ps.items ≡ map (λ t. place_of u.now.terms (slot_of u.now lay.now) t env.now) ts.now) }
{
    let mut places = Vec::with_capacity(alloc, ts.len())?;
    'each: for t in ts {
        places.push(place(alloc, lay, u, env, t)?)?;
    }
    Ok(places)
}

/// The variable of an equation between the earlier and the later of two terms of a sort.
fn ordered(lay: &Layout, u: &Universe, low: u32, high: u32) -> u32
    requires ready { IsLaidOut u.now lay.now }
    requires sorted { (s : ℕ) × IsOf u.now.terms s low × IsOf u.now.terms s high }
    requires order { low ≤ high }
    ensures { result ≡ same_var u.now lay.now low high }
{
    *lay.same.at(low as usize) + (high - low)
}

/// The variable of an equation between two terms of a sort.
pub fn same(lay: &Layout, u: &Universe, p: u32, q: u32) -> u32
    requires ready { IsLaidOut u.now lay.now }
    requires sorted { (s : ℕ) × IsOf u.now.terms s p × IsOf u.now.terms s q }
    ensures { result ≡ same_var u.now lay.now p q }
{
    if p <= q {
        return ordered(lay, u, p, q);
    }
    ordered(lay, u, q, p)
}
