ghost use Rattle.std.specs.Prelude.{◌≡◌, ◌↔◌, ◌+◌, ◌<◌, ◌^◌, ℕ, List, Bool, true, length, map, IfOk};
ghost use Rattle.std.specs.List.{All};
ghost use Rattle.fo_core.specs.declared.world.World.{World};
ghost use Rattle.fo_core.specs.Tables.{symbol_at};
ghost use Rattle.fo_core.specs.Sorted.{IsFormula};
ghost use Rattle.fo_core.specs.SortGraph.{FormulaEdge};
ghost use Rattle.fo_core.specs.Truth.{Truth};
ghost use Rattle.fo_core.specs.Shift.{moved as moved_of, shift, shift_term, CanShift, CanShiftTerm};

use crate::boxed::Boxed;
use crate::formula::Formula;
use crate::seq::Seq;
use crate::signature::Sig;
use crate::term::Term;
use std::alloc::{AllocError, Global};

/// The copy of which a symbol speaks after the move.
fn moved(sig: &Sig, symbol: u32, copy: u32, by: u32) -> u32
    requires within { symbol < length sig.now.symbols }
    requires room { (symbol_at sig.now symbol).mutable ≡ true → copy + by < 2 ^ 32 }
    ensures { result ≡ moved_of sig.now by symbol copy }
{
    if sig.symbols.at(symbol as usize).mutable {
        copy + by
    } else {
        copy
    }
}

/// The term with its symbols moved.
fn shifted_term(alloc: Global, sig: &Sig, t: &Term, by: u32) -> Result<Term, AllocError>
    requires { CanShiftTerm sig.now by t.now }
    ensures { IfOk result (λ r. r ≡ shift_term sig.now by t.now) }
{
    match t {
        Term::Var(i) => Ok(Term::Var(*i)),
        Term::App(f, d, args) => {
            let mut moved_args = Seq::new(alloc);
            'each: for arg in args.as_slice() {
                moved_args.push(shifted_term(alloc, sig, arg, by)?)?;
            }
            Ok(Term::App(*f, moved(sig, *f, *d, by), moved_args))
        }
    }
}

/// The terms with their symbols moved.
fn shifted_terms(alloc: Global, sig: &Sig, terms: &[Term], by: u32) -> Result<Seq<Term>, AllocError>
    requires { All (CanShiftTerm sig.now by) terms.now }
    ensures { IfOk result (λ ts. ts ≡ map (shift_term sig.now by) terms.now) }
{
    let mut moved_terms = Seq::new(alloc);
    'each: for t in terms {
        moved_terms.push(shifted_term(alloc, sig, t, by)?)?;
    }
    Ok(moved_terms)
}

/// The formula with its symbols moved.
fn shifted_formula(alloc: Global, sig: &Sig, f: &Formula, by: u32) -> Result<Formula, AllocError>
    requires { CanShift sig.now by f.now }
    ensures { IfOk result (λ g. g ≡ shift sig.now by f.now) }
{
    match f {
        Formula::True => Ok(Formula::True),
        Formula::False => Ok(Formula::False),
        Formula::Rel(r, d, args) => {
            let terms = shifted_terms(alloc, sig, args.as_slice(), by)?;
            Ok(Formula::Rel(*r, moved(sig, *r, *d, by), terms))
        }
        Formula::Eq(a, b) => {
            let left = shifted_term(alloc, sig, a, by)?;
            let right = shifted_term(alloc, sig, b, by)?;
            Ok(Formula::Eq(left, right))
        }
        Formula::Not(g) => {
            let body = shifted_formula(alloc, sig, g.get(), by)?;
            Ok(Formula::Not(Boxed::new(alloc, body)?))
        }
        Formula::And(fs) => {
            let mut parts = Seq::new(alloc);
            'conjuncts: for g in fs.as_slice() {
                parts.push(shifted_formula(alloc, sig, g, by)?)?;
            }
            Ok(Formula::And(parts))
        }
        Formula::Or(fs) => {
            let mut parts = Seq::new(alloc);
            'disjuncts: for g in fs.as_slice() {
                parts.push(shifted_formula(alloc, sig, g, by)?)?;
            }
            Ok(Formula::Or(parts))
        }
        Formula::All(s, g) => {
            let body = shifted_formula(alloc, sig, g.get(), by)?;
            Ok(Formula::All(*s, Boxed::new(alloc, body)?))
        }
        Formula::Ex(s, g) => {
            let body = shifted_formula(alloc, sig, g.get(), by)?;
            Ok(Formula::Ex(*s, Boxed::new(alloc, body)?))
        }
    }
}

/// The formula with the copy of each mutable symbol moved on by so many copies. It is true where
/// the formula is true that many copies on, and has the same edges in the sort graph.
///
/// The formula has to be well-sorted under some variables, and each of the moved copies has to
/// be below 2^32.
pub fn shifted(alloc: Global, sig: &Sig, f: &Formula, by: u32) -> Result<Formula, AllocError>
    requires { CanShift sig.now by f.now }
    ensures formula { IfOk result (λ g. g ≡ shift sig.now by f.now) }
    ensures sorted { IfOk result (λ g. (n : ℕ) (ss : List ℕ) → IsFormula sig.now n f.now ss → IsFormula sig.now (n + by) g ss) }
    ensures truth { IfOk result (λ g. (w : World) (c : ℕ) (vs : List ℕ) → Truth sig.now w c g vs ↔ Truth sig.now w (c + by) f.now vs) }
    ensures edges { IfOk result (λ g. (a b : ℕ) (sign : Bool) → FormulaEdge a b g sign ↔ FormulaEdge a b f.now sign) }
{
    shifted_formula(alloc, sig, f, by)
}
