ghost use Rattle.std.specs.Prelude.{◌≡◌, ◌↔◌, ℕ, IsTrue, IfOk, OnOk, []};
ghost use Rattle.std.specs.List.{All, AllZip};
ghost use Rattle.fo_core.specs.Sorted.{IsSymbol, IsTerm, IsFormula, AreClosed};

use crate::formula::Formula;
use crate::signature::Sig;
use crate::term::Term;
use std::alloc::{AllocError, Global};

/// Whether this is a relation or a function, as asked, that may be read in the copy.
fn is_symbol(sig: &Sig, copies: u32, relation: bool, symbol: u32, copy: u32) -> bool
    ensures { IsTrue result ↔ IsSymbol sig.now copies relation symbol copy }
{
    if symbol as usize >= sig.symbols.len() {
        return false;
    }
    let found = sig.symbols.at(symbol as usize);
    let readable = if found.mutable { copies } else { 1 };
    found.relation == relation && copy < readable
}

/// The only sort that the term may have.
fn only_sort(sig: &Sig, scope: &[u32], t: &Term) -> Option<u32>
    ensures { (copies s : ℕ) → IsTerm sig.now copies t.now scope.now s → result ≡ Some s }
{
    match t {
        Term::Var(i) => scope.get(*i as usize).copied(),
        Term::App(f, _, _) => {
            if (*f as usize) < sig.symbols.len() {
                Some(sig.symbols.at(*f as usize).result)
            } else {
                None
            }
        }
    }
}

/// Whether the term has the sort, under variables of these sorts.
#[cycle(term)]
fn is_term(sig: &Sig, copies: u32, scope: &[u32], t: &Term, sort: u32) -> bool
    ensures { IsTrue result ↔ IsTerm sig.now copies t.now scope.now sort }
{
    match t {
        Term::Var(i) => scope.get(*i as usize).copied() == Some(sort),
        Term::App(f, d, args) => {
            if !is_symbol(sig, copies, false, *f, *d) {
                return false;
            }
            let symbol = sig.symbols.at(*f as usize);
            symbol.result == sort
                && are_terms(sig, copies, scope, args.as_slice(), symbol.args.as_slice())
        }
    }
}

/// Whether the terms have these sorts, one each, under variables of these sorts.
#[cycle(term)]
fn are_terms(sig: &Sig, copies: u32, scope: &[u32], terms: &[Term], sorts: &[u32]) -> bool
    ensures { IsTrue result ↔ AllZip (λ t s. IsTerm sig.now copies t scope.now s) terms.now sorts.now }
{
    if terms.len() != sorts.len() {
        return false;
    }
    'each: for (i, t) in terms.iter().enumerate() {
        if !is_term(sig, copies, scope, t, sorts[i]) {
            return false;
        }
    }
    true
}

/// Whether both terms have one sort.
fn have_one_sort(sig: &Sig, copies: u32, scope: &[u32], a: &Term, b: &Term) -> bool
    ensures { IsTrue result ↔ ((s : ℕ) × IsTerm sig.now copies a.now scope.now s × IsTerm sig.now copies b.now scope.now s) }
{
    match only_sort(sig, scope, a) {
        None => false,
        Some(sort) => {
            is_term(sig, copies, scope, a, sort) && is_term(sig, copies, scope, b, sort)
        }
    }
}

/// Whether the formula is well-sorted under variables of the sorts in `scope`, which ends as it
/// began.
pub fn is_formula(
    sig: &Sig,
    copies: u32,
    scope: &mut Vec<u32>,
    f: &Formula,
) -> Result<bool, AllocError>
    ensures sorted { IfOk result (λ b. IsTrue b ↔ IsFormula sig.now copies f.now scope.old.items) }
    ensures same { OnOk result (scope.new.items ≡ scope.old.items) }
{
    match f {
        Formula::True | Formula::False => Ok(true),
        Formula::Rel(r, d, args) => {
            if !is_symbol(sig, copies, true, *r, *d) {
                return Ok(false);
            }
            let sorts = sig.symbols.at(*r as usize).args.as_slice();
            Ok(are_terms(sig, copies, scope.as_slice(), args.as_slice(), sorts))
        }
        Formula::Eq(a, b) => Ok(have_one_sort(sig, copies, scope.as_slice(), a, b)),
        Formula::Not(g) => Ok(is_formula(sig, copies, scope, g.get())?),
        Formula::And(fs) => {
            'conjuncts: for g in fs.as_slice() {
                if !is_formula(sig, copies, scope, g)? {
                    return Ok(false);
                }
            }
            Ok(true)
        }
        Formula::Or(fs) => {
            'disjuncts: for g in fs.as_slice() {
                if !is_formula(sig, copies, scope, g)? {
                    return Ok(false);
                }
            }
            Ok(true)
        }
        Formula::All(s, g) => {
            if *s >= sig.sorts {
                return Ok(false);
            }
            scope.push(*s)?;
            let inside = is_formula(sig, copies, scope, g.get())?;
            scope.pop();
            Ok(inside)
        }
        Formula::Ex(s, g) => {
            if *s >= sig.sorts {
                return Ok(false);
            }
            scope.push(*s)?;
            let inside = is_formula(sig, copies, scope, g.get())?;
            scope.pop();
            Ok(inside)
        }
    }
}

/// Whether the formulas are closed and well-sorted, and speak of copies below `copies` alone.
pub fn are_formulas(
    alloc: Global,
    sig: &Sig,
    copies: u32,
    fs: &[Formula],
) -> Result<bool, AllocError>
    ensures { IfOk result (λ b. IsTrue b ↔ All (λ f. IsFormula sig.now copies f []) fs.now) }
{
    let mut scope = Vec::new(alloc);
    'each: for f in fs {
        if !is_formula(sig, copies, &mut scope, f)? {
            return Ok(false);
        }
    }
    Ok(true)
}

/// Whether the formulas are closed and well-sorted, and speak of copy 0 alone.
pub fn are_closed(alloc: Global, sig: &Sig, fs: &[Formula]) -> Result<bool, AllocError>
    ensures { IfOk result (λ b. IsTrue b ↔ AreClosed sig.now fs.now) }
{
    are_formulas(alloc, sig, 1, fs)
}
