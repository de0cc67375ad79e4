ghost use Rattle.std.specs.Prelude.{◌≡◌, ◌<◌, length, map, IfOk};
ghost use Rattle.fo_core.specs.declared.term.Term.TheVariants as T;
ghost use Rattle.fo_core.specs.declared.formula.Formula.TheVariants as F;
ghost use Rattle.up_diagram.specs.Cubes.{IsCube, IsKnown};
ghost use Rattle.up_diagram.specs.Claims.{signed as signed_of, flat_formula as flat_formula_of, copy_for as copy_for_of, claim as claim_of, clause as clause_of};

use crate::cube::{Cube, Flat};
use fo_core::{Boxed, Formula, Seq, Sig, Term, all_over, some_over};
use std::alloc::{AllocError, Global};

/// The variables as terms.
fn terms(alloc: Global, variables: &[u32]) -> Result<Seq<Term>, AllocError>
    ensures { IfOk result (λ ts. ts ≡ map T.Var variables.now) }
{
    let mut list = Seq::new(alloc);
    'each: for v in variables {
        list.push(Term::Var(*v))?;
    }
    Ok(list)
}

/// The copy with which the symbol is written in a sentence about this copy.
fn copy_for(sig: &Sig, copy: u32, symbol: u32) -> u32
    requires { symbol < length sig.now.symbols }
    ensures { result ≡ copy_for_of sig.now copy symbol }
{
    if sig.symbols.at(symbol as usize).mutable {
        copy
    } else {
        0
    }
}

/// The formula, or its negation.
fn signed(alloc: Global, sign: bool, f: Formula) -> Result<Formula, AllocError>
    ensures { IfOk result (λ g. g ≡ signed_of sign f) }
{
    if sign {
        return Ok(f);
    }
    Ok(Formula::Not(Boxed::new(alloc, f)?))
}

/// The literal, said of this copy.
fn flat_formula(alloc: Global, sig: &Sig, copy: u32, lit: &Flat) -> Result<Formula, AllocError>
    requires { IsKnown sig.now lit.now }
    ensures { IfOk result (λ f. f ≡ flat_formula_of sig.now copy lit.now) }
{
    match lit {
        Flat::Differ(i, j) => signed(alloc, false, Formula::Eq(Term::Var(*i), Term::Var(*j))),
        Flat::Fact(sign, r, variables) => {
            let args = terms(alloc, variables.as_slice())?;
            signed(
                alloc,
                *sign,
                Formula::Rel(*r, copy_for(sig, copy, *r), args),
            )
        }
        Flat::Value(f, variables, v) => {
            let args = terms(alloc, variables.as_slice())?;
            let applied = Term::App(*f, copy_for(sig, copy, *f), args);
            Ok(Formula::Eq(applied, Term::Var(*v)))
        }
    }
}

/// The sentence that a copy meets the cube: that some elements for its variables make all its literals
/// true. Mutable symbols speak of this copy.
///
/// The cube has to be well-sorted for the signature. The one error is out of memory.
pub fn claim(alloc: Global, sig: &Sig, cube: &Cube, copy: u32) -> Result<Formula, AllocError>
    requires { IsCube sig.now cube.now }
    ensures { IfOk result (λ f. f ≡ claim_of sig.now cube.now copy) }
{
    let mut parts = Seq::new(alloc);
    'each: for lit in cube.lits.as_slice() {
        parts.push(flat_formula(alloc, sig, copy, lit)?)?;
    }
    some_over(alloc, cube.sorts.as_slice(), Formula::And(parts))
}

/// The sentence that a copy doesn't meet the cube, as a universal one: for all elements for its
/// variables some literal is false. Mutable symbols speak of this copy.
///
/// The cube has to be well-sorted for the signature. The one error is out of memory.
pub fn clause(alloc: Global, sig: &Sig, cube: &Cube, copy: u32) -> Result<Formula, AllocError>
    requires { IsCube sig.now cube.now }
    ensures { IfOk result (λ f. f ≡ clause_of sig.now cube.now copy) }
{
    let mut parts = Seq::new(alloc);
    'each: for lit in cube.lits.as_slice() {
        let said = flat_formula(alloc, sig, copy, lit)?;
        parts.push(Formula::Not(Boxed::new(alloc, said)?))?;
    }
    all_over(alloc, cube.sorts.as_slice(), Formula::Or(parts))
}
