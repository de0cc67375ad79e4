//! Forms that grow.
use fo_core::{Boxed, Formula, Seq, Sig, Symbol, System, Term};
use std::alloc::{AllocError, Global};

fn symbol(alloc: Global, relation: bool, args: &[u32]) -> Result<Symbol, AllocError> {
    Ok(Symbol {
        relation,
        mutable: false,
        args: Seq::from_vec(args.to_vec(alloc)?),
        result: 0,
    })
}

/// The relation 0 at a variable.
fn held(alloc: Global, x: u32) -> Result<Formula, AllocError> {
    let mut args = Seq::new(alloc);
    args.push(Term::Var(x))?;
    Ok(Formula::Rel(0, 0, args))
}

fn not(alloc: Global, f: Formula) -> Result<Formula, AllocError> {
    Ok(Formula::Not(Boxed::new(alloc, f)?))
}

fn all(alloc: Global, f: Formula) -> Result<Formula, AllocError> {
    Ok(Formula::All(0, Boxed::new(alloc, f)?))
}

/// Where the relation holds of one element it holds of all.
fn spreads(alloc: Global) -> Result<Formula, AllocError> {
    let mut parts = Seq::new(alloc);
    parts.push(not(alloc, held(alloc, 0)?)?)?;
    parts.push(held(alloc, 1)?)?;
    all(alloc, all(alloc, Formula::Or(parts))?)
}

/// One sort with a relation of one argument and so many constants, and as axioms so many claims that
/// the relation holds of all elements or of none.
pub fn system(alloc: Global, constants: usize, claims: usize) -> Result<System, AllocError> {
    let mut symbols = Seq::new(alloc);
    symbols.push(symbol(alloc, true, &[0])?)?;
    for _ in 0..constants {
        symbols.push(symbol(alloc, false, &[])?)?;
    }
    let mut axioms = Seq::new(alloc);
    for _ in 0..claims {
        axioms.push(spreads(alloc)?)?;
    }
    Ok(System {
        sig: Sig { sorts: 1, symbols },
        axioms,
        inits: Seq::new(alloc),
        steps: Seq::new(alloc),
        safeties: Seq::new(alloc),
        invariants: Seq::new(alloc),
    })
}
